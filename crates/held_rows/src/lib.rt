// The rows of the tables, by number: 32 bytes each, which are the entries of the stacks, the innermost scopes
// beside them and the displays.
#![tactic(auto)]

ghost use Rattle.std.specs.Prelude.{◌≡◌, ◌<◌};
ghost use Rattle.tables.specs.Decode.{row_count, byte_row, put_byte_row};

use tables::{Bytes, ROW_BYTES};

pub type Row = [u8; ROW_BYTES];

// A row, by value.
pub fn row_at(bytes: &Bytes, n: usize) -> Row
    requires { n < row_count }
    ensures { result ≡ byte_row bytes.now n }
{
    let at = n * ROW_BYTES;
    let mut row = [0; ROW_BYTES];
    row.copy_from_slice(&bytes[at..at + ROW_BYTES]);
    row
}

pub fn put_row(bytes: &mut Bytes, n: usize, row: Row)
    requires { n < row_count }
    ensures { bytes.new ≡ put_byte_row bytes.old n row }
{
    let at = n * ROW_BYTES;
    bytes[at..at + ROW_BYTES].copy_from_slice(&row);
}
