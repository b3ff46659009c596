// The rights table in force, in the tables: a byte for each digit.
#![tactic(auto)]

ghost use Rattle.std.specs.Prelude.{◌≡◌, ◌<◌, length};
ghost use Rattle.rights.specs.Rights.{table_size};
ghost use Rattle.tables.specs.Decode.{right_of, put_rights};

use tables::{Bytes, RIGHTS, RIGHTS_AT};

pub fn right_at(bytes: &Bytes, place: usize) -> u8
    requires { place < table_size }
    ensures { result ≡ right_of bytes.now place }
{
    bytes[RIGHTS_AT + place]
}

pub fn put_rights(bytes: &mut Bytes, table: &[u8])
    requires { length table.now ≡ table_size }
    ensures { bytes.new ≡ put_rights bytes.old table.now }
{
    bytes[RIGHTS_AT..RIGHTS_AT + RIGHTS].copy_from_slice(table);
}
