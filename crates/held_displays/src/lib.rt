// The displays in the tables: a row of the bytes for each area.
#![tactic(auto)]

ghost use Rattle.std.specs.Prelude.{◌≡◌, ◌<◌, ◌≤◌};
ghost use Rattle.layout.specs.Display.{row_holds};
ghost use Rattle.tables.specs.Decode.{area_count, row_bytes, display_row, put_row};

use layout::display::{Depth, Row};
use tables::{Bytes, DISPLAY_ROWS, ROW_BYTES};

// The display of an area, by value.
#[tactic(auto, unfolding(tables::specs::Decode::display_row))]
pub fn row_at(bytes: &Bytes, a: usize) -> Row
    requires { a < area_count }
    ensures { result ≡ display_row bytes.now a }
{
    held_rows::row_at(bytes, DISPLAY_ROWS + a)
}

#[tactic(auto, unfolding(tables::specs::Decode::put_row))]
pub fn put_row(bytes: &mut Bytes, a: usize, row: Row)
    requires { a < area_count }
    ensures { bytes.new ≡ put_row bytes.old a row }
{
    held_rows::put_row(bytes, DISPLAY_ROWS + a, row);
}

// Whether the display of area b holds an area of a depth: one look.
pub fn row_holds(bytes: &Bytes, b: usize, depth: Depth, area: u8) -> bool
    requires { (b < area_count) × (depth.0 ≤ row_bytes) }
    ensures { result ≡ row_holds (display_row bytes.now b) depth.0 area }
{
    let at = (DISPLAY_ROWS + b) * ROW_BYTES;
    layout::display::holds(&bytes[at..at + ROW_BYTES], depth, area)
}
