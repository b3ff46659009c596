// A scope's display: the row of its ancestors, outermost first, itself last.
ghost use Rattle.std.specs.Prelude.{◌≡◌, ◌<◌, ◌≤◌, length};
ghost use Rattle.layout.specs.Choice.{pick};
ghost use Rattle.layout.specs.Display.{extended_row, row_holds};

// A display has room for as many scopes as a stack has entries.
pub type Row = [u8; 32];

// How many scopes a display has: 0 for heap, immortal and every scope that is not open. Source 004
// counts from -1.
#[derive(Clone, Copy)]
pub struct Depth(pub usize);

// The one entry more, or what the parent's row has there.
fn entry(is_last: bool, area: u8, kept: u8) -> u8
    ensures { result ≡ pick is_last area kept }
{
    if is_last { area } else { kept }
}

// The parent's row, copied, with one entry more. Every entry is chosen by its place, in a function of its own, so that the
// row stays in registers: a row in memory with one byte just stored would stall when it is read back. The mask and the
// count of places tell the compiler that bytes are compared: over places from `0..32` or `enumerate` it compares words,
// in three times as many instructions.
pub fn extended(row: Row, depth: Depth, area: u8) -> Row
    requires { depth.0 < 32 }
    ensures { result ≡ extended_row row depth.0 area }
{
    let last = (depth.0 & 255) as u8;
    let mut next = row;
    let mut place = 0u8;
    for kept in next.iter_mut() {
        *kept = entry(place == last, area, *kept);
        place += 1;
    }
    next
}

// Whether a row holds an area of a depth: one look, at that depth (source 004, Algorithm 9).
#[tactic(auto, unfolding(crate::specs::Display::row_holds))]
pub fn holds(row: &[u8], depth: Depth, area: u8) -> bool
    requires { depth.0 ≤ length row.now }
    ensures { result ≡ row_holds row.now depth.0 area }
{
    let at = depth.0;
    if at == 0 {
        return false;
    }
    row[at - 1] == area
}
