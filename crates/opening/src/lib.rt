// What an accepted entry does: the stack gets an entry, and a scope opens or counts one entry more.
#![tactic(auto)]

ghost use Rattle.std.specs.Prelude.{◌≡◌, ◌<◌, ◌≤◌};
ghost use Rattle.layout.specs.Display.{extended_row};
ghost use Rattle.model.specs.State.{area_at, thread_at, stack_at, innermost};
ghost use Rattle.model.specs.Scopes.{last_generation, opened, enter_state, enter_value};
ghost use Rattle.tables.specs.Decode.{display_row, put_row, Shaped, state_of, Holds};
ghost use Rattle.opening.specs.Entered.{Enterable, pushed_state};

use layout::display::Depth;
use layout::stack::Place;
use model::Area;
use tables::{Bytes, Entry, ThreadWords, Words};

// ---- the area

// A scope that opens one deeper than its parent.
fn opened_area(x: Area, parent: u64, depth: Depth) -> Area
    requires { (x.generation < last_generation) × (depth.0 < 32) }
    ensures { result ≡ opened x parent depth.0 }
{
    Area {
        used: 0,
        generation: x.generation + 1,
        count: 1,
        parent,
        depth: depth.0 as u64 + 1,
        ..x
    }
}

// The display of scope q, which opens below p: that of p, with q last.
fn put_display(bytes: &mut Bytes, q: usize, p: usize, depth: Depth)
    requires { (q < 64) × (p < 64) × (depth.0 < 32) }
    ensures { bytes.new ≡ put_row bytes.old q (extended_row (display_row bytes.old p) depth.0 q) }
{
    let row = held_displays::row_at(bytes, p);
    held_displays::put_row(bytes, q, layout::display::extended(row, depth, q as u8));
}

// ---- the stack

// Area q goes on top of a stack, and beside it the innermost scope as of that entry. The length is written
// before the entry: the compiler then sees that the kind is as it was read.
pub fn push(words: &mut Words, bytes: &mut Bytes, t: usize, q: u8, inner: u8)
    requires { Shaped words.old bytes.old × (t < 16)
        × ((thread_at (state_of words.old bytes.old) t).len < 32) }
    ensures { Holds words.new bytes.new (pushed_state (state_of words.old bytes.old) t q inner) }
{
    let h = held_threads::thread_at(words, t);
    let len = h.len + 1;
    held_threads::put_thread(words, t, ThreadWords { kind: h.kind, len });
    let top = Place(h.len as usize);
    held_threads::put_entry(bytes, t, top, Entry { area: q, inner });
}

// ---- a scope is entered: what an accepted call does

// Scope q is open and gets one entry more; its generation. The stack is written first, here and below: its length
// is then the one that was read for the checks.
fn reenter(words: &mut Words, bytes: &mut Bytes, t: usize, q: usize) -> u64
    requires { Shaped words.old bytes.old × Enterable (state_of words.old bytes.old) t q
        × (2 ≤ q) × (0 < (area_at (state_of words.old bytes.old) q).count) }
    ensures value { result ≡ enter_value (state_of words.old bytes.old) q }
    ensures state { Holds words.new bytes.new (enter_state (state_of words.old bytes.old) t q) }
{
    push(words, bytes, t, q as u8, q as u8);
    let x = held_areas::area_at(words, q);
    held_areas::put_area(words, q, held_areas::reentered(x));
    x.generation
}

// Scope q opens below p, the innermost scope; its generation.
fn open(words: &mut Words, bytes: &mut Bytes, t: usize, q: usize, p: usize) -> u64
    requires scope { Shaped words.old bytes.old × Enterable (state_of words.old bytes.old) t q
        × (2 ≤ q) × ((area_at (state_of words.old bytes.old) q).count ≤ 0) }
    requires parent { p ≡ innermost (stack_at (state_of words.old bytes.old) t) }
    ensures value { result ≡ enter_value (state_of words.old bytes.old) q }
    ensures state { Holds words.new bytes.new (enter_state (state_of words.old bytes.old) t q) }
{
    push(words, bytes, t, q as u8, q as u8);
    let depth = Depth(held_areas::area_at(words, p).depth as usize);
    let y = opened_area(held_areas::area_at(words, q), p as u64, depth);
    held_areas::put_area(words, q, y);
    put_display(bytes, q, p, depth);
    y.generation
}

// Either of them.
pub fn apply_enter(words: &mut Words, bytes: &mut Bytes, t: usize, q: usize, inner: u8) -> u64
    requires scope { Shaped words.old bytes.old × Enterable (state_of words.old bytes.old) t q × (2 ≤ q) }
    requires parent { inner ≡ innermost (stack_at (state_of words.old bytes.old) t) }
    ensures value { result ≡ enter_value (state_of words.old bytes.old) q }
    ensures state { Holds words.new bytes.new (enter_state (state_of words.old bytes.old) t q) }
{
    if 0 < held_areas::area_at(words, q).count {
        return reenter(words, bytes, t, q);
    }
    open(words, bytes, t, q, inner as usize)
}
