// Op 05: an area is left.
#![tactic(auto)]

ghost use Rattle.std.specs.Prelude.{◌≡◌, pred, ◌<◌, ◌≤◌};
ghost use Rattle.layout.specs.Answer.{status_of, answer_of};
ghost use Rattle.layout.specs.Choice.{pick};
ghost use Rattle.model.specs.State.{is_scope, area_at, thread_at, with_thread};
ghost use Rattle.model.specs.Scopes.{exit_rest, left, left_area, popped, exit_state, exit_value, exit_change};
ghost use Rattle.model.specs.Calls as calls;
ghost use Rattle.tables.specs.Decode.{area_record, put_area, Shaped, state_of, Holds};
ghost use Rattle.tables.specs.Contract.{Changes, Answers, Ready};

use layout::answer::Refusal;
use model::Area;
use tables::{Buffers, Bytes, ThreadWords, Words};

// 2 and 11. A thread that is not started has no entry, so its kind is looked at only where the stack is empty.
fn check_exit(words: &Words, bytes: &Bytes, t: u64) -> Result<(), Refusal>
    requires { Ready words.now bytes.now }
    ensures { status_of result ≡ exit_rest (state_of words.now bytes.now) t }
{
    if 16 <= t {
        return Err(Refusal::Thread); // above 15
    }
    if 0 < held_threads::thread_at(words, t as usize).len {
        return Ok(());
    }
    callers::check_thread(words, bytes, t)?;
    Err(Refusal::Entries)
}

// A scope after its last exit: it has no parent, no used words and no display.
fn closed_area(x: Area) -> Area
    requires { x.count ≡ 1 }
    ensures { result ≡ left x }
{
    Area {
        used: 0,
        count: 0,
        parent: 0,
        depth: 0,
        ..x
    }
}

// A scope that stays open, with one entry less.
fn open_area(x: Area) -> Area
    requires { 1 < x.count }
    ensures { result ≡ left x }
{
    Area {
        count: x.count - 1,
        ..x
    }
}

// Scope q is left; the count that is left. The two ways are written apart, so that each writes only what it changes.
fn leave_scope(words: &mut Words, q: usize) -> u64
    requires { (q < 64) × (0 < (area_record words.old q).count) }
    ensures value { result ≡ (left (area_record words.old q)).count }
    ensures words { words.new ≡ put_area words.old q (left (area_record words.old q)) }
{
    let x = held_areas::area_at(words, q);
    if x.count < 2 {
        held_areas::put_area(words, q, closed_area(x));
        return 0;
    }
    let y = open_area(x);
    held_areas::put_area(words, q, y);
    y.count
}

// Area q is left; the count that is left of a scope, else 0.
fn leave_area(words: &mut Words, bytes: &Bytes, q: usize) -> u64
    requires { Shaped words.old bytes.now × (q < 64)
        × (2 ≤ q → 0 < (area_at (state_of words.old bytes.now) q).count) }
    ensures value { result ≡ pick (is_scope q) (pred (area_at (state_of words.old bytes.now) q).count) 0 }
    ensures state { Holds words.new bytes.now (left_area (state_of words.old bytes.now) q) }
{
    if 2 <= q {
        return leave_scope(words, q);
    }
    0
}

// The top entry is taken off.
fn pop(words: &mut Words, bytes: &Bytes, t: usize)
    requires { Shaped words.old bytes.now × (t < 16)
        × (0 < (thread_at (state_of words.old bytes.now) t).len) }
    ensures { Holds words.new bytes.now (with_thread (state_of words.old bytes.now) t
        (popped (thread_at (state_of words.old bytes.now) t))) }
{
    let h = held_threads::thread_at(words, t);
    let len = h.len - 1;
    held_threads::put_thread(words, t, ThreadWords { kind: h.kind, len });
}

// The effect of an accepted exit. The stack is written before the area: the length is then the one that was read for
// the checks.
fn apply_exit(words: &mut Words, bytes: &Bytes, t: usize) -> u64
    requires { Ready words.old bytes.now × (t < 16)
        × (0 < (thread_at (state_of words.old bytes.now) t).len) }
    ensures value { result ≡ exit_value (state_of words.old bytes.now) t }
    ensures state { Holds words.new bytes.now (exit_state (state_of words.old bytes.now) t) }
{
    let top = callers::top_entry(words, bytes, t).area;
    pop(words, bytes, t);
    leave_area(words, bytes, top as usize)
}

// After refusal 1.
pub fn exit_on(words: &mut Words, bytes: &Bytes, t: u64) -> Result<u64, Refusal>
    requires { Ready words.old bytes.now }
    ensures { Changes (answer_of result) (exit_change (state_of words.old bytes.now) t)
        words.old bytes.now words.new bytes.now }
{
    check_exit(words, bytes, t)?;
    Ok(apply_exit(words, bytes, t as usize))
}

pub fn exit(words: &mut Words, bytes: &Bytes, buffers: &Buffers<'_>, t: u64) -> Result<u64, Refusal>
    requires { Ready words.old bytes.now }
    ensures { Answers (answer_of result) (calls.exit t)
        words.old bytes.now buffers.now words.new bytes.now buffers.now }
{
    callers::check_lengths(words, bytes, buffers)?;
    exit_on(words, bytes, t)
}
