// Op 04: an area is entered.
#![tactic(auto)]

ghost use Rattle.std.specs.Prelude.{◌≡◌, ◌<◌, ◌≤◌};
ghost use Rattle.layout.specs.Answer.{status_of, answer_of};
ghost use Rattle.model.specs.Scopes.{enter_change};
ghost use Rattle.model.specs.Calls as calls;
ghost use Rattle.model.proofs.Accepted.{Called};
ghost use Rattle.tables.specs.Contract.{Changes, Answers, Ready};
ghost use Rattle.entry.specs.Enter.{there_rest, scope_rest};
ghost use Rattle.tables.specs.Decode.{state_of};

use layout::answer::Refusal;
use model::Area;
use rights::Right;
use tables::{Buffers, Bytes, Words};

// The last generation of a scope, 2^44 - 1.
const LAST_GENERATION: u64 = 17592186044415;

// ---- the refusals

// 6, 5 and 9, of a started thread and an area below 64. The right is read after 6 is tested: read before, both
// tests would be kept as flags.
fn check_there(words: &Words, bytes: &Bytes, t: usize, q: u64) -> Result<(), Refusal>
    requires { Ready words.now bytes.now × Called (state_of words.now bytes.now) t × (q < 64) }
    ensures { status_of result ≡ there_rest (state_of words.now bytes.now) t q 0 }
{
    let x = held_areas::area_at(words, q as usize);
    if !held_areas::is_made(x, q) {
        return Err(Refusal::Area); // not made
    }
    if !callers::has_right(words, bytes, t, Right::Enter, q) {
        return Err(Refusal::Right);
    }
    if 32 <= held_threads::thread_at(words, t).len {
        return Err(Refusal::StackFull);
    }
    Ok(())
}

// 10 and 17 of a scope, over its record and the innermost scope.
fn check_scope(x: Area, inner: u64) -> Result<(), Refusal>
    ensures { status_of result ≡ scope_rest x inner }
{
    if 0 < x.count {
        if x.parent != inner {
            return Err(Refusal::Parent);
        }
        return Ok(());
    }
    if LAST_GENERATION <= x.generation {
        return Err(Refusal::GenerationsOut);
    }
    Ok(())
}

// ---- the call

// A started thread enters the heap or immortal memory, which only adds an entry.
fn enter_standing(words: &mut Words, bytes: &mut Bytes, t: usize, q: u64) -> Result<u64, Refusal>
    requires { Ready words.old bytes.old × Called (state_of words.old bytes.old) t × (q < 2) }
    ensures { Changes (answer_of result) (enter_change (state_of words.old bytes.old) t q)
        words.old bytes.old words.new bytes.new }
{
    check_there(words, bytes, t, q)?;
    let inner = callers::top_entry(words, bytes, t).inner;
    let generation = held_areas::area_at(words, q as usize).generation;
    opening::push(words, bytes, t, q as u8, inner);
    Ok(generation)
}

// A started thread enters a scope. The innermost scope is looked up once, for 10 and for the effect, and not before
// the other checks: a register fewer is saved.
fn enter_scope(words: &mut Words, bytes: &mut Bytes, t: usize, q: u64) -> Result<u64, Refusal>
    requires { Ready words.old bytes.old × Called (state_of words.old bytes.old) t × (2 ≤ q) × (q < 64) }
    ensures { Changes (answer_of result) (enter_change (state_of words.old bytes.old) t q)
        words.old bytes.old words.new bytes.new }
{
    check_there(words, bytes, t, q)?;
    let inner = callers::top_entry(words, bytes, t).inner;
    check_scope(held_areas::area_at(words, q as usize), inner as u64)?;
    Ok(opening::apply_enter(words, bytes, t, q as usize, inner))
}

// Op 04, after refusal 1: area q; the value is its generation. Scopes have a function of their own, so that
// whether q is one is tested once.
pub fn enter_on(words: &mut Words, bytes: &mut Bytes, t: u64, q: u64) -> Result<u64, Refusal>
    requires { Ready words.old bytes.old }
    ensures { Changes (answer_of result) (enter_change (state_of words.old bytes.old) t q)
        words.old bytes.old words.new bytes.new }
{
    callers::check_thread(words, bytes, t)?;
    if 64 <= q {
        return Err(Refusal::Area); // above 63
    }
    if 2 <= q {
        return enter_scope(words, bytes, t as usize, q);
    }
    enter_standing(words, bytes, t as usize, q)
}

pub fn enter(
    words: &mut Words,
    bytes: &mut Bytes,
    buffers: &Buffers<'_>,
    t: u64,
    q: u64,
) -> Result<u64, Refusal>
    requires { Ready words.old bytes.old }
    ensures { Answers (answer_of result) (calls.enter t q)
        words.old bytes.old buffers.now words.new bytes.new buffers.now }
{
    callers::check_lengths(words, bytes, buffers)?;
    enter_on(words, bytes, t, q)
}
