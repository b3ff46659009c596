// Op 0b: a thread starts a helper, which begins with its starter's stack.
#![tactic(auto)]

ghost use Rattle.std.specs.Prelude.{◌≡◌, ◌<◌};
ghost use Rattle.layout.specs.Answer.{status_of, answer_of};
ghost use Rattle.model.specs.State.{area_at, stack_at};
ghost use Rattle.model.specs.Helpers.{may_enter_all, helper_rest, raised_area, raised, helper_state, helper_change};
ghost use Rattle.model.specs.Calls as calls;
ghost use Rattle.model.proofs.Accepted.{HelperOk};
ghost use Rattle.tables.specs.Decode.{rights_of, Shaped, state_of, Holds};
ghost use Rattle.tables.specs.Contract.{Changes, Answers, Ready};
ghost use Rattle.helpers.specs.Helper.{every_class};

use layout::answer::Refusal;
use layout::stack::Place;
use rights::{Kind, Right};
use tables::{Buffers, Bytes, ThreadWords, Words};

// ---- the refusals

// Whether threads of a kind may enter areas of every class: the heap, immortal memory and a scope.
fn may_enter_every(bytes: &Bytes, kind: Kind) -> bool
    ensures { result ≡ may_enter_all (rights_of bytes.now) kind every_class }
{
    callers::kind_may(bytes, kind, Right::Enter, 0)
        && callers::kind_may(bytes, kind, Right::Enter, 1)
        && callers::kind_may(bytes, kind, Right::Enter, 2)
}

// Whether threads of a kind may enter the area of each entry on the stack of thread t. Where they may enter every
// class, no entry is looked at.
fn may_enter_all(words: &Words, bytes: &Bytes, t: usize, kind: Kind) -> bool
    requires { Ready words.now bytes.now × (t < 16) }
    ensures { result ≡ may_enter_all (state_of words.now bytes.now).rights kind (stack_at (state_of words.now bytes.now) t) }
{
    if may_enter_every(bytes, kind) {
        return true;
    }
    let len = held_threads::thread_at(words, t).len as usize;
    for i in 0..len {
        let area = held_threads::entry_at(bytes, t, Place(i)).area;
        if !callers::kind_may(bytes, kind, Right::Enter, area as u64) {
            return false;
        }
    }
    true
}

fn check_helper(words: &Words, bytes: &Bytes, t: u64, kind: u64, helper: u64) -> Result<(), Refusal>
    requires { Ready words.now bytes.now }
    ensures { status_of result ≡ helper_rest (state_of words.now bytes.now) t kind helper }
{
    callers::check_thread(words, bytes, t)?;
    let kind = threads::check_start(words, bytes, helper, kind)?;
    if !may_enter_all(words, bytes, t as usize, kind) {
        return Err(Refusal::Right);
    }
    Ok(())
}

// ---- the counts

// The count of an area, if it is a scope, rises by 1.
fn raise_count(words: &mut Words, bytes: &Bytes, area: usize)
    requires { Shaped words.old bytes.now × (area < 64) × ((area_at (state_of words.old bytes.now) area).count < 1024) }
    ensures { Holds words.new bytes.now (raised_area (state_of words.old bytes.now) area) }
{
    if area < 2 {
        return;
    }
    let x = held_areas::area_at(words, area);
    held_areas::put_area(words, area, held_areas::reentered(x));
}

// The count of each scope on the stack of thread t rises by 1 for each of its entries.
fn raise_counts(words: &mut Words, bytes: &Bytes, t: usize)
    requires { Ready words.old bytes.now × (t < 16) }
    ensures { Holds words.new bytes.now (raised (state_of words.old bytes.now) (stack_at (state_of words.old bytes.now) t)) }
{
    let len = held_threads::thread_at(words, t).len as usize;
    for i in 0..len { // from the lowest entry on
        let area = held_threads::entry_at(bytes, t, Place(i)).area as usize;
        raise_count(words, bytes, area);
    }
}

// ---- the call

// What an accepted call does: the helper receives the stack of thread t. Its kind is written as its number.
fn apply_helper(words: &mut Words, bytes: &mut Bytes, t: usize, kind: u64, helper: usize)
    requires { Ready words.old bytes.old × HelperOk (state_of words.old bytes.old) t kind helper }
    ensures { Holds words.new bytes.new (helper_state (state_of words.old bytes.old) t kind helper) }
{
    raise_counts(words, bytes, t);
    let len = held_threads::thread_at(words, t).len;
    held_threads::put_thread(words, helper, ThreadWords { kind, len });
    held_threads::copy_stack(bytes, t, helper);
}

// Op 0b, after refusal 1: thread t starts a helper of a kind.
pub fn start_helper_on(
    words: &mut Words,
    bytes: &mut Bytes,
    t: u64,
    kind: u64,
    helper: u64,
) -> Result<u64, Refusal>
    requires { Ready words.old bytes.old }
    ensures { Changes (answer_of result) (helper_change (state_of words.old bytes.old) t kind helper)
        words.old bytes.old words.new bytes.new }
{
    check_helper(words, bytes, t, kind, helper)?;
    apply_helper(words, bytes, t as usize, kind, helper as usize);
    Ok(0)
}

pub fn start_helper(
    words: &mut Words,
    bytes: &mut Bytes,
    buffers: &Buffers<'_>,
    t: u64,
    kind: u64,
    helper: u64,
) -> Result<u64, Refusal>
    requires { Ready words.old bytes.old }
    ensures { Answers (answer_of result) (calls.start_helper t kind helper)
        words.old bytes.old buffers.now words.new bytes.new buffers.now }
{
    callers::check_lengths(words, bytes, buffers)?;
    start_helper_on(words, bytes, t, kind, helper)
}
