// Op 0c: a scope is removed.
#![tactic(auto)]

ghost use Rattle.std.specs.Prelude.{◌≡◌};
ghost use Rattle.layout.specs.Answer.{status_of, answer_of};
ghost use Rattle.model.specs.Removal.{remove_rest, remove_state, remove_change};
ghost use Rattle.model.specs.Calls as calls;
ghost use Rattle.model.proofs.Accepted.{RemoveOk};
ghost use Rattle.tables.specs.Contract.{Changes, Answers, Ready};
ghost use Rattle.tables.specs.Decode.{state_of, Holds};

use layout::answer::Refusal;
use tables::{Buffers, Bytes, Words};

fn check_remove(words: &Words, bytes: &Bytes, t: u64, q: u64) -> Result<(), Refusal>
    requires { Ready words.now bytes.now }
    ensures { status_of result ≡ remove_rest (state_of words.now bytes.now) t q }
{
    callers::check_thread(words, bytes, t)?;
    if !(2..64).contains(&q) {
        return Err(Refusal::Area);
    }
    let x = held_areas::area_at(words, q as usize);
    let made = held_areas::is_made(x, q);
    let open = 0 < x.count;
    if !made {
        return Err(Refusal::Area);
    }
    if open {
        return Err(Refusal::Open);
    }
    Ok(())
}

// Scope q has no words any more, and its blocks are free; its generation stays.
fn apply_remove(words: &mut Words, bytes: &Bytes, t: u64, q: usize)
    requires { Ready words.old bytes.now × RemoveOk (state_of words.old bytes.now) t q }
    ensures { Holds words.new bytes.now (remove_state (state_of words.old bytes.now) q) }
{
    let x = held_areas::area_at(words, q);
    held_areas::put_area(words, q, held_areas::placed(x, 0, 0));
    held_blocks::flip_blocks(
        words,
        (x.start / 16) as usize,
        ((x.size + 15) / 16) as usize,
    );
}

// After refusal 1.
pub fn remove_on(words: &mut Words, bytes: &Bytes, t: u64, q: u64) -> Result<u64, Refusal>
    requires { Ready words.old bytes.now }
    ensures { Changes (answer_of result) (remove_change (state_of words.old bytes.now) t q)
        words.old bytes.now words.new bytes.now }
{
    check_remove(words, bytes, t, q)?;
    apply_remove(words, bytes, t, q as usize);
    Ok(0)
}

pub fn remove(
    words: &mut Words,
    bytes: &Bytes,
    buffers: &Buffers<'_>,
    t: u64,
    q: u64,
) -> Result<u64, Refusal>
    requires { Ready words.old bytes.now }
    ensures { Answers (answer_of result) (calls.remove t q)
        words.old bytes.now buffers.now words.new bytes.now buffers.now }
{
    callers::check_lengths(words, bytes, buffers)?;
    remove_on(words, bytes, t, q)
}
