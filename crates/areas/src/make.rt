// Op 03: a scope is made.
ghost use Rattle.std.specs.Prelude.{◌≡◌, ◌<◌};
ghost use Rattle.layout.specs.Answer.{answer_of, Verdict};
ghost use Rattle.model.specs.Blocks.{room_for};
ghost use Rattle.model.specs.Scopes.{make_rest, make_state, make_change};
ghost use Rattle.model.specs.Calls as calls;
ghost use Rattle.model.proofs.Accepted.{MakeOk};
ghost use Rattle.tables.specs.Contract.{Changes, Answers, Ready};
ghost use Rattle.areas.specs.Make.{room_rest};
ghost use Rattle.tables.specs.Decode.{state_of, Holds};

use layout::answer::Refusal;
use tables::{Buffers, Bytes, Words};

// Refusal 8, or the first block of the room for r words: of the lowest run of free blocks that holds them. A size that
// all blocks together do not hold is told first, so that no sum wraps.
fn find_room(words: &Words, bytes: &Bytes, r: u64) -> Result<usize, Refusal>
    requires { Ready words.now bytes.now }
    ensures { let s = state_of words.now bytes.now in Verdict result (room_for s r) (room_rest s r) }
{
    let blocks = held_lengths::lengths_at(words).scratch / 16;
    if r == 0 {
        return Err(Refusal::Size);
    }
    if 16 * blocks < r {
        return Err(Refusal::Size);
    }
    held_blocks::lowest_free(words, ((r + 15) / 16) as usize, blocks as usize).ok_or(Refusal::Size)
}

fn check_make(words: &Words, bytes: &Bytes, t: u64, q: u64, r: u64) -> Result<usize, Refusal>
    requires { Ready words.now bytes.now }
    ensures { let s = state_of words.now bytes.now in Verdict result (room_for s r) (make_rest s t q r) }
{
    callers::check_thread(words, bytes, t)?;
    if !(2..64).contains(&q) {
        return Err(Refusal::Area);
    }
    if held_areas::is_made(held_areas::area_at(words, q as usize), q) {
        return Err(Refusal::Made);
    }
    find_room(words, bytes, r)
}

// Scope q gets the r words from its first block on, and its blocks, which were free, are used.
fn apply_make(words: &mut Words, bytes: &Bytes, t: u64, q: usize, r: u64, first: usize)
    requires { Ready words.old bytes.now × MakeOk (state_of words.old bytes.now) t q r × (first ≡ room_for (state_of words.old bytes.now) r) }
    ensures { Holds words.new bytes.now (make_state (state_of words.old bytes.now) q r) }
{
    let x = held_areas::area_at(words, q);
    held_areas::put_area(words, q, held_areas::placed(x, 16 * first as u64, r));
    held_blocks::flip_blocks(words, first, ((r + 15) / 16) as usize);
}

// After refusal 1.
pub fn make_on(words: &mut Words, bytes: &Bytes, t: u64, q: u64, r: u64) -> Result<u64, Refusal>
    requires { Ready words.old bytes.now }
    ensures { Changes (answer_of result) (make_change (state_of words.old bytes.now) t q r)
        words.old bytes.now words.new bytes.now }
{
    let first = check_make(words, bytes, t, q, r)?;
    apply_make(words, bytes, t, q as usize, r, first);
    Ok(0)
}

pub fn make(
    words: &mut Words,
    bytes: &Bytes,
    buffers: &Buffers<'_>,
    t: u64,
    q: u64,
    r: u64,
) -> Result<u64, Refusal>
    requires { Ready words.old bytes.now }
    ensures { Answers (answer_of result) (calls.make t q r)
        words.old bytes.now buffers.now words.new bytes.now buffers.now }
{
    callers::check_lengths(words, bytes, buffers)?;
    make_on(words, bytes, t, q, r)
}
