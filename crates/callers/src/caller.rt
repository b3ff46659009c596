// Refusals 1 and 2, with which every call begins.
ghost use Rattle.std.specs.Prelude.{◌≡◌};
ghost use Rattle.layout.specs.Answer.{status_of};
ghost use Rattle.model.specs.Checks.{fits, fitted, called, admit};
ghost use Rattle.tables.specs.Decode.{state_of};

use layout::answer::Refusal;
use tables::{Buffers, Bytes, Words};

// Whether the buffers have the lengths of set-up. Each is read for its own test: read at once, two of the
// tests would be made one, and the calls would save a register more.
pub fn lengths_fit(words: &Words, bytes: &Bytes, buffers: &Buffers<'_>) -> bool
    ensures { result ≡ fits (state_of words.now bytes.now) buffers.now }
{
    if buffers.permanent.len() as u64 != held_lengths::lengths_at(words).permanent {
        return false;
    }
    if buffers.scratch.len() as u64 != held_lengths::lengths_at(words).scratch {
        return false;
    }
    if buffers.map.len() as u64 != held_lengths::lengths_at(words).map {
        return false;
    }
    buffers.written.len() as u64 == held_lengths::lengths_at(words).map
}

// Refusal 1. Each op begins by it and goes on with a function of its own: over a closure that would be as long.
pub fn check_lengths(words: &Words, bytes: &Bytes, buffers: &Buffers<'_>) -> Result<(), Refusal>
    ensures { status_of result ≡ fitted (state_of words.now bytes.now) buffers.now 0 }
{
    let fit = lengths_fit(words, bytes, buffers);
    if !fit {
        return Err(Refusal::Lengths);
    }
    Ok(())
}

// Refusal 2, for every call but op 01, whose thread is not started yet.
pub fn check_thread(words: &Words, bytes: &Bytes, t: u64) -> Result<(), Refusal>
    ensures { status_of result ≡ called (state_of words.now bytes.now) t 0 }
{
    if 16 <= t {
        return Err(Refusal::Thread); // above 15
    }
    if held_threads::thread_at(words, t as usize).kind == 0 {
        return Err(Refusal::Thread); // not started
    }
    Ok(()) // started
}

// Both.
pub fn check_caller(
    words: &Words,
    bytes: &Bytes,
    buffers: &Buffers<'_>,
    t: u64,
) -> Result<(), Refusal>
    ensures { status_of result ≡ admit (state_of words.now bytes.now) buffers.now t 0 }
{
    check_lengths(words, bytes, buffers)?;
    check_thread(words, bytes, t)
}
