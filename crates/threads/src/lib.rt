// Ops 01 and 02: threads start and end.
#![tactic(auto)]

ghost use Rattle.std.specs.Prelude.{◌≡◌, ◌<◌};
ghost use Rattle.layout.specs.Answer.{status_of, answer_of, Verdict};
ghost use Rattle.model.specs.State.{thread_at, with_kind, with_thread};
ghost use Rattle.model.specs.Threads.{startable, start_change, end_rest, end_change};
ghost use Rattle.model.specs.Calls as calls;
ghost use Rattle.tables.specs.Decode.{Shaped, state_of, Holds};
ghost use Rattle.tables.specs.Contract.{Changes, Answers, Ready};

use layout::answer::Refusal;
use rights::Kind;
use tables::{Buffers, Bytes, ThreadWords, Words};

// Another kind of a thread, whose stack stays as it is. By its number, which is 0 where a thread ends.
fn put_kind(words: &mut Words, bytes: &Bytes, t: usize, kind: u64)
    requires { Shaped words.old bytes.now × (t < 16) }
    ensures { Holds words.new bytes.now (with_thread (state_of words.old bytes.now) t (with_kind (thread_at (state_of words.old bytes.now) t) kind)) }
{
    let len = held_threads::thread_at(words, t).len;
    held_threads::put_thread(words, t, ThreadWords { kind, len });
}

// ---- op 01, start thread

// Refusals 2, 3 and 4 of a thread that is to start; the kind, where there are none.
pub fn check_start(words: &Words, bytes: &Bytes, t: u64, kind: u64) -> Result<Kind, Refusal>
    ensures { Verdict result kind (startable (state_of words.now bytes.now) t kind 0) }
{
    if 16 <= t {
        return Err(Refusal::Thread);
    }
    let own = held_threads::thread_at(words, t as usize).kind;
    if own != 0 {
        return Err(Refusal::Started);
    }
    Kind::new(kind).ok_or(Refusal::Kind)
}

// After refusal 1.
pub fn start_on(words: &mut Words, bytes: &Bytes, t: u64, kind: u64) -> Result<u64, Refusal>
    requires { Ready words.old bytes.now }
    ensures { Changes (answer_of result) (start_change (state_of words.old bytes.now) t kind)
        words.old bytes.now words.new bytes.now }
{
    check_start(words, bytes, t, kind)?;
    put_kind(words, bytes, t as usize, kind);
    Ok(0)
}

pub fn start(
    words: &mut Words,
    bytes: &Bytes,
    buffers: &Buffers<'_>,
    t: u64,
    kind: u64,
) -> Result<u64, Refusal>
    requires { Ready words.old bytes.now }
    ensures { Answers (answer_of result) (calls.start t kind)
        words.old bytes.now buffers.now words.new bytes.now buffers.now }
{
    callers::check_lengths(words, bytes, buffers)?; // refusal 1 of op 01
    start_on(words, bytes, t, kind)
}

// ---- op 02, end thread

fn check_end(words: &Words, bytes: &Bytes, t: u64) -> Result<(), Refusal>
    ensures { status_of result ≡ end_rest (state_of words.now bytes.now) t }
{
    callers::check_thread(words, bytes, t)?;
    if 0 < held_threads::thread_at(words, t as usize).len {
        return Err(Refusal::Entries);
    }
    Ok(())
}

// After refusal 1.
pub fn end_on(words: &mut Words, bytes: &Bytes, t: u64) -> Result<u64, Refusal>
    requires { Ready words.old bytes.now }
    ensures { Changes (answer_of result) (end_change (state_of words.old bytes.now) t)
        words.old bytes.now words.new bytes.now }
{
    check_end(words, bytes, t)?;
    put_kind(words, bytes, t as usize, 0);
    let value = 0; // none is named
    Ok(value)
}

pub fn end(words: &mut Words, bytes: &Bytes, buffers: &Buffers<'_>, t: u64) -> Result<u64, Refusal>
    requires { Ready words.old bytes.now }
    ensures { Answers (answer_of result) (calls.end t)
        words.old bytes.now buffers.now words.new bytes.now buffers.now }
{
    callers::check_lengths(words, bytes, buffers)?; // refusal 1 of op 02
    end_on(words, bytes, t)
}
