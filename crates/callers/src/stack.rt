// What is seen of a thread's stack by one look: its top.
ghost use Rattle.std.specs.Prelude.{◌≡◌, ◌<◌};
ghost use Rattle.model.specs.State.{stack_at};
ghost use Rattle.callers.specs.Stack.{top_entry_of};
ghost use Rattle.tables.specs.Decode.{state_of};
ghost use Rattle.tables.specs.Contract.{Ready};

use layout::stack::Place;
use tables::{Bytes, Entry, Words};

// The current area, which is the top entry, or the heap where the stack is empty; and the innermost scope,
// or 0 where there is none (source 004, Algorithm 6).
pub fn top_entry(words: &Words, bytes: &Bytes, t: usize) -> Entry
    requires { Ready words.now bytes.now × (t < 16) }
    ensures { result ≡ top_entry_of (stack_at (state_of words.now bytes.now) t) }
{
    let len = held_threads::thread_at(words, t).len as usize;
    if len == 0 {
        return Entry { area: 0, inner: 0 };
    }
    held_threads::entry_at(bytes, t, Place(len - 1))
}
