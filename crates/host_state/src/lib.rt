// The core for C and Rust, first part: set-up, and ops 01 to 05, 0b and 0c: threads start and end, also as helpers
// with their starters' stacks, scopes are made, entered, left and removed. One function for each call, thin over the
// crate that has it; `host_c` exports it.
//
// The host keeps the two tables of the state, `words` and `bytes`, and the four buffers, and lends
// them to each call. Beside that a call asks one thing, `Ready`: that the tables are those that
// set-up gave and that calls alone have changed since. Every call leaves it for the next. What the
// buffers hold is free. What a call answers and leaves is the one contract of any call, `Answers`.
#![tactic(auto)]

ghost use Rattle.model.specs.Calls as calls;
ghost use Rattle.tables.specs.Contract.{Answers, Ready, memory_of};
ghost use Rattle.setup.specs.First.{Begun};

use layout::answer::{Answer, status_of};
use setup::SetUp;
use tables::{Buffers, Bytes, Words};

// Set-up: the first h words of the permanent store are the heap's, the other i immortal memory's.
pub fn scopes_set_up(
    permanent: &[u64],
    scratch: &[u64],
    map: &[u64],
    written: &[u64],
    h: u64,
    i: u64,
) -> SetUp
    ensures { Begun result.status result.words result.bytes h i (memory_of permanent.now scratch.now map.now written.now) }
{
    let buffers = Buffers::of(permanent, scratch, map, written);
    setup::set_up(&buffers, h, i)
}

// Set-up in place: the host's own tables, whatever they held. The answer is the status.
pub fn scopes_set_up_in_place(
    words: &mut Words,
    bytes: &mut Bytes,
    permanent: &[u64],
    scratch: &[u64],
    map: &[u64],
    written: &[u64],
    h: u64,
    i: u64,
) -> u64
    ensures { Begun result words.new bytes.new h i (memory_of permanent.now scratch.now map.now written.now) }
{
    let buffers = Buffers::of(permanent, scratch, map, written);
    status_of(setup::set_up_in_place(words, bytes, &buffers, h, i))
}

// Op 01: thread t starts, of a kind.
pub fn scopes_start(
    words: &mut Words,
    bytes: &Bytes,
    permanent: &[u64],
    scratch: &[u64],
    map: &[u64],
    written: &[u64],
    t: u64,
    kind: u64,
) -> Answer
    requires { Ready words.old bytes.now }
    ensures { Answers result (calls.start t kind)
        words.old bytes.now (memory_of permanent.now scratch.now map.now written.now)
        words.new bytes.now (memory_of permanent.now scratch.now map.now written.now) }
{
    let buffers = Buffers::of(permanent, scratch, map, written);
    threads::start(words, bytes, &buffers, t, kind).into()
}

// Op 0b: thread t starts a helper of a kind, which begins with the stack of thread t.
pub fn scopes_start_helper(
    words: &mut Words,
    bytes: &mut Bytes,
    permanent: &[u64],
    scratch: &[u64],
    map: &[u64],
    written: &[u64],
    t: u64,
    kind: u64,
    helper: u64,
) -> Answer
    requires { Ready words.old bytes.old }
    ensures { Answers result (calls.start_helper t kind helper)
        words.old bytes.old (memory_of permanent.now scratch.now map.now written.now)
        words.new bytes.new (memory_of permanent.now scratch.now map.now written.now) }
{
    let buffers = Buffers::of(permanent, scratch, map, written);
    helpers::start_helper(words, bytes, &buffers, t, kind, helper).into()
}

// Op 02: thread t ends.
pub fn scopes_end(
    words: &mut Words,
    bytes: &Bytes,
    permanent: &[u64],
    scratch: &[u64],
    map: &[u64],
    written: &[u64],
    t: u64,
) -> Answer
    requires { Ready words.old bytes.now }
    ensures { Answers result (calls.end t)
        words.old bytes.now (memory_of permanent.now scratch.now map.now written.now)
        words.new bytes.now (memory_of permanent.now scratch.now map.now written.now) }
{
    let buffers = Buffers::of(permanent, scratch, map, written);
    threads::end(words, bytes, &buffers, t).into()
}

// Op 03: a scope is made, of a size in words.
pub fn scopes_make(
    words: &mut Words,
    bytes: &Bytes,
    permanent: &[u64],
    scratch: &[u64],
    map: &[u64],
    written: &[u64],
    t: u64,
    area: u64,
    size: u64,
) -> Answer
    requires { Ready words.old bytes.now }
    ensures { Answers result (calls.make t area size)
        words.old bytes.now (memory_of permanent.now scratch.now map.now written.now)
        words.new bytes.now (memory_of permanent.now scratch.now map.now written.now) }
{
    let buffers = Buffers::of(permanent, scratch, map, written);
    areas::make::make(words, bytes, &buffers, t, area, size).into()
}

// Op 0c: a scope is removed.
pub fn scopes_remove(
    words: &mut Words,
    bytes: &Bytes,
    permanent: &[u64],
    scratch: &[u64],
    map: &[u64],
    written: &[u64],
    t: u64,
    q: u64,
) -> Answer
    requires { Ready words.old bytes.now }
    ensures { Answers result (calls.remove t q)
        words.old bytes.now (memory_of permanent.now scratch.now map.now written.now)
        words.new bytes.now (memory_of permanent.now scratch.now map.now written.now) }
{
    let buffers = Buffers::of(permanent, scratch, map, written);
    removal::remove(words, bytes, &buffers, t, q).into()
}

// Op 04: an area is entered; the value is its generation.
pub fn scopes_enter(
    words: &mut Words,
    bytes: &mut Bytes,
    permanent: &[u64],
    scratch: &[u64],
    map: &[u64],
    written: &[u64],
    t: u64,
    area: u64,
) -> Answer
    requires { Ready words.old bytes.old }
    ensures { Answers result (calls.enter t area)
        words.old bytes.old (memory_of permanent.now scratch.now map.now written.now)
        words.new bytes.new (memory_of permanent.now scratch.now map.now written.now) }
{
    let buffers = Buffers::of(permanent, scratch, map, written);
    entry::enter(words, bytes, &buffers, t, area).into()
}

// Op 05: the current area is left; the value is the count that is left of a scope, else 0.
pub fn scopes_exit(
    words: &mut Words,
    bytes: &Bytes,
    permanent: &[u64],
    scratch: &[u64],
    map: &[u64],
    written: &[u64],
    t: u64,
) -> Answer
    requires { Ready words.old bytes.now }
    ensures { Answers result (calls.exit t)
        words.old bytes.now (memory_of permanent.now scratch.now map.now written.now)
        words.new bytes.now (memory_of permanent.now scratch.now map.now written.now) }
{
    let buffers = Buffers::of(permanent, scratch, map, written);
    exit::exit(words, bytes, &buffers, t).into()
}
