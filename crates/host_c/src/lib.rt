// The core for C and Rust as one static library: an export for each function of `host_state`, `host_objects`, `host_tables`,
// `host_stack` and `host_version`, which calls it and promises the same. What a call is lent and promises is as said there.
#![tactic(auto)]

ghost use Rattle.std.specs.Prelude.{◌≡◌};
ghost use Rattle.layout.specs.Stack.{empty_stack, pop_answer, popped_stack, push_answer, pushed_stack};
ghost use Rattle.model.specs.Calls as calls;
ghost use Rattle.tables.specs.Contract.{Answers, AnswersAlone, Ready, memory_of};
ghost use Rattle.tables.specs.Decode.{state_of};
ghost use Rattle.setup.specs.First.{Begun};
ghost use Rattle.views.specs.PlacedView.{PlaceAnswers, view_place_of};
ghost use Rattle.host_version.specs.Version.{version};

use layout::answer::Answer;
use layout::stack::ScopeStack;
use setup::SetUp;
use tables::{Bytes, Words};
use views::ViewPlace;

// Set-up: the first h words of the permanent store are the heap's, the other i immortal memory's.
#[unsafe(no_mangle)]
pub extern "C" fn scopes_set_up(
    permanent: &[u64],
    scratch: &[u64],
    map: &[u64],
    written: &[u64],
    h: u64,
    i: u64,
) -> SetUp
    ensures { Begun result.status result.words result.bytes h i (memory_of permanent.now scratch.now map.now written.now) }
{
    host_state::scopes_set_up(permanent, scratch, map, written, h, i)
}

// Set-up in place: the host's own tables, whatever they held. The answer is the status.
#[unsafe(no_mangle)]
pub extern "C" fn scopes_set_up_in_place(
    words: &mut Words,
    bytes: &mut Bytes,
    permanent: &[u64],
    scratch: &[u64],
    map: &[u64],
    written: &[u64],
    h: u64,
    i: u64,
) -> u64
    ensures { Begun result words.new bytes.new h i (memory_of permanent.now scratch.now map.now written.now) }
{
    host_state::scopes_set_up_in_place(words, bytes, permanent, scratch, map, written, h, i)
}

// Op 01: thread t starts, of a kind.
#[unsafe(no_mangle)]
pub extern "C" fn scopes_start(
    words: &mut Words,
    bytes: &Bytes,
    permanent: &[u64],
    scratch: &[u64],
    map: &[u64],
    written: &[u64],
    t: u64,
    kind: u64,
) -> Answer
    requires { Ready words.old bytes.now }
    ensures { Answers result (calls.start t kind)
        words.old bytes.now (memory_of permanent.now scratch.now map.now written.now)
        words.new bytes.now (memory_of permanent.now scratch.now map.now written.now) }
{
    host_state::scopes_start(words, bytes, permanent, scratch, map, written, t, kind)
}

// Op 0b: thread t starts a helper of a kind, which begins with the stack of thread t.
#[unsafe(no_mangle)]
pub extern "C" fn scopes_start_helper(
    words: &mut Words,
    bytes: &mut Bytes,
    permanent: &[u64],
    scratch: &[u64],
    map: &[u64],
    written: &[u64],
    t: u64,
    kind: u64,
    helper: u64,
) -> Answer
    requires { Ready words.old bytes.old }
    ensures { Answers result (calls.start_helper t kind helper)
        words.old bytes.old (memory_of permanent.now scratch.now map.now written.now)
        words.new bytes.new (memory_of permanent.now scratch.now map.now written.now) }
{
    host_state::scopes_start_helper(
        words, bytes, permanent, scratch, map, written, t, kind, helper,
    )
}

// Op 02: thread t ends.
#[unsafe(no_mangle)]
pub extern "C" fn scopes_end(
    words: &mut Words,
    bytes: &Bytes,
    permanent: &[u64],
    scratch: &[u64],
    map: &[u64],
    written: &[u64],
    t: u64,
) -> Answer
    requires { Ready words.old bytes.now }
    ensures { Answers result (calls.end t)
        words.old bytes.now (memory_of permanent.now scratch.now map.now written.now)
        words.new bytes.now (memory_of permanent.now scratch.now map.now written.now) }
{
    host_state::scopes_end(words, bytes, permanent, scratch, map, written, t)
}

// Op 03: a scope is made, of a size in words.
#[unsafe(no_mangle)]
pub extern "C" fn scopes_make(
    words: &mut Words,
    bytes: &Bytes,
    permanent: &[u64],
    scratch: &[u64],
    map: &[u64],
    written: &[u64],
    t: u64,
    area: u64,
    size: u64,
) -> Answer
    requires { Ready words.old bytes.now }
    ensures { Answers result (calls.make t area size)
        words.old bytes.now (memory_of permanent.now scratch.now map.now written.now)
        words.new bytes.now (memory_of permanent.now scratch.now map.now written.now) }
{
    host_state::scopes_make(
        words, bytes, permanent, scratch, map, written, t, area, size,
    )
}

// Op 0c: a scope is removed.
#[unsafe(no_mangle)]
pub extern "C" fn scopes_remove(
    words: &mut Words,
    bytes: &Bytes,
    permanent: &[u64],
    scratch: &[u64],
    map: &[u64],
    written: &[u64],
    t: u64,
    q: u64,
) -> Answer
    requires { Ready words.old bytes.now }
    ensures { Answers result (calls.remove t q)
        words.old bytes.now (memory_of permanent.now scratch.now map.now written.now)
        words.new bytes.now (memory_of permanent.now scratch.now map.now written.now) }
{
    host_state::scopes_remove(words, bytes, permanent, scratch, map, written, t, q)
}

// Op 04: an area is entered; the value is its generation.
#[unsafe(no_mangle)]
pub extern "C" fn scopes_enter(
    words: &mut Words,
    bytes: &mut Bytes,
    permanent: &[u64],
    scratch: &[u64],
    map: &[u64],
    written: &[u64],
    t: u64,
    area: u64,
) -> Answer
    requires { Ready words.old bytes.old }
    ensures { Answers result (calls.enter t area)
        words.old bytes.old (memory_of permanent.now scratch.now map.now written.now)
        words.new bytes.new (memory_of permanent.now scratch.now map.now written.now) }
{
    host_state::scopes_enter(words, bytes, permanent, scratch, map, written, t, area)
}

// Op 05: the current area is left; the value is the count that is left of a scope, else 0.
#[unsafe(no_mangle)]
pub extern "C" fn scopes_exit(
    words: &mut Words,
    bytes: &Bytes,
    permanent: &[u64],
    scratch: &[u64],
    map: &[u64],
    written: &[u64],
    t: u64,
) -> Answer
    requires { Ready words.old bytes.now }
    ensures { Answers result (calls.exit t)
        words.old bytes.now (memory_of permanent.now scratch.now map.now written.now)
        words.new bytes.now (memory_of permanent.now scratch.now map.now written.now) }
{
    host_state::scopes_exit(words, bytes, permanent, scratch, map, written, t)
}

// Op 06: an object with so many slots and data words in the current area; the value is its handle.
#[unsafe(no_mangle)]
pub extern "C" fn scopes_allocate(
    words: &mut Words,
    bytes: &Bytes,
    permanent: &mut [u64],
    scratch: &mut [u64],
    map: &mut [u64],
    written: &mut [u64],
    t: u64,
    slots: u64,
    data_words: u64,
) -> Answer
    requires { Ready words.old bytes.now }
    ensures { Answers result (calls.allocate t slots data_words)
        words.old bytes.now (memory_of permanent.old scratch.old map.old written.old)
        words.new bytes.now (memory_of permanent.new scratch.new map.new written.new) }
{
    host_objects::scopes_allocate(
        words, bytes, permanent, scratch, map, written, t, slots, data_words,
    )
}

// Op 07: a reference to a target, or null, is stored in a slot of an object.
#[unsafe(no_mangle)]
pub extern "C" fn scopes_store(
    words: &Words,
    bytes: &Bytes,
    permanent: &mut [u64],
    scratch: &mut [u64],
    map: &[u64],
    written: &[u64],
    t: u64,
    object: u64,
    slot: u64,
    target: u64,
) -> Answer
    requires { Ready words.now bytes.now }
    ensures { Answers result (calls.store t object slot target)
        words.now bytes.now (memory_of permanent.old scratch.old map.now written.now)
        words.now bytes.now (memory_of permanent.new scratch.new map.now written.now) }
{
    host_objects::scopes_store(
        words, bytes, permanent, scratch, map, written, t, object, slot, target,
    )
}

// Op 08: the value is the reference in a slot of an object.
#[unsafe(no_mangle)]
pub extern "C" fn scopes_load(
    words: &Words,
    bytes: &Bytes,
    permanent: &[u64],
    scratch: &[u64],
    map: &[u64],
    written: &[u64],
    t: u64,
    object: u64,
    slot: u64,
) -> Answer
    requires { Ready words.now bytes.now }
    ensures { Answers result (calls.load t object slot)
        words.now bytes.now (memory_of permanent.now scratch.now map.now written.now)
        words.now bytes.now (memory_of permanent.now scratch.now map.now written.now) }
{
    host_objects::scopes_load(
        words, bytes, permanent, scratch, map, written, t, object, slot,
    )
}

// Op 09: a data word of an object is written.
#[unsafe(no_mangle)]
pub extern "C" fn scopes_write(
    words: &Words,
    bytes: &Bytes,
    permanent: &mut [u64],
    scratch: &mut [u64],
    map: &[u64],
    written: &mut [u64],
    t: u64,
    object: u64,
    index: u64,
    word: u64,
) -> Answer
    requires { Ready words.now bytes.now }
    ensures { Answers result (calls.write t object index word)
        words.now bytes.now (memory_of permanent.old scratch.old map.now written.old)
        words.now bytes.now (memory_of permanent.new scratch.new map.now written.new) }
{
    host_objects::scopes_write(
        words, bytes, permanent, scratch, map, written, t, object, index, word,
    )
}

// Op 0a: the value is a data word of an object.
#[unsafe(no_mangle)]
pub extern "C" fn scopes_read(
    words: &Words,
    bytes: &Bytes,
    permanent: &[u64],
    scratch: &[u64],
    map: &[u64],
    written: &[u64],
    t: u64,
    object: u64,
    index: u64,
) -> Answer
    requires { Ready words.now bytes.now }
    ensures { Answers result (calls.read t object index)
        words.now bytes.now (memory_of permanent.now scratch.now map.now written.now)
        words.now bytes.now (memory_of permanent.now scratch.now map.now written.now) }
{
    host_objects::scopes_read(
        words, bytes, permanent, scratch, map, written, t, object, index,
    )
}

// The status of showing an object's data.
#[unsafe(no_mangle)]
pub extern "C" fn scopes_view_status(
    words: &Words,
    bytes: &Bytes,
    permanent: &[u64],
    scratch: &[u64],
    map: &[u64],
    written: &[u64],
    t: u64,
    object: u64,
) -> Answer
    requires { Ready words.now bytes.now }
    ensures { Answers result (calls.view_status t object)
        words.now bytes.now (memory_of permanent.now scratch.now map.now written.now)
        words.now bytes.now (memory_of permanent.now scratch.now map.now written.now) }
{
    host_objects::scopes_view_status(words, bytes, permanent, scratch, map, written, t, object)
}

// Where its data lie: a store, the first word and how many; what `views::view` shows.
#[unsafe(no_mangle)]
pub extern "C" fn scopes_view_place(
    words: &Words,
    bytes: &Bytes,
    permanent: &[u64],
    scratch: &[u64],
    map: &[u64],
    written: &[u64],
    t: u64,
    object: u64,
) -> ViewPlace
    requires { Ready words.now bytes.now }
    ensures place { result ≡ view_place_of (state_of words.now bytes.now) (memory_of permanent.now scratch.now map.now written.now) t object }
    ensures answers { PlaceAnswers result words.now bytes.now (memory_of permanent.now scratch.now map.now written.now) t object }
{
    host_objects::scopes_view_place(words, bytes, permanent, scratch, map, written, t, object)
}

// The rights table in force becomes the 36 digits of a text.
#[unsafe(no_mangle)]
pub extern "C" fn scopes_load_rights(words: &Words, bytes: &mut Bytes, text: &[u8]) -> Answer
    requires { Ready words.now bytes.old }
    ensures { AnswersAlone result (calls.load_rights text.now) words.now bytes.old words.now bytes.new }
{
    host_tables::scopes_load_rights(words, bytes, text)
}

// A stack with no entry.
#[unsafe(no_mangle)]
pub extern "C" fn scopes_stack_empty() -> ScopeStack
    ensures { result ≡ empty_stack }
{
    host_stack::scopes_stack_empty()
}

// Push: 6 for an area above 63, 9 on 32 entries, else 0; refused, the stack stays as it is.
#[unsafe(no_mangle)]
pub extern "C" fn scopes_stack_push(s: &mut ScopeStack, area: u64) -> Answer
    ensures { (result ≡ push_answer s.old area) × (s.new ≡ pushed_stack s.old area) }
{
    host_stack::scopes_stack_push(s, area)
}

// Pop: 11 on no entry, else 0 and the top area.
#[unsafe(no_mangle)]
pub extern "C" fn scopes_stack_pop(s: &mut ScopeStack) -> Answer
    ensures { (result ≡ pop_answer s.old) × (s.new ≡ popped_stack s.old) }
{
    host_stack::scopes_stack_pop(s)
}

// The version as one number: major * 1,000,000 + minor * 1,000 + patch.
#[unsafe(no_mangle)]
pub extern "C" fn scopes_version() -> u64
    ensures { result ≡ version }
{
    host_version::scopes_version()
}
