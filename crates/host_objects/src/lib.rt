// The core for C and Rust, second part: ops 06 to 0a: an object is allocated, its slots are stored and
// loaded, its data words written and read; and its data as a part of its store. What a call is lent and
// promises is as in `host_state`.
#![tactic(auto)]

ghost use Rattle.std.specs.Prelude.{◌≡◌};
ghost use Rattle.model.specs.Calls as calls;
ghost use Rattle.tables.specs.Contract.{Answers, Ready, memory_of};
ghost use Rattle.views.specs.PlacedView.{view_place_of, PlaceAnswers};
ghost use Rattle.tables.specs.Decode.{state_of};

use layout::answer::Answer;
use tables::{Buffers, Bytes, Words};
use views::ViewPlace;

// Op 06: an object with so many slots and data words in the current area; the value is its handle.
pub fn scopes_allocate(
    words: &mut Words,
    bytes: &Bytes,
    permanent: &mut [u64],
    scratch: &mut [u64],
    map: &mut [u64],
    written: &mut [u64],
    t: u64,
    slots: u64,
    data_words: u64,
) -> Answer
    requires { Ready words.old bytes.now }
    ensures { Answers result (calls.allocate t slots data_words)
        words.old bytes.now (memory_of permanent.old scratch.old map.old written.old)
        words.new bytes.now (memory_of permanent.new scratch.new map.new written.new) }
{
    allocation::allocate(
        words, bytes, permanent, scratch, map, written, t, slots, data_words,
    )
    .into()
}

// Op 07: a reference to a target, or null, is stored in a slot of an object.
pub fn scopes_store(
    words: &Words,
    bytes: &Bytes,
    permanent: &mut [u64],
    scratch: &mut [u64],
    map: &[u64],
    written: &[u64],
    t: u64,
    object: u64,
    slot: u64,
    target: u64,
) -> Answer
    requires { Ready words.now bytes.now }
    ensures { Answers result (calls.store t object slot target)
        words.now bytes.now (memory_of permanent.old scratch.old map.now written.now)
        words.now bytes.now (memory_of permanent.new scratch.new map.now written.now) }
{
    references::store(
        words, bytes, permanent, scratch, map, written, t, object, slot, target,
    )
    .into()
}

// Op 08: the value is the reference in a slot of an object.
pub fn scopes_load(
    words: &Words,
    bytes: &Bytes,
    permanent: &[u64],
    scratch: &[u64],
    map: &[u64],
    written: &[u64],
    t: u64,
    object: u64,
    slot: u64,
) -> Answer
    requires { Ready words.now bytes.now }
    ensures { Answers result (calls.load t object slot)
        words.now bytes.now (memory_of permanent.now scratch.now map.now written.now)
        words.now bytes.now (memory_of permanent.now scratch.now map.now written.now) }
{
    let buffers = Buffers::of(permanent, scratch, map, written);
    references::load(words, bytes, &buffers, t, object, slot).into()
}

// Op 09: a data word of an object is written.
pub fn scopes_write(
    words: &Words,
    bytes: &Bytes,
    permanent: &mut [u64],
    scratch: &mut [u64],
    map: &[u64],
    written: &mut [u64],
    t: u64,
    object: u64,
    index: u64,
    word: u64,
) -> Answer
    requires { Ready words.now bytes.now }
    ensures { Answers result (calls.write t object index word)
        words.now bytes.now (memory_of permanent.old scratch.old map.now written.old)
        words.now bytes.now (memory_of permanent.new scratch.new map.now written.new) }
{
    data::write(
        words, bytes, permanent, scratch, map, written, t, object, index, word,
    )
    .into()
}

// Op 0a: the value is a data word of an object.
pub fn scopes_read(
    words: &Words,
    bytes: &Bytes,
    permanent: &[u64],
    scratch: &[u64],
    map: &[u64],
    written: &[u64],
    t: u64,
    object: u64,
    index: u64,
) -> Answer
    requires { Ready words.now bytes.now }
    ensures { Answers result (calls.read t object index)
        words.now bytes.now (memory_of permanent.now scratch.now map.now written.now)
        words.now bytes.now (memory_of permanent.now scratch.now map.now written.now) }
{
    let buffers = Buffers::of(permanent, scratch, map, written);
    data::read(words, bytes, &buffers, t, object, index).into()
}

// The status of showing an object's data.
pub fn scopes_view_status(
    words: &Words,
    bytes: &Bytes,
    permanent: &[u64],
    scratch: &[u64],
    map: &[u64],
    written: &[u64],
    t: u64,
    object: u64,
) -> Answer
    requires { Ready words.now bytes.now }
    ensures { Answers result (calls.view_status t object)
        words.now bytes.now (memory_of permanent.now scratch.now map.now written.now)
        words.now bytes.now (memory_of permanent.now scratch.now map.now written.now) }
{
    let buffers = Buffers::of(permanent, scratch, map, written);
    views::view_status(words, bytes, &buffers, t, object).into()
}

// Where its data lie: a store, the first word and how many; what `views::view` shows.
pub fn scopes_view_place(
    words: &Words,
    bytes: &Bytes,
    permanent: &[u64],
    scratch: &[u64],
    map: &[u64],
    written: &[u64],
    t: u64,
    object: u64,
) -> ViewPlace
    requires { Ready words.now bytes.now }
    ensures place { result ≡ view_place_of (state_of words.now bytes.now) (memory_of permanent.now scratch.now map.now written.now) t object }
    ensures answers { PlaceAnswers result words.now bytes.now (memory_of permanent.now scratch.now map.now written.now) t object }
{
    let buffers = Buffers::of(permanent, scratch, map, written);
    views::view_place(words, bytes, &buffers, t, object)
}
