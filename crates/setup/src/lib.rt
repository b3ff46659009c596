// Set-up: the first state, written into the host's own tables or returned by value. The buffers are
// lent to read, so that no word of them can be written.
#![tactic(auto)]

ghost use Rattle.std.specs.Prelude.{◌≡◌};
ghost use Rattle.layout.specs.Answer.{status_of};
ghost use Rattle.model.specs.SetUp.{set_up_status, set_up_state, standing};
ghost use Rattle.tables.specs.Decode.{Holds};
ghost use Rattle.setup.specs.First.{first_words, first_bytes, Begun};

use layout::answer::{Refusal, status_of};
use model::{Area, Lengths};
use tables::{BYTES, Buffers, Bytes, WORDS, Words};

// The status, and the two tables that hold the state: a record and no Result, since C is given it.
#[repr(C)]
#[derive(Clone, Copy)]
pub struct SetUp {
    pub status: u64,
    pub words: Words,
    pub bytes: Bytes,
}

// Heap or immortal memory.
fn standing_area(start: u64, size: u64) -> Area
    ensures { result ≡ standing start size }
{
    Area {
        start,
        size,
        used: 0,
        generation: 1,
        count: 0,
        parent: 0,
        depth: 0,
    }
}

// Refused unless h + i is the permanent length, no store is longer than 16,384 words, the start map has a bit
// for each word and no word more, and the written map, of k words, is as long. The sum is compared by a
// difference, so that nothing wraps.
fn check_set_up(h: u64, i: u64, n: Lengths, k: u64) -> Result<(), Refusal>
    ensures { status_of result ≡ set_up_status h i n k }
{
    if n.permanent < h {
        return Err(Refusal::Lengths);
    }
    if n.permanent - h != i {
        return Err(Refusal::Lengths);
    }
    if 16384 < n.permanent {
        return Err(Refusal::Lengths);
    }
    if 16384 < n.scratch {
        return Err(Refusal::Lengths);
    }
    if n.map != (n.permanent + n.scratch + 63) / 64 {
        return Err(Refusal::Lengths);
    }
    if k != n.map {
        return Err(Refusal::Lengths);
    }
    Ok(())
}

// The words of the first state, whatever they were.
fn put_first_words(words: &mut Words, h: u64, i: u64, n: Lengths)
    ensures { words.new ≡ first_words h i n }
{
    *words = [0u64; WORDS];
    held_areas::put_area(words, 0, standing_area(0, h));
    held_areas::put_area(words, 1, standing_area(h, i));
    held_lengths::put_lengths(words, n);
}

// The words of what set-up gives: of an accepted one, or of one with all lengths 0.
fn put_set_up_words(
    words: &mut Words,
    checked: Result<(), Refusal>,
    h: u64,
    i: u64,
    n: Lengths,
    k: u64,
)
    requires { status_of checked ≡ set_up_status h i n k }
    ensures { Holds words.new first_bytes (set_up_state h i n k) }
{
    let none = Lengths {
        permanent: 0,
        scratch: 0,
        map: 0,
    };
    match checked {
        Ok(()) => put_first_words(words, h, i, n),
        Err(_) => put_first_words(words, 0, 0, none),
    }
}

// The bytes, whatever they were: no entry, no display, and the constant table of rights.
fn put_first_bytes(bytes: &mut Bytes)
    ensures { bytes.new ≡ first_bytes }
{
    *bytes = [0u8; BYTES];
    let table = rights::built_in();
    held_rights::put_rights(bytes, &table);
}

// Set-up in place: the tables are written, whatever they held.
pub fn set_up_in_place(
    words: &mut Words,
    bytes: &mut Bytes,
    buffers: &Buffers<'_>,
    h: u64,
    i: u64,
) -> Result<(), Refusal>
    ensures { Begun (status_of result) words.new bytes.new h i buffers.now }
{
    let n = Lengths {
        permanent: buffers.permanent.len() as u64,
        scratch: buffers.scratch.len() as u64,
        map: buffers.map.len() as u64,
    };
    let k = buffers.written.len() as u64;
    let checked = check_set_up(h, i, n, k);
    put_set_up_words(words, checked, h, i, n, k);
    put_first_bytes(bytes);
    checked
}

// Set-up by value.
pub fn set_up(buffers: &Buffers<'_>, h: u64, i: u64) -> SetUp
    ensures { Begun result.status result.words result.bytes h i buffers.now }
{
    let mut words = [0u64; WORDS];
    let mut bytes = [0u8; BYTES];
    let begun = set_up_in_place(&mut words, &mut bytes, buffers, h, i);
    SetUp {
        status: status_of(begun),
        words,
        bytes,
    }
}
