// Op 06: an object is allocated in the current area of a thread.
#![tactic(auto)]

ghost use Rattle.std.specs.Prelude.{◌≡◌, ◌≤◌};
ghost use Rattle.layout.specs.Answer.{answer_of, status_of};
ghost use Rattle.model.specs.Calls as calls;
ghost use Rattle.tables.specs.Contract.{Answers, Ready, memory_of};
ghost use Rattle.allocation.specs.Allocation.{area_rest, HasRoom, Lent, ObjectMade};
ghost use Rattle.tables.specs.Decode.{state_of};

use layout::answer::Refusal;
use layout::handle;
use model::Area;
use rights::Right;
use tables::{Buffers, Bytes, Words};

// Refusals 5 and 12, by whether the thread may allocate in the area, and by the area's record. No sum of
// the fields is taken, so none can wrap: what the slots leave of the room, if anything, is to hold the
// header and the data.
fn check_area(may: bool, x: Area, slots: u64, data_words: u64) -> Result<(), Refusal>
    requires { x.used ≤ x.size }
    ensures { status_of result ≡ area_rest may x slots data_words }
{
    let room = x.size - x.used;
    if !may {
        return Err(Refusal::Right);
    }
    if room - slots.min(room) <= data_words {
        return Err(Refusal::Room);
    }
    Ok(())
}

// The effect of an accepted call, in area `area`, whose record is x: its used words, the object's words and
// its map bits. Yields its handle. The area is written first: after a write to a buffer the compiler could not
// tell that its other words are as they were read, and would write them too. The map bits come last, when
// neither store is needed any more.
fn apply_allocate(
    words: &mut Words,
    bytes: &Bytes,
    permanent: &mut [u64],
    scratch: &mut [u64],
    map: &mut [u64],
    written: &mut [u64],
    area: u64,
    x: Area,
    slots: u64,
    data_words: u64,
) -> u64
    requires { Lent words.old bytes.now (memory_of permanent.old scratch.old map.old written.old)
        × HasRoom (state_of words.old bytes.now) area x slots data_words }
    ensures { ObjectMade result
        words.new bytes.now (memory_of permanent.new scratch.new map.new written.new)
        (state_of words.old bytes.now) (memory_of permanent.old scratch.old map.old written.old)
        area slots data_words }
{
    let used = x.used + 1 + slots + data_words;
    held_areas::put_area(words, area as usize, Area { used, ..x });
    let at = (x.start + x.used) as usize;
    let bit = stores::bit_index(permanent.len(), area, at);
    initialization::put_object(permanent, scratch, area, at, slots, data_words);
    let n = (slots + data_words) as usize;
    initialization::mark_object(map, bit, n);
    bitmap::clear_bits(written, bit, n + 1);
    handle::pack(x.used, area, x.generation)
}

// Op 06: slots and data words of the new object; the value is its handle. The current area is looked up
// once, and its record is read once, for the checks and for the effect.
pub fn allocate(
    words: &mut Words,
    bytes: &Bytes,
    permanent: &mut [u64],
    scratch: &mut [u64],
    map: &mut [u64],
    written: &mut [u64],
    t: u64,
    slots: u64,
    data_words: u64,
) -> Result<u64, Refusal>
    requires { Ready words.old bytes.now }
    ensures { Answers (answer_of result) (calls.allocate t slots data_words)
        words.old bytes.now (memory_of permanent.old scratch.old map.old written.old)
        words.new bytes.now (memory_of permanent.new scratch.new map.new written.new) }
{
    let buffers = Buffers {
        permanent,
        scratch,
        map,
        written,
    };
    callers::check_caller(words, bytes, &buffers, t)?;
    let area = callers::top_entry(words, bytes, t as usize).area as u64;
    let may = callers::has_right(words, bytes, t as usize, Right::Allocate, area);
    let x = held_areas::area_at(words, area as usize);
    check_area(may, x, slots, data_words)?;
    let made = apply_allocate(
        words, bytes, permanent, scratch, map, written, area, x, slots, data_words,
    );
    Ok(made)
}
