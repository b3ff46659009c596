// The object that a handle leads to, if it is live.
ghost use Rattle.std.specs.Prelude.{◌≡◌};
ghost use Rattle.objects.specs.Found.{ends_of};
ghost use Rattle.objects.specs.Resolving.{Fitting, Finds, Numbers};

use layout::handle;
use tables::{Buffers, Bytes, Words};

// An object that a handle resolves to: its area, the place of its header in its store and its bit in the maps, its
// slots and how many data words it has.
#[derive(Clone, Copy)]
pub struct Resolved {
    pub area: u64,
    pub at: usize,
    pub bit: usize,
    pub slots: u64,
    pub data_words: u64,
}

// The object that a header heads, where as many used words are left from it on as it takes. So that the offset need not
// be kept, the caller tells what is left.
fn whole(header: u64, area: u64, at: usize, bit: usize, left: u64) -> Option<Resolved>
    ensures { result ≡ ends_of header area at bit left }
{
    let slots = handle::slots(header);
    let data_words = handle::data_words(header);
    if left <= slots + data_words {
        return None;
    }
    Some(Resolved {
        area,
        at,
        bit,
        slots,
        data_words,
    })
}

// The object that a handle leads to. A scope that is not open has no used words. So that few registers have to be saved, what depends on the
// store is chosen first, and the used words are read after the generation is tested.
pub fn lookup(words: &Words, bytes: &Bytes, buffers: &Buffers<'_>, handle: u64) -> Option<Resolved>
    requires { Fitting words.now bytes.now buffers.now }
    ensures found { Finds result words.now bytes.now buffers.now handle }
    ensures number { Numbers result words.now bytes.now buffers.now handle }
{
    let area = handle::area(handle);
    let offset = handle::offset(handle);
    let store = stores::store_of(buffers.permanent, buffers.scratch, area);
    let first = stores::first_bit(buffers.permanent.len(), area);
    let x = held_areas::area_at(words, area as usize);
    if handle::generation(handle) != x.generation {
        return None;
    }
    let used = held_areas::area_at(words, area as usize).used;
    if used <= offset {
        return None;
    }
    let left = used - offset;
    let at = (x.start + offset) as usize;
    let bit = first + at;
    let mark = bitmap::bit(buffers.map, bit);
    if mark == 0 {
        return None;
    }
    let header = store[at];
    whole(header, area, at, bit, left)
}
