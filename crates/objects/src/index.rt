// A word of an object by its index among the slots or the data words: refusal 14.
ghost use Rattle.std.specs.Prelude.{◌≡◌};
ghost use Rattle.objects.specs.Indexed.{part_count, part_start, index_rest};
ghost use Rattle.objects.specs.Resolving.{Admissible, Indexes};

use crate::check;
use crate::find::Resolved;
use layout::answer::Refusal;
use tables::{Buffers, Bytes, Words};

// The two parts of an object after its header: the slots, then the data words.
#[derive(Clone, Copy)]
pub enum Part {
    Slots,
    Data,
}

// A word of an object: its area, its place in the store that has the area's words, and its bit in the maps.
#[derive(Clone, Copy)]
pub struct WordPlace {
    pub area: u64,
    pub at: usize,
    pub bit: usize,
}

impl Part {
    // How many words a part has.
    fn count(self, o: Resolved) -> u64
        ensures { result ≡ part_count self o }
    {
        match self {
            Part::Slots => o.slots,
            Part::Data => o.data_words
        }
    }

    // Which of the words after the header is the first of a part.
    fn first(self, o: Resolved) -> u64
        ensures { result ≡ part_start self o }
    {
        match self {
            Part::Slots => 0,
            Part::Data => o.slots
        }
    }
}

// Refusals 13, 5 and 14, for a call that has passed 1 and 2: word q of a part of object p. Every op names
// its part, so that nothing of the choice is left where this is inlined.
pub fn check_index(
    words: &Words,
    bytes: &Bytes,
    buffers: &Buffers<'_>,
    t: u64,
    p: u64,
    part: Part,
    q: u64,
) -> Result<WordPlace, Refusal>
    requires { Admissible words.now bytes.now buffers.now t }
    ensures { Indexes result words.now bytes.now buffers.now p part q
        (λ s m. index_rest part s m t p q 0) }
{
    let o = check::check_object(words, bytes, buffers, t, p)?;
    if part.count(o) <= q {
        return Err(Refusal::Index);
    }
    let k = (part.first(o) + q) as usize;
    Ok(WordPlace {
        area: o.area,
        at: o.at + k + 1,
        bit: o.bit + k + 1,
    })
}
