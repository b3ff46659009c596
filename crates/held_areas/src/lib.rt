// The areas in the tables, 8 words each, of which the last is spare and never written.
#![tactic(auto)]

ghost use Rattle.std.specs.Prelude.{◌≡◌, ◌<◌};
ghost use Rattle.model.specs.State.{made_as, with_words};
ghost use Rattle.model.specs.Scopes.{reentered};
ghost use Rattle.tables.specs.Decode.{area_count, area_record, put_area};

use model::Area;
use tables::{AREA_WORDS, Words};

pub fn area_at(words: &Words, a: usize) -> Area
    requires { a < area_count }
    ensures { result ≡ area_record words.now a }
{
    let i = a * AREA_WORDS;
    Area {
        start: words[i],
        size: words[i + 1],
        used: words[i + 2],
        generation: words[i + 3],
        count: words[i + 4],
        parent: words[i + 5],
        depth: words[i + 6],
    }
}

pub fn put_area(words: &mut Words, a: usize, x: Area)
    requires { a < area_count }
    ensures { words.new ≡ put_area words.old a x }
{
    let i = a * AREA_WORDS;
    words[i] = x.start;
    words[i + 1] = x.size;
    words[i + 2] = x.used;
    words[i + 3] = x.generation;
    words[i + 4] = x.count;
    words[i + 5] = x.parent;
    words[i + 6] = x.depth;
}

// Whether area a, whose record is x, is made: heap and immortal are always there, and a scope that is
// made has a size above 0.
pub fn is_made(x: Area, a: u64) -> bool
    ensures { result ≡ made_as x a }
{
    a < 2 || 0 < x.size
}

// An open scope with one entry more.
pub fn reentered(x: Area) -> Area
    requires { x.count < 1024 }
    ensures { result ≡ reentered x }
{
    Area {
        count: x.count + 1,
        ..x
    }
}

// An area with its words elsewhere, and of another size.
pub fn placed(x: Area, start: u64, size: u64) -> Area
    ensures { result ≡ with_words x start size }
{
    Area { start, size, ..x }
}
