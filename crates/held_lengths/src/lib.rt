// The three lengths of set-up in the tables.
#![tactic(auto)]

ghost use Rattle.std.specs.Prelude.{◌≡◌};
ghost use Rattle.tables.specs.Decode.{lengths_record, put_lengths};

use model::Lengths;
use tables::{LENGTHS_AT, Words};

pub fn lengths_at(words: &Words) -> Lengths
    ensures { result ≡ lengths_record words.now }
{
    Lengths {
        permanent: words[LENGTHS_AT],
        scratch: words[LENGTHS_AT + 1],
        map: words[LENGTHS_AT + 2],
    }
}

pub fn put_lengths(words: &mut Words, n: Lengths)
    ensures { words.new ≡ put_lengths words.old n }
{
    words[LENGTHS_AT] = n.permanent;
    words[LENGTHS_AT + 1] = n.scratch;
    words[LENGTHS_AT + 2] = n.map;
}
