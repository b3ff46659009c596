// The rights of a kind of threads and of a thread, by the table in force.
ghost use Rattle.std.specs.Prelude.{◌≡◌};
ghost use Rattle.rights.specs.Rights.{class_of, allows};
ghost use Rattle.model.specs.Checks.{has_right};
ghost use Rattle.model.proofs.Accepted.{Called};
ghost use Rattle.tables.specs.Decode.{rights_of, state_of};
ghost use Rattle.tables.specs.Contract.{Ready};

use rights::{Kind, Right};
use tables::{Bytes, Words};

// Whether threads of a kind have a right in an area: one digit, at the place of the kind, the area's class and the
// right.
pub fn kind_may(bytes: &Bytes, kind: Kind, right: Right, area: u64) -> bool
    ensures { result ≡ allows (rights_of bytes.now) kind (class_of area) right }
{
    held_rights::right_at(bytes, rights::place(kind, area, right)) == b'1'
}

// Whether a started thread has a right in an area.
pub fn has_right(words: &Words, bytes: &Bytes, t: usize, right: Right, area: u64) -> bool
    requires { Ready words.now bytes.now × Called (state_of words.now bytes.now) t }
    ensures { result ≡ has_right (state_of words.now bytes.now) t right area }
{
    let kind = held_threads::thread_at(words, t).kind;
    kind_may(bytes, Kind::of(kind), right, area)
}
