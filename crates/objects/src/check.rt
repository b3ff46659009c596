// What the calls on an object have in common: refusals 13 and 5.
ghost use Rattle.model.specs.Checks.{use_rest};
ghost use Rattle.objects.specs.Resolving.{Admissible, Checks};

use crate::find;
use crate::find::Resolved;
use layout::answer::Refusal;
use rights::Right;
use tables::{Buffers, Bytes, Words};

// The object of a call, by refusals 13 and 5, for a call that has passed 1 and 2. Without those two it is small enough to
// be inlined in every op; a call would hand the buffers over through memory.
pub fn check_object(
    words: &Words,
    bytes: &Bytes,
    buffers: &Buffers<'_>,
    t: u64,
    p: u64,
) -> Result<Resolved, Refusal>
    requires { Admissible words.now bytes.now buffers.now t }
    ensures { Checks result words.now bytes.now buffers.now p (λ s m. use_rest s m t p 0) }
{
    let Some(o) = find::lookup(words, bytes, buffers, p) else {
        return Err(Refusal::Object);
    };
    if !callers::has_right(words, bytes, t as usize, Right::Use, o.area) {
        return Err(Refusal::Right);
    }
    Ok(o)
}
