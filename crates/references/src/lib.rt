// Ops 07 and 08: a reference is stored in a slot, or loaded from one.
#![tactic(auto)]

ghost use Rattle.std.specs.Prelude.{◌≡◌, ◌<◌};
ghost use Rattle.layout.specs.Answer.{answer_of};
ghost use Rattle.model.specs.References.{may_refer, reference_rest, store_rest};
ghost use Rattle.model.specs.Calls as calls;
ghost use Rattle.tables.specs.Contract.{Answers, Ready, memory_of};
ghost use Rattle.objects.specs.declared.index.Part.TheVariants.{Slots};
ghost use Rattle.objects.specs.Resolving.{Admissible, Refuses, Indexes};
ghost use Rattle.tables.specs.Decode.{state_of};

use layout::answer::Refusal;
use layout::display::Depth;
use layout::handle;
use objects::{Part, WordPlace};
use rights::Right;
use tables::{Buffers, Bytes, Words};

// The assignment rule, for the areas of an object and of a target: one look into the display of the
// object's area (source 004, Algorithm 9).
fn may_refer(words: &Words, bytes: &Bytes, object: u64, target: u64) -> bool
    requires { Ready words.now bytes.now × (object < 64) × (target < 64) }
    ensures { result ≡ may_refer (state_of words.now bytes.now) object target }
{
    if target < 2 {
        return true;
    }
    let depth = held_areas::area_at(words, target as usize).depth;
    let deepest = held_areas::area_at(words, object as usize).depth;
    if deepest < depth {
        return false;
    }
    held_displays::row_holds(bytes, object as usize, Depth(depth as usize), target as u8)
}

// Refusals 15 and 5: a target or a loaded word. Null always passes.
fn check_reference(
    words: &Words,
    bytes: &Bytes,
    buffers: &Buffers<'_>,
    t: u64,
    x: u64,
) -> Result<(), Refusal>
    requires { Admissible words.now bytes.now buffers.now t }
    ensures { Refuses result words.now bytes.now buffers.now (λ s m. reference_rest s m t x 0) }
{
    if x == 0 {
        return Ok(());
    }
    let Some(o) = objects::lookup(words, bytes, buffers, x) else {
        return Err(Refusal::Target);
    };
    if !callers::has_right(words, bytes, t as usize, Right::Refer, o.area) {
        return Err(Refusal::Right);
    }
    Ok(())
}

// ---- op 07, store reference

// Its refusals past 1 and 2. Null's area is the heap, so the assignment rule lets it pass.
fn check_store(
    words: &Words,
    bytes: &Bytes,
    buffers: &Buffers<'_>,
    t: u64,
    p: u64,
    q: u64,
    target: u64,
) -> Result<WordPlace, Refusal>
    requires { Admissible words.now bytes.now buffers.now t }
    ensures { Indexes result words.now bytes.now buffers.now p Slots q
        (λ s m. store_rest s m t p q target) }
{
    let w = objects::check_index(words, bytes, buffers, t, p, Part::Slots, q)?;
    let checked = check_reference(words, bytes, buffers, t, target);
    let may = may_refer(words, bytes, w.area, handle::area(target));
    checked?;
    if !may {
        return Err(Refusal::Assignment);
    }
    Ok(w)
}

// Op 07: object p, slot q, target; the value is 0.
pub fn store(
    words: &Words,
    bytes: &Bytes,
    permanent: &mut [u64],
    scratch: &mut [u64],
    map: &[u64],
    written: &[u64],
    t: u64,
    p: u64,
    q: u64,
    target: u64,
) -> Result<u64, Refusal>
    requires { Ready words.now bytes.now }
    ensures { Answers (answer_of result) (calls.store t p q target)
        words.now bytes.now (memory_of permanent.old scratch.old map.now written.now)
        words.now bytes.now (memory_of permanent.new scratch.new map.now written.now) }
{
    let buffers = Buffers {
        permanent,
        scratch,
        map,
        written,
    };
    callers::check_caller(words, bytes, &buffers, t)?;
    let w = check_store(words, bytes, &buffers, t, p, q, target)?;
    stores::put_word(permanent, scratch, w.area, w.at, target);
    Ok(0) // none is named
}

// ---- op 08, load reference

// Object p, slot q; the value is the stored word.
pub fn load(
    words: &Words,
    bytes: &Bytes,
    buffers: &Buffers<'_>,
    t: u64,
    p: u64,
    q: u64,
) -> Result<u64, Refusal>
    requires { Ready words.now bytes.now }
    ensures { Answers (answer_of result) (calls.load t p q)
        words.now bytes.now buffers.now words.now bytes.now buffers.now }
{
    callers::check_caller(words, bytes, buffers, t)?;
    let w = objects::check_index(words, bytes, buffers, t, p, Part::Slots, q)?;
    let x = stores::word_at(buffers.permanent, buffers.scratch, w.area, w.at);
    check_reference(words, bytes, buffers, t, x)?;
    Ok(x)
}
