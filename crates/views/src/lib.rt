// An object's data shown as a part of the permanent or scratch store itself, and the call beside it
// that yields the status.
#![tactic(auto)]

ghost use Rattle.std.specs.Prelude.{◌≡◌, ◌<◌};
ghost use Rattle.layout.specs.Answer.{answer_of};
ghost use Rattle.model.specs.Checks.{called, use_rest};
ghost use Rattle.model.specs.Calls as calls;
ghost use Rattle.tables.specs.Contract.{view_reply, Replies, Answers, Ready, memory_of};
ghost use Rattle.objects.specs.Resolving.{Fitting, Checks};
ghost use Rattle.views.specs.PlacedView.{data_start, placed_in, view_place_of, PlacedAt};
ghost use Rattle.tables.specs.Decode.{state_of};

use layout::answer::Refusal;
use layout::handle;
use objects::Resolved;
use tables::{Buffers, Bytes, Words};

// Where a shown part lies, by numbers: the status of the call; store 0 for the permanent one, 1 for the
// scratch; which of its words is the first that is shown, and how many are. Refused: all 0 but the
// status.
#[repr(C)]
#[derive(Clone, Copy)]
pub struct ViewPlace {
    pub status: u64,
    pub store: u64,
    pub from: u64,
    pub len: u64,
}

// Refusals 2, 13 and 5, for a call that has passed 1.
fn check_view(
    words: &Words,
    bytes: &Bytes,
    buffers: &Buffers<'_>,
    t: u64,
    p: u64,
) -> Result<Resolved, Refusal>
    requires { Fitting words.now bytes.now buffers.now }
    ensures { Checks result words.now bytes.now buffers.now p
        (λ s m. called s t (use_rest s m t p 0)) }
{
    callers::check_thread(words, bytes, t)?;
    objects::check_object(words, bytes, buffers, t, p)
}

// The place of what was checked, in the store that has its words.
fn placed(checked: Result<Resolved, Refusal>, store: u64) -> ViewPlace
    requires { data_start checked < 65536 }
    ensures { result ≡ placed_in checked store }
{
    match checked {
        Ok(o) => ViewPlace {
            status: 0,
            store,
            from: o.at as u64 + 1 + o.slots,
            len: o.data_words,
        },
        Err(refusal) => ViewPlace {
            status: refusal.number(),
            store: 0,
            from: 0,
            len: 0,
        }
    }
}

// Where the shown part lies, for C and Rust, which cannot be given a part of a slice. Which store has
// the words is tested right after the lengths, so neither case has to choose by it later.
pub fn view_place(words: &Words, bytes: &Bytes, buffers: &Buffers<'_>, t: u64, p: u64) -> ViewPlace
    requires { Ready words.now bytes.now }
    ensures { result ≡ view_place_of (state_of words.now bytes.now) buffers.now t p }
{
    if let Err(refusal) = callers::check_lengths(words, bytes, buffers) {
        return placed(Err(refusal), 0);
    }
    if 2 <= handle::area(p) {
        return placed(check_view(words, bytes, buffers, t, p), 1);
    }
    placed(check_view(words, bytes, buffers, t, p), 0)
}

// The shown part: exactly the object's data words, where they lie; where the call is refused a part
// of length 0. The stores are parameters of their own: the clause `place` speaks of their addresses.
pub fn view<'a>(
    words: &Words,
    bytes: &Bytes,
    permanent: &'a [u64],
    scratch: &'a [u64],
    map: &[u64],
    written: &[u64],
    t: u64,
    p: u64,
) -> &'a [u64]
    requires { Ready words.now bytes.now }
    ensures answer { Replies (view_reply result.now) (calls.view t p)
        words.now bytes.now (memory_of permanent.now scratch.now map.now written.now)
        words.now bytes.now (memory_of permanent.now scratch.now map.now written.now) }
    ensures place { PlacedAt result.ref_ptr permanent.entry.ref_ptr scratch.entry.ref_ptr
        (state_of words.now bytes.now) (memory_of permanent.now scratch.now map.now written.now) t p }
{
    let buffers = Buffers {
        permanent,
        scratch,
        map,
        written,
    };
    let place = view_place(words, bytes, &buffers, t, p);
    let from = place.from as usize;
    let to = from + place.len as usize;
    if place.store == 0 {
        return &permanent[from..to];
    }
    &scratch[from..to]
}

// The call beside it.
pub fn view_status(
    words: &Words,
    bytes: &Bytes,
    buffers: &Buffers<'_>,
    t: u64,
    p: u64,
) -> Result<u64, Refusal>
    requires { Ready words.now bytes.now }
    ensures { Answers (answer_of result) (calls.view_status t p)
        words.now bytes.now buffers.now words.now bytes.now buffers.now }
{
    callers::check_lengths(words, bytes, buffers)?;
    check_view(words, bytes, buffers, t, p)?;
    Ok(0)
}
