// The ops that touch no lent word: the buffers are lent to read, for their lengths.
#![tactic(auto)]

ghost use Rattle.layout.specs.Answer.{answer_of};
ghost use Rattle.model.specs.Ops.{call_of};
ghost use Rattle.tables.specs.Contract.{Answers, Ready};

use layout::answer::Refusal;
use model::{Op, StateOp};
use tables::{Buffers, Bytes, Words};

// The answer and the tables are those of the call's definition; the buffers stay. A match, here and for the other ops: each arm
// has parameters of its own.
pub fn carry_state(
    words: &mut Words,
    bytes: &mut Bytes,
    buffers: &Buffers<'_>,
    op: StateOp,
    t: u64,
    p: u64,
    q: u64,
    r: u64,
) -> Result<u64, Refusal>
    requires { Ready words.old bytes.old }
    ensures { Answers (answer_of result) (call_of (Op.State op) t p q r)
        words.old bytes.old buffers.now words.new bytes.new buffers.now }
{
    match op {
        StateOp::Start => threads::start(words, bytes, buffers, t, p),
        StateOp::End => threads::end(words, bytes, buffers, t),
        StateOp::Make => areas::make::make(words, bytes, buffers, t, q, r),
        StateOp::Enter => entry::enter(words, bytes, buffers, t, q),
        StateOp::Exit => exit::exit(words, bytes, buffers, t),
        StateOp::StartHelper => helpers::start_helper(words, bytes, buffers, t, p, q),
        StateOp::Remove => removal::remove(words, bytes, buffers, t, q),
    }
}
