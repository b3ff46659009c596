// The ops that change nothing: all is lent to read.
#![tactic(auto)]

ghost use Rattle.layout.specs.Answer.{answer_of};
ghost use Rattle.model.specs.Ops.{call_of};
ghost use Rattle.tables.specs.Contract.{Answers, Ready};

use layout::answer::Refusal;
use model::{Op, QuestionOp};
use tables::{Buffers, Bytes, Words};

// The answer is that of the call's definition; the tables and the buffers stay.
pub fn carry_question(
    words: &Words,
    bytes: &Bytes,
    buffers: &Buffers<'_>,
    op: QuestionOp,
    t: u64,
    p: u64,
    q: u64,
    r: u64,
) -> Result<u64, Refusal>
    requires { Ready words.now bytes.now }
    ensures { Answers (answer_of result) (call_of (Op.Question op) t p q r)
        words.now bytes.now buffers.now words.now bytes.now buffers.now }
{
    match op {
        QuestionOp::Load => references::load(words, bytes, buffers, t, p, q),
        QuestionOp::Read => data::read(words, bytes, buffers, t, p, q),
    }
}
