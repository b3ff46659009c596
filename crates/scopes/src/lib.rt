// The core: a call of any op, carried out in place on the tables and the buffers that are lent.
#![tactic(auto)]

ghost use Rattle.layout.specs.Answer.{answer_of};
ghost use Rattle.model.specs.Ops.{call_of};
ghost use Rattle.tables.specs.Contract.{Answers, Ready, memory_of};

use layout::answer::Refusal;
use model::Op;
use tables::{Buffers, Bytes, Words};

// The answer, the tables and the buffers are those of the call's definition.
pub fn carry_out(
    words: &mut Words,
    bytes: &mut Bytes,
    permanent: &mut [u64],
    scratch: &mut [u64],
    map: &mut [u64],
    written: &mut [u64],
    op: Op,
    t: u64,
    p: u64,
    q: u64,
    r: u64,
) -> Result<u64, Refusal>
    requires { Ready words.old bytes.old }
    ensures { Answers (answer_of result) (call_of op t p q r)
        words.old bytes.old (memory_of permanent.old scratch.old map.old written.old)
        words.new bytes.new (memory_of permanent.new scratch.new map.new written.new) }
{
    match op {
        Op::State(o) => {
            let buffers = Buffers::of(permanent, scratch, map, written);
            state_ops::carry_state(words, bytes, &buffers, o, t, p, q, r)
        }
        Op::Memory(o) => memory_ops::carry_memory(
            words, bytes, permanent, scratch, map, written, o, t, p, q, r,
        ),
        Op::Question(o) => {
            let buffers = Buffers::of(permanent, scratch, map, written);
            question_ops::carry_question(words, bytes, &buffers, o, t, p, q, r)
        }
    }
}
