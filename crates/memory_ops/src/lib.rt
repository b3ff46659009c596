// The ops that write lent words. Of the tables, the bytes stay.
#![tactic(auto)]

ghost use Rattle.layout.specs.Answer.{answer_of};
ghost use Rattle.model.specs.Ops.{call_of};
ghost use Rattle.tables.specs.Contract.{Answers, Ready, memory_of};

use layout::answer::Refusal;
use model::{MemoryOp, Op};
use tables::{Bytes, Words};

// The answer, the tables and the buffers are those of the call's definition.
pub fn carry_memory(
    words: &mut Words,
    bytes: &Bytes,
    permanent: &mut [u64],
    scratch: &mut [u64],
    map: &mut [u64],
    written: &mut [u64],
    op: MemoryOp,
    t: u64,
    p: u64,
    q: u64,
    r: u64,
) -> Result<u64, Refusal>
    requires { Ready words.old bytes.now }
    ensures { Answers (answer_of result) (call_of (Op.Memory op) t p q r)
        words.old bytes.now (memory_of permanent.old scratch.old map.old written.old)
        words.new bytes.now (memory_of permanent.new scratch.new map.new written.new) }
{
    match op {
        MemoryOp::Allocate => allocation::allocate(
            words, bytes, permanent, scratch, map, written, t, q, r,
        ),
        MemoryOp::Store => references::store(
            words, bytes, permanent, scratch, map, written, t, p, q, r,
        ),
        MemoryOp::Write => data::write(words, bytes, permanent, scratch, map, written, t, p, q, r),
    }
}
