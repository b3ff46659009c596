// The table of ops in code: an op by its number, and the fields that it uses.
#![tactic(auto)]

ghost use Rattle.std.specs.Prelude.{◌≡◌};
ghost use Rattle.model.specs.Ops.{op_of};

use model::{Form, MemoryOp, Op, QuestionOp, StateOp};

// The op of a number, and which of the fields p, q and r it uses.
#[tactic(auto, unfolding(model::specs::Ops::op_of))]
pub fn op_of(number: u64) -> Option<Form>
    ensures { result ≡ op_of number }
{
    let (op, p, q, r) = match number {
        0x01 => (Op::State(StateOp::Start), true, false, false),
        0x02 => (Op::State(StateOp::End), false, false, false),
        0x03 => (Op::State(StateOp::Make), false, true, true),
        0x04 => (Op::State(StateOp::Enter), false, true, false),
        0x05 => (Op::State(StateOp::Exit), false, false, false),
        0x06 => (Op::Memory(MemoryOp::Allocate), false, true, true),
        0x07 => (Op::Memory(MemoryOp::Store), true, true, true),
        0x08 => (Op::Question(QuestionOp::Load), true, true, false),
        0x09 => (Op::Memory(MemoryOp::Write), true, true, true),
        0x0a => (Op::Question(QuestionOp::Read), true, true, false),
        0x0b => (Op::State(StateOp::StartHelper), true, true, false),
        0x0c => (Op::State(StateOp::Remove), false, true, false),
        _ => return None,
    };
    Some(Form { op, p, q, r })
}
