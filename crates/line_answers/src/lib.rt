// A line is answered: a frame's call is carried out, any other line gives 18, and the answer is written.
//
// The tables and the four lent buffers are passed one by one, here and in the crates above: a struct of
// `&mut` behind a `&mut` was tried, and its callers learn nothing of what its fields point at afterwards.
#![tactic(auto)]

ghost use Rattle.std.specs.Prelude.{◌≡◌, ◌+◌, ◌≤◌, length};
ghost use Rattle.layout.specs.Answer.{answer_of};
ghost use Rattle.tables.specs.Contract.{Ready};
ghost use Rattle.line_answers.specs.Answered.{core, LineAnswered, Ended};

use layout::answer::{Answer, Refusal};
use lines::line::Line;
use tables::{Bytes, Words};

// Answers a line: a frame's call is carried out; any other line gives 18 and changes nothing.
fn answer_line(
    words: &mut Words,
    bytes: &mut Bytes,
    permanent: &mut [u64],
    scratch: &mut [u64],
    map: &mut [u64],
    written: &mut [u64],
    line: &Line,
) -> Result<u64, Refusal>
    requires { Ready words.old bytes.old }
    ensures { LineAnswered
        (core words.old bytes.old permanent.old scratch.old map.old written.old)
        (core words.new bytes.new permanent.new scratch.new map.new written.new)
        line.now (answer_of result) }
{
    let Some(f) = line.parse() else {
        return Err(Refusal::NoFrame);
    };
    scopes::carry_out(
        words, bytes, permanent, scratch, map, written, f.op, f.thread, f.p, f.q, f.r,
    )
}

// Answers a line and writes the answer.
pub fn end_line(
    words: &mut Words,
    bytes: &mut Bytes,
    permanent: &mut [u64],
    scratch: &mut [u64],
    map: &mut [u64],
    written: &mut [u64],
    line: &Line,
    output: &mut [u8],
    at: usize,
)
    requires { (Ready words.old bytes.old) × (at + 19 ≤ length output.old) }
    ensures { Ended
        (core words.old bytes.old permanent.old scratch.old map.old written.old)
        (core words.new bytes.new permanent.new scratch.new map.new written.new)
        line.now output.old at output.new }
{
    let result = answer_line(words, bytes, permanent, scratch, map, written, line);
    let a = Answer::from(result);
    lines::answer::write_answer(output, at, a.status, a.value);
}
