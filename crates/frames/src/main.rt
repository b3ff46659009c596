// Standard input to standard output: each line of calls is answered by a line. The work is done in
// `reader`, and one round of it in `rounds`; here are the buffers, and round after round.
//
// What is proved: each chunk that `read_chunk` leaves in the input is fed whole and once, to the core
// and the line that the chunk before it left, and its answers are handed whole and once to
// `write_answers`; the rest likewise at the end of the input, and nothing after a failure
// (`specs/Progress.antt`). So what is handed over is the answers to what was read, from the first world
// on (`specs/Whole.antt`).
//
// What is not proved, and has to be read: the bodies of the functions that call the system, as is
// said in `rounds` and `console`; and that no function here changes `steps` or the input, but by the calls of
// `rounds`. None but `main` can call the system by itself: only it is given the runtime, and the
// `Streams` that the others are given are used by `rounds` alone (docs/DECISIONS.md, 51).
#![tactic(auto)]

ghost use Rattle.std.specs.Prelude.{◌≡◌, ◌*◌, ◌≤◌, length, replicate};
ghost use Rattle.tables.specs.Contract.{Ready};
ghost use Rattle.line_answers.specs.Output.{first_world};
ghost use Rattle.line_answers.specs.Answered.{core, Represents};
ghost use Rattle.frames.specs.Progress.{Continues, Ran};

use lines::line::Line;
use rounds::{Output, Streams};
use tables::{Buffers, Bytes, Words};

// How a run ended: how many bytes the last read gave, how many steps were left before and after
// the rest was answered (none before it if something failed), and how many bytes its answer has.
#[derive(Clone, Copy)]
struct Ended {
    n: usize,
    kept: usize,
    left: usize,
    sent: usize,
}

// Whether another round follows. None does after a failure, since no step is left then.
fn goes_on(n: usize, steps: usize) -> bool
    ensures { Continues n steps result }
{
    if n == 0 {
        return false;
    }
    1000000 <= steps
}

// Round after round, and then what is left, from the first world on. A proved loop has to end, and
// nothing says that the input does, so the steps are counted down from a number that no run uses up.
fn answer_all(
    streams: Streams,
    words: &mut Words,
    bytes: &mut Bytes,
    permanent: &mut [u64],
    scratch: &mut [u64],
    map: &mut [u64],
    written: &mut [u64],
    input: &mut [u8],
    output: &mut Output,
) -> Ended
    requires lent { (Ready words.old bytes.old) × (length input.old ≡ 16384) × (19 * length input.old ≤ length output.old) }
    requires first { Represents (core words.old bytes.old permanent.old scratch.old map.old written.old) first_world }
    ensures { Ran
        (core words.old bytes.old permanent.old scratch.old map.old written.old)
        (core words.new bytes.new permanent.new scratch.new map.new written.new)
        input.new output.new result }
{
    let mut line = Line::new();
    let mut n = 1;
    let mut steps = usize::MAX;
    let mut more = true;
    while more {
        n = rounds::read_chunk(streams, input, &mut steps);
        rounds::answer_chunk(
            streams,
            words,
            bytes,
            permanent,
            scratch,
            map,
            written,
            &mut line,
            &input[..n],
            output,
            &mut steps,
        );
        more = goes_on(n, steps);
    }
    let kept = steps;
    if kept == 0 {
        return Ended {
            n,
            kept,
            left: 0,
            sent: 0,
        };
    }
    let sent = rounds::answer_rest(
        streams, words, bytes, permanent, scratch, map, written, &line, output, &mut steps,
    );
    Ended {
        n,
        kept,
        left: steps,
        sent,
    }
}

// Room for bytes. The `ensures` gives only how much, so that no proof writes out as many zeros.
fn room<const N: usize>() -> [u8; N]
    ensures { length result ≡ N }
{
    [0; N]
}

// A buffer of the lent memory, which holds zeros at first.
fn zeros<const N: usize>() -> [u64; N]
    ensures { result ≡ replicate N 0 }
{
    [0; N]
}

// The whole run, over buffers of its own.
fn run(streams: Streams) {
    // A chunk of the input, and room for an answer to each byte of it. Made first: after the call of set-up the compiler
    // no longer sees that their bytes are 0, as those of every local are, and sets them to 0 again.
    let mut input = room::<16384>();
    let mut output: Output = room();
    let mut permanent = zeros::<2048>();
    let mut scratch = zeros::<4096>();
    let mut map = zeros::<96>();
    let mut written = zeros::<96>();
    let buffers = Buffers::of(&permanent, &scratch, &map, &written);
    let begun = setup::set_up(&buffers, 1024, 1024);
    let mut words = begun.words;
    let mut bytes = begun.bytes;
    answer_all(
        streams,
        &mut words,
        &mut bytes,
        &mut permanent,
        &mut scratch,
        &mut map,
        &mut written,
        &mut input,
        &mut output,
    );
}

fn main(rt: HostRuntime) {
    let message =
        "frames: it takes no arguments; frames are read from standard input (README.md, Frames)";
    if !console::refuses_arguments(rt, message) {
        run(Streams::of(rt));
    }
}
