// One round: a chunk of the input is read, the lines that end in it are answered, and the answers are
// written; and what is left at the end of the input. The work is done in `reader`; here are the reads
// and the writes.
//
// What is proved: the chunk is fed whole and once, to the core and the line that are lent, and its
// answers are handed whole and once to `write_answers`; the rest likewise. A read and a write take as
// many steps as `specs/Steps.antt` says.
//
// What is not proved, and has to be read: the bodies of the functions that call the system,
// `read_chunk` and `write_answers` with `console::tell_unwritten`, beyond their numbers of bytes and
// steps, since no contract says which bytes `read` gave and `write_all` took; and that no other function
// uses the `Streams` that it is given but to hand them to `write_answers`, or changes `steps`
// (docs/DECISIONS.md, 51). None but `read_chunk` can change the input, by its type.
#![tactic(auto)]

ghost use Rattle.std.specs.Prelude.{◌*◌, ◌≤◌, ◌<◌, length};
ghost use Rattle.tables.specs.Contract.{Ready};
ghost use Rattle.console.specs.Counts.{IsPrefixLen};
ghost use Rattle.rounds.specs.Steps.{Read, Wrote};
ghost use Rattle.lines.specs.Lines.{emptied};
ghost use Rattle.line_answers.specs.Answered.{core};
ghost use Rattle.reader.specs.Held.{Feeds, Finishes, held};

use lines::line::Line;
use std::io::Read;
use std::rt::{Stderr, Stdin, Stdout};
use tables::{Bytes, Words};

// Room for the answers to a chunk. No other buffer has this type, here or in `frames`, so what is
// written is the start of this one.
pub type Output = [u8; 311296];

// The three standard streams, as a run is lent them. Their fields are private, so whoever holds them
// can read and write by the functions below alone.
#[derive(Clone, Copy)]
pub struct Streams {
    stdin: Stdin,
    stdout: Stdout,
    stderr: Stderr,
}

impl Streams {
    // Those of the process.
    pub fn of(rt: HostRuntime) -> Streams {
        Streams {
            stdin: rt.stdin(),
            stdout: rt.stdout(),
            stderr: rt.stderr(),
        }
    }
}

// One read: how many bytes it put at the start of the input. It takes a step for each and one more.
// If it fails, standard error says so, and one step is left, for the write of no answers.
pub fn read_chunk(mut streams: Streams, input: &mut [u8], steps: &mut usize) -> usize
    requires { length input.old < steps.old }
    ensures { (IsPrefixLen result input.new) × (Read steps.old steps.new result) }
{
    let Ok(n) = streams.stdin.read(input) else {
        let _ = streams
            .stderr
            .eprintln("frames: standard input cannot be read");
        *steps = 1;
        return 0;
    };
    *steps -= n + 1;
    n
}

// Writes the first n bytes of the output, which is not passed as those bytes alone, so that its type
// says that they are the start of it. It takes a step for each and one more. If not all are written,
// standard error says so, and no step is left.
fn write_answers(streams: Streams, output: &Output, n: usize, steps: &mut usize)
    requires { (IsPrefixLen n output.now) × (n < steps.old) }
    ensures { Wrote steps.old steps.new n }
{
    let all: &[u8] = output;
    if let Err(error) = streams.stdout.write_all(&all[..n]) {
        console::tell_unwritten(
            streams.stderr,
            error,
            "frames: the answers cannot be written",
        );
        *steps = 0;
        return;
    }
    *steps -= n + 1;
}

// Answers the lines that end in a chunk of the input, and writes the answers. How many bytes they are.
pub fn answer_chunk(
    streams: Streams,
    words: &mut Words,
    bytes: &mut Bytes,
    permanent: &mut [u64],
    scratch: &mut [u64],
    map: &mut [u64],
    written: &mut [u64],
    line: &mut Line,
    input: &[u8],
    output: &mut Output,
    steps: &mut usize,
) -> usize
    requires lent { (Ready words.old bytes.old) × (19 * length input.now ≤ length output.old) }
    requires counted { 19 * length input.now < steps.old }
    ensures fed { Feeds
        (held (core words.old bytes.old permanent.old scratch.old map.old written.old) line.old output.old 0)
        (held (core words.new bytes.new permanent.new scratch.new map.new written.new) line.new output.new result)
        input.now }
    ensures wrote { Wrote steps.old steps.new result }
{
    let answered = reader::feed::feed(
        words, bytes, permanent, scratch, map, written, line, input, output,
    );
    write_answers(streams, output, answered, steps);
    answered
}

// Answers what is left at the end of the input. How many bytes were written.
pub fn answer_rest(
    streams: Streams,
    words: &mut Words,
    bytes: &mut Bytes,
    permanent: &mut [u64],
    scratch: &mut [u64],
    map: &mut [u64],
    written: &mut [u64],
    line: &Line,
    output: &mut Output,
    steps: &mut usize,
) -> usize
    requires { (Ready words.old bytes.old) × (19 ≤ length output.old) × (19 < steps.old) }
    ensures ended { Finishes
        (held (core words.old bytes.old permanent.old scratch.old map.old written.old) line.now output.old 0)
        (held (core words.new bytes.new permanent.new scratch.new map.new written.new) (emptied line.now) output.new result) }
    ensures wrote { Wrote steps.old steps.new result }
{
    let sent = reader::feed::finish(words, bytes, permanent, scratch, map, written, line, output);
    write_answers(streams, output, sent, steps);
    sent
}
