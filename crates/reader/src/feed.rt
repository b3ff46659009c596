// Feeding: the input comes in chunks, each line that ends is answered, and the line so far waits for
// the next chunk.
ghost use Rattle.std.specs.Prelude.{◌≡◌, [], ◌∷◌, ◌++◌, ◌+◌, ◌*◌, ◌≤◌, length};
ghost use Rattle.tables.specs.Contract.{Ready};
ghost use Rattle.lines.specs.Lines.{emptied};
ghost use Rattle.line_answers.specs.Answered.{core};
ghost use Rattle.std.specs.List.{position};
ghost use Rattle.reader.specs.Feeding.{NoFeed};
ghost use Rattle.reader.specs.Held.{Feeds, Finishes, held};
ghost use Rattle.reader.specs.HeldLaws.{is_feed};

use lines::line::Line;
use tables::{Bytes, Words};

// The place of the first line feed.
fn line_feed(input: &[u8]) -> Option<usize>
    ensures { result ≡ position is_feed input.now }
{
    input.iter().position(|b| *b == b'\n')
}

// The bytes of the line so far up to a line feed: its answer is written from place at on, and the next
// line begins.
fn feed_line(
    words: &mut Words,
    bytes: &mut Bytes,
    permanent: &mut [u64],
    scratch: &mut [u64],
    map: &mut [u64],
    written: &mut [u64],
    line: &mut Line,
    input: &[u8],
    output: &mut [u8],
    at: usize,
)
    requires { (Ready words.old bytes.old) × (NoFeed input.now) × (at + 19 ≤ length output.old) }
    ensures { Feeds
        (held (core words.old bytes.old permanent.old scratch.old map.old written.old) line.old output.old at)
        (held (core words.new bytes.new permanent.new scratch.new map.new written.new) line.new output.new (at + 19))
        (input.now ++ (10 ∷ [])) }
{
    line.add_bytes(input);
    line_answers::end_line(
        words, bytes, permanent, scratch, map, written, line, output, at,
    );
    line.clear();
}

// A chunk of the input, line by line, and the line so far waits for the next chunk. The output has room
// for an answer to each byte of the chunk. How many bytes were written.
pub fn feed(
    words: &mut Words,
    bytes: &mut Bytes,
    permanent: &mut [u64],
    scratch: &mut [u64],
    map: &mut [u64],
    written: &mut [u64],
    line: &mut Line,
    input: &[u8],
    output: &mut [u8],
) -> usize
    requires { (Ready words.old bytes.old) × (19 * length input.now ≤ length output.old) }
    ensures { Feeds
        (held (core words.old bytes.old permanent.old scratch.old map.old written.old) line.old output.old 0)
        (held (core words.new bytes.new permanent.new scratch.new map.new written.new) line.new output.new result)
        input.now }
{
    let mut at = 0;
    let mut rest = input;
    while let Some(n) = line_feed(rest) {
        feed_line(
            words,
            bytes,
            permanent,
            scratch,
            map,
            written,
            line,
            &rest[..n],
            output,
            at,
        );
        at += 19;
        rest = &rest[n + 1..];
    }
    line.add_bytes(rest);
    at
}

// The end of the input: a line so far that is not empty is a line. How many bytes were written.
pub fn finish(
    words: &mut Words,
    bytes: &mut Bytes,
    permanent: &mut [u64],
    scratch: &mut [u64],
    map: &mut [u64],
    written: &mut [u64],
    line: &Line,
    output: &mut [u8],
) -> usize
    requires { (Ready words.old bytes.old) × (19 ≤ length output.old) }
    ensures { Finishes
        (held (core words.old bytes.old permanent.old scratch.old map.old written.old) line.now output.old 0)
        (held (core words.new bytes.new permanent.new scratch.new map.new written.new) (emptied line.now) output.new result) }
{
    if line.is_empty() {
        return 0;
    }
    line_answers::end_line(
        words, bytes, permanent, scratch, map, written, line, output, 0,
    );
    19
}
