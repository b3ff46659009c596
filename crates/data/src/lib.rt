// Ops 09 and 0a: a data word is written or read.
#![tactic(auto)]

ghost use Rattle.layout.specs.Answer.{answer_of};
ghost use Rattle.model.specs.Calls as calls;
ghost use Rattle.tables.specs.Contract.{Answers, Ready, memory_of};

use layout::answer::Refusal;
use objects::Part;
use tables::{Buffers, Bytes, Words};

// Op 09: object p, data word q, the new word; the value is 0. The word's bit in the written map is set.
pub fn write(
    words: &Words,
    bytes: &Bytes,
    permanent: &mut [u64],
    scratch: &mut [u64],
    map: &[u64],
    written: &mut [u64],
    t: u64,
    p: u64,
    q: u64,
    word: u64,
) -> Result<u64, Refusal>
    requires { Ready words.now bytes.now }
    ensures { Answers (answer_of result) (calls.write t p q word)
        words.now bytes.now (memory_of permanent.old scratch.old map.now written.old)
        words.now bytes.now (memory_of permanent.new scratch.new map.now written.new) }
{
    let buffers = Buffers {
        permanent,
        scratch,
        map,
        written,
    };
    callers::check_caller(words, bytes, &buffers, t)?;
    let w = objects::check_index(words, bytes, &buffers, t, p, Part::Data, q)?;
    stores::put_word(permanent, scratch, w.area, w.at, word);
    bitmap::set_bit(written, w.bit / 64, w.bit);
    Ok(0) // none is named
}

// Op 0a: object p, data word q; the value is the word. Refused by 19 where its bit in the written map is 0: nobody wrote it since
// the object was made.
pub fn read(
    words: &Words,
    bytes: &Bytes,
    buffers: &Buffers<'_>,
    t: u64,
    p: u64,
    q: u64,
) -> Result<u64, Refusal>
    requires { Ready words.now bytes.now }
    ensures { Answers (answer_of result) (calls.read t p q)
        words.now bytes.now buffers.now words.now bytes.now buffers.now }
{
    callers::check_caller(words, bytes, buffers, t)?;
    let w = objects::check_index(words, bytes, buffers, t, p, Part::Data, q)?;
    let mark = bitmap::bit(buffers.written, w.bit);
    if mark == 0 {
        return Err(Refusal::Unwritten);
    }
    let word = stores::word_at(buffers.permanent, buffers.scratch, w.area, w.at);
    Ok(word)
}
