// The threads in the tables: the words of each, and its entries, each with the innermost scope as of it.
#![tactic(auto)]

ghost use Rattle.std.specs.Prelude.{◌≡◌, ◌<◌};
ghost use Rattle.tables.specs.Decode.{thread_count, row_bytes, thread_record, put_thread, entry_record, put_entry, copy_stack};

use layout::stack::Place;
use tables::{Bytes, Entry, INNER_ROWS, ROW_BYTES, THREAD_WORDS, THREADS_AT, ThreadWords, Words};

pub fn thread_at(words: &Words, t: usize) -> ThreadWords
    requires { t < thread_count }
    ensures { result ≡ thread_record words.now t }
{
    let i = THREADS_AT + t * THREAD_WORDS;
    ThreadWords {
        kind: words[i],
        len: words[i + 1],
    }
}

pub fn put_thread(words: &mut Words, t: usize, x: ThreadWords)
    requires { t < thread_count }
    ensures { words.new ≡ put_thread words.old t x }
{
    let i = THREADS_AT + t * THREAD_WORDS;
    words[i] = x.kind;
    words[i + 1] = x.len;
}

pub fn entry_at(bytes: &Bytes, t: usize, place: Place) -> Entry
    requires { (t < thread_count) × (place.0 < row_bytes) }
    ensures { result ≡ entry_record bytes.now t place.0 }
{
    let k = place.0;
    Entry {
        area: bytes[t * ROW_BYTES + k],
        inner: bytes[(INNER_ROWS + t) * ROW_BYTES + k],
    }
}

pub fn put_entry(bytes: &mut Bytes, t: usize, place: Place, x: Entry)
    requires { (t < thread_count) × (place.0 < row_bytes) }
    ensures { bytes.new ≡ put_entry bytes.old t place.0 x }
{
    let k = place.0;
    bytes[t * ROW_BYTES + k] = x.area;
    bytes[(INNER_ROWS + t) * ROW_BYTES + k] = x.inner;
}

// The whole stack of thread t becomes that of thread q: its entries, and the innermost scopes beside them.
pub fn copy_stack(bytes: &mut Bytes, t: usize, q: usize)
    requires { (t < thread_count) × (q < thread_count) }
    ensures { bytes.new ≡ copy_stack bytes.old t q }
{
    let entries = held_rows::row_at(bytes, t);
    held_rows::put_row(bytes, q, entries);
    let inner = held_rows::row_at(bytes, INNER_ROWS + t);
    held_rows::put_row(bytes, INNER_ROWS + q, inner);
}
