// The tables that hold the state, lent and updated in place, and where each record lies in them. The crates
// `held_*` read and write the records, one crate for each sort, and nothing else does.
//
// The words hold 64 areas of 8 words (the last word of each is spare and 0), 16 threads of 2 (kind,
// length of the stack), the three lengths of set-up and 16 words of used bits, one for each block of scratch. The bytes
// are rows of 32: row t has the entries of thread t, row 16 + t beside each entry the innermost scope
// as of it, row 32 + a the display of area a; behind the rows come the 36 digits of the rights table.
#![tactic(auto)]

ghost use Rattle.std.specs.Prelude.{◌≡◌};
ghost use Rattle.tables.specs.Contract.{memory_of};

use std::marker::Model;

// ---- the buffers

// The four buffers of a host, as a call reads them. What a call writes it is given by itself.
#[derive(Drop)]
pub struct Buffers<'a> {
    pub permanent: &'a [u64],
    pub scratch: &'a [u64],
    pub map: &'a [u64],
    pub written: &'a [u64],
}

impl<'a> Model for Buffers<'a> {
    ghost use Rattle.model.specs.State.{Memory};
    ghost use Rattle.tables.specs.Contract.{memory_of};

    ghost Value = { Memory };

    ghost view = { λ b. memory_of b.permanent.now b.scratch.now b.map.now b.written.now };
}

impl<'a> Buffers<'a> {
    pub fn of(
        permanent: &'a [u64],
        scratch: &'a [u64],
        map: &'a [u64],
        written: &'a [u64],
    ) -> Buffers<'a>
        ensures { result ≡ memory_of permanent.now scratch.now map.now written.now }
    {
        Buffers {
            permanent,
            scratch,
            map,
            written,
        }
    }
}

// ---- records

// The words of a thread: its kind, 0 where it is not started, and how many entries its stack has.
#[derive(Clone, Copy)]
pub struct ThreadWords {
    pub kind: u64,
    pub len: u64,
}

// An entry of a stack: its area, and the innermost scope as of it, 0 for none.
#[derive(Clone, Copy)]
pub struct Entry {
    pub area: u8,
    pub inner: u8,
}

// ---- the words
//
// Words and bytes are two arrays, and no struct with an invariant: a host in C keeps them and hands over each by itself, the
// one that a call only reads as const. So what calls ask of both, `Ready`, stands in their contracts.

pub const AREAS: usize = 64;

pub const THREADS: usize = 16;

pub const AREA_WORDS: usize = 8;

pub const THREADS_AT: usize = AREAS * AREA_WORDS;

pub const THREAD_WORDS: usize = 2;

pub const LENGTHS_AT: usize = THREADS_AT + THREADS * THREAD_WORDS;

pub const USED_BITS_AT: usize = LENGTHS_AT + 3;

pub const USED_BITS_WORDS: usize = 16;

pub const WORDS: usize = USED_BITS_AT + USED_BITS_WORDS;

pub type Words = [u64; WORDS];

// ---- the bytes

pub const ROW_BYTES: usize = 32;

pub const INNER_ROWS: usize = THREADS;

pub const DISPLAY_ROWS: usize = INNER_ROWS + THREADS;

pub const ROWS: usize = DISPLAY_ROWS + AREAS;

pub const RIGHTS_AT: usize = ROWS * ROW_BYTES;

pub const RIGHTS: usize = 36;

pub const BYTES: usize = RIGHTS_AT + RIGHTS;

pub type Bytes = [u8; BYTES];
