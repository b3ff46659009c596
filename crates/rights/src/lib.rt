// The rights table: 36 text digits, read by kind, class of area and right. Here are the kinds of threads,
// the constant table and the place of a right in any table.
#![tactic(auto)]

ghost use Rattle.std.specs.Prelude.{◌≡◌, ℕ, ◌<◌, SomeIff};
ghost use Rattle.rights.specs.Rights.{class_of, class_index, table_size, place_of, built_in};
ghost use Rattle.rights.specs.Kinds.{IsKind};

use std::marker::Model;

// A kind of threads: 1 ordinary, 2 real-time, 3 no-heap. A contract sees it as its number. It is no enum: a kind is kept in
// the tables as its number, and a place is counted by it, so an enum would be tested at every use of a right.
#[derive(Clone, Copy)]
pub struct Kind {
    number: u64,
}

impl Model for Kind {
    ghost Value = { ℕ };

    ghost view = { λ kind. kind.number };

    ghost invariant = { λ kind. IsKind kind.number };

    ghost inverse = { λ n. record { number = n } };
}

impl Kind {
    // The kind with a number, if there is one.
    pub fn new(number: u64) -> Option<Kind>
        ensures { SomeIff result (IsKind number) number }
    {
        match number {
            1..=3 => Some(Kind { number }),
            _ => None
        }
    }

    // The kind with a number that is known to be a kind's.
    pub fn of(number: u64) -> Kind
        requires { IsKind number }
        ensures { result ≡ number }
    {
        Kind { number }
    }

    pub fn number(self) -> u64
        ensures value { result ≡ self }
        ensures within { IsKind result }
    {
        self.number
    }
}

// What a thread may do: enter an area, allocate in it, use an object of it, store or load a
// reference to one.
#[derive(Clone, Copy)]
pub enum Right {
    Enter,
    Allocate,
    Use,
    Refer,
}

pub type Table = [u8; 36];

// A row for each kind: ordinary, real-time, no-heap. In a row the four rights in the heap, in immortal
// memory and in a scope.
const BUILT_IN: Table = *b"\
    111100110000\
    111111111111\
    000011111111";

// The table that is in force until another is loaded.
pub fn built_in() -> Table
    ensures { result ≡ built_in }
{
    BUILT_IN
}

// The place of an area's class in a row: heap, immortal, scope.
fn class_index(area: u64) -> usize
    ensures place { result ≡ class_index (class_of area) }
    ensures within { result < 3 }
{
    area.min(2) as usize
}

// The place in a table of a right that threads of a kind may have in an area.
pub fn place(kind: Kind, area: u64, right: Right) -> usize
    ensures place { result ≡ place_of kind (class_of area) right }
    ensures within { result < table_size }
    ensures kind { IsKind kind }
{
    let row = (kind.number - 1) as usize;
    let column = class_index(area);
    row * 12 + column * 4 + right as usize
}
