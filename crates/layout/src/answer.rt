// The reply of every call: a value, or the refusal of the call; and the same in numbers, as C sees it.
ghost use Rattle.std.specs.Prelude.{◌≡◌};
ghost use Rattle.layout.specs.Answer.{number_of, status_of, answer_of};

// Why a call is refused. The numbers are those of documents 01 and 02.
#[derive(Clone, Copy, PartialEq, Eq)]
pub enum Refusal {
    Lengths = 1, // the buffers' lengths are not those of set-up; of set-up: they do not fit
    Thread = 2, // thread above 15, or not started
    Started = 3, // thread started and not ended
    Kind = 4, // kind not 1, 2 or 3
    Right = 5, // the thread's kind lacks the right
    Area = 6, // area above 63, or scope not made
    Made = 7, // scope already made
    Size = 8, // size 0, or no run of free blocks holds it
    StackFull = 9, // stack has 32 entries
    Parent = 10, // scope open with another parent
    Entries = 11, // exit or pop with an empty stack; end with entries
    Room = 12, // the object does not fit into the current area
    Object = 13, // object null or not live
    Index = 14, // slot or data index not below the object's
    Target = 15, // target or loaded word neither null nor live
    Assignment = 16, // the assignment rule forbids the reference
    GenerationsOut = 17, // scope not open, its generation the last one
    NoFrame = 18, // a line is no frame
    Unwritten = 19, // nobody wrote this data word since the object was made
    Open = 20, // the scope is open
    Table = 23, // not 36 digits, a digit other than 0 and 1, or A without U
    Running = 24, // a thread is started
}

impl Refusal {
    pub fn number(self) -> u64
        ensures { result ≡ number_of self }
    {
        self as u64
    }
}

// The status of a check: 0 where it passes.
pub fn status_of(checked: Result<(), Refusal>) -> u64
    ensures { result ≡ status_of checked }
{
    match checked {
        Ok(()) => 0,
        Err(refusal) => refusal.number(),
    }
}

// What a call answers: status 0 and a value, or a refusal and 0.
#[repr(C)]
#[derive(Clone, Copy)]
pub struct Answer {
    pub status: u64,
    pub value: u64,
}

impl From<Result<u64, Refusal>> for Answer {
    ghost from_gives = { λ r a. a ≡ answer_of r };

    fn from(r: Result<u64, Refusal>) -> Answer {
        match r {
            Ok(value) => Answer { status: 0, value },
            Err(refusal) => Answer {
                status: refusal.number(),
                value: 0,
            }
        }
    }
}
