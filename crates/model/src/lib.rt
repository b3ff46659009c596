// What is right: the machine of document 01 in definitions, and the theorem over every list of
// calls. There is no code here but the types that the definitions share with the code.
#![tactic(auto)]

// An area: where its words start in its store, how many it has, how many are used, its generation,
// its reference count, its parent (0 for none) and its depth (0 unless it is an open scope).
#[derive(Clone, Copy)]
pub struct Area {
    pub start: u64,
    pub size: u64,
    pub used: u64,
    pub generation: u64,
    pub count: u64,
    pub parent: u64,
    pub depth: u64,
}

// The lengths that set-up keeps, in words. The written map has the start map's.
#[derive(Clone, Copy)]
pub struct Lengths {
    pub permanent: u64,
    pub scratch: u64,
    pub map: u64,
}

// The ops that touch no lent word.
#[derive(Clone, Copy)]
pub enum StateOp {
    Start,
    End,
    Make,
    Enter,
    Exit,
    StartHelper,
    Remove,
}

// The ops that write lent words.
#[derive(Clone, Copy)]
pub enum MemoryOp {
    Allocate,
    Store,
    Write,
}

// The ops that change nothing.
#[derive(Clone, Copy)]
pub enum QuestionOp {
    Load,
    Read,
}

// The ops, 01 to 0c, by what they may touch.
#[derive(Clone, Copy)]
pub enum Op {
    State(StateOp),
    Memory(MemoryOp),
    Question(QuestionOp),
}

// The op of a number, and which of the fields p, q and r it uses.
#[derive(Clone, Copy)]
pub struct Form {
    pub op: Op,
    pub p: bool,
    pub q: bool,
    pub r: bool,
}
