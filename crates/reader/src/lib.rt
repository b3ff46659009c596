// Frames on lines: the answers to an input that comes in chunks. It rests on the contracts of the
// crates below alone.
#![tactic(auto)]

pub mod feed; // feed.rt: chunks of input to answers
