// One line: the digits of its fields, the op and whether the line is a frame, what is kept of it while it
// comes in, and how it is answered. It knows no state, and of a call only its op.
#![tactic(auto)]

mod digit; // digit.rt: runs of digits, and the number of a field
pub mod frame; // frame.rt: the fields of a line, and whether they are a frame
pub mod line; // line.rt: the line so far
pub mod answer; // answer.rt: an answer
