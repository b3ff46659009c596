// The lower crate: how a handle, a header, a scope stack and a display are laid out in numbers. It
// knows no state and no call.
#![tactic(auto)]

pub mod handle; // handle.rt: a handle and an object's header, packed into one word each
pub mod answer; // answer.rt: what a call answers
pub mod stack; // stack.rt: one thread's scope stack as a record, and places on it
pub mod display; // display.rt: a scope's display, and depths in it
