// What a call asks of its caller: refusals 1 and 2, with which every call begins; a thread's rights; what is
// seen of its stack by one look.
#![tactic(auto)]

mod caller; // caller.rt: refusals 1 and 2
mod right; // right.rt: the rights of a kind, and of a thread
mod stack; // stack.rt: the top of a stack

pub use caller::{check_caller, check_lengths, check_thread, lengths_fit};
pub use right::{has_right, kind_may};
pub use stack::top_entry;
