// What a handle leads to, and what calls on an object have in common.
#![tactic(auto)]

mod find; // find.rt: the object that a handle leads to
mod check; // check.rt: refusals 13 and 5 of a call on an object
mod index; // index.rt: refusal 14 of a call on a word of an object

pub use check::check_object;
pub use find::{Resolved, lookup};
pub use index::{Part, WordPlace, check_index};
