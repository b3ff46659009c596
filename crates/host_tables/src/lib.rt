// The core for C and Rust: the calls without an op, which replace a table of the state. They are lent
// the state alone, no buffer of set-up, and ask for what every call asks, `Ready`.
#![tactic(auto)]

ghost use Rattle.model.specs.Calls.{load_rights};
ghost use Rattle.tables.specs.Contract.{AnswersAlone, Ready};

use layout::answer::Answer;
use tables::{Bytes, Words};

// The rights table in force becomes the 36 digits of a text.
pub fn scopes_load_rights(words: &Words, bytes: &mut Bytes, text: &[u8]) -> Answer
    requires { Ready words.now bytes.old }
    ensures { AnswersAlone result (load_rights text.now) words.now bytes.old words.now bytes.new }
{
    loading::load_rights(words, bytes, text).into()
}
