// The load of a rights table: 36 text digits take the place of the table in force. A call without an
// op: it is lent no buffer, and refusal 1 is not asked.
#![tactic(auto)]

ghost use Rattle.std.specs.Prelude.{◌≡◌, length};
ghost use Rattle.layout.specs.Answer.{status_of, answer_of};
ghost use Rattle.rights.specs.Rights.{table_size, only_binary, allocators_use, is_table};
ghost use Rattle.model.specs.Configuration.{any_started, load_rights_status};
ghost use Rattle.model.specs.Calls.{load_rights};
ghost use Rattle.tables.specs.Contract.{AnswersAlone, Ready};
ghost use Rattle.tables.specs.Decode.{state_of};

use layout::answer::Refusal;
use tables::{Bytes, Words};

// ---- what may be loaded

// Whether each of 36 digits is 0 or 1. No digit ends the fold early, and no group or thread its loop below, so that the
// compiler can look at several at a time: by `all` and `any` a load took 274 instructions where this has 154.
fn only_binary(text: &[u8]) -> bool
    requires { length text.now ≡ table_size }
    ensures { result ≡ only_binary text.now }
{
    text.iter().fold(
        true,
        |all, digit| all & ((*digit == b'0') | (*digit == b'1')),
    )
}

// Whether in each of the nine groups of four digits A stands only with U.
fn allocators_use(text: &[u8]) -> bool
    requires { length text.now ≡ table_size }
    ensures { result ≡ allocators_use text.now }
{
    let mut all = true;
    for g in 0..9 {
        all &= (text[g * 4 + 1] == b'0') | (text[g * 4 + 2] == b'1');
    }
    all
}

fn is_table(text: &[u8]) -> bool
    ensures { result ≡ is_table text.now }
{
    text.len() == 36 && only_binary(text) && allocators_use(text)
}

// ---- when

fn any_started(words: &Words, bytes: &Bytes) -> bool
    ensures { result ≡ any_started (state_of words.now bytes.now) }
{
    let mut some = false;
    for t in 0..16 {
        some |= 0 < held_threads::thread_at(words, t).kind;
    }
    some
}

fn check_load(words: &Words, bytes: &Bytes, text: &[u8]) -> Result<(), Refusal>
    ensures { status_of result ≡ load_rights_status (state_of words.now bytes.now) text.now }
{
    if !is_table(text) {
        return Err(Refusal::Table);
    }
    if any_started(words, bytes) {
        return Err(Refusal::Running);
    }
    Ok(())
}

// ---- the load

pub fn load_rights(words: &Words, bytes: &mut Bytes, text: &[u8]) -> Result<u64, Refusal>
    requires { Ready words.now bytes.old }
    ensures { AnswersAlone (answer_of result) (load_rights text.now)
        words.now bytes.old words.now bytes.new }
{
    check_load(words, bytes, text)?;
    held_rights::put_rights(bytes, text);
    Ok(0)
}
