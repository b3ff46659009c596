// The fields of a line, and whether the line is a frame.
ghost use Rattle.std.specs.Prelude.{◌≡◌, true, List, ℕ};
ghost use Rattle.lines.specs.Hexadecimal.{all_digits};
ghost use Rattle.lines.specs.Frames.{fields_of, unused_zero, parsed_of};
ghost use Rattle.lines.specs.Lines.{Buffered};

use crate::digit::{all_digits, field};
use crate::line::Line;
use model::{Form, Op};

// A frame: op 2 digits, thread 2, p 16, q 4, r 16.
#[derive(Clone, Copy)]
pub struct Fields {
    pub op: Op,
    pub thread: u64,
    pub p: u64,
    pub q: u64,
    pub r: u64,
}

// The other fields of a line whose op is known.
#[tactic(auto, unfolding(crate::specs::Frames::fields_of))]
fn read_fields(text: &[u8; 40], op: Op) -> Fields
    requires { all_digits text.now ≡ true }
    ensures { result ≡ fields_of op text.now }
{
    Fields {
        op,
        thread: field(&text[2..4]),
        p: field(&text[4..20]),
        q: field(&text[20..24]),
        r: field(&text[24..]),
    }
}

// Unused fields are 0.
#[tactic(auto, unfolding(crate::specs::Frames::unused_zero))]
fn unused_zero(f: Fields, form: Form) -> bool
    ensures { result ≡ unused_zero f form.p form.q form.r }
{
    (form.p || f.p == 0) && (form.q || f.q == 0) && (form.r || f.r == 0)
}

impl Line {
    // What the line so far says as a whole line.
    pub fn parse(&self) -> Option<Fields>
        ensures { (l : List ℕ) → Buffered self.now l → result ≡ parsed_of l }
    {
        if self.len != 40 || !all_digits(&self.text) {
            return None;
        }
        let form = opcodes::op_of(field(&self.text[..2]))?;
        let fields = read_fields(&self.text, form.op);
        if unused_zero(fields, form) {
            Some(fields)
        } else {
            None
        }
    }
}
