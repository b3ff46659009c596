// An answer: status 2 digits, value 16 digits and a line feed, written in place.
ghost use Rattle.std.specs.Prelude.{◌≡◌, ◌+◌, ◌<◌, ◌≤◌, length};
ghost use Rattle.std.proofs.lemmas.List.Edits.{sets};
ghost use Rattle.lines.specs.Answers.{digit_of, digits_of, answer_of};

#[tactic(auto, unfolding(crate::specs::Answers::digit_of))]
fn digit_of(v: u8) -> u8
    requires { v < 16 }
    ensures { result ≡ digit_of v }
{
    if v < 10 { b'0' + v } else { 87 + v }
}

// The lowest digits of v, as many as there is room for. Each is found by itself, so that the compiler
// can write several at a time.
fn write_digits(digits: &mut [u8], v: u64)
    requires { length digits.old ≤ 16 }
    ensures { digits.new ≡ digits_of v (length digits.old) }
{
    let mut shift = 4 * digits.len();
    for digit in digits.iter_mut() {
        shift -= 4;
        *digit = digit_of(((v >> shift) % 16) as u8);
    }
}

// The 19 bytes from at on become the answer; every other byte stays, so it is not passed those alone.
pub fn write_answer(output: &mut [u8], at: usize, status: u64, value: u64)
    requires { at + 19 ≤ length output.old }
    ensures { output.new ≡ sets output.old at (answer_of status value) }
{
    write_digits(&mut output[at..at + 2], status);
    write_digits(&mut output[at + 2..at + 18], value);
    output[at + 18] = b'\n';
}
