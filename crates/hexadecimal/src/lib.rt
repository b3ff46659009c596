// Lower-case hexadecimal digits, and the number that one stands for.
#![tactic(auto)]

ghost use Rattle.std.specs.Prelude.{◌≡◌, true};
ghost use Rattle.hexadecimal.specs.Digit.{is_digit, digit_value};

// 0 to 9, a to f. With `|` in place of `||` or one pattern, so that it compiles without branches: one pattern is
// longer, 95 instructions where this has 77 in a loop over 40 bytes.
pub fn is_digit(b: u8) -> bool
    ensures { result ≡ is_digit b }
{
    b.is_ascii_digit() | matches!(b, b'a'..=b'f')
}

pub fn digit_value(b: u8) -> u64
    requires { is_digit b ≡ true }
    ensures { result ≡ digit_value b }
{
    let value = if b <= b'9' { b - b'0' } else { b - b'a' + 10 };
    value.into()
}
