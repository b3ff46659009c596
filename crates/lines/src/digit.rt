// Runs of lower-case hexadecimal digits, and the number that one stands for.
ghost use Rattle.std.specs.Prelude.{◌≡◌};
ghost use Rattle.lines.specs.Hexadecimal.{all_digits, number_from, ShortDigits};

use hexadecimal::{digit_value, is_digit};

// No byte ends the fold early, so that the compiler can look at several bytes at a time.
pub fn all_digits(text: &[u8; 40]) -> bool
    ensures { result ≡ all_digits text.now }
{
    text.iter().fold(true, |all, b| all & is_digit(*b))
}

// The number of at most 16 digits, the highest first: below 16^16, so that nothing wraps.
pub fn field(digits: &[u8]) -> u64
    requires { ShortDigits digits.now }
    ensures { result ≡ number_from 0 digits.now }
{
    let mut value = 0u64;
    for b in digits {
        value = value * 16 + digit_value(*b);
    }
    value
}
