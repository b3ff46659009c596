// The generator of a rights table: 36 text digits, from one line for each kind with one hexadecimal
// digit a class.
#![tactic(auto)]

ghost use Rattle.std.specs.Prelude.{◌≡◌, [], ◌∷◌, ◌+◌, ◌*◌, ◌%◌, ◌≤◌, ◌<◌, length, is_some};
ghost use Rattle.std.specs.Option.{unwrap_or};
ghost use Rattle.std.proofs.lemmas.List.Edits.{sets};
ghost use Rattle.rights.specs.Rights.{digit0, text_of};
ghost use Rattle.generator.specs.Generator.{class_count, digit_place, is_ended, all_digits, is_source, generated};

use rights::Table;

// The classes of areas, three of each of three kinds.
const CLASSES: usize = 9;

// Where the digit of class g stands, counted through all kinds: a line has three, and a line feed.
fn place(g: usize) -> usize
    requires { g < class_count }
    ensures place { result ≡ digit_place g }
    ensures within { result < 11 }
{
    g / 3 * 4 + g % 3
}

// Three lines are 11 bytes, or 12 if the last one has its line feed.
fn is_ended(input: &[u8]) -> bool
    ensures { result ≡ is_ended input.now }
{
    input.len() == 11 || (input.len() == 12 && input[11] == b'\n')
}

// Whether a digit stands at each of the nine places.
fn all_digits(input: &[u8]) -> bool
    requires { 11 ≤ length input.now }
    ensures { result ≡ all_digits input.now }
{
    (0..CLASSES).all(|g| hexadecimal::is_digit(input[place(g)]))
}

// Whether an input is three lines of three digits.
fn is_source(input: &[u8]) -> bool
    ensures { result ≡ is_source input.now }
{
    is_ended(input) && input[3] == b'\n' && input[7] == b'\n' && all_digits(input)
}

// The lowest bit of n, as text.
fn text_digit(n: u64) -> u8
    ensures { result ≡ digit0 + n % 2 }
{
    b'0' + (n % 2) as u8
}

// Puts the four digits of class g, counted through all kinds. By its place and not as a chunk of
// `chunks_exact_mut`: once such a borrow is over, a proof knows how long the table is, and not its digits.
fn put_class(table: &mut Table, g: usize, value: u64)
    requires { g < class_count }
    ensures { table.new ≡ sets table.old (g * 4) (text_of (value ∷ [])) }
{
    let at = g * 4;
    table[at] = text_digit(value / 8);
    table[at + 1] = text_digit(value / 4);
    table[at + 2] = text_digit(value / 2);
    table[at + 3] = text_digit(value);
}

// What is printed for an input: the digits of its table, or nothing if it is no source of one.
pub fn generate(input: &[u8]) -> Option<Table>
    ensures printed { unwrap_or result [] ≡ generated input.now }
    ensures whole { is_some result ≡ is_source input.now }
{
    if !is_source(input) {
        return None;
    }
    let mut table = [0u8; 36];
    for g in 0..CLASSES {
        put_class(&mut table, g, hexadecimal::digit_value(input[place(g)]));
    }
    Some(table)
}
