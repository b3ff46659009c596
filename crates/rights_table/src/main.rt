// Standard input to standard output: three lines of three hexadecimal digits to the 36 digits of a
// rights table. The work is done in `generator`; here are the reads and the write.
//
// What is proved: a read puts its bytes behind those of the reads before it and changes none of
// these; there are never more than 13, and the reads end; and what is written is what the generator
// prints for the input that `answer` is given.
//
// What is not proved, and has to be read: the bodies of the functions that call the system, `read_more`
// and `write_digits`, with `tell_unwritten` and `refuses_arguments` in `console`, since no contract says
// which bytes `read` gave and `write_all` took; and `run`, where the input to answer is all that was
// read, and a read that failed is told and nothing answered. By their types, `read_input` can write
// nothing, and `answer` reads nothing: neither is given the handle for it.
#![tactic(auto)]

ghost use Rattle.std.specs.Prelude.{◌≡◌, ◌≤◌, length, take, IfOk};
ghost use Rattle.console.specs.Counts.{IsPrefixLen};
ghost use Rattle.generator.specs.Generator.{generated};

use std::io::{Error, Read};
use std::rt::{Env, Stderr, Stdin, Stdout};

// One more read, behind the first n bytes of the input: how many bytes there are now. At the end of
// standard input they are n, as before.
fn read_more(mut stdin: Stdin, input: &mut [u8], n: usize) -> Result<usize, Error>
    requires { n ≤ length input.old }
    ensures counted { IfOk result (λ total. IsPrefixLen total input.new) }
    ensures kept { take n input.new ≡ take n input.old }
{
    let more = stdin.read(&mut input[n..])?;
    Ok(n + more)
}

// Reads until the input is full or a read adds nothing: how many bytes there are then. By hand: without the heap the library
// has no read that fills a slice as far as the input goes.
fn read_input(stdin: Stdin, input: &mut [u8]) -> Result<usize, Error>
    ensures { IfOk result (λ n. IsPrefixLen n input.new) }
{
    let mut n = 0;
    while n < input.len() {
        let total = read_more(stdin, input, n)?;
        if total <= n {
            break;
        }
        n = total;
    }
    Ok(n)
}

// Writes what is generated from an input, which only the contract looks at. If not all of it is
// written, standard error says so.
fn write_digits(stdout: Stdout, stderr: Stderr, digits: &[u8], input: &[u8])
    requires { digits.now ≡ generated input.now }
{
    if let Err(error) = stdout.write_all(digits) {
        console::tell_unwritten(stderr, error, "rights_table: the digits cannot be written");
    }
}

// Writes the digits of a table, or nothing if the input is no source of one.
fn answer(stdout: Stdout, stderr: Stderr, input: &[u8]) {
    let table = generator::generate(input);
    let digits: &[u8] = match &table {
        Some(digits) => digits,
        None => &[],
    };
    write_digits(stdout, stderr, digits, input);
}

// A source has 12 bytes at most, so 13 show that an input is longer. If it cannot be read, standard
// error says so, and nothing is printed.
fn run(rt: HostRuntime) {
    let mut input = [0u8; 13];
    match read_input(rt.stdin(), &mut input) {
        Ok(n) => answer(rt.stdout(), rt.stderr(), &input[..n]),
        Err(_) => {
            let _ = rt
                .stderr()
                .eprintln("rights_table: standard input cannot be read");
        }
    }
}

fn main(rt: HostRuntime) {
    if !console::refuses_arguments(
        rt,
        "rights_table: it takes no arguments; the lines of a table are read from standard input (README.md, Rights)",
    ) {
        run(rt);
    }
}
