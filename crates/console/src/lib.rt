// What the two programs share: no arguments are taken, and an answer that cannot be written is told of.
// In specs/ is how much of a buffer was read.
//
// What is not proved, and has to be read: these two bodies, which call the system, since no contract
// says what `arg` found and `eprintln` wrote. By their types they read no standard input and write
// nothing to standard output, but that the first is given the runtime.
#![tactic(auto)]

use std::env::FillError;
use std::io::{Error, ErrorKind};
use std::rt::{Env, Stderr};

// Whether the program was given arguments, which it refuses on standard error, by a message. The first
// of those that the system counts is its own name.
pub fn refuses_arguments(rt: HostRuntime, message: &str) -> bool {
    if let Err(FillError::NotPresent) = rt.arg(1, &mut []) {
        return false;
    }
    let _ = rt.stderr().eprintln(message);
    true
}

// Tells by a message that an answer cannot be written. Where its reader has closed the pipe there is
// nobody to tell.
pub fn tell_unwritten(stderr: Stderr, error: Error, message: &str) {
    if error.kind() != ErrorKind::BrokenPipe {
        let _ = stderr.eprintln(message);
    }
}
