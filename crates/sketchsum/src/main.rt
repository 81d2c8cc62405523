//! `sketchsum murmur|xx SEED` prints the hash of its standard input.
#![tactic(auto)]

mod arguments;
mod digest;
mod ending;
mod run;
#[cfg(test)]
mod tests;

use self::arguments::parse;
use self::ending::{Outcome, ending};
use self::run::run;
use std::env::{self, FillError};
use std::io::{BufReader, ErrorKind};
use std::process::ExitCode;
use std::rt::Env;

/// The size of the read buffer. With 4096 bytes the system calls would take as long as the hash.
const BUFFER_BYTES: usize = 65_536;

fn main(rt: HostRuntime) -> ExitCode {
    let outcome = match call(&rt) {
        Ok(()) => Outcome::Done,
        Err(outcome) => outcome,
    };
    let (status, line) = ending(outcome);
    if !line.is_empty() {
        // If standard error is closed, the status still tells the outcome.
        let _ = rt.eprintln(line);
    }
    ExitCode::from(status)
}

// Reads the arguments, parses them, and runs.
fn call(rt: &HostRuntime) -> Result<(), Outcome> {
    let args = args(rt)?;
    let Some((algorithm, seed)) = parse(&args) else {
        return Err(Outcome::Usage);
    };
    let Ok(mut input) = BufReader::with_capacity(rt.alloc(), BUFFER_BYTES, rt.stdin()) else {
        return Err(Outcome::NoMemory);
    };
    run(algorithm, seed, &mut input, &mut rt.stdout()).map_err(Outcome::Fault)
}

// The arguments after the program's name. Fails if there is no memory, or if one is not UTF-8.
fn args(rt: &HostRuntime) -> Result<Vec<String>, Outcome> {
    let args = match env::args(&(Nameless(rt), rt.alloc())) {
        Ok(args) => args,
        Err(error) if error.kind() == ErrorKind::OutOfMemory => return Err(Outcome::NoMemory),
        Err(_) => return Err(Outcome::Usage),
    };
    args.collect(rt.alloc()).map_err(|_| Outcome::NoMemory)
}

// The environment without argument 0, the program's name. `env::args` fails at any argument that is
// not UTF-8, and a program's name need not be.
#[derive(Drop)]
struct Nameless<'a>(&'a HostRuntime);

impl Env for Nameless<'_> {
    fn arg(&self, i: usize, buf: &mut [u8]) -> Result<usize, FillError> {
        let place = i.checked_add(1).ok_or(FillError::NotPresent)?;
        self.0.arg(place, buf)
    }

    fn var(&self, name: &str, buf: &mut [u8]) -> Result<usize, FillError> {
        self.0.var(name, buf)
    }

    fn var_at(&self, i: usize, buf: &mut [u8]) -> Result<usize, FillError> {
        self.0.var_at(i, buf)
    }
}
