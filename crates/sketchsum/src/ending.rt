//! The program's exit status, and its line on standard error.

ghost use Rattle.std.specs.Prelude.{◌≡◌};
ghost use Rattle.sketchsum.specs.{status_of, line_of};

/// Why a run wrote no hash.
#[derive(Clone, Copy, Debug, PartialEq, Eq)]
pub enum RunFault {
    /// A read failed. Nothing was written.
    Read,
    /// The input did not end within the allowed reads. Nothing was written.
    TooLong,
    /// A write or the flush failed. How much was written is unknown.
    Write,
}

/// The outcome of a run of the program.
#[derive(Clone, Copy, Debug, PartialEq, Eq)]
pub enum Outcome {
    /// The hash was written.
    Done,
    /// The run failed.
    Fault(RunFault),
    /// There is no memory for the arguments or for the read buffer.
    NoMemory,
    /// The arguments are wrong.
    Usage,
}

/// The exit status, and the line on standard error, which is empty on success.
pub fn ending(end: Outcome) -> (u8, &'static str)
    ensures status { result.0 ≡ status_of end }
    ensures line { result.1.now ≡ line_of end }
{
    match end {
        Outcome::Done => (0, ""),
        Outcome::Fault(RunFault::Read) => (1, "read fault"),
        Outcome::Fault(RunFault::TooLong) => (1, "input too long"),
        Outcome::Fault(RunFault::Write) => (1, "write fault"),
        Outcome::NoMemory => (1, "out of memory"),
        Outcome::Usage => (2, "usage: sketchsum murmur|xx SEED"),
    }
}
