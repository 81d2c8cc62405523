//! The line of a digest.

ghost use Rattle.std.specs.Prelude.{◌≡◌, ◌++◌, OnOk, OnErr, Err, Some, IfSome};
ghost use Rattle.std.specs.Io.KnownBytes.{Appends};
ghost use Rattle.sketchsum.specs.{hex_word, newline};

use crate::ending::RunFault;
use std::fmt::{self, Display};
use std::io::Write;

/// Writes a line and flushes.
pub fn write_line<W: Write, D: Display + Drop>(writer: &mut W, line: D) -> Result<(), RunFault>
    ensures line { OnOk result (IfSome (D.output line) (λ text.
        Appends (W.contents writer.old) (W.contents writer.new) (text ++ newline))) }
    ensures fault { OnErr result (result ≡ Err RunFault.Write) }
{
    writer.writeln(line).map_err(|_| RunFault::Write)?;
    writer.flush().map_err(|_| RunFault::Write)
}

/// A word in sixteen lower-case hexadecimal digits.
#[derive(Drop)]
pub struct HexWord(pub u64);

impl fmt::Display for HexWord {
    ghost output = { λ word. Some (hex_word word.0) };

    #[tactic(auto, using(crate::proofs::DigitLemmas::hex_word_is))]
    fn fmt<W: fmt::Write>(&self, f: &mut fmt::Formatter<W>) -> fmt::Result {
        let word = self.0;
        write!(f, "{word:016x}")
    }
}
