//! Checks of the preambles of serialized sketches. A check that accepts takes no memory. One that
//! fails requests memory for the text of its error.

ghost use Rattle.std.specs.Prelude.{◌≡◌, ℕ, List, Contains, IsTrue, IfOk, string_bytes};
ghost use Rattle.sketch_base.specs.Checks.{AcceptsExactly, range};
ghost use Rattle.sketch_base.specs.Refusals.{insufficient_data_of_text, invalid_preamble_longs_text, preamble_longs_out_of_range_text, Refuses, unsupported_serial_version_text};

use crate::error::{Error, ErrorKind};
use std::alloc::{AllocError, Global};
use std::io;
use std::ops::Bound::{self, Excluded, Included, Unbounded};
use std::ops::RangeBounds;

/// The error for data that ended too early: `insufficient data (TAG): TEXT`. The tag names the part
/// that was cut off, and the text is what `error` prints. No clause says that the text is the
/// error's; a test shows it.
///
/// Returns an error of kind `OutOfMemory` with an empty message if there is no memory for the text.
pub fn insufficient_data(alloc: Global, tag: &'static str, error: io::Error) -> Error
    ensures { (text : List ℕ)
        × Refuses ErrorKind.InvalidData (insufficient_data_of_text tag.entry.now text) result }
{
    Error::insufficient_data_of(alloc, tag, error)
}

/// Accepts exactly the expected serial version.
///
/// # Errors
///
/// Returns `InvalidData` for any other, or `OutOfMemory` with an empty message if there is no
/// memory for the text.
pub fn ensure_serial_version_is(alloc: Global, expected: u8, actual: u8) -> Result<(), Error>
    ensures { AcceptsExactly (actual ≡ expected)
        (unsupported_serial_version_text expected actual) result }
{
    if expected == actual {
        return Ok(());
    }
    let text = format!(in alloc; "unsupported serial version: expected {expected}, got {actual}");
    Err(Error::from_text(alloc, ErrorKind::InvalidData, text))
}

/// Accepts exactly the listed numbers of preamble longs.
///
/// # Errors
///
/// Returns `InvalidData` for any other, or `OutOfMemory` with an empty message if there is no
/// memory for the text.
pub fn ensure_preamble_longs_in(alloc: Global, expected: &[u8], actual: u8) -> Result<(), Error>
    ensures { AcceptsExactly (Contains expected.now actual)
        (invalid_preamble_longs_text expected.now actual) result }
{
    if expected.contains(&actual) {
        return Ok(());
    }
    Err(Error::invalid_preamble_longs(alloc, expected, actual))
}

/// Accepts exactly the numbers of preamble longs between the two ends: none if the ends are
/// reversed, all if both are open.
///
/// # Errors
///
/// Returns `InvalidData` for any other, or `OutOfMemory` with an empty message if there is no
/// memory for the text.
pub fn ensure_preamble_longs_in_range(
    alloc: Global,
    start: Bound<u8>,
    end: Bound<u8>,
    actual: u8,
) -> Result<(), Error>
    ensures { AcceptsExactly (IsTrue ((range start end).has actual))
        (preamble_longs_out_of_range_text (range start end).text actual) result }
{
    if (start, end).contains(&actual) {
        return Ok(());
    }
    let text = printed_range(alloc, start, end).and_then(|range| {
        format!(in alloc; "invalid preamble longs: expected {range}, got {actual}")
    });
    Err(Error::from_text(alloc, ErrorKind::InvalidData, text))
}

// The text of the range between the two ends. A range with two open ends has none, as it accepts
// every number.
fn printed_range(alloc: Global, start: Bound<u8>, end: Bound<u8>) -> Result<String, AllocError>
    ensures { IfOk result (λ text. string_bytes text ≡ (range start end).text) }
{
    match (start, end) {
        (Included(a), Included(b)) => format!(in alloc; "[{a}, {b}]"),
        (Included(a), Excluded(b)) => format!(in alloc; "[{a}, {b})"),
        (Excluded(a), Included(b)) => format!(in alloc; "({a}, {b}]"),
        (Excluded(a), Excluded(b)) => format!(in alloc; "({a}, {b})"),
        (Unbounded, Included(b)) => format!(in alloc; "at most {b}"),
        (Unbounded, Excluded(b)) => format!(in alloc; "less than {b}"),
        (Included(a), Unbounded) => format!(in alloc; "at least {a}"),
        (Excluded(a), Unbounded) => format!(in alloc; "greater than {a}"),
        (Unbounded, Unbounded) => Ok(String::new(alloc)),
    }
}
