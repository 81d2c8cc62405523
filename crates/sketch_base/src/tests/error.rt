//! What errors print, and contexts without memory.

use super::{assert_line, has_line, print_out_of_memory};
use crate::error::Error;
use crate::error::ErrorKind::{self, InvalidArgument, InvalidData, OutOfMemory};
use std::alloc::{AllocError, Global};
use std::io::Eprint;
use std::process::Abort;
use std::test::Fail;

fn error_of(alloc: Global, kind: ErrorKind, message: &str) -> Result<Error, AllocError> {
    Ok(Error::new(kind, String::from_str(alloc, message)?))
}

// Asserts that a text was built, and that it is this one.
fn assert_text(rt: &impl Abort, made: Result<String, AllocError>, text: &str) {
    assert_eq!(rt; made.ok().as_deref(), Some(text));
}

#[test]
fn kinds_print_their_names_at_any_width(rt: HostRuntime) {
    let (alloc, names) = (rt.alloc(), "InvalidArgument InvalidData OutOfMemory");
    let (a, b, c) = (InvalidArgument, InvalidData, OutOfMemory);
    assert_text(&rt, format!(in alloc; "{a:20} {b:20} {c:20}"), names);
    assert_text(&rt, format!(in alloc; "{a:?} {b:?} {c:?}"), names);
}

#[test]
fn an_error_without_a_message_prints_its_kind_alone(rt: HostRuntime) {
    let bare = Error::new(OutOfMemory, String::new(rt.alloc()));
    assert_text(&rt, format!(in rt.alloc(); "{bare:20}"), "OutOfMemory");
    assert_line(&rt, bare, "OutOfMemory");
}

// The alternate form of an error with two contexts.
const FIELDS: &str = "Error {
    kind: InvalidData,
    message: \"m\",
    context: [
        (
            \"index\",
            \"42\",
        ),
        (
            \"file\",
            \"foo\",
        ),
    ],
}";

#[test]
fn errors_print_their_contexts_at_any_width(rt: HostRuntime) -> Result<(), Fail> {
    let alloc = rt.alloc();
    let error = error_of(alloc, InvalidData, "parsing failed")?;
    let error = error.with_context(alloc, "index", 42u8)?;
    let error = error.with_context(alloc, "file", "foo")?;
    let line = "InvalidData, context: { index: 42, file: foo } => parsing failed";
    assert_text(&rt, format!(in alloc; "{error:>99}"), line);
    assert_line(&rt, error, line);
    let bare = Error::new(InvalidData, String::new(alloc)).with_context(alloc, "a", 1u8)?;
    let line = "InvalidData, context: { a: 1 }";
    assert_text(&rt, format!(in alloc; "{bare:99}"), line);
    assert_line(&rt, bare, line);
    Ok(())
}

#[test]
fn errors_print_their_contexts_for_debugging(rt: HostRuntime) -> Result<(), Fail> {
    let alloc = rt.alloc();
    let error = error_of(alloc, InvalidData, "m")?.with_context(alloc, "a", 1u8)?;
    let lines = "InvalidData => m\n\nContext:\n   a: 1\n";
    assert_text(&rt, format!(in alloc; "{error:?}"), lines);
    let error = error_of(alloc, InvalidData, "m")?;
    assert_text(&rt, format!(in alloc; "{error:?}"), "InvalidData => m\n");
    let fields = "Error {\n    kind: InvalidData,\n    message: \"m\",\n    context: [],\n}";
    assert_text(&rt, format!(in alloc; "{error:#?}"), fields);
    let bare = Error::from(AllocError);
    let fields = "Error {\n    kind: OutOfMemory,\n    message: \"\",\n    context: [],\n}";
    assert_text(&rt, format!(in alloc; "{bare:#?}"), fields);
    let error = error.with_context(alloc, "index", 42u8)?;
    let error = error.with_context(alloc, "file", "foo")?;
    assert_text(&rt, format!(in alloc; "{error:#?}"), FIELDS);
    Ok(())
}

#[test]
fn something_went_wrong_prints_at_any_width(rt: HostRuntime) -> Result<(), AllocError> {
    let wrong = error_of(rt.alloc(), InvalidArgument, "something went wrong")?;
    assert!(rt; wrong.kind() == InvalidArgument && wrong.message() == "something went wrong");
    let line = "InvalidArgument => something went wrong";
    assert_text(&rt, format!(in rt.alloc(); "{wrong:99}"), line);
    assert_line(&rt, wrong, line);
    Ok(())
}

#[test]
fn bad_input_is_the_message_of_each_constructor(rt: HostRuntime) -> Result<(), AllocError> {
    let bad = error_of(rt.alloc(), InvalidArgument, "bad input")?;
    assert!(rt; bad.kind() == InvalidArgument && bad.message() == "bad input");
    let bad = Error::invalid_argument(String::from_str(rt.alloc(), "bad input")?);
    assert_line(&rt, bad, "InvalidArgument => bad input");
    let bad = Error::deserial(String::from_str(rt.alloc(), "bad input")?);
    assert_line(&rt, bad, "InvalidData => bad input");
    Ok(())
}

// Whether there was memory for each text. After a refused request the next text is built all the
// same.
fn try_texts(rt: &impl Abort, alloc: Global) -> bool {
    let short = Error::insufficient_data(alloc, "x");
    let header = Error::insufficient_data_of(alloc, "header", 5u8);
    let longs = Error::invalid_preamble_longs(alloc, &[1, 2], 3);
    let ints = Error::invalid_preamble_ints(alloc, 2, 9);
    let has_short = has_line(rt, short, "InvalidData => insufficient data: x");
    let has_header = has_line(rt, header, "InvalidData => insufficient data (header): 5");
    let line = "InvalidData => invalid preamble longs: expected one of [1, 2], got 3";
    let has_longs = has_line(rt, longs, line);
    let line = "InvalidData => invalid preamble ints: expected 2, got 9";
    has_line(rt, ints, line) && has_short && has_header && has_longs
}

#[test]
fn errors_have_the_texts_of_their_constructors(rt: HostRuntime) {
    assert!(rt; try_texts(&rt, rt.alloc()));
}

#[test]
fn texts_that_are_built_without_memory(rt: HostRuntime) {
    if !try_texts(&rt, rt.alloc()) {
        print_out_of_memory(&rt);
    }
}

// The error after an attempt to add a context, and whether it was added.
fn after_attempt(rt: &impl Eprint, added: Result<Error, Error>) -> (Error, bool) {
    match added {
        Ok(error) => (error, true),
        Err(error) => {
            print_out_of_memory(rt);
            (error, false)
        }
    }
}

// Without memory for a context the error is unchanged.
#[test]
fn contexts_without_memory(rt: HostRuntime) {
    let Ok(error) = error_of(rt.alloc(), InvalidData, "parsing failed") else {
        return print_out_of_memory(&rt);
    };
    let added = error.with_context(rt.alloc(), "index", 42u8);
    let (error, has_index) = after_attempt(&rt, added);
    let added = error.with_context(rt.alloc(), "file", "foo");
    let (error, has_file) = after_attempt(&rt, added);
    let line = match (has_index, has_file) {
        (true, true) => "InvalidData, context: { index: 42, file: foo } => parsing failed",
        (true, false) => "InvalidData, context: { index: 42 } => parsing failed",
        (false, true) => "InvalidData, context: { file: foo } => parsing failed",
        (false, false) => "InvalidData => parsing failed",
    };
    assert_line(&rt, error, line);
}

#[test]
fn a_context_and_no_message_without_memory(rt: HostRuntime) {
    let error = Error::new(InvalidData, String::new(rt.alloc()));
    let added = error.with_context(rt.alloc(), "a", 1u8);
    match after_attempt(&rt, added) {
        (error, true) => assert_line(&rt, error, "InvalidData, context: { a: 1 }"),
        (error, false) => assert_line(&rt, error, "InvalidData"),
    }
}
