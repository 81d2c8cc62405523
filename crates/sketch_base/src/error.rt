//! Errors, with the texts of [Apache DataSketches](https://datasketches.apache.org/): a kind, a
//! message, and contexts that callers add on the way up.

ghost use Rattle.std.specs.Prelude.{◌≡◌, ℕ, List, IfOk, IfErr, map, MatchResult, Some, string_bytes};
ghost use Rattle.std.specs.Fmt.{DisplaysOnOk};
ghost use Rattle.sketch_base.specs.ErrorValue.{context_lines, contexts_text, error_kind_name, message_text};

use std::alloc::{AllocError, Global};
use std::fmt;
use std::marker::Model;

/// The kind of an error.
#[derive(Clone, Copy, Debug, PartialEq, Eq, Hash)]
pub enum ErrorKind {
    /// An argument is invalid.
    InvalidArgument,
    /// Serialized data is malformed.
    InvalidData,
    /// There is no memory.
    OutOfMemory,
}

impl ErrorKind {
    /// The variant's name.
    pub fn into_static(self) -> &'static str
        ensures { result.now ≡ error_kind_name self }
    {
        match self {
            ErrorKind::InvalidArgument => "InvalidArgument",
            ErrorKind::InvalidData => "InvalidData",
            ErrorKind::OutOfMemory => "OutOfMemory",
        }
    }
}

impl fmt::Display for ErrorKind {
    ghost output = { λ kind. Some (error_kind_name kind) };

    ghost styled_output = { λ kind _. Some (error_kind_name kind) };

    fn fmt<W: fmt::Write>(&self, f: &mut fmt::Formatter<W>) -> fmt::Result {
        f.write_str(self.into_static())
    }
}

/// An error of this library.
///
/// # Memory
///
/// A constructor that takes an allocator requests memory for its text, and before that for what the
/// value prints. If there is none, or the value fails to print, it returns an error of kind
/// `OutOfMemory` with an empty message.
#[derive(Drop)]
pub struct Error {
    kind: ErrorKind,
    // Both are None in an error that `?` makes of an `AllocError`, which has no allocator.
    message: Option<String>,
    context: Option<Vec<(&'static str, String)>>,
}

impl Model for Error {
    ghost use Rattle.std.specs.Prelude.{[], map, string_bytes};
    ghost use Rattle.std.specs.Option.{option_map_or};
    ghost use Rattle.sketch_base.specs.ErrorValue.{ErrorValue};

    ghost Value = { ErrorValue };

    ghost view = { λ e. record {
      kind = e.kind;
      message = option_map_or string_bytes e.message [];
      contexts = option_map_or (λ contexts.
          map (λ c. record { key = c.0.now; text = string_bytes c.1 }) contexts.items) e.context [];
    } };
}

impl Error {
    ghost use Rattle.sketch_base.specs.ErrorValue.{add_context, error_of, memory_error};
    ghost use Rattle.sketch_base.specs.Refusals.{insufficient_data_text, insufficient_data_of_text, invalid_family_text, invalid_preamble_ints_text, invalid_preamble_longs_text, Prints, Refuses};

    /// An error with this kind and message, and no context. Takes no memory.
    pub fn new(kind: ErrorKind, message: String) -> Error
        ensures { result ≡ error_of kind (string_bytes message) }
    {
        Error {
            kind,
            context: Some(Vec::new(*message.allocator())),
            message: Some(message),
        }
    }

    /// The kind.
    pub fn kind(&self) -> ErrorKind
        ensures { result ≡ self.now.kind }
    {
        self.kind
    }

    /// The message.
    pub fn message(&self) -> &str
        ensures { result.now ≡ self.now.message }
    {
        self.message.as_deref().unwrap_or("")
    }

    // The contexts, in the order in which they were added.
    fn contexts(&self) -> &[(&'static str, String)]
        ensures { map (λ c. record { key = c.0.now; text = string_bytes c.1 }) result.now
            ≡ self.now.contexts }
    {
        self.context.as_deref().unwrap_or(&[])
    }

    /// Adds a context after those that the error has: the key, and what the value prints.
    ///
    /// # Errors
    ///
    /// Returns the error unchanged if there is no memory, or the value fails to print.
    ///
    /// # Memory
    ///
    /// The printed text, and room for one more context in the list.
    pub fn with_context<V: fmt::Display + Drop>(
        self,
        alloc: Global,
        key: &'static str,
        value: V,
    ) -> Result<Error, Error>
        ensures added { IfOk result (λ error.
            (text : List ℕ) × Prints (V.output value) text
            × (error ≡ add_context self key.entry.now text)) }
        ensures refused { IfErr result (λ error. error ≡ self) }
    {
        let Ok(text) = value.to_string(alloc) else {
            return Err(self);
        };
        let mut contexts = self.context.unwrap_or(Vec::new(alloc));
        let pushed = contexts.push((key, text));
        let error = Error {
            kind: self.kind,
            message: self.message,
            context: Some(contexts),
        };
        match pushed {
            Ok(()) => Ok(error),
            Err(_) => Err(error),
        }
    }

    /// An error of this kind with the text as its message. If there was no memory for the text, an
    /// error of kind `OutOfMemory` with an empty message.
    #[tactic(auto, unfolding(crate::specs::Refusals::Refuses))]
    pub fn from_text(alloc: Global, kind: ErrorKind, text: Result<String, AllocError>) -> Error
        ensures error { MatchResult text
            (λ message. result ≡ error_of kind (string_bytes message))
            (λ _. result ≡ memory_error) }
        ensures refuses { (message : List ℕ) → IfOk text (λ made. string_bytes made ≡ message)
            → Refuses kind message result }
    {
        match text {
            Ok(message) => Error::new(kind, message),
            Err(_) => Error::new(ErrorKind::OutOfMemory, String::new(alloc)),
        }
    }

    /// An error of kind `InvalidArgument` with this message.
    pub fn invalid_argument(message: String) -> Error
        ensures { result ≡ error_of ErrorKind.InvalidArgument (string_bytes message) }
    {
        Error::new(ErrorKind::InvalidArgument, message)
    }

    /// An error of kind `InvalidData` with this message: serialized data is malformed.
    pub fn deserial(message: String) -> Error
        ensures { result ≡ error_of ErrorKind.InvalidData (string_bytes message) }
    {
        Error::new(ErrorKind::InvalidData, message)
    }

    /// Serialized data ended too early. Kind `InvalidData`: `insufficient data: VALUE`.
    pub fn insufficient_data<V: fmt::Display + Drop>(alloc: Global, value: V) -> Error
        ensures { (text : List ℕ) × Prints (V.output value) text
            × Refuses ErrorKind.InvalidData (insufficient_data_text text) result }
    {
        let made = value.to_string(alloc);
        let text = made.and_then(|text| format!(in alloc; "insufficient data: {text}"));
        Error::from_text(alloc, ErrorKind::InvalidData, text)
    }

    /// Serialized data ended too early. Kind `InvalidData`: `insufficient data (CONTEXT): VALUE`.
    pub fn insufficient_data_of<V: fmt::Display + Drop>(
        alloc: Global,
        context: &'static str,
        value: V,
    ) -> Error
        ensures { (text : List ℕ) × Prints (V.output value) text
            × Refuses ErrorKind.InvalidData
            (insufficient_data_of_text context.entry.now text) result }
    {
        let made = value.to_string(alloc);
        let text = made.and_then(|text| format!(in alloc; "insufficient data ({context}): {text}"));
        Error::from_text(alloc, ErrorKind::InvalidData, text)
    }

    /// Serialized data is of another family than the expected one. Kind `InvalidData`:
    /// `invalid family: expected ID (NAME), got ID`.
    pub fn invalid_family(alloc: Global, expected: u8, actual: u8, name: &'static str) -> Error
        ensures { Refuses ErrorKind.InvalidData
            (invalid_family_text expected actual name.entry.now) result }
    {
        let text = format!(in alloc; "invalid family: expected {expected} ({name}), got {actual}");
        Error::from_text(alloc, ErrorKind::InvalidData, text)
    }

    /// A number of preamble longs is none of the expected ones. Kind `InvalidData`:
    /// `invalid preamble longs: expected one of [1, 2], got 3`.
    #[tactic(auto, using(crate::proofs::ErrorLemmas::debug_list_is))]
    pub fn invalid_preamble_longs(alloc: Global, expected: &[u8], actual: u8) -> Error
        ensures { Refuses ErrorKind.InvalidData
            (invalid_preamble_longs_text expected.now actual) result }
    {
        let text = format!(in alloc;
            "invalid preamble longs: expected one of {expected:?}, got {actual}"
        );
        Error::from_text(alloc, ErrorKind::InvalidData, text)
    }

    /// A number of preamble ints is not the expected one. Kind `InvalidData`:
    /// `invalid preamble ints: expected 10, got 2`.
    pub fn invalid_preamble_ints(alloc: Global, expected: u8, actual: u8) -> Error
        ensures { Refuses ErrorKind.InvalidData
            (invalid_preamble_ints_text expected actual) result }
    {
        let text = format!(in alloc; "invalid preamble ints: expected {expected}, got {actual}");
        Error::from_text(alloc, ErrorKind::InvalidData, text)
    }
}

// For `?`: the error has kind `OutOfMemory`, an empty message and no context.
impl From<AllocError> for Error {
    ghost use Rattle.sketch_base.specs.ErrorValue.{memory_error};

    ghost from_gives = { λ _ error. error ≡ memory_error };

    fn from(_error: AllocError) -> Error {
        Error {
            kind: ErrorKind::OutOfMemory,
            message: None,
            context: None,
        }
    }
}

impl fmt::Display for Error {
    ghost use Rattle.sketch_base.specs.ErrorValue.{line};

    ghost output = { λ error. Some (line error) };

    fn fmt<W: fmt::Write>(&self, f: &mut fmt::Formatter<W>) -> fmt::Result {
        write!(f, "{}", self.kind())?;
        write_contexts(self.contexts(), f)?;
        write_message(self.message(), f)
    }
}

// Writes the contexts as in the displayed line.
#[tactic(auto, using(crate::proofs::ErrorLemmas::for_contexts))]
fn write_contexts<W: fmt::Write>(
    contexts: &[(&'static str, String)],
    f: &mut fmt::Formatter<W>,
) -> fmt::Result
    ensures { DisplaysOnOk W.write_str_gives f.old result
        (Some (contexts_text
        (map (λ c. record { key = c.0.now; text = string_bytes c.1 }) contexts.now))) f.new }
{
    let Some(((key, text), others)) = contexts.split_first() else {
        return Ok(());
    };
    write!(f, ", context: {{ {key}: {text}")?;
    for (key, text) in others {
        write!(f, ", {key}: {text}")?;
    }
    write!(f, " }}")
}

// Writes the message as in the displayed line.
fn write_message<W: fmt::Write>(message: &str, f: &mut fmt::Formatter<W>) -> fmt::Result
    ensures { DisplaysOnOk W.write_str_gives f.old result (Some (message_text message.now)) f.new }
{
    if message.is_empty() {
        return Ok(());
    }
    write!(f, " => {message}")
}

impl fmt::Debug for Error {
    ghost use Rattle.sketch_base.specs.ErrorValue.{debug_text};

    ghost debug_output = { λ error. Some (debug_text error) };

    fn fmt<W: fmt::Write>(&self, f: &mut fmt::Formatter<W>) -> fmt::Result {
        if f.alternate() {
            return write_fields(self, f);
        }
        write!(f, "{}", self.kind())?;
        write_message(self.message(), f)?;
        writeln!(f)?;
        write_context_lines(self.contexts(), f)
    }
}

// Writes the contexts as in the debug text.
#[tactic(auto, using(crate::proofs::ErrorLemmas::for_contexts))]
fn write_context_lines<W: fmt::Write>(
    contexts: &[(&'static str, String)],
    f: &mut fmt::Formatter<W>,
) -> fmt::Result
    ensures { DisplaysOnOk W.write_str_gives f.old result
        (Some (context_lines
        (map (λ c. record { key = c.0.now; text = string_bytes c.1 }) contexts.now))) f.new }
{
    if contexts.is_empty() {
        return Ok(());
    }
    write!(f, "\nContext:\n")?;
    for (key, text) in contexts {
        writeln!(f, "   {key}: {text}")?;
    }
    Ok(())
}

// Writes the alternate form of the debug text, which is that of a derived `Debug`.
fn write_fields<W: fmt::Write>(error: &Error, f: &mut fmt::Formatter<W>) -> fmt::Result {
    let mut fields = f.debug_struct("Error");
    fields.field("kind", &error.kind);
    match &error.message {
        Some(message) => fields.field("message", message),
        None => fields.field("message", &""),
    };
    match &error.context {
        Some(contexts) => fields.field("context", contexts),
        None => fields.field("context", &[(); 0]),
    };
    fields.finish()
}

impl std::error::Error for Error {}
