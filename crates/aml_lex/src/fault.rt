// Why a lexical part of AML cannot be read.

ghost use Rattle.aml_lex.specs.Causes.{lex_cause_text};
ghost use Rattle.std.specs.Prelude.{◌≡◌, length};
ghost use Rattle.aml_lex.specs.Read.{truncated};

use std::fmt;
use thiserror::Error;

/// What is wrong with a lexical part.
#[derive(Clone, Copy, Debug, PartialEq, Eq)]
pub enum LexCause {
    /// The bytes end inside the part; its place is that end.
    Truncated,
    /// A package length below its own bytes; its place is that of the package length.
    BadPkgLength,
    /// A byte that no name has there; its place is that byte's.
    BadName,
    /// A byte above 7F in a string; its place is that byte's.
    BadString,
    /// A package past the end of the bytes; its place is that of the package length.
    Overrun,
}

impl LexCause {
    /// The number and the name of what is wrong, as they are printed.
    pub fn text(self) -> &'static str
        ensures { result.now ≡ lex_cause_text self }
    {
        match self {
            LexCause::Truncated => "E201 Truncated",
            LexCause::BadPkgLength => "E202 BadPkgLength",
            LexCause::BadName => "E203 BadName",
            LexCause::BadString => "E206 BadString",
            LexCause::Overrun => "E207 Overrun",
        }
    }
}

impl fmt::Display for LexCause {
    fn fmt<W: fmt::Write>(&self, f: &mut fmt::Formatter<W>) -> fmt::Result {
        f.write_str(self.text())
    }
}

impl std::error::Error for LexCause {}

/// A lexical part that cannot be read: what is wrong, and at which byte.
#[derive(Clone, Copy, Debug, PartialEq, Eq, Error)]
#[error("{cause} {at}")]
pub struct LexFault {
    pub cause: LexCause,
    /// A place of at most the number of bytes that were handed in.
    pub at: usize,
}

/// The fault of bytes that end too early.
pub(crate) fn truncated_fault(bytes: &[u8]) -> LexFault
    ensures { result ≡ truncated (length bytes.now) }
{
    LexFault {
        cause: LexCause::Truncated,
        at: bytes.len(),
    }
}
