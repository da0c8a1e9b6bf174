// Why terms cannot be read.

ghost use Rattle.aml_tree.specs.Causes.{tree_cause_text};
ghost use Rattle.std.specs.Prelude.{◌≡◌};
ghost use Rattle.aml_tree.specs.declared.fault.TreeFault.TheVariants.{NoMemory, Refused};
ghost use Rattle.aml_tree.specs.Fault.{lexical};

use aml_lex::{LexCause, LexFault};
use std::alloc::{AllocError, AllocFailed};
use std::fmt;
use thiserror::Error;

/// What is wrong with the bytes of a term.
#[derive(Clone, Copy, Debug, PartialEq, Eq)]
pub enum TreeCause {
    /// A lexical part, E201 to E203, E206 and E207.
    Lexical(LexCause),
    /// An unknown opcode, or a known one where its class may not stand; its place is the opcode's.
    UnknownOpcode,
    /// A term deeper than 64; its place is its opcode's.
    TooDeep,
    /// A literal buffer above 65,536 bytes or a package above 65,535 elements; its place is the
    /// opcode's.
    TooLarge,
    /// A known operator or a name that may not stand there in a module; its place is its own in the
    /// module's list, else that of the opcode that asks for something else.
    ModuleCode,
}

impl TreeCause {
    /// The number and the name of what is wrong, as they are printed.
    pub fn text(self) -> &'static str
        ensures { result.now ≡ tree_cause_text self }
    {
        match self {
            TreeCause::Lexical(part) => part.text(),
            TreeCause::UnknownOpcode => "E204 UnknownOpcode",
            TreeCause::TooDeep => "E205 TooDeep",
            TreeCause::TooLarge => "E208 TooLarge",
            TreeCause::ModuleCode => "E209 ModuleCode",
        }
    }
}

impl fmt::Display for TreeCause {
    fn fmt<W: fmt::Write>(&self, f: &mut fmt::Formatter<W>) -> fmt::Result {
        f.write_str(self.text())
    }
}

impl std::error::Error for TreeCause {}

/// A refusal of the bytes: what is wrong, and at which byte of the table.
#[derive(Clone, Copy, Debug, PartialEq, Eq, Error)]
#[error("{cause} {at}")]
pub struct Refusal {
    pub cause: TreeCause,
    /// A place of at most the number of bytes that were handed in.
    pub at: usize,
}

/// Why a reader has no terms.
#[derive(Clone, Copy, Debug, PartialEq, Eq, Error)]
pub enum TreeFault {
    #[error("E524 NoMemory")]
    NoMemory,
    #[error(transparent)]
    Refused(Refusal),
}

impl From<AllocError> for TreeFault {
    ghost from_gives = { λ _ fault. fault ≡ NoMemory };

    fn from(_error: AllocError) -> TreeFault {
        TreeFault::NoMemory
    }
}

impl<T: Drop> From<AllocFailed<T>> for TreeFault {
    ghost from_gives = { λ _ fault. fault ≡ NoMemory };

    fn from(_error: AllocFailed<T>) -> TreeFault {
        TreeFault::NoMemory
    }
}

impl From<LexFault> for TreeFault {
    ghost from_gives = { λ lex fault. fault ≡ Refused (lexical lex) };

    fn from(fault: LexFault) -> TreeFault {
        TreeFault::Refused(Refusal {
            cause: TreeCause::Lexical(fault.cause),
            at: fault.at,
        })
    }
}
