// Kinds of arguments.

ghost use Rattle.std.specs.Prelude.{◌≡◌};
ghost use Rattle.aml_kinds.specs.KindViews.{kind_of};
ghost use Rattle.aml_signatures.specs.ArgumentKinds.{cut_to, kind_of_argument};

use aml_kinds::Kind;
use aml_namespace::Width;

/// What is known of an argument before evaluation.
#[derive(Clone, Copy, Debug, PartialEq, Eq)]
pub enum ArgumentKind {
    /// Every integer.
    Int,
    /// Integers up to this one.
    IntUpTo(u64),
    /// Buffers of just so many bytes.
    Buf(u64),
    /// Strings of just so many characters.
    Str(u64),
    /// Packages of any shape.
    Pkg,
}

impl ArgumentKind {
    /// The kind of values that an argument has, where integers have this width.
    pub fn kind(self, width: Width) -> Kind
        ensures { kind_of result ≡ kind_of_argument width self }
    {
        match self {
            ArgumentKind::Int => Kind::Int(width.greatest()),
            ArgumentKind::IntUpTo(greatest) => Kind::Int(greatest),
            ArgumentKind::Buf(size) => Kind::Buf(size),
            ArgumentKind::Str(size) => Kind::Str(size),
            ArgumentKind::Pkg => Kind::AnyPkg,
        }
    }

    // The same with a greatest integer that the width has.
    pub(crate) fn cut_to(self, width: Width) -> ArgumentKind
        ensures { result ≡ cut_to width self }
    {
        match self {
            ArgumentKind::IntUpTo(greatest) => {
                ArgumentKind::IntUpTo(greatest.min(width.greatest()))
            }
            other => other,
        }
    }
}
