// Kinds of values, and of what stands in packages.

use crate::shape::Shape;

/// What is known of a value before evaluation.
#[cycle(kind)]
#[derive(Drop)]
pub enum Kind {
    /// Integers up to this one.
    Int(u64),
    /// Buffers of just so many bytes.
    Buf(u64),
    /// Strings of just so many characters.
    Str(u64),
    /// Packages of this shape.
    Pkg(Shape),
    /// Packages of any shape.
    AnyPkg,
    /// Every value.
    Mixed,
}

/// What is known of an element of a package.
#[cycle(kind)]
#[derive(Drop)]
pub enum ElementKind {
    /// It holds a value of this kind.
    Value(Kind),
    /// It is a name.
    Name,
    /// It may be anything, and may be unset.
    Unset,
}
