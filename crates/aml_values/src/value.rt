// Values, and what stands in packages.

use crate::bytes::Bytes;
use crate::package::Package;
use aml_paths::ObjectId;

/// A value (ACPI 6.5, 19.3.5).
#[cycle(value)]
#[derive(Drop)]
pub enum Value {
    /// An integer.
    Int(u64),
    /// A buffer.
    Buf(Bytes),
    /// A string: its characters, without the zero at its end.
    Str(Bytes),
    /// A package.
    Pkg(Package),
}

/// What stands in one place of a package.
#[cycle(value)]
#[derive(Drop)]
pub enum Element {
    /// A value.
    Value(Value),
    /// A name, with the object that it names if there is one. It can't be read.
    Name(Option<ObjectId>),
    /// Nothing yet.
    Unset,
}
