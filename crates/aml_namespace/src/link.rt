// What a name in a body means.

use aml_paths::ObjectId;

/// What the name at a place of a method's body means (ACPI 6.5, 5.3).
#[derive(Clone, Copy, Debug, PartialEq, Eq)]
pub enum Link {
    /// A control method.
    Method(ObjectId),
    /// `_OSI`.
    OsInterfaces,
    /// A name of data.
    Data(ObjectId),
    /// A field of a region.
    Field(ObjectId),
    /// A field of a buffer.
    BufferField(ObjectId),
    /// Any other object: a scope, a device and its kin, a region, a mutex, an event.
    Object(ObjectId),
    /// A name that the body makes itself, by its number in order of definition.
    Own(usize),
    /// Nothing has the name, or no name stands there.
    Missing,
}
