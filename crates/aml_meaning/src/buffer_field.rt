//! Fields of buffers, as their names mean them.

use aml_namespace::Link;

/// A field of a buffer (ACPI 6.5, 19.6, CreateField and its kin).
#[derive(Clone, Copy, Debug, PartialEq, Eq)]
pub struct BufferField {
    /// What has the buffer: a data name, an own name, or nothing.
    pub source: Link,
    /// The byte from which its first bit is counted.
    pub byte: u64,
    /// The number of that bit there, the lowest of the byte being 0.
    pub bit: u8,
    /// How many bits it has.
    pub bits: u64,
}
