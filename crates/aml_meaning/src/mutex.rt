//! Mutexes, as a running method holds them.

use aml_paths::ObjectId;

/// A mutex that a method took (ACPI 6.5, 19.6, Mutex, Acquire).
#[derive(Clone, Copy, Debug, PartialEq, Eq)]
pub struct TakenMutex {
    pub object: ObjectId,
    /// Its sync level, 0 to 15.
    pub level: u8,
}
