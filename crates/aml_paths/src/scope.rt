// Where names stand (ACPI 6.5, 5.3).

/// The number of an object in its namespace: that of its first path, in order of definition.
#[derive(Clone, Copy, Debug, PartialEq, Eq, PartialOrd, Ord, Hash)]
pub struct ObjectId(pub usize);

/// Where a name stands: at the root, or within an object.
#[derive(Clone, Copy, Debug, PartialEq, Eq)]
pub enum Scope {
    Root,
    At(ObjectId),
}

/// The place of a name string, and the scope in which it stands.
#[derive(Clone, Copy, Debug, PartialEq, Eq)]
pub struct NamePlace {
    /// The number of its table, in the order of loading, from 0.
    pub table: usize,
    /// Its first byte, counted from the table's first.
    pub at: usize,
    pub scope: Scope,
}
