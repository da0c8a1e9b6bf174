// Causes and their places.

/// Why a method is refused.
#[derive(Clone, Copy, Debug, PartialEq, Eq)]
pub enum Cause {
    /// V1: a name names nothing.
    Unresolved,
    /// V2: an operator or a form that is outside the profile.
    OutsideProfile,
    /// V3: something has the wrong kind.
    WrongKind,
    /// V4: a local, an argument or an element may be unset.
    Unset,
    /// V5: the method that is called reaches the one that calls it.
    Cycle,
    /// V6: a loop has none of the accepted shapes.
    LoopShape,
    /// V7: an index need not be below the length.
    Index,
    /// V8: a divisor is no literal other than zero.
    Divisor,
    /// V9: a field, a region or an access is outside the profile.
    Region,
    /// V10: a value is wanted of a call that need not give one.
    NoResult,
    /// V11: the method may take 2 to the power 63 steps or more.
    BoundTooLarge,
    /// V12: the method that is called is refused.
    CalleeRefused,
    /// V13: a definition stands where none may.
    LocalName,
    /// V14: a chain of more than 64 methods.
    Depth,
    /// V15: a mutex is taken whose level is below that of one that is held.
    Level,
    /// V16: a mutex is released that was not taken last.
    NotHeld,
    /// V17: a mutex is still held where the method ends.
    StillHeld,
    /// V18: ways that hold different mutexes meet.
    HeldDiffers,
}

/// A cause and its place.
#[derive(Clone, Copy, Debug, PartialEq, Eq)]
pub struct Refusal {
    /// The number of the table in the order of loading, from 0.
    pub table: usize,
    /// The place of a byte in that table.
    pub at: usize,
    pub why: Cause,
}
