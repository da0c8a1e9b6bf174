// What a rule found where it refuses, and what it wanted there: for people alone.

use aml_known::{Known, Yield};
use aml_paths::ObjectId;

/// What a rule found where it refuses, and what it wanted. No rule asks for it.
#[derive(Clone, Copy, Debug, PartialEq, Eq)]
pub enum Finding {
    /// No more than the cause tells.
    Nothing,
    /// Something else than what was wanted.
    Other {
        found: Found,
        wanted: Wanted,
    },
    /// An index that may be as great as this one into so many bytes or elements, where it is known
    /// how many there are.
    Index {
        greatest: u64,
        length: Option<u64>,
    },
    /// The same where each such element is there: one of them may be a name, or unset.
    Element {
        greatest: u64,
        length: u64,
    },
    /// A field of so many bits from a bit of a byte on, of a buffer of so many bytes.
    Field {
        byte: u64,
        bit: u8,
        bits: u64,
        length: u64,
    },
    /// So many bytes that two operands have together.
    Joined {
        bytes: u64,
    },
    /// What a call gives that need not give a value.
    Given(Yield),
    /// What a local or an argument holds where the turns of a loop begin, and where one of them
    /// ends.
    Turn {
        slot: NumberedSlot,
        began: Known,
        ends: Option<Known>,
    },
    /// A mutex of a sync level, where one of a greater level is held.
    Level {
        taken: u8,
        held: u8,
    },
    /// A mutex that is released, and the one that was taken last of those that are held, if any is.
    Released {
        mutex: ObjectId,
        last: Option<ObjectId>,
    },
    /// The mutex that was taken last of those that are still held.
    StillHeld {
        last: ObjectId,
    },
    /// What is wrong with a field that cannot be read and written.
    Fault(FieldFault),
    /// So many bits of a field from one on, in units of so many bits, and the bytes of their
    /// region.
    Units {
        at: u64,
        bits: u64,
        unit: u8,
        length: u64,
    },
    /// What a loop lacks that has no shape.
    Lack(LoopLack),
    /// The statement of a table, by its place, with which the steps of its block reach 2^63.
    Steps {
        table: usize,
        at: usize,
    },
}

/// What is wrong with a field that cannot be read and written.
#[derive(Clone, Copy, Debug, PartialEq, Eq)]
pub enum FieldFault {
    /// It stands behind a connection or an extended access in its list.
    Connected,
    /// It has so many bits.
    Bits(u64),
    /// Its access type is for buffers, or reserved.
    Access,
    /// Its update rule is reserved.
    Update,
    /// What it is a field of is no operation region, or one of another table's bytes.
    NoRegion,
    /// Its region is of a space that is not known.
    Space(u64),
    /// The first place of its region is computed.
    Place,
    /// The length of its region is computed.
    Length,
}

/// What a loop lacks that has no shape.
#[derive(Clone, Copy, Debug, PartialEq, Eq)]
pub enum LoopLack {
    /// Its test neither is a local, nor compares one with a limit.
    Test,
    /// Its test compares a local with what is no literal.
    Limit { local: u8 },
    /// Its body does not store into the local of its test.
    Unchanged { local: u8, wanted: Change },
    /// Its body stores into the local of its test otherwise than is wanted.
    Otherwise { local: u8, wanted: Change },
}

/// How a loop's local is to change in each turn.
#[derive(Clone, Copy, Debug, PartialEq, Eq)]
pub enum Change {
    OneMore,
    OneLess,
}

/// A local or an argument, by its number.
#[derive(Clone, Copy, Debug, PartialEq, Eq)]
pub enum NumberedSlot {
    Local(u8),
    Argument(u8),
}

/// What was found.
#[derive(Clone, Copy, Debug, PartialEq, Eq)]
pub enum Found {
    /// What is of a kind.
    Kind(Known),
    /// The name of such an object.
    Object(Sort),
    /// A local or an argument, where it is not read.
    Slot,
    /// A name that the body makes further on.
    Unmade,
}

/// Which sort of object a name means.
#[derive(Clone, Copy, Debug, PartialEq, Eq)]
pub enum Sort {
    Scope,
    Device,
    Processor,
    PowerResource,
    ThermalZone,
    Method,
    Data,
    Region,
    Field,
    BufferField,
    Mutex,
    Event,
    Nothing,
}

/// What was wanted.
#[derive(Clone, Copy, Debug, PartialEq, Eq)]
pub enum Wanted {
    Integer,
    Buffer,
    Text,
    IntegerOrBuffer,
    BufferOrText,
    /// A buffer, a string or a package.
    Sized,
    /// An integer, a buffer or a string.
    Comparable,
    /// A buffer that is not empty.
    FilledBuffer,
    /// An integer literal that is not zero.
    Divisor,
    /// What is within a kind.
    Within(Known),
    /// An integer, or what is within a kind.
    IntegerOr(Known),
    /// What has a value.
    Value,
    /// What is stored into.
    Target,
    /// Nothing: a package that a name holds is not replaced.
    NoStore,
    Mutex,
    /// A device, a processor or a thermal zone.
    Notifiable,
}
