// What a namespace has (ACPI 6.5, 5.3 and 19.6): objects as plain data.

use aml_paths::{NamePlace, ObjectId, Scope};
use aml_tree::Span;

/// What an object says of another by its name.
#[derive(Clone, Copy, Debug, PartialEq, Eq)]
pub struct Reference {
    /// Where the name stands.
    pub name: NamePlace,
    /// The object that it names once all tables are loaded; None where nothing has the name, and
    /// before.
    pub object: Option<ObjectId>,
}

/// What stands under a path.
#[derive(Clone, Copy, Debug, PartialEq, Eq)]
pub enum Entry {
    /// An object, whose number is that of the path.
    Own(Object),
    /// Another path of the object with this number.
    Alias(ObjectId),
}

/// An object.
#[derive(Clone, Copy, Debug, PartialEq, Eq)]
pub enum Object {
    /// A predefined scope.
    Scope,
    Device,
    Processor,
    PowerResource,
    ThermalZone,
    Method(Method),
    /// `_OSI`, which every system has.
    OsInterfaces,
    Data(DataName),
    Region(Region),
    /// A region of another table's bytes.
    DataTableRegion,
    Field(Field),
    BufferField(CreatedField),
    /// A mutex that a table defines (ACPI 6.5, 19.6, Mutex).
    Mutex {
        /// Its sync level, 0 to 15.
        sync_level: u8,
    },
    /// `_GL_`, the mutex that every system has and shares with its firmware.
    GlobalLock,
    Event,
}

/// A control method (ACPI 6.5, 19.6, Method). Places count the bytes of its table from the table's
/// first byte.
#[derive(Clone, Copy, Debug, PartialEq, Eq)]
pub struct Method {
    /// The number of its arguments, 0 to 7.
    pub args: u8,
    /// Whether it is serialized.
    pub serialized: bool,
    /// Its sync level, 0 to 15.
    pub sync_level: u8,
    /// The number of the table in which it is defined, in the order of loading, from 0.
    pub table: usize,
    /// The place of the Method opcode in that table.
    pub at: usize,
    /// Where the statements of its body lie in that table.
    pub body: Span,
}

/// A name of data (ACPI 6.5, 19.6, Name). A buffer or a package is not copied: its place stands for
/// it.
#[derive(Clone, Copy, Debug, PartialEq, Eq)]
pub struct DataName {
    pub content: Content,
    pub source: Source,
}

/// What the first content of a name is.
#[derive(Clone, Copy, Debug, PartialEq, Eq)]
pub enum Content {
    Integer,
    /// A buffer of so many bytes: the greater of its size and its initialiser's length.
    Buffer(u64),
    /// A string of so many bytes.
    String(u64),
    /// A package of so many elements.
    Package(u64),
}

/// Where the first content of a name comes from.
#[derive(Clone, Copy, Debug, PartialEq, Eq)]
pub enum Source {
    /// The integer 2, of `_REV`.
    Revision,
    /// The name of the operating system, of `_OS_`.
    OsName,
    /// A term of a table, with the table's number in the order of loading. Names in a package are
    /// resolved from the scope.
    Term {
        table: usize,
        span: Span,
        scope: Scope,
    },
}

/// An operation region (ACPI 6.5, 19.6, OperationRegion).
#[derive(Clone, Copy, Debug, PartialEq, Eq)]
pub struct Region {
    /// The number of its space.
    pub space: u64,
    /// Its first place, None where that is computed.
    pub place: Option<u64>,
    /// Its number of bytes, None where that is computed.
    pub length: Option<u64>,
}

/// A field (ACPI 6.5, 19.6, Field, IndexField and BankField).
#[derive(Clone, Copy, Debug, PartialEq, Eq)]
pub struct Field {
    pub through: Through,
    /// Its first bit.
    pub bit: u64,
    /// Its number of bits.
    pub bits: u64,
    pub rule: FieldRule,
    /// Whether it stands behind a connection or an extended access in its list.
    pub is_connected: bool,
}

/// How the bits of a field are reached.
#[derive(Clone, Copy, Debug, PartialEq, Eq)]
pub enum Through {
    /// In a region.
    Region(Reference),
    /// By an index field and a data field.
    Index {
        index: Reference,
        data: Reference,
    },
    /// In a region, with a bank field that is set to a value, which is None where it is computed.
    Bank {
        region: Reference,
        bank: Reference,
        value: Option<u64>,
    },
}

/// How a field is read and written, by the flags of its list and by its access type.
#[derive(Clone, Copy, Debug, PartialEq, Eq)]
pub struct FieldRule {
    pub access: AccessType,
    /// Whether the global lock is held.
    pub lock: bool,
    pub update: UpdateRule,
}

/// How wide the accesses to a field are.
#[derive(Clone, Copy, Debug, PartialEq, Eq)]
pub enum AccessType {
    Any,
    Byte,
    Word,
    DWord,
    QWord,
    /// Buffer access, and what is reserved.
    Other,
}

/// What a write leaves in the bits of a unit beside a field.
#[derive(Clone, Copy, Debug, PartialEq, Eq)]
pub enum UpdateRule {
    Preserve,
    Ones,
    Zeros,
    Reserved,
}

/// A field of a buffer (ACPI 6.5, 19.6, CreateField and its kin).
#[derive(Clone, Copy, Debug, PartialEq, Eq)]
pub struct CreatedField {
    /// The buffer.
    pub source: Reference,
    /// The number of its first byte, or of its first bit where it is a bit or so many bits.
    pub index: u64,
    pub size: CreatedFieldSize,
}

/// How large a field of a buffer is.
#[derive(Clone, Copy, Debug, PartialEq, Eq)]
pub enum CreatedFieldSize {
    Bit,
    Byte,
    Word,
    DWord,
    QWord,
    /// So many bits, the integer not yet taken modulo 2 to the width.
    Bits(u64),
}
