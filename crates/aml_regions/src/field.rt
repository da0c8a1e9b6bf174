// Where the bits of a field stand: plain data.

ghost use Rattle.std.specs.Prelude.{◌≡◌, ◌-◌, ◌^◌};
ghost use Rattle.aml_regions.specs.Fields.{bits_of, layout_of};

/// How many bits a unit has: 8, 16, 32 or 64 (ACPI 6.5, 19.6, Field: the access type).
#[derive(Clone, Copy, Debug, PartialEq, Eq)]
pub enum UnitWidth {
    Byte,
    Word,
    DWord,
    QWord,
}

/// What a write gives the bits of a unit that are not the field's (ACPI 6.5, 19.6, Field: the
/// update rule).
#[derive(Clone, Copy, Debug, PartialEq, Eq)]
pub enum OtherBits {
    /// What a read just before answers.
    Preserve,
    Ones,
    Zeros,
}

/// Which bits of a run of units are a field's.
#[derive(Clone, Copy, Debug, PartialEq, Eq)]
pub struct FieldLayout {
    /// The field's first bit, counted from the first unit's lowest.
    pub at: u64,
    /// Its number of bits.
    pub bits: u64,
    pub width: UnitWidth,
    pub others: OtherBits,
}

/// A field of an operation region whose place is known.
#[derive(Clone, Copy, Debug, PartialEq, Eq)]
pub struct RegionField {
    /// The region's address space.
    pub space: u8,
    /// The region's first address.
    pub place: u64,
    /// The region's number of bytes.
    pub length: u64,
    pub layout: FieldLayout,
}

/// A field behind a bank field (ACPI 6.5, 19.6, BankField): before each access of a unit the bank
/// field is given a value.
#[derive(Clone, Copy, Debug, PartialEq, Eq)]
pub struct BankedField {
    pub field: RegionField,
    pub bank: RegionField,
    /// What the bank field is given.
    pub value: u64,
}

/// A field behind an index field and a data field (ACPI 6.5, 19.6, IndexField): before each access
/// of a unit the index field is given the number of the byte at which the unit begins, and then the
/// data field is the unit.
#[derive(Clone, Copy, Debug, PartialEq, Eq)]
pub struct IndexedField {
    pub layout: FieldLayout,
    pub index_field: RegionField,
    pub data_field: RegionField,
}

/// A field, by how its units are reached.
#[derive(Clone, Copy, Debug, PartialEq, Eq)]
pub enum AnyField {
    Plain(RegionField),
    Banked(BankedField),
    Indexed(IndexedField),
}

impl AnyField {
    /// Where its bits stand in its units.
    pub fn layout(&self) -> FieldLayout
        ensures { result ≡ layout_of self.now }
    {
        match self {
            AnyField::Plain(field) => field.layout,
            AnyField::Banked(banked) => banked.field.layout,
            AnyField::Indexed(indexed) => indexed.layout,
        }
    }
}

impl UnitWidth {
    /// How many bits a unit has.
    pub fn bits(self) -> u8
        ensures { result ≡ bits_of self }
    {
        match self {
            UnitWidth::Byte => 8,
            UnitWidth::Word => 16,
            UnitWidth::DWord => 32,
            UnitWidth::QWord => 64,
        }
    }

    /// The unit whose bits are all ones.
    pub fn ones(self) -> u64
        ensures { result ≡ 2 ^ bits_of self - 1 }
    {
        match self {
            UnitWidth::Byte => 0xff,
            UnitWidth::Word => 0xffff,
            UnitWidth::DWord => 0xffff_ffff,
            UnitWidth::QWord => u64::MAX,
        }
    }
}
