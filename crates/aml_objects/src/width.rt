// The width of integers (ACPI 6.5, 19.6, DefinitionBlock), and what hangs on it.

ghost use Rattle.std.specs.Prelude.{◌≡◌, ◌-◌, ◌%◌, ◌^◌};
ghost use Rattle.aml_objects.specs.Widths.{bits_of, size_bits, width_by};

use crate::object::CreatedFieldSize;

/// How wide integers are, in all tables: 64 bits from the DSDT's revision 2 on.
#[derive(Clone, Copy, Debug, PartialEq, Eq)]
pub enum Width {
    Bits32,
    Bits64,
}

impl Width {
    /// The width that a DSDT's revision tells.
    pub fn by_revision(revision: u8) -> Width
        ensures { result ≡ width_by revision }
    {
        if revision < 2 {
            Width::Bits32
        } else {
            Width::Bits64
        }
    }

    /// The number of bits, 32 or 64.
    pub fn bits(self) -> u8
        ensures { result ≡ bits_of self }
    {
        match self {
            Width::Bits32 => 32,
            Width::Bits64 => 64,
        }
    }

    /// The greatest integer of this width, all its bits set.
    pub fn greatest(self) -> u64
        ensures { result ≡ 2 ^ bits_of self - 1 }
    {
        match self {
            Width::Bits32 => u64::from(u32::MAX),
            Width::Bits64 => u64::MAX,
        }
    }

    /// An integer, taken modulo 2 to the width.
    pub fn wrapped(self, number: u64) -> u64
        ensures { result ≡ number % 2 ^ bits_of self }
    {
        match self {
            Width::Bits32 => number % 0x1_0000_0000,
            Width::Bits64 => number,
        }
    }
}

impl CreatedFieldSize {
    /// How many bits a field of this size has, where integers have this width.
    pub fn bits(self, width: Width) -> u64
        ensures { result ≡ size_bits (bits_of width) self }
    {
        match self {
            CreatedFieldSize::Bit => 1,
            CreatedFieldSize::Byte => 8,
            CreatedFieldSize::Word => 16,
            CreatedFieldSize::DWord => 32,
            CreatedFieldSize::QWord => 64,
            CreatedFieldSize::Bits(count) => width.wrapped(count),
        }
    }
}
