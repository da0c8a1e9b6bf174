// What a resource descriptor says (ACPI 6.5, 6.4.2 and 6.4.3).

ghost use Rattle.std.specs.Prelude.{◌≡◌};
ghost use Rattle.acpi_resources.specs.Forms.{bytes_of};

use crate::numbers::Numbers;
use crate::signal::Signal;

/// How wide the numbers of an address space descriptor are: 16, 32 or 64 bits.
#[derive(Clone, Copy, Debug, PartialEq, Eq)]
pub enum AddressWidth {
    Word,
    Dword,
    Qword,
}

impl AddressWidth {
    /// How many bytes a number of this width has.
    pub fn bytes(self) -> usize
        ensures { result ≡ bytes_of self }
    {
        match self {
            AddressWidth::Word => 2,
            AddressWidth::Dword => 4,
            AddressWidth::Qword => 8,
        }
    }
}

/// What one resource descriptor says.
#[derive(Drop)]
pub enum Item {
    /// Interrupts of the ISA bus: bit n of the mask stands for interrupt n (6.4.2.1).
    Irq {
        mask: u16,
        signal: Signal,
    },
    /// Ports of I/O space, whose first is between two addresses (6.4.2.5).
    Io {
        minimum: u16,
        maximum: u16,
        alignment: u8,
        length: u8,
    },
    /// Ports of I/O space from an address on (6.4.2.6).
    FixedIo {
        base: u16,
        length: u8,
    },
    /// The end of the list (6.4.2.9). Its sum is not looked at.
    End,
    /// Memory, whose first byte is between two addresses of 32 bits (6.4.3.3).
    Memory {
        minimum: u32,
        maximum: u32,
        alignment: u32,
        length: u32,
    },
    /// Memory from an address of 32 bits on (6.4.3.4).
    FixedMemory {
        base: u32,
        length: u32,
    },
    /// A range of an address space, whose type is memory (0), I/O (1), bus numbers (2) or another
    /// (6.4.3.5).
    AddressSpace {
        width: AddressWidth,
        kind: u8,
        granularity: u64,
        minimum: u64,
        maximum: u64,
        translation: u64,
        length: u64,
    },
    /// Global interrupts by their numbers (6.4.3.6).
    Interrupt {
        signal: Signal,
        numbers: Numbers,
    },
    /// Any other descriptor: its tag's byte, and the number of bytes behind tag and length.
    Other {
        tag: u8,
        length: u16,
    },
}
