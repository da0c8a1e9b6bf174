// The interrupt controller structures of a MADT (ACPI 6.5, 5.2.12.2 to 5.2.12.13).

ghost use Rattle.std.specs.Prelude.{◌≡◌, ◌≤◌, ◌∷◌, [], MatchOption, IfSome, length, drop, slice_index};
ghost use Rattle.acpi_tables.specs.Structure.{structures, layout_size, entry_of, local_apic, io_apic, interrupt_source_override, nmi_source, local_apic_nmi, local_apic_address_override, local_x2apic, local_x2apic_nmi};

use byteorder::{ByteOrder, LittleEndian};

/// One interrupt controller structure, by its type.
#[derive(Clone, Copy, Debug, PartialEq, Eq)]
pub enum Entry {
    /// Type 0, a processor's local APIC.
    LocalApic {
        uid: u8,
        id: u8,
        flags: u32,
    },
    /// Type 1, an I/O APIC at a physical address, whose inputs are the global interrupts from
    /// `base` on.
    IoApic {
        id: u8,
        address: u32,
        base: u32,
    },
    /// Type 2, an interrupt source override: the source of a bus is that global interrupt.
    InterruptSourceOverride {
        bus: u8,
        source: u8,
        number: u32,
        flags: u16,
    },
    /// Type 3, a global interrupt that is non-maskable.
    NmiSource {
        flags: u16,
        number: u32,
    },
    /// Type 4, the local interrupt input of a processor's non-maskable interrupt.
    LocalApicNmi {
        uid: u8,
        flags: u16,
        lint: u8,
    },
    /// Type 5, the physical address of the local APICs in 64 bits.
    LocalApicAddressOverride {
        address: u64,
    },
    /// Type 9, a processor's local x2APIC.
    LocalX2Apic {
        id: u32,
        flags: u32,
        uid: u32,
    },
    /// Type 10, the local interrupt input of such a processor's non-maskable interrupt.
    LocalX2ApicNmi {
        flags: u16,
        uid: u32,
        lint: u8,
    },
    /// Any other type, and the number of the structure's bytes.
    Other {
        kind: u8,
        length: u8,
    },
}

/// The structures of a MADT one after the other, lent from its bytes.
#[derive(Debug, Drop)]
pub struct Entries<'a> {
    rest: &'a [u8],
}

impl<'a> Entries<'a> {
    // The structures at the front of the bytes.
    pub(crate) fn new(rest: &'a [u8]) -> Self
        ensures { result.rest.now ≡ rest.now }
    {
        Entries { rest }
    }
}

impl Iterator for Entries<'_> {
    ghost use Rattle.std.specs.Iterator.{YieldsFirst, item_count};
    ghost use Rattle.acpi_tables.specs.Entries.{entries_left};

    type Item = Entry;

    ghost next_gives = { YieldsFirst entries_left };

    ghost remaining = { item_count entries_left };

    fn next(&mut self) -> Option<Entry> {
        let structure = first_structure(self.rest)?;
        self.rest = &self.rest[structure.len()..];
        Some(read_entry(structure))
    }
}

/// The structure at the front of the bytes, if one stands there.
#[tactic(auto, using(crate::proofs::Structures::fronts))]
pub(crate) fn first_structure(bytes: &[u8]) -> Option<&[u8]>
    ensures cases { MatchOption result (structures bytes.now ≡ [])
        (λ s. structures bytes.now ≡ s.now ∷ structures (drop (length s.now) bytes.now)) }
    ensures sized { IfSome result (λ s. 2 ≤ length s.now) }
    ensures within { IfSome result (λ s. length s.now ≤ length bytes.now) }
    ensures laid_out { IfSome result (λ s. layout_size (slice_index s.now 0) ≤ length s.now) }
{
    let [kind, size, ..] = bytes else {
        return None;
    };
    let size = *size as usize;
    if size < smallest_size(*kind) || size > bytes.len() {
        return None;
    }
    Some(&bytes[..size])
}

// The number of bytes that a type lays out: of a type that is not listed, its type and length
// alone.
#[tactic(auto, unfolding(crate::specs::Structure::layout_size))]
fn smallest_size(kind: u8) -> usize
    ensures value { result ≡ layout_size kind }
    ensures least { 2 ≤ result }
{
    match kind {
        0 | 3 => 8,
        1 | 5 | 10 => 12,
        2 => 10,
        4 => 6,
        9 => 16,
        _ => 2,
    }
}

// What a structure says, by its type's layout.
#[tactic(auto, unfolding(crate::specs::Structure::layout_size, crate::specs::Structure::entry_of))]
fn read_entry(structure: &[u8]) -> Entry
    requires sized { 2 ≤ length structure.now }
    requires laid_out { layout_size (slice_index structure.now 0) ≤ length structure.now }
    ensures { result ≡ entry_of structure.now }
{
    match structure[0] {
        0 => read_local_apic(structure),
        1 => read_io_apic(structure),
        2 => read_interrupt_source_override(structure),
        3 => read_nmi_source(structure),
        4 => read_local_apic_nmi(structure),
        5 => read_local_apic_address_override(structure),
        9 => read_local_x2apic(structure),
        10 => read_local_x2apic_nmi(structure),
        kind => Entry::Other {
            kind,
            length: structure[1],
        },
    }
}

fn read_local_apic(structure: &[u8]) -> Entry
    requires { 8 ≤ length structure.now }
    ensures { result ≡ local_apic structure.now }
{
    Entry::LocalApic {
        uid: structure[2],
        id: structure[3],
        flags: LittleEndian::read_u32(&structure[4..]),
    }
}

fn read_io_apic(structure: &[u8]) -> Entry
    requires { 12 ≤ length structure.now }
    ensures { result ≡ io_apic structure.now }
{
    Entry::IoApic {
        id: structure[2],
        address: LittleEndian::read_u32(&structure[4..]),
        base: LittleEndian::read_u32(&structure[8..]),
    }
}

fn read_interrupt_source_override(structure: &[u8]) -> Entry
    requires { 10 ≤ length structure.now }
    ensures { result ≡ interrupt_source_override structure.now }
{
    Entry::InterruptSourceOverride {
        bus: structure[2],
        source: structure[3],
        number: LittleEndian::read_u32(&structure[4..]),
        flags: LittleEndian::read_u16(&structure[8..]),
    }
}

fn read_nmi_source(structure: &[u8]) -> Entry
    requires { 8 ≤ length structure.now }
    ensures { result ≡ nmi_source structure.now }
{
    Entry::NmiSource {
        flags: LittleEndian::read_u16(&structure[2..]),
        number: LittleEndian::read_u32(&structure[4..]),
    }
}

fn read_local_apic_nmi(structure: &[u8]) -> Entry
    requires { 6 ≤ length structure.now }
    ensures { result ≡ local_apic_nmi structure.now }
{
    Entry::LocalApicNmi {
        uid: structure[2],
        flags: LittleEndian::read_u16(&structure[3..]),
        lint: structure[5],
    }
}

fn read_local_apic_address_override(structure: &[u8]) -> Entry
    requires { 12 ≤ length structure.now }
    ensures { result ≡ local_apic_address_override structure.now }
{
    Entry::LocalApicAddressOverride {
        address: LittleEndian::read_u64(&structure[4..]),
    }
}

fn read_local_x2apic(structure: &[u8]) -> Entry
    requires { 16 ≤ length structure.now }
    ensures { result ≡ local_x2apic structure.now }
{
    Entry::LocalX2Apic {
        id: LittleEndian::read_u32(&structure[4..]),
        flags: LittleEndian::read_u32(&structure[8..]),
        uid: LittleEndian::read_u32(&structure[12..]),
    }
}

fn read_local_x2apic_nmi(structure: &[u8]) -> Entry
    requires { 12 ≤ length structure.now }
    ensures { result ≡ local_x2apic_nmi structure.now }
{
    Entry::LocalX2ApicNmi {
        flags: LittleEndian::read_u16(&structure[2..]),
        uid: LittleEndian::read_u32(&structure[4..]),
        lint: structure[8],
    }
}
