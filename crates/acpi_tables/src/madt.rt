// The multiple APIC description table (ACPI 6.5, 5.2.12).

ghost use Rattle.std.specs.Prelude.{◌≡◌, ◌≤◌, ◌↔◌, IsOk, IfOk, IfErr, Some, length, slice_get};
ghost use Rattle.acpi_tables.specs.Madt.{IsMadt, HasMadt, entries, structures_end, is_pcat_compatible, madt_checks};
ghost use Rattle.acpi_tables.specs.Entries.{entries_left};
ghost use Rattle.acpi_tables.specs.Isa.{isa};
ghost use Rattle.acpi_tables.specs.Fault.{first_fault};

use crate::entry::{Entries, Entry, first_structure};
use crate::fault::{TableCause, TableFault};
use crate::header::Header;
use crate::isa::{Isa, is_override_of, routed};
use crate::table::read_table;
use byteorder::{ByteOrder, LittleEndian};

/// The table of interrupt controllers, lent from its bytes.
#[derive(Clone, Copy, Debug)]
pub struct Madt<'a> {
    pub header: Header<'a>,
    /// The physical address of the local APICs.
    pub local_address: u32,
    pub flags: u32,
    // The structures, each where the one before it ends.
    structures: &'a [u8],
}

impl<'a> Madt<'a> {
    /// The least number of bytes of a MADT, and the place of its first structure.
    pub const SIZE: usize = 44;

    /// Reads the MADT that fills the bytes.
    ///
    /// Faults, in this order: those of [`Header::read`]; E104 at 0 where the signature is another;
    /// E101 below 44 bytes, at the number of bytes; E105 at the first structure whose length is
    /// missing, below its type's layout or past the end.
    pub fn read(bytes: &'a [u8]) -> Result<Self, TableFault>
        ensures table { IsOk result ↔ IsMadt bytes.now }
        ensures fields { IfOk result (λ madt. HasMadt bytes.now madt) }
        ensures fault { IfErr result (λ fault. first_fault (madt_checks bytes.now) ≡ Some fault) }
        ensures place { IfErr result (λ fault. fault.at ≤ length bytes.now) }
    {
        let header = read_table(bytes, b"APIC")?;
        if bytes.len() < Self::SIZE {
            return Err(TableFault {
                cause: TableCause::Short,
                at: bytes.len(),
            });
        }
        let end = end_of_structures(bytes);
        if end < bytes.len() {
            return Err(TableFault {
                cause: TableCause::BadEntry,
                at: end,
            });
        }
        Ok(Madt {
            header,
            local_address: LittleEndian::read_u32(&bytes[36..]),
            flags: LittleEndian::read_u32(&bytes[40..]),
            structures: &bytes[Self::SIZE..],
        })
    }

    /// Whether the platform also has the two 8259 interrupt controllers of a PC.
    pub fn pcat_compatible(&self) -> bool
        ensures { result ≡ is_pcat_compatible self.now.flags }
    {
        self.flags & 1 == 1
    }

    /// The structures in order, in one pass.
    pub fn entries(&self) -> Entries<'a>
        ensures { entries_left result ≡ entries self.now }
    {
        Entries::new(self.structures)
    }

    /// The i-th structure, from 0; None behind the last. It passes over those before it: for all of
    /// them take [`Madt::entries`].
    pub fn entry(&self, i: usize) -> Option<Entry>
        ensures { result ≡ slice_get (entries self.now) i }
    {
        self.entries().nth(i)
    }

    /// Where an ISA interrupt goes: by the first override of bus 0 with that source, else to the
    /// global interrupt of its own number, edge triggered and active high.
    pub fn isa_route(&self, source: u8) -> Isa
        ensures { result ≡ isa (entries self.now) source }
    {
        let first = self.entries().find(|entry| is_override_of(entry, source));
        routed(source, first)
    }
}

// The place where the structures end that follow one another from 44 on.
fn end_of_structures(bytes: &[u8]) -> usize
    requires { 44 ≤ length bytes.now }
    ensures value { result ≡ structures_end bytes.now }
    ensures within { result ≤ length bytes.now }
{
    let mut at = Madt::SIZE;
    while let Some(structure) = first_structure(&bytes[at..]) {
        at += structure.len();
    }
    at
}
