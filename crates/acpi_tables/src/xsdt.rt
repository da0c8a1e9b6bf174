// The extended system description table (ACPI 6.5, 5.2.8).

ghost use Rattle.std.specs.Prelude.{◌≡◌, ◌==◌, ◌↔◌, IsOk, IfOk, IfErr, Some, length, slice_get, ◌≤◌};
ghost use Rattle.acpi_tables.specs.Xsdt.{IsXsdt, HasXsdt, listed, xsdt_checks};
ghost use Rattle.acpi_tables.specs.Entries.{addresses_left};
ghost use Rattle.acpi_tables.specs.Fault.{first_fault};

use crate::fault::{TableCause, TableFault};
use crate::header::Header;
use crate::table::read_table;
use byteorder::{ByteOrder, LittleEndian};

/// The table that lists the physical addresses of the others, lent from its bytes.
#[derive(Clone, Copy, Debug)]
pub struct Xsdt<'a> {
    pub header: Header<'a>,
    // The addresses, 8 bytes each.
    entries: &'a [u8],
}

#[tactic(auto, using(crate::proofs::XsdtAddresses::addresses_of))]
impl<'a> Xsdt<'a> {
    /// Reads the XSDT that fills the bytes.
    ///
    /// Faults, in this order: those of [`Header::read`]; E104 at 0 where the signature is another;
    /// E105 where fewer than 8 bytes are left for an address, at the first of them.
    pub fn read(bytes: &'a [u8]) -> Result<Self, TableFault>
        ensures table { IsOk result ↔ IsXsdt bytes.now }
        ensures fields { IfOk result (λ xsdt. HasXsdt bytes.now xsdt) }
        ensures fault { IfErr result (λ fault. first_fault (xsdt_checks bytes.now) ≡ Some fault) }
        ensures place { IfErr result (λ fault. fault.at ≤ length bytes.now) }
    {
        let header = read_table(bytes, b"XSDT")?;
        let entries = &bytes[Header::SIZE..];
        if entries.len() % 8 != 0 {
            return Err(TableFault {
                cause: TableCause::BadEntry,
                at: bytes.len() - entries.len() % 8,
            });
        }
        Ok(Xsdt { header, entries })
    }

    /// The number of addresses.
    pub fn len(&self) -> usize
        ensures { result ≡ length (listed self.now) }
    {
        self.entries.len() / 8
    }

    /// Whether there is no address.
    pub fn is_empty(&self) -> bool
        ensures { result ≡ (length (listed self.now) == 0) }
    {
        self.len() == 0
    }

    /// The addresses in order, in one pass.
    pub fn entries(&self) -> Addresses<'a>
        ensures { addresses_left result ≡ listed self.now }
    {
        Addresses { rest: self.entries }
    }

    /// The i-th address, from 0; None behind the last.
    pub fn entry(&self, i: usize) -> Option<u64>
        ensures { result ≡ slice_get (listed self.now) i }
    {
        if i < self.len() {
            Some(LittleEndian::read_u64(&self.entries[8 * i..]))
        } else {
            None
        }
    }
}

/// The addresses of an XSDT one after the other, lent from its bytes.
#[derive(Debug, Drop)]
pub struct Addresses<'a> {
    rest: &'a [u8],
}

#[tactic(auto, using(crate::proofs::XsdtAddresses::addresses_of))]
impl Iterator for Addresses<'_> {
    ghost use Rattle.std.specs.Iterator.{YieldsFirst, item_count};
    ghost use Rattle.acpi_tables.specs.Entries.{addresses_left};

    type Item = u64;

    ghost next_gives = { YieldsFirst addresses_left };

    ghost remaining = { item_count addresses_left };

    fn next(&mut self) -> Option<u64> {
        if self.rest.len() < 8 {
            return None;
        }
        let address = LittleEndian::read_u64(self.rest);
        self.rest = &self.rest[8..];
        Some(address)
    }
}
