// The header that begins every table but the RSDP and the FACS (ACPI 6.5, 5.2.6).

ghost use Rattle.std.specs.Prelude.{◌≡◌, ◌↔◌, IsOk, IfOk, IfErr, Some, ◌≤◌, length};
ghost use Rattle.acpi_tables.specs.Header.{IsTable, HasHeader};
ghost use Rattle.acpi_tables.specs.Fault.{first_fault};
ghost use Rattle.acpi_tables.specs.Header.{header_checks};

use crate::bytes::byte_sum;
use crate::fault::{TableCause, TableFault};
use byteorder::{ByteOrder, LittleEndian};

/// The fields of a table's header, lent from its bytes.
#[derive(Clone, Copy, Debug)]
pub struct Header<'a> {
    /// Four characters that name the table.
    pub signature: &'a [u8],
    /// The number of bytes of the table, header included.
    pub length: u32,
    /// The revision of the table's own layout; a DSDT's sets the width of integers.
    pub revision: u8,
    pub checksum: u8,
    /// Six characters.
    pub oem_id: &'a [u8],
    /// Eight characters.
    pub oem_table_id: &'a [u8],
    pub oem_revision: u32,
    /// Four characters.
    pub creator_id: &'a [u8],
    pub creator_revision: u32,
}

impl<'a> Header<'a> {
    /// The number of bytes of a header.
    pub const SIZE: usize = 36;

    /// Reads the header of a table that fills the bytes.
    ///
    /// Faults, in this order: E101 below 36 bytes, at the number of bytes; E102 at 4 where the
    /// length is not the number of bytes; E103 at 9 where the bytes do not sum to 0 modulo 256.
    pub fn read(bytes: &'a [u8]) -> Result<Self, TableFault>
        ensures table { IsOk result ↔ IsTable bytes.now }
        ensures fields { IfOk result (λ header. HasHeader bytes.now header) }
        ensures fault { IfErr result (λ fault. first_fault (header_checks bytes.now) ≡ Some fault) }
        ensures place { IfErr result (λ fault. fault.at ≤ length bytes.now) }
    {
        if bytes.len() < Self::SIZE {
            return Err(TableFault {
                cause: TableCause::Short,
                at: bytes.len(),
            });
        }
        let length = LittleEndian::read_u32(&bytes[4..]);
        if length as usize != bytes.len() {
            return Err(TableFault {
                cause: TableCause::BadLength,
                at: 4,
            });
        }
        if byte_sum(bytes) != 0 {
            return Err(TableFault {
                cause: TableCause::BadSum,
                at: 9,
            });
        }
        Ok(Header {
            signature: &bytes[..4],
            length,
            revision: bytes[8],
            checksum: bytes[9],
            oem_id: &bytes[10..16],
            oem_table_id: &bytes[16..24],
            oem_revision: LittleEndian::read_u32(&bytes[24..]),
            creator_id: &bytes[28..32],
            creator_revision: LittleEndian::read_u32(&bytes[32..]),
        })
    }
}
