// The root system description pointer (ACPI 6.5, 5.2.5.3).

ghost use Rattle.std.specs.Prelude.{◌≡◌, ◌↔◌, IsOk, IfOk, IfErr, Some, length, ◌≤◌};
ghost use Rattle.acpi_tables.specs.Rsdp.{IsRsdp, IsFirstPart, IsExtended, HasRsdp, extension_at, extension_of, rsdp_checks, first_checks, later_checks, extension_checks};
ghost use Rattle.acpi_tables.specs.Bytes.{number_at};
ghost use Rattle.acpi_tables.specs.Fault.{first_fault};

use crate::bytes::byte_sum;
use crate::fault::{TableCause, TableFault};
use byteorder::{ByteOrder, LittleEndian};

/// The pointer from which the firmware's tables are found, its text lent from its bytes.
#[derive(Clone, Copy, Debug)]
pub struct Rsdp<'a> {
    /// Makes the first 20 bytes sum to 0 modulo 256.
    pub checksum: u8,
    /// Six characters.
    pub oem_id: &'a [u8],
    pub revision: u8,
    /// The physical address of the RSDT.
    pub rsdt_address: u32,
    /// What revision 2 and later have.
    pub extension: Option<RsdpExtension>,
}

/// What an RSDP has from revision 2 on.
#[derive(Clone, Copy, Debug, PartialEq, Eq)]
pub struct RsdpExtension {
    /// The number of bytes of the structure, the first 20 included.
    pub length: u32,
    /// The physical address of the XSDT.
    pub xsdt_address: u64,
    /// Makes the bytes of that length sum to 0 modulo 256.
    pub checksum: u8,
}

impl<'a> Rsdp<'a> {
    /// The number of bytes of revisions below 2.
    pub const FIRST_SIZE: usize = 20;

    /// The least number of bytes from revision 2 on.
    pub const SIZE: usize = 36;

    /// Reads the RSDP at the front of the bytes; bytes behind it are ignored.
    ///
    /// Faults, in this order: E101 below 20 bytes, at the number of bytes; E104 at 0; E103 at 8
    /// where the first 20 bytes do not sum to 0 modulo 256. From revision 2 on also E101 below 36
    /// bytes, at the number of bytes; E102 at 20 where the length is below 36 or past the bytes;
    /// E103 at 32 where the bytes of that length do not sum to 0 modulo 256.
    pub fn read(bytes: &'a [u8]) -> Result<Self, TableFault>
        ensures table { IsOk result ↔ IsRsdp bytes.now }
        ensures fields { IfOk result (λ rsdp. HasRsdp bytes.now rsdp) }
        ensures fault { IfErr result (λ fault. first_fault (rsdp_checks bytes.now) ≡ Some fault) }
        ensures place { IfErr result (λ fault. fault.at ≤ length bytes.now) }
    {
        check_first_part(bytes)?;
        let extension = read_extension_of(bytes)?;
        Ok(Rsdp {
            checksum: bytes[8],
            oem_id: &bytes[9..15],
            revision: bytes[15],
            rsdt_address: LittleEndian::read_u32(&bytes[16..]),
            extension,
        })
    }
}

// Looks over the first 20 bytes.
fn check_first_part(bytes: &[u8]) -> Result<(), TableFault>
    ensures table { IsOk result ↔ IsFirstPart bytes.now }
    ensures fault { IfErr result (λ fault. first_fault (first_checks bytes.now) ≡ Some fault) }
    ensures place { IfErr result (λ fault. fault.at ≤ length bytes.now) }
{
    if bytes.len() < Rsdp::FIRST_SIZE {
        return Err(TableFault {
            cause: TableCause::Short,
            at: bytes.len(),
        });
    }
    if !bytes.starts_with(b"RSD PTR ") {
        return Err(TableFault {
            cause: TableCause::BadSignature,
            at: 0,
        });
    }
    if byte_sum(&bytes[..Rsdp::FIRST_SIZE]) != 0 {
        return Err(TableFault {
            cause: TableCause::BadSum,
            at: 8,
        });
    }
    Ok(())
}

// What the revision has behind the first 20 bytes.
fn read_extension_of(bytes: &[u8]) -> Result<Option<RsdpExtension>, TableFault>
    requires { 20 ≤ length bytes.now }
    ensures table { IsOk result ↔ (2 ≤ number_at 15 1 bytes.now → IsExtended bytes.now) }
    ensures fields { IfOk result (λ extension. extension ≡ extension_of bytes.now) }
    ensures fault { IfErr result (λ fault. first_fault (later_checks bytes.now) ≡ Some fault) }
    ensures place { IfErr result (λ fault. fault.at ≤ length bytes.now) }
{
    if bytes[15] < 2 {
        return Ok(None);
    }
    Ok(Some(read_extension(bytes)?))
}

// The extension behind the first 20 bytes.
fn read_extension(bytes: &[u8]) -> Result<RsdpExtension, TableFault>
    ensures table { IsOk result ↔ IsExtended bytes.now }
    ensures fields { IfOk result (λ extension. extension ≡ extension_at bytes.now) }
    ensures fault { IfErr result (λ fault. first_fault (extension_checks bytes.now) ≡ Some fault) }
    ensures place { IfErr result (λ fault. fault.at ≤ length bytes.now) }
{
    if bytes.len() < Rsdp::SIZE {
        return Err(TableFault {
            cause: TableCause::Short,
            at: bytes.len(),
        });
    }
    let length = LittleEndian::read_u32(&bytes[20..]);
    let size = length as usize;
    if size < Rsdp::SIZE || size > bytes.len() {
        return Err(TableFault {
            cause: TableCause::BadLength,
            at: 20,
        });
    }
    if byte_sum(&bytes[..size]) != 0 {
        return Err(TableFault {
            cause: TableCause::BadSum,
            at: 32,
        });
    }
    Ok(RsdpExtension {
        length,
        xsdt_address: LittleEndian::read_u64(&bytes[24..]),
        checksum: bytes[32],
    })
}
