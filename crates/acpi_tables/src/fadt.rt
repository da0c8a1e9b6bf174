// The fixed ACPI description table (ACPI 6.5, 5.2.9).

ghost use Rattle.std.specs.Prelude.{◌≡◌, ◌<◌, ◌^◌, ◌↔◌, IsOk, IfOk, IfErr, Some, ◌≤◌, length};
ghost use Rattle.std.specs.Option.{option_map};
ghost use Rattle.acpi_tables.specs.Fadt.{IsFadt, HasFadt, field_at, is_hardware_reduced, fadt_checks};
ghost use Rattle.acpi_tables.specs.Fault.{first_fault};

use crate::fault::TableFault;
use crate::header::Header;
use crate::table::read_table;
use byteorder::{ByteOrder, LittleEndian};

/// The fields of a FADT that are looked at. One that the table ends before is None.
#[derive(Clone, Copy, Debug)]
pub struct Fadt<'a> {
    pub header: Header<'a>,
    /// The physical address of the DSDT.
    pub dsdt: Option<u32>,
    /// The kind of machine, as a number of the preferred power management profiles.
    pub preferred_profile: Option<u8>,
    /// The interrupt of system control events.
    pub sci_interrupt: Option<u16>,
    pub flags: Option<u32>,
    /// The physical address of the DSDT, in 64 bits.
    pub x_dsdt: Option<u64>,
}

impl<'a> Fadt<'a> {
    /// Reads the FADT that fills the bytes.
    ///
    /// Faults, in this order: those of [`Header::read`]; E104 at 0 where the signature is another.
    pub fn read(bytes: &'a [u8]) -> Result<Self, TableFault>
        ensures table { IsOk result ↔ IsFadt bytes.now }
        ensures fields { IfOk result (λ fadt. HasFadt bytes.now fadt) }
        ensures fault { IfErr result (λ fault. first_fault (fadt_checks bytes.now) ≡ Some fault) }
        ensures place { IfErr result (λ fault. fault.at ≤ length bytes.now) }
    {
        let header = read_table(bytes, b"FACP")?;
        Ok(Fadt {
            header,
            dsdt: u32_at(bytes, 40),
            preferred_profile: u8_at(bytes, 45),
            sci_interrupt: u16_at(bytes, 46),
            flags: u32_at(bytes, 112),
            x_dsdt: u64_at(bytes, 140),
        })
    }

    /// Whether the platform is hardware reduced, where the table has flags.
    pub fn hardware_reduced(&self) -> Option<bool>
        ensures { result ≡ option_map is_hardware_reduced self.now.flags }
    {
        match self.flags {
            Some(flags) => Some(flags >> 20 & 1 == 1),
            None => None,
        }
    }
}

// The byte at a place, where there is one.
fn u8_at(bytes: &[u8], at: usize) -> Option<u8>
    ensures { result ≡ field_at at 1 bytes.now }
{
    if at < bytes.len() {
        Some(bytes[at])
    } else {
        None
    }
}

// The number of 2 bytes at a place, where the bytes reach its end.
fn u16_at(bytes: &[u8], at: usize) -> Option<u16>
    requires { at < 2 ^ 16 }
    ensures { result ≡ field_at at 2 bytes.now }
{
    if at + 2 <= bytes.len() {
        Some(LittleEndian::read_u16(&bytes[at..]))
    } else {
        None
    }
}

// The number of 4 bytes at a place, where the bytes reach its end.
fn u32_at(bytes: &[u8], at: usize) -> Option<u32>
    requires { at < 2 ^ 16 }
    ensures { result ≡ field_at at 4 bytes.now }
{
    if at + 4 <= bytes.len() {
        Some(LittleEndian::read_u32(&bytes[at..]))
    } else {
        None
    }
}

// The number of 8 bytes at a place, where the bytes reach its end.
fn u64_at(bytes: &[u8], at: usize) -> Option<u64>
    requires { at < 2 ^ 16 }
    ensures { result ≡ field_at at 8 bytes.now }
{
    if at + 8 <= bytes.len() {
        Some(LittleEndian::read_u64(&bytes[at..]))
    } else {
        None
    }
}
