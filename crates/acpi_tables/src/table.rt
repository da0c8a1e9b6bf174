// A table that is asked for by its signature.

ghost use Rattle.std.specs.Prelude.{◌≡◌, ◌↔◌, IsOk, IfOk, IfErr, Some, ◌≤◌, length};
ghost use Rattle.acpi_tables.specs.Table.{IsTableOf, table_checks};
ghost use Rattle.acpi_tables.specs.Header.{HasHeader};
ghost use Rattle.acpi_tables.specs.Fault.{first_fault};

use crate::fault::{TableCause, TableFault};
use crate::header::Header;

/// Reads the header of a table that fills the bytes and begins with a signature (ACPI 6.5, 5.2.6).
///
/// Faults, in this order: those of `Header::read`; E104 at 0 where the bytes begin otherwise.
pub fn read_table<'a>(bytes: &'a [u8], signature: &[u8]) -> Result<Header<'a>, TableFault>
    ensures table { IsOk result ↔ IsTableOf signature.now bytes.now }
    ensures fields { IfOk result (λ header. HasHeader bytes.now header) }
    ensures fault { IfErr result
        (λ fault. first_fault (table_checks signature.now bytes.now) ≡ Some fault) }
    ensures place { IfErr result (λ fault. fault.at ≤ length bytes.now) }
{
    let header = Header::read(bytes)?;
    if !bytes.starts_with(signature) {
        return Err(TableFault {
            cause: TableCause::BadSignature,
            at: 0,
        });
    }
    Ok(header)
}
