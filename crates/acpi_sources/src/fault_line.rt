// The line of a fault.

ghost use Rattle.std.specs.Prelude.{◌≡◌, IfErr, IfOk, IsOk, string_bytes};
ghost use Rattle.acpi_text.specs.Lists.{Lists};
ghost use Rattle.acpi_sources.specs.Faults.{fault_line, where_text};
ghost use Rattle.acpi_sources.specs.declared.fault.Where.TheVariants.{Nowhere};
ghost use Rattle.acpi_text.specs.declared.writing.RunFault.TheVariants.{Write as WriteFailed};

use crate::fault::{Fault, Where};
use acpi_text::{RunFault, put};
use std::alloc::{AllocError, Global};
use std::io::Write;

/// Prints a fault's line: `fault E103 BadSum 1 9`, with number and name of what is wrong, and
/// behind them where: the table and the byte in it, a byte, a line, an element, or nothing.
///
/// Only a fault that has a place needs memory to be told. At Err the writer holds a beginning of
/// the line.
pub fn list_fault<W: Write>(alloc: Global, out: &mut W, fault: Fault) -> Result<(), RunFault>
    ensures lists { Lists result (W.contents out.old) (W.contents out.new) (fault_line fault) }
    ensures placeless { fault.at ≡ Nowhere → IfErr result (λ why. why ≡ WriteFailed) }
{
    let place = place_of(alloc, fault.at)?;
    put(out, b"fault ")?;
    put(out, fault.cause.text().as_bytes())?;
    put(out, place.as_bytes())?;
    put(out, b"\n")
}

#[tactic(auto, unfolding(crate::specs::Faults::where_text))]
fn place_of(alloc: Global, at: Where) -> Result<String, AllocError>
    ensures text { IfOk result (λ text. string_bytes text ≡ where_text at) }
    ensures placeless { at ≡ Nowhere → IsOk result }
{
    match at {
        Where::Nowhere => Ok(String::new(alloc)),
        Where::Table { table, at } => format!(in alloc; " {table} {at}"),
        Where::Byte(at) => format!(in alloc; " {at}"),
        Where::Line(line) => format!(in alloc; " {line}"),
        Where::Element(element) => format!(in alloc; " {element}"),
    }
}
