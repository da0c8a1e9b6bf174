// The line of an interrupt controller structure (ACPI 6.5, 5.2.12.2 to 5.2.12.13).

ghost use Rattle.std.specs.Prelude.{◌≡◌, IfOk, string_bytes};
ghost use Rattle.acpi_text.specs.Structures.{structure_line};

use acpi_tables::Entry;
use std::alloc::{AllocError, Global};

/// The line of a structure of a MADT, by its type.
#[tactic(auto, unfolding(crate::specs::Structures::structure_line))]
pub(crate) fn structure_line_of(alloc: Global, entry: Entry) -> Result<String, AllocError>
    ensures { IfOk result (λ line. string_bytes line ≡ structure_line entry) }
{
    match entry {
        Entry::LocalApic { uid, id, flags } => {
            format!(in alloc; "  processor uid {uid} id {id} flags 0x{flags:x}\n")
        }
        Entry::IoApic { id, address, base } => {
            format!(in alloc; "  ioapic id {id} address 0x{address:x} base {base}\n")
        }
        Entry::InterruptSourceOverride {
            bus,
            source,
            number,
            flags,
        } => {
            format!(in alloc;
                "  override bus {bus} source {source} number {number} flags 0x{flags:x}\n"
            )
        }
        Entry::NmiSource { flags, number } => {
            format!(in alloc; "  nmi number {number} flags 0x{flags:x}\n")
        }
        Entry::LocalApicNmi { uid, flags, lint } => {
            format!(in alloc; "  local-nmi uid {uid} lint {lint} flags 0x{flags:x}\n")
        }
        Entry::LocalApicAddressOverride { address } => {
            format!(in alloc; "  local-address 0x{address:x}\n")
        }
        Entry::LocalX2Apic { id, flags, uid } => {
            format!(in alloc; "  x2apic uid {uid} id {id} flags 0x{flags:x}\n")
        }
        Entry::LocalX2ApicNmi { flags, uid, lint } => {
            format!(in alloc; "  x2apic-nmi uid {uid} lint {lint} flags 0x{flags:x}\n")
        }
        Entry::Other { kind, length } => {
            format!(in alloc; "  other type {kind} length {length}\n")
        }
    }
}
