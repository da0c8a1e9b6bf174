// What resource descriptors say, as it is printed.

ghost use Rattle.acpi_text.specs.Lists.{Lists};
ghost use Rattle.acpi_resource_text.specs.Lines.{item_line, items_text};

use crate::lines::line_of;
use acpi_resources::Item;
use acpi_text::{RunFault, put};
use std::alloc::Global;
use std::io::Write;

/// Prints a line for each item, in their order: `irq 3,4 edge high exclusive` and `interrupt -
/// level low shared` with the numbers of the interrupts, `io` and `memory` as `io 0x3f8 0x3f8 align
/// 1 length 8` with the least and greatest address, `fixed-io` and `fixed-memory` as `fixed-io 0x60
/// length 1`, `word`, `dword` and `qword` as `word space type 2 0x0 0xff length 256`, `end`, and
/// any other as `other 0x84 length 7` with its tag's byte. Lengths and alignments are in bytes.
///
/// At Err the writer holds a beginning of that text.
pub fn list_resources<W: Write>(alloc: Global, out: &mut W, items: &[Item]) -> Result<(), RunFault>
    ensures { Lists result (W.contents out.old) (W.contents out.new) (items_text items.now) }
{
    for item in items {
        list_item(alloc, out, item)?;
    }
    Ok(())
}

// Prints the line of an item.
fn list_item<W: Write>(alloc: Global, out: &mut W, item: &Item) -> Result<(), RunFault>
    ensures { Lists result (W.contents out.old) (W.contents out.new) (item_line item.now) }
{
    let line = line_of(alloc, item)?;
    put(out, line.as_bytes())
}
