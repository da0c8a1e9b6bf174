// Lists of resource descriptors, read from their bytes (ACPI 6.5, 6.4).

ghost use Rattle.std.specs.Prelude.{◌≡◌, ◌≤◌, IfErr, IfOk, length};
ghost use Rattle.acpi_resources.specs.Fault.{ReadsAs, StandsWithin};
ghost use Rattle.acpi_resources.specs.Items.{first_item, is_end, items_of};

use crate::body::body;
use crate::fault::{ResourceCause, ResourceFault, refuse};
use crate::form::may_have;
use crate::head::head_of;
use crate::item::Item;
use std::alloc::Global;

/// The items that the bytes hold, up to the first end tag, which is the last of them. What stands
/// behind it is not looked at.
///
/// Faults, of the first item that has one, at its place: E401 where the bytes end within its tag
/// and length; E402 where it cannot have that length; E401 where the bytes end within it; E402
/// where the numbers of an extended interrupt descriptor go past it. E403 where no end tag comes,
/// at the end of the bytes. Or want of memory.
pub fn items(alloc: Global, bytes: &[u8]) -> Result<Vec<Item>, ResourceFault>
    ensures gives { ReadsAs (λ items. items.items) result (items_of bytes.now) }
    ensures place { IfErr result (StandsWithin (length bytes.now)) }
{
    let mut items = Vec::new(alloc);
    let mut at = 0;
    while at < bytes.len() {
        let (item, size) = first_item(alloc, &bytes[at..], at)?;
        let is_last = is_end(&item);
        items.push(item)?;
        if is_last {
            return Ok(items);
        }
        at += size;
    }
    Err(refuse(ResourceCause::NoEnd, at))
}

/// Whether an item is an end tag.
fn is_end(item: &Item) -> bool
    ensures { result ≡ is_end item.now }
{
    matches!(item, Item::End)
}

// The item at the front of the bytes, which stand at a place, and how many bytes it takes.
#[tactic(auto, unfolding(crate::specs::Items::first_item))]
fn first_item(alloc: Global, bytes: &[u8], at: usize) -> Result<(Item, usize), ResourceFault>
    ensures gives { ReadsAs (λ read. read) result (first_item at bytes.now) }
    ensures within { IfOk result (λ read. read.1 ≤ length bytes.now) }
    ensures ahead { IfOk result (λ read. 1 ≤ read.1) }
{
    let Some(head) = head_of(bytes) else {
        return Err(refuse(ResourceCause::Truncated, at));
    };
    let lead = head.lead as usize;
    let size = head.size as usize;
    if !may_have(head.form, size) {
        return Err(refuse(ResourceCause::BadItem, at));
    }
    let behind = &bytes[lead..];
    if behind.len() < size {
        return Err(refuse(ResourceCause::Truncated, at));
    }
    let item = body(alloc, head, &behind[..size], at)?;
    Ok((item, lead + size))
}
