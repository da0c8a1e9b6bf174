// The resource descriptors of link devices, one after the other.

ghost use Rattle.std.specs.Prelude.{◌≡◌, ◌++◌, OnOk, option_map};
ghost use Rattle.acpi_objects.specs.Gives.{WereChecked};
ghost use Rattle.acpi_resources.specs.Interrupts.{crs_of_links};
ghost use Rattle.acpi_routing.specs.Faults.{Answers};
ghost use Rattle.acpi_routing.specs.Links.{HaveItems, link_with};
ghost use Rattle.aml_contents.specs.Belongs.{Belong};
ghost use Rattle.aml_contents.specs.Held.{content_kinds};
ghost use Rattle.aml_machine.specs.Views.{names_of};
ghost use Rattle.aml_namespace.specs.Shows.{shown};

use crate::crs::items_of_device;
use crate::fault::LinkFault;
use acpi_resources::Item;
use aml_contents::Names;
use aml_paths::{NoMemory, ObjectId};
use aml_regions::World;
use aml_verify::Checked;
use std::alloc::Global;

/// The resource descriptors of devices: each device that has some, with them. Each `_CRS` is asked
/// once, in the order of the devices, over what the one before it left of the names and the world.
///
/// # Errors
///
/// Of the first device that has one: E401 to E403 of the bytes that its `_CRS` gives; or
/// `NoMemory`, where memory is wanted.
pub(crate) fn items_of_links<W: World>(
    alloc: Global,
    checked: &Checked<'_>,
    devices: &[ObjectId],
    names: &mut Names,
    world: &mut W,
) -> Result<Vec<(ObjectId, Vec<Item>)>, LinkFault>
    requires checked { WereChecked checked.now }
    requires names { Belong (shown checked.now.namespace.now) (content_kinds names.old) }
    ensures items { Answers (λ links. crs_of_links links.items)
        (λ r. HaveItems checked.now devices.now r (names_of names.old) (W.log world.old)
        (names_of names.new) (W.log world.new)) result }
    ensures names { Belong (shown checked.now.namespace.now) (content_kinds names.new) }
{
    let mut links = Vec::new(alloc);
    for device in devices {
        let found = items_of_device(alloc, checked, *device, names, world)?;
        add_link(&mut links, *device, found)?;
    }
    Ok(links)
}

// Adds a device with its items, where it has some.
fn add_link(
    links: &mut Vec<(ObjectId, Vec<Item>)>,
    device: ObjectId,
    found: Option<Vec<Item>>,
) -> Result<(), NoMemory>
    ensures { OnOk result (crs_of_links links.new.items ≡ crs_of_links links.old.items
        ++ link_with device (option_map (λ items. items.items) found)) }
{
    if let Some(items) = found {
        if links.push((device, items)).is_err() {
            return Err(NoMemory);
        }
    }
    Ok(())
}
