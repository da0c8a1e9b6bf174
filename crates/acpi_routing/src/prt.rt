// What an object gives whose value is taken as a `_PRT`, and the items of the links that it names.

ghost use Rattle.std.specs.Prelude.{◌≡◌, IfOk, true};
ghost use Rattle.acpi_objects.specs.Gives.{WereChecked, gives_value};
ghost use Rattle.acpi_routing.specs.Faults.{Answers};
ghost use Rattle.acpi_routing.specs.Prt.{GivesPrt, devices_given};
ghost use Rattle.aml_contents.specs.Belongs.{Belong};
ghost use Rattle.aml_contents.specs.Held.{content_kinds};
ghost use Rattle.aml_machine.specs.Views.{names_of};
ghost use Rattle.aml_objects.specs.Entries.{object_at};
ghost use Rattle.aml_namespace.specs.Shows.{shown};

use crate::devices::devices_in;
use crate::fault::LinkFault;
use crate::links::items_of_links;
use acpi_objects::{Given, value_of};
use acpi_resources::Item;
use aml_contents::Names;
use aml_paths::ObjectId;
use aml_regions::World;
use aml_verify::Checked;
use std::alloc::{AllocError, Global};

/// What an object gives, and the resource descriptors of the link devices that it names.
#[derive(Drop)]
pub struct Prt {
    pub given: Given,
    pub links: Vec<(ObjectId, Vec<Item>)>,
}

/// What the object with a number gives, which gives a value; and, where that is a package, the
/// resource descriptors of the links that its elements name: of each the first time that it is
/// named, over what the object itself, and then each `_CRS` before, left of the names and the
/// world.
///
/// # Errors
///
/// Of the first link that has one: E401 to E403 of the bytes that its `_CRS` gives; or `NoMemory`,
/// where memory is wanted.
pub fn prt_of<W: World>(
    alloc: Global,
    checked: &Checked<'_>,
    id: ObjectId,
    names: &mut Names,
    world: &mut W,
) -> Result<Prt, LinkFault>
    requires checked { WereChecked checked.now }
    requires gives { gives_value (object_at (shown checked.now.namespace.now).entries id.0) ≡ true }
    requires names { Belong (shown checked.now.namespace.now) (content_kinds names.old) }
    ensures prt { Answers (λ prt. prt)
        (λ r. GivesPrt checked.now id.0 r (names_of names.old) (W.log world.old)
        (names_of names.new) (W.log world.new)) result }
    ensures names { Belong (shown checked.now.namespace.now) (content_kinds names.new) }
{
    let given = value_of(alloc, checked, id, names, world)?;
    let devices = devices_given(alloc, &given)?;
    let links = items_of_links(alloc, checked, devices.as_slice(), names, world)?;
    Ok(Prt { given, links })
}

// The link devices that what an object gave names.
fn devices_given(alloc: Global, given: &Given) -> Result<Vec<ObjectId>, AllocError>
    ensures { IfOk result (λ devices. devices.items ≡ devices_given given.now) }
{
    match given {
        Given::Value(prt) => devices_in(alloc, prt),
        _ => Ok(Vec::new(alloc)),
    }
}
