// The resource descriptors of a link device.

ghost use Rattle.std.specs.Prelude.{◌≡◌, IfOk, Some, option_map, true};
ghost use Rattle.acpi_objects.specs.Gives.{WereChecked};
ghost use Rattle.acpi_objects.specs.Gives as objects;
ghost use Rattle.acpi_routing.specs.Crs.{HasItems, HasItemsBy, crs_of, items_given, octets_given, value_under};
ghost use Rattle.acpi_routing.specs.Faults.{Answers};
ghost use Rattle.aml_contents.specs.Belongs.{Belong};
ghost use Rattle.aml_contents.specs.Held.{content_kinds};
ghost use Rattle.aml_machine.specs.Views.{names_of};
ghost use Rattle.aml_objects.specs.Entries.{object_at};
ghost use Rattle.aml_namespace.specs.Shows.{shown};
ghost use Rattle.aml_values.specs.Views.{view};

use crate::fault::{LinkFault, link_fault};
use acpi_objects::{Given, gives_value, value_of};
use acpi_resources::{Item, items};
use aml_contents::Names;
use aml_namespace::Namespace;
use aml_path_text::push_path;
use aml_paths::{NoMemory, ObjectId};
use aml_regions::World;
use aml_values::Value;
use aml_verify::Checked;
use std::alloc::Global;

/// The object whose path is that of a device with `_CRS` behind it, where it gives a value: a data
/// name, or a method without arguments.
///
/// # Errors
///
/// `NoMemory`, where memory is wanted.
pub(crate) fn crs_of(
    alloc: Global,
    namespace: &Namespace<'_>,
    device: ObjectId,
) -> Result<Option<ObjectId>, NoMemory>
    ensures { IfOk result (λ crs.
        option_map (λ id. id.0) crs ≡ crs_of (shown namespace.now) device.0) }
{
    let mut path = Vec::new(alloc);
    push_path(alloc, &mut path, namespace, device)?;
    path.extend_from_slice(b"._CRS")?;
    Ok(value_under(namespace, &path))
}

// The object of a path, where it gives a value.
fn value_under(namespace: &Namespace<'_>, path: &[u8]) -> Option<ObjectId>
    ensures { option_map (λ id. id.0) result ≡ value_under (shown namespace.now) path.now }
{
    let id = namespace.find(path)?;
    if gives_value(namespace.object(id)) {
        Some(id)
    } else {
        None
    }
}

/// The resource descriptors that a device's `_CRS` gives: what a data name holds, or what a method
/// that is accepted gives, over these names and this world. None where there is no such `_CRS`,
/// where it is a method that is not accepted, and where it gives no buffer.
///
/// # Errors
///
/// E401 to E403 of the bytes of the buffer; `NoMemory`, where memory is wanted.
pub(crate) fn items_of_device<W: World>(
    alloc: Global,
    checked: &Checked<'_>,
    device: ObjectId,
    names: &mut Names,
    world: &mut W,
) -> Result<Option<Vec<Item>>, LinkFault>
    requires checked { WereChecked checked.now }
    requires names { Belong (shown checked.now.namespace.now) (content_kinds names.old) }
    ensures items { Answers (option_map (λ found. found.items))
        (λ r. HasItems checked.now device r (names_of names.old) (W.log world.old)
        (names_of names.new) (W.log world.new)) result }
    ensures names { Belong (shown checked.now.namespace.now) (content_kinds names.new) }
{
    let crs = crs_of(alloc, checked.namespace(), device)?;
    match crs {
        Some(crs) => items_of_crs(alloc, checked, device, crs, names, world),
        None => Ok(None),
    }
}

// The resource descriptors that a device's `_CRS` gives, by its number.
fn items_of_crs<W: World>(
    alloc: Global,
    checked: &Checked<'_>,
    device: ObjectId,
    crs: ObjectId,
    names: &mut Names,
    world: &mut W,
) -> Result<Option<Vec<Item>>, LinkFault>
    requires checked { WereChecked checked.now }
    requires gives { objects.gives_value (object_at (shown checked.now.namespace.now).entries crs.0)
        ≡ true }
    requires names { Belong (shown checked.now.namespace.now) (content_kinds names.old) }
    ensures items { Answers (option_map (λ found. found.items))
        (λ r. HasItemsBy checked.now device (Some crs.0) r (names_of names.old) (W.log world.old)
        (names_of names.new) (W.log world.new)) result }
    ensures names { Belong (shown checked.now.namespace.now) (content_kinds names.new) }
{
    let given = value_of(alloc, checked, crs, names, world)?;
    items_given(alloc, device, &given)
}

// The resource descriptors of what a device's `_CRS` gave.
fn items_given(
    alloc: Global,
    device: ObjectId,
    given: &Given,
) -> Result<Option<Vec<Item>>, LinkFault>
    ensures { Answers (option_map (λ found. found.items))
        (λ r. r ≡ items_given device given.now) result }
{
    let Some(octets) = octets_given(given) else {
        return Ok(None);
    };
    match items(alloc, octets) {
        Ok(items) => Ok(Some(items)),
        Err(fault) => Err(link_fault(device, fault)),
    }
}

// The bytes of the buffer that an object gave.
fn octets_given(given: &Given) -> Option<&[u8]>
    ensures { option_map (λ octets. octets.now) result ≡ octets_given given.now }
{
    match given {
        Given::Value(Value::Buf(octets)) => Some(octets.as_slice()),
        _ => None,
    }
}
