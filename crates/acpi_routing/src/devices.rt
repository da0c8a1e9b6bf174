// The link devices that a `_PRT` names.

ghost use Rattle.std.specs.Prelude.{◌≡◌, ◌∷◌, ◌++◌, [], IfOk, OnOk};
ghost use Rattle.std.specs.Option.{option_and_then, option_map};
ghost use Rattle.acpi_routing.specs.Devices.{IsSetOf, device_in, device_named, device_of, devices_among, devices_in, element_in, fault_in, fault_of_one, once, with_device};
ghost use Rattle.aml_values.specs.Views.{element, elements_of, view};

use acpi_resources::{EntryFault, entry_fault};
use aml_paths::ObjectId;
use aml_values::{Element, Value};
use std::alloc::{AllocError, Global};
use std::collections::BTreeSet;

/// The link devices that a `_PRT` names, each once, in the order in which they first appear: those
/// that the third parts of its elements name. None where it is no package.
pub(crate) fn devices_in(alloc: Global, prt: &Value) -> Result<Vec<ObjectId>, AllocError>
    ensures { IfOk result (λ devices. devices.items ≡ devices_in (view prt.now)) }
{
    match prt {
        Value::Pkg(package) => devices_among(alloc, package.elements()),
        _ => Ok(Vec::new(alloc)),
    }
}

/// The link device that an element of a `_PRT` names, by the element's number.
pub(crate) fn device_at(prt: &Value, number: usize) -> Option<ObjectId>
    ensures { result ≡ device_in (view prt.now) number }
{
    match prt {
        Value::Pkg(package) => device_of_one(package.elements().get(number)),
        _ => None,
    }
}

/// What keeps an element of a `_PRT` from saying where an interrupt comes from, by the element's
/// number.
pub(crate) fn entry_fault_at(prt: &Value, number: usize) -> EntryFault
    ensures { result ≡ fault_in (view prt.now) number }
{
    match prt {
        Value::Pkg(package) => fault_of_one(package.elements().get(number)),
        _ => EntryFault::Parts,
    }
}

// The devices that elements name, each once.
fn devices_among(alloc: Global, elements: &[Element]) -> Result<Vec<ObjectId>, AllocError>
    ensures { IfOk result (λ devices.
        devices.items ≡ once (devices_among (elements_of elements.now))) }
{
    let mut devices = Vec::new(alloc);
    let mut seen = BTreeSet::new(alloc);
    for each in elements {
        if let Some(device) = device_of(each) {
            add_device(&mut devices, &mut seen, device)?;
        }
    }
    Ok(devices)
}

// Adds a device, unless it is there; the set has the numbers of those that are.
fn add_device(
    devices: &mut Vec<ObjectId>,
    seen: &mut BTreeSet<usize>,
    device: ObjectId,
) -> Result<(), AllocError>
    requires { IsSetOf seen.old devices.old.items }
    ensures added { OnOk result (devices.new.items ≡ with_device devices.old.items device) }
    ensures kept { OnOk result (IsSetOf seen.new devices.new.items) }
{
    if seen.insert(device.0)? {
        devices.push(device)?;
    }
    Ok(())
}

// The device that an element names.
fn device_of(each: &Element) -> Option<ObjectId>
    ensures { result ≡ device_of (element each.now) }
{
    match each {
        Element::Value(Value::Pkg(package)) => third_device(package.elements()),
        _ => None,
    }
}

// The device that an element names, if there is one.
fn device_of_one(each: Option<&Element>) -> Option<ObjectId>
    ensures { result
        ≡ option_and_then device_of (option_map element (option_map (λ e. e.now) each.entry)) }
{
    match each {
        Some(each) => device_of(each),
        None => None,
    }
}

// What keeps an element from saying where an interrupt comes from, if anything does.
fn fault_of_one(each: Option<&Element>) -> EntryFault
    ensures { result ≡ fault_of_one (option_map element (option_map (λ e. e.now) each.entry)) }
{
    match each {
        Some(each) => entry_fault(each).unwrap_or(EntryFault::Parts),
        None => EntryFault::Parts,
    }
}

// The device that the third of an element's parts names.
fn third_device(parts: &[Element]) -> Option<ObjectId>
    ensures { result ≡ device_named (element_in (elements_of parts.now) 2) }
{
    device_named(parts.get(2))
}

// The device that a part names, if there is one and it is a name.
fn device_named(part: Option<&Element>) -> Option<ObjectId>
    ensures { result ≡ device_named (option_map element (option_map (λ e. e.now) part.entry)) }
{
    match part {
        Some(Element::Name(device)) => *device,
        _ => None,
    }
}
