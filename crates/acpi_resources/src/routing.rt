// The interrupts of devices behind a bus, by its `_PRT` (ACPI 6.5, 6.2.13).

ghost use Rattle.std.specs.Prelude.{◌≡◌, ℕ, Option, slice_index};
ghost use Rattle.std.specs.Option.{option_map};
ghost use Rattle.std.specs.Ordering.{nat_cmp};
ghost use Rattle.std.specs.BTreeMap.{get};
ghost use Rattle.aml_values.specs.Views.{element, elements_of, view};
ghost use Rattle.acpi_resources.specs.Interrupts.{crs_of_links, flat, global_number, interrupt_of_device};
ghost use Rattle.acpi_resources.specs.RouteFaults.{RoutesAs};
ghost use Rattle.acpi_resources.specs.Routes.{route_of, routes_from, routes_of, source_interrupt};

use crate::isa_numbers::IsaNumbers;
use crate::item::Item;
use crate::links::Links;
use crate::mapping::{Source, mapping_of};
use crate::route::{GlobalInterrupt, Route};
use crate::route_fault::{RouteCause, RouteFault, refuse_element};
use crate::signal::{Polarity, Trigger};
use acpi_tables::Madt;
use aml_paths::ObjectId;
use aml_values::{Element, Value};
use std::alloc::Global;

/// Where the interrupt pins go that a `_PRT` lists, in its order.
///
/// An element is a package of an address, a pin from 0 to 3, a source and an index. With source 0
/// the index is the number of a global interrupt, which is level triggered and active low. A name
/// as source names a link device, whose items, those of its `_CRS`, stand in `links` (of two pairs
/// of one device the first counts): the first interrupt of the first item that lists interrupts is
/// taken, as that item says that it is signalled. The number of an interrupt of the ISA bus is the
/// one to which [`Madt::isa_route`] sends it, or its own without a MADT.
///
/// Faults, of the first element that has one, by its number: E411 where it is no such package, or
/// its index is 2^32 or more with source 0; E412 where its name names nothing, or a device that is
/// not among the links, that has no item of interrupts, or none in the first. E411 of element 0
/// where the value is no package. Or want of memory.
pub fn routes(
    alloc: Global,
    prt: &Value,
    links: &[(ObjectId, Vec<Item>)],
    madt: Option<&Madt<'_>>,
) -> Result<Vec<Route>, RouteFault>
    ensures { let global = global_number (option_map (λ madt. madt.now) madt.entry) in
        RoutesAs (λ routes. routes.items) result
        (routes_of (interrupt_of_device global (crs_of_links links.now)) (view prt.now)) }
{
    let Value::Pkg(package) = prt else {
        return Err(refuse_element(RouteCause::BadEntry, 0));
    };
    let links = Links::of(alloc, links, &IsaNumbers::of(madt))?;
    routes_of_elements(alloc, package.elements(), &links)
}

// The routes of elements.
fn routes_of_elements(
    alloc: Global,
    elements: &[Element],
    links: &Links,
) -> Result<Vec<Route>, RouteFault>
    ensures { let of_device = λ (device : ℕ). flat (get nat_cmp links.now.interrupts device) in
        RoutesAs (λ routes. routes.items) result
        (routes_from of_device 0 (elements_of elements.now)) }
{
    let mut routes = Vec::new(alloc);
    for number in 0..elements.len() {
        let route = route_of(&elements[number], number, links)?;
        routes.push(route)?;
    }
    Ok(routes)
}

// The route of an element by its number.
fn route_of(each: &Element, number: usize, links: &Links) -> Result<Route, RouteFault>
    ensures { let of_device = λ (device : ℕ). flat (get nat_cmp links.now.interrupts device) in
        RoutesAs (λ route. route) result (route_of of_device number (element each.now)) }
{
    let Ok(mapping) = mapping_of(each) else {
        return Err(refuse_element(RouteCause::BadEntry, number));
    };
    let Some(interrupt) = source_interrupt(mapping.source, links) else {
        return Err(refuse_element(RouteCause::NoLink, number));
    };
    Ok(Route {
        address: mapping.address,
        pin: mapping.pin,
        interrupt,
    })
}

// The interrupt of a source.
fn source_interrupt(source: Source, links: &Links) -> Option<GlobalInterrupt>
    ensures { let of_device = λ (device : ℕ). flat (get nat_cmp links.now.interrupts device) in
        result ≡ source_interrupt of_device source }
{
    match source {
        Source::Link(Some(device)) => links.interrupt(device),
        Source::Link(None) => None,
        Source::Global(number) => Some(GlobalInterrupt {
            number,
            trigger: Trigger::Level,
            polarity: Polarity::Low,
        }),
    }
}
