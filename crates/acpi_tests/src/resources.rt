// Calls of resource descriptors and of routes that the program does not show: a descriptor that no
// buffer holds, values and elements that no table has, and a link that is listed twice.

use acpi_resources::{
    Item, RouteCause, RouteFault, items, items_are_spelled, refusals_are_first, routes,
};
use aml_paths::ObjectId;
use aml_values::{Bytes, Element, Package, Value};
use std::alloc::Global;
use std::test::Fail;

/// The base and the length of the first item, where that is memory at a fixed place, and how many
/// there are.
fn first_memory(found: &[Item]) -> Option<(u32, u32, usize)> {
    match found.first()? {
        Item::FixedMemory { base, length } => Some((*base, *length, found.len())),
        _ => None,
    }
}

/// The longest descriptor, of 65,535 bytes behind tag and length, all but the layout passed over.
#[test]
fn the_longest_descriptor(rt: HostRuntime) -> Result<(), Fail> {
    let mut bytes = vec![in rt.alloc(); 0; 65_540]?;
    bytes[0] = 0x86;
    bytes[1] = 0xFF;
    bytes[2] = 0xFF;
    bytes[4] = 0x10;
    bytes[65_538] = 0x79;
    let found = items(rt.alloc(), &bytes)?;
    assert_eq!(rt; first_memory(&found), Some((0x10, 0, 2)));
    Ok(())
}

/// The numbers of an extended interrupt descriptor; none of any other.
fn numbers(item: Item) -> Option<Vec<u32>> {
    match item {
        Item::Interrupt { numbers, .. } => Some(numbers.into_vec()),
        _ => None,
    }
}

/// Those of the last item but one, in front of the end.
fn numbers_in(alloc: Global, bytes: &[u8]) -> Option<Vec<u32>> {
    let mut found = items(alloc, bytes).ok()?;
    found.pop()?;
    numbers(found.pop()?)
}

#[test]
fn interrupts(rt: HostRuntime) {
    let bytes = [0x89, 10, 0, 0, 2, 0x10, 0, 0, 0, 1, 2, 0, 0, 0x79, 0];
    let found = numbers_in(rt.alloc(), &bytes);
    assert!(rt; found.is_some_and(|found| found.as_slice() == [0x10, 0x201].as_slice()));
}

/// A package of these elements, none too deep.
fn package(elements: Vec<Element>) -> Option<Value> {
    Some(Value::Pkg(Package::new(elements).ok()?))
}

fn integer(number: u64) -> Element {
    Element::Value(Value::Int(number))
}

/// An element with this source and index: pin A of the device of address 0.
fn mapping(alloc: Global, source: Element, index: u64) -> Option<Element> {
    let parts = vec![in alloc; integer(0), integer(0), source, integer(index)].ok()?;
    Some(Element::Value(package(parts)?))
}

/// A _PRT of an element without fault, this one, and a text.
fn prt_with(alloc: Global, each: Option<Element>) -> Option<Value> {
    let fine = mapping(alloc, integer(0), 1)?;
    let text = Element::Value(Value::Str(Bytes::new(Vec::new(alloc))));
    package(vec![in alloc; fine, each?, text].ok()?)
}

/// What is wrong with a _PRT, and at which element.
fn refusal(alloc: Global, prt: Option<Value>) -> Option<(RouteCause, usize)> {
    match routes(alloc, &prt?, &[], None) {
        Err(RouteFault::Refused(refusal)) => Some((refusal.cause, refusal.element)),
        _ => None,
    }
}

/// An integer, a buffer, and lists with an element or a source that is unset before others.
#[test]
fn lists_without_routes(rt: HostRuntime) {
    let alloc = rt.alloc();
    let unset = mapping(alloc, Element::Unset, 0);
    let told = [
        refusal(alloc, Some(Value::Int(0))),
        refusal(alloc, Some(Value::Buf(Bytes::new(Vec::new(alloc))))),
        refusal(alloc, prt_with(alloc, Some(Element::Unset))),
        refusal(alloc, prt_with(alloc, unset)),
    ];
    let [whole, second] = [
        Some((RouteCause::BadEntry, 0)),
        Some((RouteCause::BadEntry, 1)),
    ];
    assert_eq!(rt; told, [whole, whole, second, second]);
}

/// The interrupt of a link that is listed with interrupt 0, and again with interrupt 1.
fn interrupt_listed_twice(alloc: Global) -> Option<u32> {
    let link = ObjectId(7);
    let first = items(alloc, &[0x22, 1, 0, 0x79, 0]).ok()?;
    let second = items(alloc, &[0x22, 2, 0, 0x79, 0]).ok()?;
    let links = [(link, first), (link, second)];
    let prt = package(vec![in alloc; mapping(alloc, Element::Name(Some(link)), 0)?].ok()?)?;
    let found = routes(alloc, &prt, &links, None).ok()?;
    Some(found.first()?.interrupt.number)
}

/// The first list counts.
#[test]
fn links_listed_twice(rt: HostRuntime) {
    assert_eq!(rt; interrupt_listed_twice(rt.alloc()), Some(0));
}

#[test]
fn laws() {
    items_are_spelled();
    refusals_are_first();
}
