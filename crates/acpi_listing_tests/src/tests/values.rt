// Values and events as they are printed.

use acpi_text::{list_events, list_value};
use aml_namespace::{Host, Namespace};
use aml_paths::ObjectId;
use aml_regions::{Access, Event};
use aml_values::{Bytes, Element, Package, Value};
use hex;
use std::alloc::{AllocError, Global};
use std::test::Fail;

const HOST: Host<'static> = Host {
    os: b"acpicheck",
    osi: &[],
};

fn package(elements: Vec<Element>) -> Option<Value> {
    Some(Value::Pkg(Package::new(elements).ok()?))
}

// The table with a further path of its method, Alias (M000, ALS0): the path has the number 10, and
// no object has.
const ALIASED: &str =
    "4453445439000000022341435049434b524f57533030303101000000524f575301000000140b4d30303001a472680100064d303030414c5330";

// One of each kind of element, and names whose numbers are no object's.
fn elements(alloc: Global) -> Result<Vec<Element>, AllocError> {
    let mut elements = Vec::new(alloc);
    elements.push(Element::Value(Value::Int(1)))?;
    elements.push(Element::Name(Some(ObjectId(9))))?;
    elements.push(Element::Name(Some(ObjectId(10))))?;
    elements.push(Element::Name(Some(ObjectId(11))))?;
    elements.push(Element::Name(None))?;
    elements.push(Element::Unset)?;
    let bytes = Vec::from_slice(alloc, b"\"\x00")?;
    elements.push(Element::Value(Value::Buf(Bytes::new(bytes))))?;
    let characters = Vec::from_slice(alloc, b"\"")?;
    elements.push(Element::Value(Value::Str(Bytes::new(characters))))?;
    Ok(elements)
}

const ELEMENTS: &str =
    "0x1, \\M000, unresolved, unresolved, unresolved, unset, buffer 2200, string \"\\x22\"";

// A value in so many packages in one another.
fn nested(alloc: Global, value: Value, depth: usize) -> Option<Value> {
    let mut inner = value;
    for _ in 0..depth {
        let mut around = Vec::new(alloc);
        around.push(Element::Value(inner)).ok()?;
        around.push(Element::Unset).ok()?;
        inner = package(around)?;
    }
    Some(inner)
}

// The elements in so many packages in one another.
fn elements_in(alloc: Global, depth: usize) -> Option<Value> {
    nested(alloc, package(elements(alloc).ok()?)?, depth)
}

// What is printed of them.
fn printed(alloc: Global, namespace: &Namespace<'_>, depth: usize) -> Result<Vec<u8>, Fail> {
    let value = elements_in(alloc, depth).ok_or("packages in one another")?;
    let mut out = Vec::new(alloc);
    list_value(alloc, &mut out, namespace, &value)?;
    Ok(out)
}

#[test]
fn packages(rt: HostRuntime) -> Result<(), Fail> {
    let alloc = rt.alloc();
    let bytes = hex::decode(alloc, ALIASED)?;
    let namespace = Namespace::load(alloc, &[bytes.as_slice()], HOST)?;
    for depth in [0, 63] {
        let front = "package [".repeat(alloc, depth + 1)?;
        let back = ", unset]".repeat(alloc, depth)?;
        let text = format!(in alloc; "{front}{ELEMENTS}]{back}")?;
        let out = printed(alloc, &namespace, depth)?;
        assert_eq!(rt; out.as_slice(), text.as_bytes());
    }
    Ok(())
}

fn unit(space: u8, address: u64, width: u8) -> Access {
    Access {
        space,
        address,
        width,
    }
}

// The accesses are those of a field of 8 bits at bit 4 of port 0x60 with byte access.
const EVENTS: &str = "read io 0x60 8 0x15\n\
    write io 0x60 8 0xb5\n\
    read mem 0xfffffffffffffff8 64 0xffffffffffffffff\n\
    write pci 0x0 16 0x0\n\
    read ec 0xa 32 0x1\n\
    write cmos 0x70 8 0x2\n\
    read 4 0x1 8 0x2\n\
    write 255 0x1 8 0x2\n\
    notify \\M000 0x80\n\
    notify \\_SB_ 0x0\n\
    notify unresolved 0x1\n\
    notify unresolved 0x2\n\
    sleep 0xa\n\
    stall 0x0\n";

#[test]
fn events(rt: HostRuntime) -> Result<(), Fail> {
    let alloc = rt.alloc();
    let bytes = hex::decode(alloc, ALIASED)?;
    let namespace = Namespace::load(alloc, &[bytes.as_slice()], HOST)?;
    let events = [
        Event::Read(unit(1, 0x60, 8), 0x15),
        Event::Written(unit(1, 0x60, 8), 0xb5),
        Event::Read(unit(0, u64::MAX - 7, 64), u64::MAX),
        Event::Written(unit(2, 0, 16), 0),
        Event::Read(unit(3, 10, 32), 1),
        Event::Written(unit(5, 0x70, 8), 2),
        Event::Read(unit(4, 1, 8), 2),
        Event::Written(unit(255, 1, 8), 2),
        Event::Notified(ObjectId(9), 0x80),
        Event::Notified(ObjectId(2), 0),
        Event::Notified(ObjectId(10), 1),
        Event::Notified(ObjectId(11), 2),
        Event::Slept(10, None),
        Event::Stalled(0),
    ];
    let mut out = Vec::new(alloc);
    list_events(alloc, &mut out, &namespace, &events)?;
    assert_eq!(rt; out.as_slice(), EVENTS.as_bytes());
    Ok(())
}
