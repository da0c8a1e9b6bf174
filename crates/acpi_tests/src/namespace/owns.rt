// What a body's own names are, and what its names mean where they stand.

use super::dsdt_of;
use acpi_samples::HOST;
use aml_lex::NameSeg;
use aml_namespace::{Link, LoadFault, Namespace};
use aml_own_names::{OwnName, OwnNames};
use aml_paths::{NoMemory, ObjectId};
use aml_tree::TreeFault;
use std::alloc::{AllocError, Global};
use std::test::Fail;

/// Name (NAM0, Zero), Name (BUF0, Buffer (8) {}) and Device (DEV0) { Method (MTH0) { NAM0, Name
/// (NAM0, One), NAM0 twice, the second spelled as a list of one, \NAM0, ^NAM0, DEV0.NAM0, BYT0,
/// CreateByteField (BUF0, 0, BYT0), BYT0, If (One) { Name (INN0, One), INN0, NAM0 }, INN0, Name
/// (NAM0, Zero), NAM0, CreateBitField (BUF0, 0, BIT0), CreateWordField (BUF0, 0, WRD0),
/// CreateDWordField (BUF0, 0, DWD0), CreateQWordField (BUF0, 0, QWD0), CreateField (BUF0, 0, 1,
/// FLD0), Name (\NAM1, One), NAM1, Package (2) { NAM0, BYT0 }, FLD0, QWD0, BUF0 } }.
const OWNS: &[u8] = b"\x08NAM0\x00\x08BUF0\x11\x03\x0a\x08\
    \x5b\x82\x4c\x0bDEV0\x14\x45\x0bMTH0\x00\
    NAM0\x08NAM0\x01NAM0\x2f\x01NAM0\\NAM0^NAM0\x2eDEV0NAM0BYT0\
    \x8cBUF0\x00BYT0BYT0\
    \xa0\x10\x01\x08INN0\x01INN0NAM0INN0\
    \x08NAM0\x00NAM0\
    \x8dBUF0\x00BIT0\x8bBUF0\x00WRD0\x8aBUF0\x00DWD0\x8fBUF0\x00QWD0\
    \x5b\x13BUF0\x00\x01FLD0\
    \x08\\NAM1\x01NAM1\
    \x12\x0a\x02NAM0BYT0\
    FLD0QWD0BUF0";

/// The method's number, and those of the names at the root.
const MTH0: ObjectId = ObjectId(12);

const NAM0: ObjectId = ObjectId(9);

const BUF0: ObjectId = ObjectId(10);

/// Each own name, with the place behind its definition.
const MADE: &[([u8; 4], usize)] = &[
    (*b"NAM0", 77),
    (*b"BYT0", 120),
    (*b"NAM0", 151),
    (*b"BIT0", 165),
    (*b"WRD0", 175),
    (*b"DWD0", 185),
    (*b"QWD0", 195),
    (*b"FLD0", 207),
];

/// The place of a name, and what it means there.
const LINKS: &[(usize, Link)] = &[
    (67, Link::Data(NAM0)),
    (77, Link::Own(0)),
    (81, Link::Own(0)),
    (87, Link::Data(NAM0)),
    (92, Link::Missing),
    (97, Link::Missing),
    (106, Link::Missing),
    (120, Link::Own(1)),
    (133, Link::Missing),
    (137, Link::Own(0)),
    (141, Link::Missing),
    (151, Link::Own(0)),
    (214, Link::Missing),
    (229, Link::Own(7)),
    (233, Link::Own(6)),
    (237, Link::Data(BUF0)),
];

/// The place of a package element, and what it names.
const ELEMENTS: &[(usize, Option<ObjectId>)] = &[(221, Some(NAM0)), (225, None)];

/// The own names of the method's body.
fn owns_of(alloc: Global, ns: &Namespace<'_>) -> Result<OwnNames, TreeFault> {
    if ns.method(MTH0).is_none() {
        return Err(TreeFault::NoMemory);
    }
    let body = ns.tree(alloc, MTH0)?;
    match OwnNames::of(alloc, ns.body_bytes(MTH0), &body) {
        Ok(owns) => Ok(owns),
        Err(NoMemory) => Err(TreeFault::NoMemory),
    }
}

/// Whether these are the own names that were worked out.
fn are_made(owns: &[OwnName]) -> bool {
    if owns.len() != MADE.len() {
        return false;
    }
    for (own, (bytes, from)) in owns.iter().zip(MADE) {
        let segment = NameSeg { bytes: *bytes };
        if (own.segment, own.from) != (segment, *from) {
            return false;
        }
    }
    true
}

/// The first place whose name means something else than was worked out.
fn other_link(ns: &Namespace<'_>, table: &[u8], owns: &OwnNames) -> Option<usize> {
    for (at, link) in LINKS {
        if ns.link_with_owns(MTH0, table, owns, *at) != *link {
            return Some(*at);
        }
    }
    None
}

/// The first place of a package element that names something else.
fn other_element(ns: &Namespace<'_>, table: &[u8]) -> Option<usize> {
    for (at, named) in ELEMENTS {
        if ns.element(MTH0, table, *at) != *named {
            return Some(*at);
        }
    }
    None
}

/// Whether the method's own names are those that were worked out, and the first places whose names
/// mean something else.
fn owns_and_others(alloc: Global) -> Result<(bool, Option<usize>, Option<usize>), LoadFault> {
    let table = match dsdt_of(alloc, OWNS) {
        Ok(table) => table,
        Err(AllocError) => return Err(LoadFault::NoMemory),
    };
    let ns = Namespace::load(alloc, &[&table], HOST)?;
    match owns_of(alloc, &ns) {
        Ok(owns) => Ok((
            are_made(owns.names()),
            other_link(&ns, &table, &owns),
            other_element(&ns, &table),
        )),
        Err(_) => Err(LoadFault::NoMemory),
    }
}

#[test]
fn rows_of_own_names(rt: HostRuntime) -> Result<(), Fail> {
    let told = match owns_and_others(rt.alloc()) {
        Ok(told) => told,
        Err(_) => owns_and_others(rt.alloc())?,
    };
    assert_eq!(rt; told, (true, None, None));
    Ok(())
}
