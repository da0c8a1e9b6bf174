// Which names belong to a namespace, each row worked out by hand from the definitions of Name,
// Buffer and Package (ACPI 6.5, 19.6). What names hold first is told by the rows of
// crates/acpicheck/rows.

use acpi_samples::{HOST, table_of};
use aml_contents::Names;
use aml_namespace::{Namespace, Width};
use aml_paths::{NamePlace, ObjectId, Scope};
use aml_values::{Bytes, Element, Package, Value};
use std::alloc::{AllocError, Global};
use std::test::Fail;

/// A step in making a value: an element behind those that are there, or the last so many made a
/// package.
#[derive(Clone, Copy)]
enum Step {
    Int(u64),
    Buf(&'static [u8]),
    Str(&'static [u8]),
    Name(Option<ObjectId>),
    Unset,
    Pack(usize),
}

/// The package of these elements.
fn packed(elements: Vec<Element>) -> Result<Element, AllocError> {
    match Package::new(elements) {
        Ok(package) => Ok(Element::Value(Value::Pkg(package))),
        Err(_) => Err(AllocError),
    }
}

/// The last so many elements made a package.
fn pack(alloc: Global, made: &mut Vec<Element>, count: usize) -> Result<(), AllocError> {
    let mut last = Vec::new(alloc);
    for _ in 0..count {
        if let Some(element) = made.pop() {
            last.push(element)?;
        }
    }
    last.reverse();
    made.push(packed(last)?)?;
    Ok(())
}

/// The bytes of a buffer or a string.
fn bytes_of(alloc: Global, bytes: &[u8]) -> Result<Bytes, AllocError> {
    Ok(Bytes::new(bytes.to_vec(alloc)?))
}

/// One step more.
fn take_step(alloc: Global, made: &mut Vec<Element>, step: Step) -> Result<(), AllocError> {
    let element = match step {
        Step::Int(number) => Element::Value(Value::Int(number)),
        Step::Buf(bytes) => Element::Value(Value::Buf(bytes_of(alloc, bytes)?)),
        Step::Str(bytes) => Element::Value(Value::Str(bytes_of(alloc, bytes)?)),
        Step::Name(id) => Element::Name(id),
        Step::Unset => Element::Unset,
        Step::Pack(count) => return pack(alloc, made, count),
    };
    made.push(element)?;
    Ok(())
}

/// The value that steps make; none where there are none.
fn value_by(alloc: Global, steps: &[Step]) -> Result<Option<Value>, AllocError> {
    let mut made = Vec::new(alloc);
    for step in steps {
        take_step(alloc, &mut made, *step)?;
    }
    match made.pop() {
        Some(Element::Value(value)) => Ok(Some(value)),
        _ => Ok(None),
    }
}

/// Name (AAAA, Package (3) {Package (2) {"ab", AAAA}, 9}): its third element is unset.
const NESTED: &[u8] = b"\x08AAAA\x12\x0f\x03\x12\x0a\x02\x0dab\0AAAA\x0a\x09";

/// Name (AAAA, Package (1) {9, 8}), whose second element is dropped.
const DROPPED: &[u8] = b"\x08AAAA\x12\x06\x01\x0a\x09\x0a\x08";

/// Name (AAAA, Package (2) {9}), its number of elements a term.
const MISSING: &[u8] = b"\x08AAAA\x13\x05\x0a\x02\x0a\x09";

/// The module of a DSDT, what its one name holds in some names, and whether these belong to the
/// namespace.
type OtherRow = (&'static [u8], &'static [Step], bool);

const OTHERS: &[OtherRow] = &[
    // The first content; and a name that names another object, which is of the same kind.
    (
        NESTED,
        &[
            Step::Str(b"ab"),
            Step::Name(Some(ObjectId(9))),
            Step::Pack(2),
            Step::Int(9),
            Step::Unset,
            Step::Pack(3),
        ],
        true,
    ),
    (
        NESTED,
        &[
            Step::Str(b"yz"),
            Step::Name(None),
            Step::Pack(2),
            Step::Int(9),
            Step::Unset,
            Step::Pack(3),
        ],
        true,
    ),
    // In the inner package: a longer string, a buffer, a value in place of the name, an element
    // less.
    (
        NESTED,
        &[
            Step::Str(b"abc"),
            Step::Name(None),
            Step::Pack(2),
            Step::Int(9),
            Step::Unset,
            Step::Pack(3),
        ],
        false,
    ),
    (
        NESTED,
        &[
            Step::Buf(b"ab"),
            Step::Name(None),
            Step::Pack(2),
            Step::Int(9),
            Step::Unset,
            Step::Pack(3),
        ],
        false,
    ),
    (
        NESTED,
        &[
            Step::Str(b"ab"),
            Step::Int(9),
            Step::Pack(2),
            Step::Int(9),
            Step::Unset,
            Step::Pack(3),
        ],
        false,
    ),
    (
        NESTED,
        &[
            Step::Str(b"ab"),
            Step::Pack(1),
            Step::Int(9),
            Step::Unset,
            Step::Pack(3),
        ],
        false,
    ),
    // A name where the inner package stood; another integer; an integer where no element is set.
    (
        NESTED,
        &[Step::Name(None), Step::Int(9), Step::Unset, Step::Pack(3)],
        false,
    ),
    (
        NESTED,
        &[
            Step::Str(b"ab"),
            Step::Name(None),
            Step::Pack(2),
            Step::Int(8),
            Step::Unset,
            Step::Pack(3),
        ],
        false,
    ),
    (
        NESTED,
        &[
            Step::Str(b"ab"),
            Step::Name(None),
            Step::Pack(2),
            Step::Int(9),
            Step::Int(0),
            Step::Pack(3),
        ],
        false,
    ),
    (
        NESTED,
        &[Step::Unset, Step::Unset, Step::Unset, Step::Pack(3)],
        false,
    ),
    // Elements that are dropped, and missing ones.
    (DROPPED, &[Step::Int(9), Step::Pack(1)], true),
    (DROPPED, &[Step::Int(8), Step::Pack(1)], false),
    (DROPPED, &[Step::Int(9), Step::Int(8), Step::Pack(2)], false),
    (MISSING, &[Step::Int(9), Step::Unset, Step::Pack(2)], true),
    (MISSING, &[Step::Int(9), Step::Int(9), Step::Pack(2)], false),
    (MISSING, &[Step::Int(9), Step::Pack(1)], false),
];

/// What the predefined names hold first.
fn predefined(alloc: Global, number: usize) -> Result<Option<Value>, AllocError> {
    match number {
        5 => Ok(Some(Value::Int(2))),
        7 => Ok(Some(Value::Str(bytes_of(alloc, b"Other")?))),
        _ => Ok(None),
    }
}

/// Names of the predefined objects and of one that holds what steps make.
fn names_with(alloc: Global, steps: &[Step]) -> Result<Names, Fail> {
    let mut names = Names::new(alloc);
    for number in 0..9 {
        let held = predefined(alloc, number)?;
        names.push(alloc, Width::Bits64, held)?;
    }
    let held = value_by(alloc, steps)?;
    names.push(alloc, Width::Bits64, held)?;
    Ok(names)
}

/// Whether they belong to the namespace of a module.
fn do_belong(alloc: Global, module: &[u8], steps: &[Step]) -> Result<bool, Fail> {
    let table = table_of(alloc, *b"DSDT", 2, module)?;
    let ns = Namespace::load(alloc, &[&table], HOST)?;
    Ok(names_with(alloc, steps)?.belong(&ns))
}

#[test]
fn packages_belong_by_their_elements(rt: HostRuntime) -> Result<(), Fail> {
    for (i, (module, steps, is_theirs)) in OTHERS.iter().enumerate() {
        let found = do_belong(rt.alloc(), module, steps)?;
        assert!(rt; found == *is_theirs, "row {i}");
    }
    Ok(())
}

/// Name (INT0, One), Device (DEV0) {Name (INT0, Zero), Name (PKG0, Package (3) {INT0, \INT0,
/// ^INT0})}.
const IN_DEVICE: &[u8] =
    b"\x08INT0\x01\x5b\x82\x21DEV0\x08INT0\0\x08PKG0\x12\x10\x03INT0\\INT0^INT0";

/// Name (AAAA, One), Method (BBBB) {} and Alias (AAAA, CCCC).
const NO_CONTENTS: &[u8] = b"\x08AAAA\x01\x14\x06BBBB\0\x06AAAACCCC";

/// A scope, a mutex, a method, an alias and what is behind the last have no content of their own.
#[test]
fn names_without_contents(rt: HostRuntime) -> Result<(), Fail> {
    let table = table_of(rt.alloc(), *b"DSDT", 2, NO_CONTENTS)?;
    let ns = Namespace::load(rt.alloc(), &[&table], HOST)?;
    let names = Names::initial(rt.alloc(), &ns)?;
    for id in [0, 8, 10, 11, 12] {
        assert!(rt; names.get(ObjectId(id)).is_none(), "name {id}");
    }
    assert!(rt; names.get(ObjectId(9)).is_some() && names.belong(&ns));
    Ok(())
}

/// What contents are made of: tables' bytes, the host's text, and what the name at a place names.
#[test]
fn parts_of_contents(rt: HostRuntime) -> Result<(), Fail> {
    let table = table_of(rt.alloc(), *b"DSDT", 2, IN_DEVICE)?;
    let ns = Namespace::load(rt.alloc(), &[&table], HOST)?;
    assert!(rt; ns.table_bytes(0) == table.as_slice());
    assert!(rt; ns.table_bytes(1).is_empty());
    assert!(rt; ns.os_name() == b"Other".as_slice());
    let rows: &[(usize, usize, Scope, Option<ObjectId>)] = &[
        (0, 37, Scope::Root, Some(ObjectId(9))),
        (0, 37, Scope::At(ObjectId(10)), Some(ObjectId(11))),
        (0, 45, Scope::Root, Some(ObjectId(10))),
        (0, 36, Scope::Root, None),
        (0, 1000, Scope::Root, None),
        (1, 37, Scope::Root, None),
    ];
    for (table, at, scope, named) in rows {
        let name = NamePlace {
            table: *table,
            at: *at,
            scope: *scope,
        };
        assert_eq!(rt; ns.named_at(name), *named);
    }
    Ok(())
}
