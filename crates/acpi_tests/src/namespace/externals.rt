// Names that tables declare as others' methods, and names that are found once all tables are
// loaded.

use super::{dsdt_of, ssdt_of};
use acpi_samples::HOST;
use aml_namespace::{Namespace, Object, Reference, Through};
use aml_paths::{NamePlace, ObjectId, Scope};
use aml_tree::TreeFault;
use std::alloc::{AllocError, Global};
use std::test::Fail;

/// External (FOO1, MethodObj, 2), External (FOO1, MethodObj, 1), External (BAR1, DeviceObj, 3),
/// External (OWN1, MethodObj, 2), External (^UP01, MethodObj, 1), which is above the root, Device
/// (DEV0) { External (FOO1, MethodObj, 1), Method (M001) { FOO1 One One } }, Method (M000) { FOO1
/// One One }, Method (M002) { BAR1 One }, Method (M003) { \DEV0.FOO1 One One }, Method (M004) {
/// BAZ1 One One One }, Method (OWN1, 1) {}, Method (M005) { OWN1 One One }, External (QUX1.SUB1,
/// MethodObj, 1) and Device (DEV1) { External (QUX1.SUB1, MethodObj, 1), External (FOO1.SUB1,
/// MethodObj, 1), Method (M006) { FOO1 One One }, Method (M007) { QUX1 One } }.
const CALLERS: &[u8] = b"\x15FOO1\x08\x02\x15FOO1\x08\x01\x15BAR1\x06\x03\
    \x15OWN1\x08\x02\x15^UP01\x08\x01\
    \x5b\x82\x19DEV0\x15FOO1\x08\x01\x14\x0cM001\x00FOO1\x01\x01\
    \x14\x0cM000\x00FOO1\x01\x01\
    \x14\x0bM002\x00BAR1\x01\
    \x14\x12M003\x00\\\x2eDEV0FOO1\x01\x01\
    \x14\x0dM004\x00BAZ1\x01\x01\x01\
    \x14\x06OWN1\x01\
    \x14\x0cM005\x00OWN1\x01\x01\
    \x15\x2eQUX1SUB1\x08\x01\
    \x5b\x82\x36DEV1\x15\x2eQUX1SUB1\x08\x01\x15\x2eFOO1SUB1\x08\x01\
    \x14\x0cM006\x00FOO1\x01\x01\x14\x0bM007\x00QUX1\x01";

/// External (BAZ1, MethodObj, 3) and External (FOO1, MethodObj, 7).
const DECLARED_LATER: &[u8] = b"\x15BAZ1\x08\x03\x15FOO1\x08\x07";

/// The number of a method, and of the statements of its body: the first External of the path that
/// is nearest to the method tells how many terms stand behind a name that no table defines. A path
/// that only begins others that are declared tells nothing.
const STATEMENTS: &[(usize, usize)] = &[
    (10, 2),
    (11, 1),
    (12, 2),
    (13, 2),
    (14, 1),
    (16, 2),
    (18, 1),
    (19, 2),
];

/// The number of statements of a method's body; 0 where there is no such method.
fn statements_of(alloc: Global, ns: &Namespace<'_>, method: ObjectId) -> Result<usize, TreeFault> {
    if ns.method(method).is_none() {
        return Ok(0);
    }
    Ok(ns.tree(alloc, method)?.len())
}

/// The first method whose body has another number of statements.
fn other_count(alloc: Global, ns: &Namespace<'_>) -> Result<Option<usize>, TreeFault> {
    for (method, wanted) in STATEMENTS {
        if statements_of(alloc, ns, ObjectId(*method))? != *wanted {
            return Ok(Some(*method));
        }
    }
    Ok(None)
}

/// Both tables.
fn callers(alloc: Global) -> Result<(Vec<u8>, Vec<u8>), AllocError> {
    Ok((dsdt_of(alloc, CALLERS)?, ssdt_of(alloc, DECLARED_LATER)?))
}

/// The bodies are the same whether Externals were counted before or are counted for each.
#[test]
fn declared_counts(rt: HostRuntime) -> Result<(), Fail> {
    let (first, second) = callers(rt.alloc())?;
    let mut ns = Namespace::load(rt.alloc(), &[&first, &second], HOST)?;
    let uncounted = other_count(rt.alloc(), &ns)?;
    ns.count_externals(rt.alloc())?;
    let counted = other_count(rt.alloc(), &ns)?;
    assert_eq!(rt; (uncounted, counted), (None, None));
    Ok(())
}

/// How many paths and methods the namespace of both tables has, once their Externals are counted;
/// what wants memory is asked for again.
fn counted(alloc: Global, first: &[u8], second: &[u8]) -> Option<(usize, usize)> {
    let tables = [first, second];
    let mut ns = match Namespace::load(alloc, &tables, HOST) {
        Ok(ns) => ns,
        Err(_) => Namespace::load(alloc, &tables, HOST).ok()?,
    };
    if ns.count_externals(alloc).is_err() {
        ns.count_externals(alloc).ok()?;
    }
    Some((ns.len(), ns.methods().len()))
}

#[test]
fn want_of_memory_for_declarations(rt: HostRuntime) -> Result<(), Fail> {
    let (first, second) = match callers(rt.alloc()) {
        Ok(tables) => tables,
        Err(AllocError) => callers(rt.alloc())?,
    };
    let told = counted(rt.alloc(), &first, &second);
    assert_eq!(rt; told, Some((20, 9)));
    Ok(())
}

/// Field (REG0, ByteAcc, NoLock, Preserve) { FLD0, 8 } and Field (REG9, ..) { FLD9, 8 }.
const FIELDS: &[u8] = b"\x5b\x81\x0bREG0\x01FLD0\x08\x5b\x81\x0bREG9\x01FLD9\x08";

/// OperationRegion (REG0, SystemIO, 0x80, 0x10).
const REGION: &[u8] = b"\x5b\x80REG0\x01\x0a\x80\x0a\x10";

/// The number of a field, and what it says of its region.
const REGIONS: &[(usize, Reference)] = &[
    (
        9,
        Reference {
            name: NamePlace {
                table: 0,
                at: 39,
                scope: Scope::Root,
            },
            object: Some(ObjectId(11)),
        },
    ),
    (
        10,
        Reference {
            name: NamePlace {
                table: 0,
                at: 52,
                scope: Scope::Root,
            },
            object: None,
        },
    ),
];

/// The region of a field.
fn region_of(object: Option<Object>) -> Option<Reference> {
    let Some(Object::Field(field)) = object else {
        return None;
    };
    match field.through {
        Through::Region(region) => Some(region),
        _ => None,
    }
}

/// A region of a later table is found, and one that is missing is no fault.
#[test]
fn regions_of_fields(rt: HostRuntime) -> Result<(), Fail> {
    let (first, second) = (dsdt_of(rt.alloc(), FIELDS)?, ssdt_of(rt.alloc(), REGION)?);
    let ns = Namespace::load(rt.alloc(), &[&first, &second], HOST)?;
    for (field, region) in REGIONS {
        assert_eq!(rt; region_of(ns.object(ObjectId(*field))), Some(*region));
    }
    Ok(())
}
