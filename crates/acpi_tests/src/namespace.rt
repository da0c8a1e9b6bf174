// Tables and names whose answers were worked out by hand from the layouts.

mod definitions;
mod externals;
mod names;
mod owns;
mod tables;
mod within;

use acpi_samples::{DSDT, HOST, table_of};
use aml_lex::{NameSeg, name_string};
use aml_namespace::{
    Content, DataName, Entry, LoadFault, Method, Namespace, Object, Source, Width,
};
use aml_paths::{NoMemory, ObjectId, Scope};
use aml_tree::Span;
use std::alloc::{AllocError, Global};
use std::test::Fail;

/// A DSDT of revision 2 with such a module.
fn dsdt_of(alloc: Global, module: &[u8]) -> Result<Vec<u8>, AllocError> {
    table_of(alloc, *b"DSDT", 2, module)
}

/// An SSDT of revision 2 with such a module.
fn ssdt_of(alloc: Global, module: &[u8]) -> Result<Vec<u8>, AllocError> {
    table_of(alloc, *b"SSDT", 2, module)
}

/// The number of the object that a name names in a scope.
fn found(ns: &Namespace<'_>, scope: Scope, name: &[u8]) -> Option<ObjectId> {
    match name_string(name, 0) {
        Ok((name, _)) => ns.lookup(scope, &name),
        Err(_) => None,
    }
}

/// A scope, a name, and the number of the object that it names there.
type LookUp<'a> = (Scope, &'a [u8], Option<usize>);

/// The first row whose name names another object, by its number.
fn misnamed(ns: &Namespace<'_>, rows: &[LookUp<'_>]) -> Option<usize> {
    for (number, (scope, name, wanted)) in rows.iter().enumerate() {
        if found(ns, *scope, name).map(|id| id.0) != *wanted {
            return Some(number);
        }
    }
    None
}

/// The same in the namespace of a DSDT, and of an SSDT, if there is one, with such modules.
fn misnamed_in(
    alloc: Global,
    modules: (&[u8], &[u8]),
    rows: &[LookUp<'_>],
) -> Result<Option<usize>, LoadFault> {
    let first = dsdt_of(alloc, modules.0).map_err(|_| LoadFault::NoMemory)?;
    let second = ssdt_of(alloc, modules.1).map_err(|_| LoadFault::NoMemory)?;
    let tables: &[&[u8]] = &[&first, &second];
    let count = if modules.1.is_empty() { 1 } else { 2 };
    let ns = Namespace::load(alloc, &tables[..count], HOST)?;
    Ok(misnamed(&ns, rows))
}

/// Whether this is the path's own object, under its number.
fn is_own(ns: &Namespace<'_>, number: usize, name: &[u8], object: Object) -> bool {
    let id = ObjectId(number);
    found(ns, Scope::Root, name) == Some(id)
        && ns.object(id) == Some(object)
        && ns.entry(id) == Some(Entry::Own(object))
}

/// Whether the path with this number has these segments.
fn has_path(
    alloc: Global,
    ns: &Namespace<'_>,
    id: ObjectId,
    wanted: &[NameSeg],
) -> Result<bool, NoMemory> {
    match ns.path(alloc, id)? {
        Some(path) => Ok(path.as_slice() == wanted),
        None => Ok(false),
    }
}

#[test]
fn the_first_table(rt: HostRuntime) -> Result<(), Fail> {
    let ns = Namespace::load(rt.alloc(), &[&DSDT], HOST)?;
    let method = Method {
        args: 1,
        serialized: false,
        sync_level: 0,
        table: 0,
        at: 36,
        body: Span { at: 43, end: 48 },
    };
    let methods = [ns.method(ObjectId(8)), ns.method(ObjectId(9))];
    assert_eq!(rt;
        (ns.width(), ns.len(), methods),
        (Width::Bits64, 10, [None, Some(method)])
    );
    Ok(())
}

/// The integer 2.
const REVISION: Object = Object::Data(DataName {
    content: Content::Integer,
    source: Source::Revision,
});

/// The text of five bytes that the operating system tells.
const OS_NAME: Object = Object::Data(DataName {
    content: Content::String(5),
    source: Source::OsName,
});

/// The predefined names in their order.
const PREDEFINED: &[([u8; 4], Object)] = &[
    (*b"_GPE", Object::Scope),
    (*b"_PR_", Object::Scope),
    (*b"_SB_", Object::Scope),
    (*b"_SI_", Object::Scope),
    (*b"_TZ_", Object::Scope),
    (*b"_REV", REVISION),
    (*b"_OSI", Object::OsInterfaces),
    (*b"_OS_", OS_NAME),
    (*b"_GL_", Object::GlobalLock),
];

#[test]
fn predefined_names(rt: HostRuntime) -> Result<(), Fail> {
    let ns = Namespace::load(rt.alloc(), &[&DSDT], HOST)?;
    for (number, (bytes, object)) in PREDEFINED.iter().enumerate() {
        let segment = NameSeg { bytes: *bytes };
        let is_there = has_path(rt.alloc(), &ns, ObjectId(number), &[segment])?;
        assert!(rt; is_there && is_own(&ns, number, bytes, *object), "{number}");
    }
    Ok(())
}

/// How many objects the first table has, the predefined ones counted.
fn count_of(alloc: Global) -> Result<usize, LoadFault> {
    Ok(Namespace::load(alloc, &[&DSDT], HOST)?.len())
}

/// Also for a run in which an allocation fails: the load is then refused for want of memory, and
/// the next one has its answer.
#[test]
fn want_of_memory(rt: HostRuntime) -> Result<(), Fail> {
    let count = match count_of(rt.alloc()) {
        Err(LoadFault::NoMemory) => count_of(rt.alloc()),
        told => told,
    };
    assert_eq!(rt; count, Ok(10));
    Ok(())
}
