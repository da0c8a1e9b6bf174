// What names name, and how many arguments they take.

use super::{LookUp, dsdt_of, misnamed_in, ssdt_of};
use acpi_samples::HOST;
use aml_namespace::Namespace;
use aml_paths::{ObjectId, Scope};
use aml_tree::{Op, Term, TreeFault};
use std::alloc::{AllocError, Global};
use std::test::Fail;

/// Name (FOO, One), Scope (\_SB) { Device (PCI0) { Name (BAR, One) } } and Alias (\_SB.PCI0, ALS0).
const NAMES: &[u8] =
    b"\x08FOO_\x01\x10\x13\\_SB_\x5b\x82\x0bPCI0\x08BAR_\x01\x06\\\x2e_SB_PCI0ALS0";

const SB: Scope = Scope::At(ObjectId(2));

const FOO: Scope = Scope::At(ObjectId(9));

const PCI0: Scope = Scope::At(ObjectId(10));

const BAR: Scope = Scope::At(ObjectId(11));

/// A scope, a name, and the number of the object that it names there.
const LOOK_UPS: &[LookUp<'static>] = &[
    // A lone segment is searched upward, however it is spelled.
    (Scope::Root, b"FOO_", Some(9)),
    (FOO, b"FOO_", Some(9)),
    (PCI0, b"FOO_", Some(9)),
    (PCI0, b"\x2f\x01FOO_", Some(9)),
    (PCI0, b"_OSI", Some(6)),
    (PCI0, b"PCI0", Some(10)),
    (BAR, b"BAR_", Some(11)),
    (SB, b"BAR_", None),
    (Scope::Root, b"BAR_", None),
    (PCI0, b"BAZ_", None),
    // Every other name is one path.
    (PCI0, b"\\FOO_", Some(9)),
    (PCI0, b"\\\x2e_SB_FOO_", None),
    (SB, b"\x2ePCI0FOO_", None),
    (SB, b"\x2ePCI0BAR_", Some(11)),
    (PCI0, b"\x2ePCI0BAR_", None),
    (Scope::Root, b"\x2f\x03_SB_PCI0BAR_", Some(11)),
    (PCI0, b"^FOO_", None),
    (PCI0, b"^^FOO_", Some(9)),
    (PCI0, b"^^^FOO_", None),
    (PCI0, b"^PCI0", Some(10)),
    // An alias has the number of the object, and no names of its own.
    (PCI0, b"ALS0", Some(10)),
    (Scope::Root, b"\x2eALS0BAR_", None),
    // The root is no object, and no path has this number.
    (PCI0, b"\\\x00", None),
    (Scope::At(ObjectId(13)), b"FOO_", None),
];

#[test]
fn look_ups(rt: HostRuntime) -> Result<(), Fail> {
    assert_eq!(rt; misnamed_in(rt.alloc(), (NAMES, b""), LOOK_UPS)?, None);
    Ok(())
}

/// Name (SAME, One), Device (AAA0) { Name (SAME, One), Device (BBB0) { Device (CCC0) {} } }, Device
/// (DDD0) { Name (SAME, One), Device (EEE0) {} }, Scope (AAA0.BBB0.CCC0) { Device (FFF0) {} },
/// Scope (AAA0.BBB0) { Name (LATE, One) } and Name (LATE, One).
const SAME_NAMES: &[u8] = b"\x08SAME\x01\
    \x5b\x82\x19AAA0\x08SAME\x01\x5b\x82\x0cBBB0\x5b\x82\x05CCC0\
    \x5b\x82\x12DDD0\x08SAME\x01\x5b\x82\x05EEE0\
    \x10\x16\x2f\x03AAA0BBB0CCC0\x5b\x82\x05FFF0\
    \x10\x10\x2eAAA0BBB0\x08LATE\x01\x08LATE\x01";

const AAA0: Scope = Scope::At(ObjectId(10));

const CCC0: Scope = Scope::At(ObjectId(13));

const EEE0: Scope = Scope::At(ObjectId(16));

const FFF0: Scope = Scope::At(ObjectId(17));

/// The nearest of several paths that end alike, and of none.
const NEAREST: &[LookUp<'static>] = &[
    (Scope::Root, b"SAME", Some(9)),
    (AAA0, b"SAME", Some(11)),
    (CCC0, b"SAME", Some(11)),
    (FFF0, b"SAME", Some(11)),
    (EEE0, b"SAME", Some(15)),
    (FFF0, b"LATE", Some(18)),
    (CCC0, b"LATE", Some(18)),
    (AAA0, b"LATE", Some(19)),
    (EEE0, b"LATE", Some(19)),
    (FFF0, b"CCC0", Some(13)),
    (FFF0, b"DDD0", Some(14)),
    (FFF0, b"EEE0", None),
    (FFF0, b"NONE", None),
];

#[test]
fn nearest_of_several(rt: HostRuntime) -> Result<(), Fail> {
    assert_eq!(rt; misnamed_in(rt.alloc(), (SAME_NAMES, b""), NEAREST)?, None);
    Ok(())
}

/// An operator and its contents, of at most 3,999 bytes, behind their length.
fn package(alloc: Global, op: &[u8], contents: &[u8]) -> Result<Vec<u8>, AllocError> {
    let length = contents.len() % 4_000 + 2;
    let head = [0x40 + (length % 16) as u8, (length / 16) as u8];
    [op, head.as_slice(), contents].concat(alloc)
}

/// Definitions in the last of so many devices DEEP, each within the one before.
fn deep_scope(alloc: Global, depth: u8, inside: &[u8]) -> Result<Vec<u8>, AllocError> {
    let path = b"DEEP".repeat(alloc, usize::from(depth))?;
    let head = [0x5c, 0x2f, depth];
    let contents = [head.as_slice(), path.as_slice(), inside].concat(alloc)?;
    package(alloc, b"\x10", &contents)
}

/// Name (SAME, One), Device (BESD) { Name (SAME, One) }, Device (DEEP) {}.
const FIRST_PAIR: &[u8] = b"\x08SAME\x01\x5b\x82\x4c\x00BESD\x08SAME\x01\x5b\x82\x46\x00DEEP";

/// The devices alone.
const PAIR: &[u8] = b"\x5b\x82\x4c\x00BESD\x08SAME\x01\x5b\x82\x46\x00DEEP";

/// Name (SAME, One), so many devices DEEP, each within the one before and behind a device BESD that
/// has a SAME of its own, and Alias (SAME, LAST) within the last. Each BESD is made before the DEEP
/// beside it, and so goes on the chain of the DEEP in which both are.
fn devices_beside(alloc: Global, count: u8) -> Result<Vec<u8>, AllocError> {
    let mut module = FIRST_PAIR.to_vec(alloc)?;
    for depth in 1..=count {
        let inside = if depth < count { PAIR } else { b"\x06SAMELAST" };
        module.extend_from_slice(&deep_scope(alloc, depth, inside)?)?;
    }
    Ok(module)
}

/// How many devices, and what names name there. The first
/// BESD has 10, the SAME within 11, DEEP 12, the BESD within that 13 and so on.
const CHAINS: &[(u8, &[LookUp<'static>])] = &[
    // A few chains, which stay as they were made.
    (
        2,
        &[
            (Scope::At(ObjectId(15)), b"SAME", Some(9)),
            (Scope::At(ObjectId(15)), b"LAST", Some(9)),
            (Scope::At(ObjectId(13)), b"SAME", Some(14)),
            (Scope::At(ObjectId(12)), b"BESD", Some(13)),
            (Scope::At(ObjectId(15)), b"DEEP", Some(15)),
            (Scope::At(ObjectId(12)), b"LAST", None),
        ],
    ),
    // Chains that are laid anew once the table is loaded.
    (
        40,
        &[
            (Scope::At(ObjectId(129)), b"SAME", Some(9)),
            (Scope::At(ObjectId(129)), b"LAST", Some(9)),
            (Scope::At(ObjectId(127)), b"SAME", Some(128)),
            (Scope::At(ObjectId(126)), b"BESD", Some(127)),
            (Scope::At(ObjectId(129)), b"DEEP", Some(129)),
            (Scope::At(ObjectId(12)), b"BESD", Some(13)),
            (Scope::At(ObjectId(10)), b"BESD", Some(10)),
            (Scope::At(ObjectId(126)), b"LAST", None),
        ],
    ),
    // Chains that are laid anew also before, when the sixty-fifth DEEP gets what is within.
    (
        100,
        &[
            (Scope::At(ObjectId(309)), b"SAME", Some(9)),
            (Scope::At(ObjectId(309)), b"LAST", Some(9)),
            (Scope::At(ObjectId(307)), b"SAME", Some(308)),
            (Scope::At(ObjectId(306)), b"BESD", Some(307)),
            (Scope::At(ObjectId(309)), b"DEEP", Some(309)),
            (Scope::At(ObjectId(204)), b"DEEP", Some(207)),
            (Scope::At(ObjectId(202)), b"SAME", Some(203)),
            (Scope::At(ObjectId(12)), b"BESD", Some(13)),
            (Scope::At(ObjectId(306)), b"LAST", None),
        ],
    ),
];

#[test]
fn past_chains(rt: HostRuntime) -> Result<(), Fail> {
    for (count, rows) in CHAINS {
        let module = devices_beside(rt.alloc(), *count)?;
        let told = misnamed_in(rt.alloc(), (&module, b""), rows)?;
        assert_eq!(rt; told, None, "{count}");
    }
    Ok(())
}

/// Method (\M001, 1) {}, Device (DEV0) { Method (MTH2, 2) { ^XXX1 (Arg0), XXX1 (Arg0), ^M001, M001
/// (Arg0) }, Method (XXX1, 1) {} } and Method (M002) { M001 (Arg0), ^M001 (Arg1), \M001 (Arg2),
/// \DEV0.MTH2 (Arg0, Arg1), DEV0.MTH2, MTH2, XXXX, ^^M001, Arg3 }.
const CALLS: &[u8] = b"\x14\x07\\M001\x01\
    \x5b\x82\x28DEV0\x14\x1bMTH2\x02^XXX1\x68XXX1\x68^M001M001\x68\x14\x06XXX1\x01\
    \x14\x3bM002\x00M001\x68^M001\x69\\M001\x6a\\\x2eDEV0MTH2\x68\x69\x2eDEV0MTH2MTH2XXXX^^M001\x6b";

/// Method (M003) { \DEV0.MTH2 (Arg0, Arg1), _OSI ("x") }.
const CALLS_OF_SECOND: &[u8] = b"\x14\x19M003\x00\\\x2eDEV0MTH2\x68\x69_OSI\x0dx\x00";

/// A term: what it is, its place, the place behind it, and how many parts it has.
type Head = (Op, usize, usize, usize);

fn heads(alloc: Global, terms: &[Term]) -> Result<Vec<Head>, AllocError> {
    let mut heads = Vec::new(alloc);
    for term in terms {
        heads.push((term.op, term.at, term.end, term.parts.len()))?;
    }
    Ok(heads)
}

/// The statements of a method's body; none where there is no such method.
fn statements_of(
    alloc: Global,
    ns: &Namespace<'_>,
    method: ObjectId,
) -> Result<Vec<Head>, TreeFault> {
    if ns.method(method).is_none() {
        return Ok(Vec::new(alloc));
    }
    let body = ns.tree(alloc, method)?;
    Ok(heads(alloc, &body)?)
}

/// A method's number, and its statements.
const BODIES: &[(usize, &[Head])] = &[
    (9, &[]),
    (
        11,
        &[
            (Op::Invocation, 58, 64, 2),
            (Op::Invocation, 64, 69, 2),
            (Op::Invocation, 69, 74, 1),
            (Op::Invocation, 74, 79, 2),
        ],
    ),
    (
        13,
        &[
            (Op::Invocation, 93, 98, 2),
            (Op::Invocation, 98, 104, 2),
            (Op::Invocation, 104, 110, 2),
            (Op::Invocation, 110, 122, 3),
            (Op::Invocation, 122, 131, 1),
            (Op::Invocation, 131, 135, 1),
            (Op::Invocation, 135, 139, 1),
            (Op::Invocation, 139, 145, 1),
            (Op::Arg3, 145, 146, 0),
        ],
    ),
    (
        14,
        &[(Op::Invocation, 43, 55, 3), (Op::Invocation, 55, 62, 2)],
    ),
];

#[test]
fn bodies(rt: HostRuntime) -> Result<(), Fail> {
    let first = dsdt_of(rt.alloc(), CALLS)?;
    let second = ssdt_of(rt.alloc(), CALLS_OF_SECOND)?;
    let ns = Namespace::load(rt.alloc(), &[&first, &second], HOST)?;
    for (method, wanted) in BODIES {
        let found = statements_of(rt.alloc(), &ns, ObjectId(*method))?;
        assert_eq!(rt; found.as_slice(), *wanted);
    }
    Ok(())
}
