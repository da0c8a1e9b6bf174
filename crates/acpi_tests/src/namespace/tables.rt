// Scopes that are opened again, aliases, and a second table.

use super::{LookUp, dsdt_of, misnamed_in, ssdt_of};
use acpi_samples::HOST;
use aml_lex::NameSeg;
use aml_namespace::Namespace;
use aml_paths::{ObjectId, Scope};
use std::test::Fail;

/// Scope (\_SB) { Device (DEV0) { Scope (^) { Name (ABCD, One) } } }, Alias (\_SB.DEV0, ALS0),
/// Alias (ALS0, ALS1), Name (\ALS0.EFGH, One) and Scope (ALS1) { Name (IJKL, One) }.
const FIRST: &[u8] = b"\x10\x17\\_SB_\x5b\x82\x0fDEV0\x10\x09^\x00\x08ABCD\x01\
    \x06\\\x2e_SB_DEV0ALS0\
    \x06ALS0ALS1\
    \x08\\\x2eALS0EFGH\x01\
    \x10\x0bALS1\x08IJKL\x01";

/// Name (\_SB.DEV0.MNOP, One) and Scope (\_SB.DEV0) { Method (QRST, 1) {} }.
const SECOND: &[u8] = b"\x08\\\x2f\x03_SB_DEV0MNOP\x01\x10\x12\\\x2e_SB_DEV0\x14\x06QRST\x01";

const SB: NameSeg = NameSeg { bytes: *b"_SB_" };

const DEV0: NameSeg = NameSeg { bytes: *b"DEV0" };

const ALS0: NameSeg = NameSeg { bytes: *b"ALS0" };

/// A number, the path with it, and the number of the object of which it is an alias.
const PATHS: &[(usize, &[NameSeg], Option<usize>)] = &[
    (9, &[SB, DEV0], None),
    (10, &[SB, NameSeg { bytes: *b"ABCD" }], None),
    (11, &[ALS0], Some(9)),
    (12, &[NameSeg { bytes: *b"ALS1" }], Some(9)),
    (13, &[ALS0, NameSeg { bytes: *b"EFGH" }], None),
    (14, &[SB, DEV0, NameSeg { bytes: *b"IJKL" }], None),
    (15, &[SB, DEV0, NameSeg { bytes: *b"MNOP" }], None),
    (16, &[SB, DEV0, NameSeg { bytes: *b"QRST" }], None),
];

/// A scope, a name, and the number of the object that it names there.
const LOOK_UPS: &[LookUp<'static>] = &[
    (Scope::Root, b"ALS1", Some(9)),
    (Scope::Root, b"\x2eALS0EFGH", Some(13)),
    (Scope::Root, b"\x2eALS0IJKL", None),
    (Scope::At(ObjectId(9)), b"ABCD", Some(10)),
    (Scope::At(ObjectId(9)), b"EFGH", None),
    (Scope::At(ObjectId(9)), b"IJKL", Some(14)),
    (Scope::At(ObjectId(16)), b"MNOP", Some(15)),
];

/// The number of the first path that is another, or another object's.
fn other_path(paths: &[(Vec<NameSeg>, ObjectId)]) -> Option<usize> {
    for (number, path, target) in PATHS {
        let owned = paths.get(*number).map(|(path, id)| (path.as_slice(), id.0));
        if owned != Some((*path, target.unwrap_or(*number))) {
            return Some(*number);
        }
    }
    None
}

/// Each path with the number of its object.
#[test]
fn all_paths(rt: HostRuntime) -> Result<(), Fail> {
    let (first, second) = (dsdt_of(rt.alloc(), FIRST)?, ssdt_of(rt.alloc(), SECOND)?);
    let ns = Namespace::load(rt.alloc(), &[&first, &second], HOST)?;
    let paths = ns.paths(rt.alloc())?;
    assert_eq!(rt;
        (other_path(&paths), paths.len(), ns.methods()),
        (None, 17, &[ObjectId(16)][..])
    );
    Ok(())
}

#[test]
fn look_ups(rt: HostRuntime) -> Result<(), Fail> {
    assert_eq!(rt; misnamed_in(rt.alloc(), (FIRST, SECOND), LOOK_UPS)?, None);
    Ok(())
}
