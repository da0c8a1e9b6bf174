// Paths under their numbers, and what names spell and name among them.

use aml_lex::{NameSeg, name_string};
use aml_paths::{Paths, ROOT};
use std::alloc::{AllocError, Global};
use std::test::Fail;

/// The number of the path above, and the segment: \_SB_, \_SB_.PCI0, \PCI0, \_SB_.PCI0.DEV0 and
/// \_SB_.DEV0, from 1 on.
const MADE: &[(usize, [u8; 4])] = &[
    (0, *b"_SB_"),
    (1, *b"PCI0"),
    (0, *b"PCI0"),
    (2, *b"DEV0"),
    (1, *b"DEV0"),
];

/// The segments of each.
const SEGMENTS: &[&[[u8; 4]]] = &[
    &[],
    &[*b"_SB_"],
    &[*b"_SB_", *b"PCI0"],
    &[*b"PCI0"],
    &[*b"_SB_", *b"PCI0", *b"DEV0"],
    &[*b"_SB_", *b"DEV0"],
];

/// The number of a scope's path, a name, and the numbers of what it spells and of what it names
/// there.
const NAMES: &[(usize, &[u8], [Option<usize>; 2])] = &[
    // A lone segment is searched upward.
    (0, b"PCI0", [Some(3), Some(3)]),
    (4, b"PCI0", [None, Some(2)]),
    (5, b"DEV0", [None, Some(5)]),
    (0, b"DEV0", [None, None]),
    // Every other name is one path.
    (4, b"^DEV0", [Some(4), Some(4)]),
    (4, b"^^DEV0", [Some(5), Some(5)]),
    (1, b"\x2ePCI0DEV0", [Some(4), Some(4)]),
    (2, b"\x2ePCI0DEV0", [None, None]),
    (2, b"\\\x00", [Some(0), Some(0)]),
    // Nothing is above the root.
    (1, b"^^PCI0", [None, None]),
];

/// A path more, where the one above is there and it is new.
fn put(paths: &mut Paths, at: usize, segment: NameSeg) -> Result<(), AllocError> {
    if at < paths.len() && paths.child(at, segment).is_none() {
        paths.add(at, segment)?;
    }
    Ok(())
}

/// The paths that are made.
fn paths_of(alloc: Global) -> Result<Paths, AllocError> {
    let mut paths = Paths::new(alloc);
    for (at, bytes) in MADE {
        put(&mut paths, *at, NameSeg { bytes: *bytes })?;
    }
    Ok(paths)
}

/// Whether the path with this number has these segments.
fn has_segments(
    alloc: Global,
    paths: &Paths,
    at: usize,
    wanted: &[[u8; 4]],
) -> Result<bool, AllocError> {
    if at >= paths.len() {
        return Ok(false);
    }
    let path = paths.path(alloc, at)?;
    Ok(
        path.iter()
            .map(|segment| segment.bytes)
            .eq(wanted.iter().copied()),
    )
}

/// The numbers of what a name spells and of what it names in the scope whose path has this number.
fn numbers(paths: &Paths, scope: usize, name: &[u8]) -> [Option<usize>; 2] {
    match name_string(name, 0) {
        Ok((name, _)) if scope < paths.len() => {
            [paths.spelled(scope, &name), paths.resolve(scope, &name)]
        }
        _ => [None, None],
    }
}

/// How many of the paths have their segments.
fn right_paths(alloc: Global, paths: &Paths) -> Result<usize, AllocError> {
    let mut right = 0usize;
    for (at, wanted) in SEGMENTS.iter().enumerate() {
        if has_segments(alloc, paths, at, wanted)? {
            right = right.saturating_add(1);
        }
    }
    Ok(right)
}

/// The paths whose chains are laid anew, and a copy from before.
fn settled(alloc: Global) -> Result<(Paths, Paths), AllocError> {
    let mut paths = paths_of(alloc)?;
    let copied = paths.copy(alloc)?;
    paths.settle_chains()?;
    Ok((paths, copied))
}

#[test]
fn paths_and_their_segments(rt: HostRuntime) -> Result<(), Fail> {
    let (paths, copied) = settled(rt.alloc())?;
    let right = right_paths(rt.alloc(), &paths)?;
    let copies = right_paths(rt.alloc(), &copied)?;
    assert_eq!(rt; [paths.len(), right, copies], [6, 6, 6]);
    Ok(())
}

#[test]
fn names_among_paths(rt: HostRuntime) -> Result<(), Fail> {
    let paths = paths_of(rt.alloc())?;
    for (scope, name, wanted) in NAMES {
        assert_eq!(rt; numbers(&paths, *scope, name), *wanted);
    }
    assert_eq!(rt; paths.printed(b"\\_SB_.PCI0"), Some(2));
    assert_eq!(rt; paths.printed(b"\\"), None);
    Ok(())
}
