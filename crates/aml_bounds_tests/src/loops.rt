// How often loops turn.

use aml_bounds::{Turns, loop_shape};
use aml_namespace::Width;
use aml_tree::{NoArguments, Span, TreeFault, read_body};
use std::alloc::Global;
use std::test::Fail;

/// Whether each statement of a body turns so often.
fn turn_so(
    alloc: Global,
    bytes: &[u8],
    width: Width,
    turns: Option<Turns>,
) -> Result<bool, TreeFault> {
    let span = Span {
        at: 0,
        end: bytes.len(),
    };
    let body = read_body(alloc, bytes, span, &NoArguments)?;
    for term in &body {
        if loop_shape(term, width) != turns {
            return Ok(false);
        }
    }
    Ok(true)
}

/// Local0 counts up to 4.
const UP: Option<Turns> = Some(Turns::Up { local: 0, limit: 4 });

/// Local0 counts down to 0.
const DOWN: Option<Turns> = Some(Turns::Down { local: 0, limit: 0 });

/// Local0 counts down to 2.
const DOWN_TO_TWO: Option<Turns> = Some(Turns::Down { local: 0, limit: 2 });

#[test]
fn turns_of_loops(rt: HostRuntime) -> Result<(), Fail> {
    let rows: &[(&[u8], Option<Turns>)] = &[
        // While (LLess (Local0, 4)) { Increment (Local0) }
        (&[0xA2, 0x07, 0x95, 0x60, 0x0A, 0x04, 0x75, 0x60], UP),
        // .. { Add (Local0, One, Local0) } and { Add (One, Local0, Local0) }
        (
            &[0xA2, 0x09, 0x95, 0x60, 0x0A, 0x04, 0x72, 0x60, 0x01, 0x60],
            UP,
        ),
        (
            &[0xA2, 0x09, 0x95, 0x60, 0x0A, 0x04, 0x72, 0x01, 0x60, 0x60],
            UP,
        ),
        // .. { Increment (Local0) Continue }, but not with the Continue first
        (&[0xA2, 0x08, 0x95, 0x60, 0x0A, 0x04, 0x75, 0x60, 0x9F], UP),
        (
            &[0xA2, 0x08, 0x95, 0x60, 0x0A, 0x04, 0x9F, 0x75, 0x60],
            None,
        ),
        // an inner loop's Continue is its own: .. { While (LLess (Local1, 2)) { Increment (Local1)
        // Continue } Increment (Local0) }
        (
            &[
                0xA2, 0x10, 0x95, 0x60, 0x0A, 0x04, 0xA2, 0x08, 0x95, 0x61, 0x0A, 0x02, 0x75, 0x61,
                0x9F, 0x75, 0x60,
            ],
            UP,
        ),
        // .. { Increment (Local0) Increment (Local0) } and { Increment (Local0) Store (One, Local0)
        // }
        (
            &[0xA2, 0x09, 0x95, 0x60, 0x0A, 0x04, 0x75, 0x60, 0x75, 0x60],
            None,
        ),
        (
            &[
                0xA2, 0x0A, 0x95, 0x60, 0x0A, 0x04, 0x75, 0x60, 0x70, 0x01, 0x60,
            ],
            None,
        ),
        // .. { Increment (Local0) ToHexString (One, Local0) }, but not with Local1, and CopyObject
        // has no target
        (
            &[
                0xA2, 0x0A, 0x95, 0x60, 0x0A, 0x04, 0x75, 0x60, 0x98, 0x01, 0x60,
            ],
            None,
        ),
        (
            &[
                0xA2, 0x0A, 0x95, 0x60, 0x0A, 0x04, 0x75, 0x60, 0x98, 0x01, 0x61,
            ],
            UP,
        ),
        (
            &[
                0xA2, 0x0A, 0x95, 0x60, 0x0A, 0x04, 0x75, 0x60, 0x9D, 0x01, 0x60,
            ],
            UP,
        ),
        // another local, an argument
        (&[0xA2, 0x07, 0x95, 0x60, 0x0A, 0x04, 0x75, 0x61], None),
        (&[0xA2, 0x07, 0x95, 0x68, 0x0A, 0x04, 0x75, 0x68], None),
        // While (One) { Break }, { Return (One) } and { If (One) { Continue } Break }
        (&[0xA2, 0x03, 0x01, 0xA5], Some(Turns::Once)),
        (&[0xA2, 0x04, 0x01, 0xA4, 0x01], Some(Turns::Once)),
        (&[0xA2, 0x07, 0x01, 0xA0, 0x03, 0x01, 0x9F, 0xA5], None),
        // a loop that would count up, but ends in its first turn: .. { Increment (Local0) Break }
        (
            &[0xA2, 0x08, 0x95, 0x60, 0x0A, 0x04, 0x75, 0x60, 0xA5],
            Some(Turns::Once),
        ),
        // While (Local0) { Decrement (Local0) }
        (&[0xA2, 0x04, 0x60, 0x76, 0x60], DOWN),
        // While (LGreater (Local0, 2)) { Subtract (Local0, One, Local0) }, but not One less the
        // local
        (
            &[0xA2, 0x09, 0x94, 0x60, 0x0A, 0x02, 0x74, 0x60, 0x01, 0x60],
            DOWN_TO_TWO,
        ),
        (
            &[0xA2, 0x09, 0x94, 0x60, 0x0A, 0x02, 0x74, 0x01, 0x60, 0x60],
            None,
        ),
        // While (One) { Noop }, and what is no loop
        (&[0xA2, 0x03, 0x01, 0xA3], None),
        (&[0xA3], None),
    ];
    for (bytes, turns) in rows {
        let are_right = turn_so(rt.alloc(), bytes, Width::Bits64, *turns)?;
        assert!(rt; are_right, "{bytes:?}");
    }
    Ok(())
}

#[test]
fn limits_by_width(rt: HostRuntime) -> Result<(), Fail> {
    // While (LLess (Local0, 0x100000003)) { Increment (Local0) }
    let bytes: &[u8] = &[
        0xA2, 0x0E, 0x95, 0x60, 0x0E, 0x03, 0, 0, 0, 0x01, 0, 0, 0, 0x75, 0x60,
    ];
    let rows: &[(Width, u64)] = &[(Width::Bits32, 3), (Width::Bits64, 0x1_0000_0003)];
    for (width, limit) in rows {
        let turns = Turns::Up {
            local: 0,
            limit: *limit,
        };
        let are_right = turn_so(rt.alloc(), bytes, *width, Some(turns))?;
        assert!(rt; are_right, "limit {limit}");
    }
    Ok(())
}
