// How many steps a body takes.

ghost use Rattle.aml_bounds.specs.Steps.{Knows};

use aml_bounds::{Costs, TurnCount, body_steps, steps};
use aml_tree::{NoArguments, Span, TreeFault, read_body};
use std::alloc::Global;
use std::test::Fail;

/// The same at each place.
#[derive(Clone, Copy)]
struct Everywhere {
    turns: TurnCount,
    named: u64,
    stored: u64,
}

impl Costs for Everywhere {
    ghost knows = { λ s. record {
      turns = λ at. s.turns;
      named = λ at. s.named;
      stored = λ at. s.stored;
    } };

    fn turns(&self, _at: usize) -> TurnCount {
        self.turns
    }

    fn named(&self, _at: usize) -> u64 {
        self.named
    }

    fn stored(&self, _at: usize) -> u64 {
        self.stored
    }
}

/// The steps that a body takes.
fn steps_in(alloc: Global, bytes: &[u8], costs: &Everywhere) -> Result<Option<u64>, TreeFault> {
    let span = Span {
        at: 0,
        end: bytes.len(),
    };
    let body = read_body(alloc, bytes, span, &NoArguments)?;
    Ok(body_steps(&body, costs))
}

#[test]
fn steps_of_terms(rt: HostRuntime) -> Result<(), Fail> {
    let four = Everywhere {
        turns: TurnCount::AtMost(4),
        named: 100,
        stored: 7,
    };
    let rows: &[(&[u8], u64)] = &[
        // Return (Add (Arg0, One))
        (&[0xA4, 0x72, 0x68, 0x01, 0x00], 4),
        // Store (One, Local0), twice
        (&[0x70, 0x01, 0x60, 0x70, 0x01, 0x60], 6),
        // Divide (Local0, 2, Local1, Local2)
        (&[0x78, 0x60, 0x0A, 0x02, 0x61, 0x62], 5),
        // While (LLess (Local0, 4)) { Increment (Local0) }
        (&[0xA2, 0x07, 0x95, 0x60, 0x0A, 0x04, 0x75, 0x60], 28),
        // If (Arg0) { Noop } Else { Store (One, Local0) }, and without Else
        (&[0xA0, 0x03, 0x68, 0xA3, 0xA1, 0x04, 0x70, 0x01, 0x60], 5),
        (&[0xA0, 0x03, 0x68, 0xA3], 3),
        // DerefOf (Index (Local0, One)), Store (One, Index (Local0, Local1))
        (&[0x83, 0x88, 0x60, 0x01, 0x00], 4),
        (&[0x70, 0x01, 0x88, 0x60, 0x61, 0x00], 4),
        // Notify (DEV0, One), Sleep (One)
        (&[0x86, b'D', b'E', b'V', b'0', 0x01], 3),
        (&[0x5B, 0x22, 0x01], 3),
        // Name (NAM0, One)
        (&[0x08, b'N', b'A', b'M', b'0', 0x01], 2),
        // MTH0 (), Store (One, FLD0), Increment (FLD0)
        (b"MTH0", 101),
        (&[0x70, 0x01, b'F', b'L', b'D', b'0'], 10),
        (&[0x75, b'F', b'L', b'D', b'0'], 110),
        // Store ("", Debug)
        (&[0x70, 0x0D, 0x00, 0x5B, 0x31], 3),
    ];
    for (bytes, count) in rows {
        assert_eq!(rt; steps_in(rt.alloc(), bytes, &four)?, Some(*count));
    }
    Ok(())
}

/// Whether each statement of a body takes so many steps.
fn take_so_many(
    alloc: Global,
    bytes: &[u8],
    costs: &Everywhere,
    count: Option<u64>,
) -> Result<bool, TreeFault> {
    let span = Span {
        at: 0,
        end: bytes.len(),
    };
    let body = read_body(alloc, bytes, span, &NoArguments)?;
    for term in &body {
        if steps(term, costs) != count {
            return Ok(false);
        }
    }
    Ok(true)
}

#[test]
fn limits_of_steps(rt: HostRuntime) -> Result<(), Fail> {
    // While (One) { Noop }: 2 * n + 2 steps for n turns
    let bytes: &[u8] = &[0xA2, 0x03, 0x01, 0xA3];
    let rows: &[(TurnCount, Option<u64>)] = &[
        (TurnCount::Once, Some(3)),
        (TurnCount::AtMost(0), Some(2)),
        (
            TurnCount::AtMost(0x3FFF_FFFF_FFFF_FFFE),
            Some(0x7FFF_FFFF_FFFF_FFFE),
        ),
        (TurnCount::AtMost(0x3FFF_FFFF_FFFF_FFFF), None),
        (TurnCount::AtMost(u64::MAX), None),
    ];
    for (i, (turns, count)) in rows.iter().enumerate() {
        let costs = Everywhere {
            turns: *turns,
            named: 0,
            stored: 0,
        };
        let are_right = take_so_many(rt.alloc(), bytes, &costs, *count)?;
        assert!(rt; are_right, "row {i}");
    }
    Ok(())
}
