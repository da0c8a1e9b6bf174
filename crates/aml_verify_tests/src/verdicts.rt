// Verdicts, one method at a time, also where memory is wanted. Expected values were worked out by
// hand.

use acpi_samples::{HOST, table_of};
use aml_causes::Cause;
use aml_namespace::Namespace;
use aml_paths::NoMemory;
use aml_signatures::Signatures;
use aml_verify::{Checked, Verdict, Verifier};
use std::alloc::Global;
use std::process::Abort;
use std::test::Fail;

/// What is to be said of a method: its bound, or where and why it is refused, or where its body
/// cannot be read.
#[derive(Clone, Copy, Debug, PartialEq, Eq)]
enum Said {
    Accepted(u64),
    Refused(usize, Cause),
    Unreadable(usize),
}

/// The revision of a DSDT, the bytes behind its header, and what is to be said of its methods in
/// order.
type Row<'a> = (u8, &'a [u8], &'a [Said]);

/// What a verdict says.
fn told(verdict: &Verdict) -> Said {
    match verdict {
        Verdict::Accepted(accepted) => Said::Accepted(accepted.bound),
        Verdict::Refused(refusal, _) => Said::Refused(refusal.at, refusal.why),
        Verdict::Unreadable { table: _, refusal } => Said::Unreadable(refusal.at),
    }
}

/// Each method of the namespace has the verdict that is wanted.
fn are_said(rt: &impl Abort, checked: &Checked<'_>, wanted: &[Said]) {
    let methods = checked.namespace().methods();
    assert_eq!(rt; methods.len(), wanted.len());
    for (i, id) in methods.iter().enumerate() {
        let found = checked.verdict(*id).map(told);
        assert_eq!(rt; found, wanted.get(i).copied());
    }
}

/// Judges the methods of a namespace; a step that wants memory is made again, and judges the same
/// method.
fn are_judged(
    rt: &impl Abort,
    alloc: Global,
    namespace: &Namespace<'_>,
    wanted: &[Said],
) -> Result<(), NoMemory> {
    let signatures = Signatures::new(alloc);
    let mut verifier = Verifier::new(alloc, namespace, &signatures)?;
    for _ in 0..verifier.left() {
        let left = verifier.left();
        if verifier.step().is_err() {
            assert_eq!(rt; verifier.left(), left);
            assert!(rt; verifier.step()?.is_some());
        }
        assert!(rt; verifier.left() < left);
    }
    assert_eq!(rt; verifier.step()?, None);
    are_said(rt, &verifier.finish(), wanted);
    Ok(())
}

/// Judges the methods of a table.
fn is_judged(rt: &impl Abort, alloc: Global, row: Row<'_>) -> Result<(), NoMemory> {
    let (revision, behind, wanted) = row;
    let table = table_of(alloc, *b"DSDT", revision, behind).map_err(|_| NoMemory)?;
    let Ok(mut namespace) = Namespace::load(alloc, &[&table], HOST) else {
        return Err(NoMemory);
    };
    namespace.count_externals(alloc)?;
    are_judged(rt, alloc, &namespace, wanted)
}

#[test]
fn rows_of_verdicts_where_memory_is_wanted(rt: HostRuntime) -> Result<(), Fail> {
    let rows: &[Row<'_>] = &[
        (
            2,
            b"[\x80GPIO\x01\x0a`\x0a\x04[\x81\x0dGPIO\x01\x00\x04FLD0\x08\x14\x0dM001\x00p\x0a\xabFLD0",
            &[Said::Accepted(7)],
        ),
        (
            2,
            b"[\x80GPIO\x01\x0a`\x0a\x06[\x81\x0dGPIO\x03\x00 FLD0\x08\x14\x0bM001\x00\xa4FLD0",
            &[Said::Refused(70, Cause::Region)],
        ),
        (
            2,
            b"\x14\x13M002\x00p\x00`\xa2\x07\x95`\x0a\x04u`\xa4`",
            &[Said::Accepted(33)],
        ),
        (
            2,
            b"\x14\x10M003\x00\xa2\x07\x95`\x0a\x04u`\xa4`",
            &[Said::Refused(46, Cause::Unset)],
        ),
        (
            2,
            b"\x14\x15M004\x01p\x00`\xa2\x0b\x95`\x0a\x04\xa0\x03h\x9fu`",
            &[Said::Refused(46, Cause::LoopShape)],
        ),
        (
            2,
            b"\x08BUF0\x11\x03\x0a\x0f\x14\x13M005\x01\xa4\x83\x88BUF0{h\x0a\x0f\x00\x00",
            &[Said::Refused(54, Cause::Index)],
        ),
        (
            1,
            b"\x14\x10M006\x01p\x0a\x05a\xa4xha\x00\x00",
            &[Said::Refused(50, Cause::Divisor)],
        ),
        (
            2,
            b"\x14\x0bAAAA\x00\xa4BBBB\x14\x0bBBBB\x00\xa4AAAA\x14\x0bCCCC\x00\xa4AAAA",
            &[
                Said::Refused(44, Cause::Cycle),
                Said::Refused(56, Cause::Cycle),
                Said::Refused(68, Cause::CalleeRefused),
            ],
        ),
        (
            2,
            b"\x08BUF0\x11\x03\x0a\x10\x14\x1fM019\x00p\x00`\xa2\x10\x95`\x0a\x10p`\x88BUF0`\x00u`\xa4BUF0",
            &[Said::Accepted(169)],
        ),
        (
            2,
            b"\x10H\x05\x5c_SB_[\x822LNKA\x14,_CRS\x00\x08BUF0\x11\x09\x0a\x06#\x00\x00\x18y\x00\x8bBUF0\x01IRQWp\x0b\x00\x02IRQW\xa4BUF0[\x82\x1bPCI0\x08_PRT\x12\x10\x01\x12\x0d\x04\x0c\xff\xff\x01\x00\x00LNKA\x00",
            &[Said::Accepted(8)],
        ),
        (
            2,
            b"\x14H\x04M015\x00\xa4\x92\x92\x92\x92\x92\x92\x92\x92\x92\x92\x92\x92\x92\x92\x92\x92\x92\x92\x92\x92\x92\x92\x92\x92\x92\x92\x92\x92\x92\x92\x92\x92\x92\x92\x92\x92\x92\x92\x92\x92\x92\x92\x92\x92\x92\x92\x92\x92\x92\x92\x92\x92\x92\x92\x92\x92\x92\x92\x92\x92\x92\x92\x92\x01",
            &[Said::Unreadable(108)],
        ),
        (
            2,
            b"[\x01MTX0\x03\x14\x10M010\x00[#MTX0\xff\xff\xa4\x01",
            &[Said::Refused(58, Cause::StillHeld)],
        ),
        (
            2,
            b"[\x01MTX0\x03[\x01MTX1\x02\x14\x16M011\x00[#MTX0\xff\xff[#MTX1\xff\xff",
            &[Said::Refused(65, Cause::Level)],
        ),
        (
            2,
            b"[\x01MTX0\x03\x14\x0cM012\x00['MTX0",
            &[Said::Refused(50, Cause::NotHeld)],
        ),
        (
            2,
            b"[\x01MTX0\x03\x14\x17M013\x01\xa0\x0ah[#MTX0\xff\xff['MTX0",
            &[Said::Refused(50, Cause::HeldDiffers)],
        ),
        (
            2,
            b"\x08CNT0\x0a\x05\x14\x0eM014\x00[\x22\x01\xa4CNT0\x14\x0bINC0\x00uCNT0",
            &[Said::Accepted(5), Said::Accepted(3)],
        ),
    ];
    for row in rows {
        if is_judged(&rt, rt.alloc(), *row).is_err() {
            is_judged(&rt, rt.alloc(), *row)?;
        }
    }
    Ok(())
}
