// Which kinds a text tells, and which texts tell none. Expected values were worked out by hand.

use ArgumentKind::{Buf, Int, IntUpTo, Pkg, Str};
use aml_namespace::Width;
use aml_signatures::{ArgumentKind, SignatureFault, Signatures};
use std::alloc::Global;
use std::process::Abort;
use std::test::Fail;

/// A text, a method's path and number of arguments, and the kinds that they have at 64 bits.
type Row<'a> = (&'a [u8], &'a [u8], u8, &'a [ArgumentKind]);

/// A text tells a method's kinds as is wanted.
fn is_told(rt: &impl Abort, alloc: Global, row: Row<'_>) -> Result<(), SignatureFault> {
    let (text, path, count, wanted) = row;
    let signatures = Signatures::read(alloc, text)?;
    let Ok(kinds) = signatures.kinds(alloc, path, count, Width::Bits64) else {
        return Err(SignatureFault::NoMemory);
    };
    assert_eq!(rt; kinds.as_slice(), wanted);
    Ok(())
}

#[test]
fn rows_of_kinds_that_are_told(rt: HostRuntime) -> Result<(), Fail> {
    let rows: &[Row<'_>] = &[
        // each kind, the greatest numbers, a last line with and without its end
        (
            b"\\M000 int:18446744073709551615 buf:0 str:18446744073709551615 pkg int",
            b"\\M000",
            5,
            &[
                IntUpTo(18_446_744_073_709_551_615),
                Buf(0),
                Str(18_446_744_073_709_551_615),
                Pkg,
                Int,
            ],
        ),
        (b"\\M000 buf:007\n", b"\\M000", 1, &[Buf(7)]),
        // missing kinds, none of them named, and further ones
        (b"\\M000 pkg", b"\\M000", 3, &[Pkg, Int, Int]),
        (b"\\M000", b"\\M000", 2, &[Int, Int]),
        (b"\\M000 buf:1 buf:2 buf:3", b"\\M000", 1, &[Buf(1)]),
        (
            b"\\M000 buf:1 buf:2 buf:3 buf:4 buf:5 buf:6 buf:7 buf:8 buf:9",
            b"\\M000",
            7,
            &[Buf(1), Buf(2), Buf(3), Buf(4), Buf(5), Buf(6), Buf(7)],
        ),
        (b"\\M000 pkg", b"\\M000", 0, &[]),
        // lines that count for nothing, and paths that no method has
        (
            b"\n# \\M000 int\n\nno_path int\n\\M000 pkg\n#",
            b"\\M000",
            1,
            &[Pkg],
        ),
        (b"", b"\\M000", 1, &[Int]),
        (
            b"\xff pkg\n\\M000 pkg\n\\M000.\xff\n\\M00",
            b"\\M000",
            1,
            &[Pkg],
        ),
        (b"\\M000.M000 pkg", b"\\M000", 1, &[Int]),
        // `_DSM` of four arguments without a line, of another number, with a line, and as a first
        // segment
        (b"", b"\\_SB_.PCI0._DSM", 4, &[Buf(16), Int, Int, Pkg]),
        (b"\\_DSM", b"\\_SB_.PCI0._DSM", 4, &[Buf(16), Int, Int, Pkg]),
        (b"", b"\\_DSM", 4, &[Buf(16), Int, Int, Pkg]),
        (b"", b"\\_DSM", 3, &[Int, Int, Int]),
        (b"", b"\\_DSM", 5, &[Int, Int, Int, Int, Int]),
        (b"\\_DSM", b"\\_DSM", 4, &[Int, Int, Int, Int]),
        (
            b"\\_DSM int:3 pkg",
            b"\\_DSM",
            4,
            &[IntUpTo(3), Pkg, Int, Int],
        ),
        (b"", b"\\_DSM.M000", 4, &[Int, Int, Int, Int]),
    ];
    for row in rows {
        if is_told(&rt, rt.alloc(), *row).is_err() {
            is_told(&rt, rt.alloc(), *row)?;
        }
    }
    Ok(())
}

/// What a text's reading ends with, asked again where memory was wanted.
fn fault_of(alloc: Global, text: &[u8]) -> Option<SignatureFault> {
    match Signatures::read(alloc, text) {
        Err(SignatureFault::NoMemory) => Signatures::read(alloc, text).err(),
        answer => answer.err(),
    }
}

#[test]
fn rows_of_bad_lines(rt: HostRuntime) -> Result<(), Fail> {
    let rows: &[(&[u8], usize)] = &[
        // a path twice, also without kinds and far apart
        (b"\\M000 int\n\\M000 int", 2),
        (b"\\M000\n\n# \\M000\n\\M001\n\\M000", 5),
        // single spaces alone
        (b"\\M000  int", 1),
        (b"\\M000 ", 1),
        (b"\\M000 int ", 1),
        (b"ok\n \\M000 int", 2),
        (b"ok\n \n", 2),
        (b"\\M000\tint\n\\M000 int\tint", 2),
        (b"\\M000 int\r\n", 1),
        // words that name no kind
        (b"a\nb\nc any\nd any", 3),
        (b"\\M000 Int", 1),
        (b"\\M000 int:", 1),
        (b"\\M000 int:+1", 1),
        (b"\\M000 int:-1", 1),
        (b"\\M000 int:0x1", 1),
        (b"\\M000 int:1_0", 1),
        (b"\\M000 buf", 1),
        (b"\\M000 buf:\xff", 1),
        (b"\\M000 str", 1),
        (b"\\M000 pkg:1", 1),
        (b"\\M000 int #", 1),
        // numbers of 2^64 and more
        (b"\\M000 int:18446744073709551616", 1),
        (b"\\M000 buf:18446744073709551616", 1),
        (b"\\M000 str:100000000000000000000", 1),
    ];
    for (text, line) in rows {
        let wanted = Some(SignatureFault::BadKinds { line: *line });
        assert_eq!(rt; fault_of(rt.alloc(), text), wanted);
    }
    Ok(())
}

#[test]
fn greatest_integers_are_cut_to_the_width(rt: HostRuntime) -> Result<(), Fail> {
    let text = b"\\M000 int:4294967295 int:4294967296 buf:4294967296 int";
    let signatures = Signatures::read(rt.alloc(), text)?;
    let kinds = signatures.kinds(rt.alloc(), b"\\M000", 4, Width::Bits32)?;
    let greatest = 4_294_967_295;
    let wanted = [IntUpTo(greatest), IntUpTo(greatest), Buf(greatest + 1), Int];
    assert_eq!(rt; kinds.as_slice(), wanted.as_slice());
    Ok(())
}

/// A text of so many lines, each with the path of its number.
fn many_lines(alloc: Global, count: u32) -> Result<Vec<u8>, Fail> {
    let mut text = Vec::new(alloc);
    for number in 0..count {
        let line = format!(in alloc; "\\_SB_.PCI0.M{number} buf:{number}\n")?;
        text.extend_from_slice(line.as_bytes())?;
    }
    Ok(text)
}

#[test]
fn each_of_60000_lines_is_found(rt: HostRuntime) -> Result<(), Fail> {
    let alloc = rt.alloc();
    let signatures = Signatures::read(alloc, &many_lines(alloc, 60_000)?)?;
    for number in 0..60_000u32 {
        let path = format!(in alloc; "\\_SB_.PCI0.M{number}")?;
        let kinds = signatures.kinds(alloc, path.as_bytes(), 1, Width::Bits64)?;
        assert_eq!(rt; kinds.as_slice(), [Buf(u64::from(number))].as_slice());
    }
    Ok(())
}
