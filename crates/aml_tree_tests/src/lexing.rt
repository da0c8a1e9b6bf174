// Worked rows, and each public call once.

ghost use Rattle.std.specs.Prelude.{◌≤◌, length};

use aml_lex::{
    LexFault, NameRef, NameSeg, answers_end_within, faults_stand_within, integer_data, name_string,
    package_end, pkg_length, spellings_are_read, spellings_are_unique, string_data,
};
use std::alloc::{AllocError, Global};
use std::fmt::Debug;
use std::test::Fail;

/// A reader.
enum Reader {
    PkgLength,
    PackageEnd,
    Name,
    Integer,
    Text,
}

/// Whether a name is rooted, its carets, how many segments it has, and where it ends.
fn name_parts(found: (NameRef<'_>, usize)) -> (bool, usize, usize, usize) {
    let (name, end) = found;
    (name.rooted(), name.parents(), name.segs(), end)
}

/// What is told of an answer.
fn told<T: Debug + Drop>(alloc: Global, answer: Result<T, LexFault>) -> Result<String, AllocError> {
    match answer {
        Ok(found) => format!(in alloc; "{found:?}"),
        Err(fault) => format!(in alloc; "{fault}"),
    }
}

/// What a reader tells of the bytes from a place on.
fn told_by(alloc: Global, reader: &Reader, bytes: &[u8], at: usize) -> Result<String, AllocError>
    requires { at ≤ length bytes.now }
{
    match reader {
        Reader::PkgLength => told(alloc, pkg_length(bytes, at)),
        Reader::PackageEnd => told(alloc, package_end(bytes, at)),
        Reader::Name => told(alloc, name_string(bytes, at).map(name_parts)),
        Reader::Integer => told(alloc, integer_data(bytes, at)),
        Reader::Text => told(alloc, string_data(bytes, at)),
    }
}

#[test]
fn readers(rt: HostRuntime) -> Result<(), Fail> {
    let rows: &[(Reader, &[u8], usize, &str)] = &[
        (Reader::PkgLength, &[0x3F], 0, "(63, 1)"),
        (Reader::PkgLength, &[0x40, 0x04], 0, "(64, 2)"),
        (
            Reader::PkgLength,
            &[0xCF, 0xFF, 0xFF, 0xFF],
            0,
            "(268435455, 4)",
        ),
        (Reader::PkgLength, &[0x40], 0, "E201 Truncated 1"),
        (Reader::PackageEnd, &[0x14, 0x00], 1, "E202 BadPkgLength 1"),
        (Reader::PackageEnd, &[0x14, 0x02, 0xA3], 1, "(3, 2)"),
        (Reader::PackageEnd, &[0x14, 0x03, 0xA3], 1, "E207 Overrun 1"),
        (Reader::Name, b"\\_SB_", 0, "(true, 0, 1, 5)"),
        (Reader::Name, b"\\\0", 0, "(true, 0, 0, 2)"),
        (Reader::Name, b"^^ABCD", 0, "(false, 2, 1, 6)"),
        (Reader::Name, &[0x2F, 0x00], 0, "E203 BadName 1"),
        (Reader::Name, b"0AAA", 0, "E203 BadName 0"),
        (Reader::Integer, &[0x0A, 0x7F], 0, "Some((127, 2))"),
        (
            Reader::Integer,
            &[0x0C, 0x78, 0x56, 0x34, 0x12],
            0,
            "Some((305419896, 5))",
        ),
        (
            Reader::Integer,
            &[0xFF],
            0,
            "Some((18446744073709551615, 1))",
        ),
        (Reader::Integer, &[0x70], 0, "None"),
        (Reader::Integer, &[0x0B, 0x01], 0, "E201 Truncated 2"),
        (Reader::Integer, &[], 0, "E201 Truncated 0"),
        (Reader::Text, b"\x0DHI\0", 1, "([72, 73], 4)"),
        (Reader::Text, &[0x48, 0x80, 0x00], 0, "E206 BadString 1"),
    ];
    for (reader, bytes, at, wanted) in rows {
        assert!(rt; *at <= bytes.len());
        let text = told_by(rt.alloc(), reader, bytes, *at)?;
        assert_eq!(rt; text.as_str(), *wanted);
    }
    Ok(())
}

/// The first segment of a name, if it has one, and the segment that it is, if it is no more.
fn segments_of(name: &NameRef<'_>) -> (Option<NameSeg>, Option<NameSeg>) {
    let first = if name.segs() == 0 {
        None
    } else {
        Some(name.seg(0))
    };
    (first, name.lone_segment())
}

#[test]
fn segments(rt: HostRuntime) -> Result<(), Fail> {
    let rows: &[(&[u8], Option<NameSeg>, bool)] = &[
        (b"\\_SB_", Some(NameSeg { bytes: *b"_SB_" }), false),
        (b"\\\0", None, false),
        (b"^^ABCD", Some(NameSeg { bytes: *b"ABCD" }), false),
        (b"PCI0", Some(NameSeg { bytes: *b"PCI0" }), true),
    ];
    for (bytes, first, is_lone) in rows {
        let (name, _) = name_string(bytes, 0)?;
        let lone = if *is_lone { *first } else { None };
        assert!(rt; segments_of(&name) == (*first, lone), "{first:?}");
    }
    Ok(())
}

/// A segment is printed as its text.
#[test]
fn printed_segment(rt: HostRuntime) -> Result<(), Fail> {
    let segment = NameSeg { bytes: *b"PCI0" };
    assert_eq!(rt; format!(in rt.alloc(); "{segment}")?.as_str(), "PCI0");
    Ok(())
}

#[test]
fn laws() {
    answers_end_within();
    faults_stand_within();
    spellings_are_unique();
    spellings_are_read();
}
