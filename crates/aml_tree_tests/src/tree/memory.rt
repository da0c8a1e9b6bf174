// Want of memory. With `rt try --test --fail-alloc N` the Nth growth is refused.

ghost use Rattle.std.specs.Prelude.{◌≤◌};

use super::{ByDigit, compare};
use aml_lex::LexCause;
use aml_tree::{Op, Refusal, Span, Term, TreeCause, TreeFault, read_body, read_module};
use std::alloc::Global;
use std::test::Fail;

/// Name (BUF0, Buffer (1) { 0xEE }), Field (REG0, One) { Connection (GPI0), FLD0, 8, }, and
/// Method (M000) { If (One) { M001 (One) } Else { Noop } Name (OWN1, Zero) OWN1 }.
const TABLE: [u8; 91] = [
    0, 0, 0, 0, 0, 0, 0, 0, 0, 0, 0, 0, 0, 0, 0, 0, 0, 0, 0, 0, 0, 0, 0, 0, 0, 0, 0, 0, 0, 0, 0, 0,
    0, 0, 0, 0, 0x08, b'B', b'U', b'F', b'0', 0x11, 0x03, 0x01, 0xEE, 0x5B, 0x81, 0x10, b'R', b'E',
    b'G', b'0', 0x01, 0x02, b'G', b'P', b'I', b'0', b'F', b'L', b'D', b'0', 0x08, 0x14, 0x1B, b'M',
    b'0', b'0', b'0', 0x00, 0xA0, 0x07, 0x01, b'M', b'0', b'0', b'1', 0x01, 0xA1, 0x02, 0xA3, 0x08,
    b'O', b'W', b'N', b'1', 0x00, b'O', b'W', b'N', b'1',
];

/// The table's definitions, asked for again where memory was wanted.
fn definitions_of(alloc: Global, bytes: &[u8]) -> Result<Vec<Term>, TreeFault> {
    match read_module(alloc, bytes) {
        Err(TreeFault::NoMemory) => read_module(alloc, bytes),
        told => told,
    }
}

/// The statements from 70 on, asked for again where memory was wanted.
fn statements_of(alloc: Global, end: usize) -> Result<Vec<Term>, TreeFault>
    requires low { 70 ≤ end }
    requires high { end ≤ 91 }
{
    let span = Span { at: 70, end };
    match read_body(alloc, &TABLE, span, &ByDigit) {
        Err(TreeFault::NoMemory) => read_body(alloc, &TABLE, span, &ByDigit),
        told => told,
    }
}

/// Also for a run in which an allocation fails: the call is then refused for want of memory, and
/// the next one has its answer.
#[test]
fn want_of_memory(rt: HostRuntime) -> Result<(), Fail> {
    let alloc = rt.alloc();
    compare(
        &rt,
        alloc,
        &definitions_of(alloc, &TABLE)?,
        &[
            (Op::Name, 36, 45, 2),
            (Op::NameString, 37, 41, 0),
            (Op::Buffer, 41, 45, 2),
            (Op::One, 43, 44, 0),
            (Op::ByteList, 44, 45, 0),
            (Op::Field, 45, 63, 4),
            (Op::NameString, 48, 52, 0),
            (Op::Number(1), 52, 53, 0),
            (Op::ConnectField, 53, 58, 1),
            (Op::NameString, 54, 58, 0),
            (Op::NamedField, 58, 63, 2),
            (Op::NameString, 58, 62, 0),
            (Op::Number(8), 62, 63, 0),
            (Op::Method, 63, 91, 3),
            (Op::NameString, 65, 69, 0),
            (Op::Number(0), 69, 70, 0),
            (Op::ByteList, 70, 91, 0),
        ],
    )?;
    compare(
        &rt,
        alloc,
        &statements_of(alloc, 91)?,
        &[
            (Op::If, 70, 81, 3),
            (Op::One, 72, 73, 0),
            (Op::Invocation, 73, 78, 2),
            (Op::NameString, 73, 77, 0),
            (Op::One, 77, 78, 0),
            (Op::Else, 78, 81, 1),
            (Op::Noop, 80, 81, 0),
            (Op::Name, 81, 87, 2),
            (Op::NameString, 82, 86, 0),
            (Op::Zero, 86, 87, 0),
            (Op::Invocation, 87, 91, 1),
            (Op::NameString, 87, 91, 0),
        ],
    )?;
    Ok(())
}

/// The same of faults: a Method and an Else that go past the end.
#[test]
fn want_of_memory_before_a_fault(rt: HostRuntime) {
    let overrun = |at| {
        Some(TreeFault::Refused(Refusal {
            cause: TreeCause::Lexical(LexCause::Overrun),
            at,
        }))
    };
    assert_eq!(rt; definitions_of(rt.alloc(), &TABLE[..90]).err(), overrun(64));
    assert_eq!(rt; statements_of(rt.alloc(), 80).err(), overrun(79));
}
