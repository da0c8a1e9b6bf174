// Public calls by themselves: sources and streams that fail, and listings.

use super::TABLE_1;
use acpi_listing::{run, run_words};
use acpi_sources::{End, Source, SourceFault, Status, read_any_table, read_input};
use acpi_tables::{TableCause, TableFault};
use acpi_text::{RunFault, Table, list_evaluation, list_tables};
use aml_meaning::{AmlCause, AmlError, Outcome};
use aml_namespace::{Host, Namespace};
use aml_values::Value;
use hex;
use std::alloc::Global;
use std::io;
use std::io::{ErrorKind, Read};
use std::test::Fail;

pub const LINE_1: &str = "table DSDT length 48 revision 2 oem \"ACPICK\" \"ROWS0001\" 0x1\n";

// The first table as `dsdt.bin`, and `vast.bin`, which no memory can hold.
#[derive(Drop)]
pub struct Shelf {
    pub alloc: Global,
}

impl Source for Shelf {
    fn read(&mut self, name: &str) -> Result<Vec<u8>, SourceFault> {
        match name {
            "dsdt.bin" => match hex::decode(self.alloc, TABLE_1) {
                Ok(bytes) => Ok(bytes),
                Err(_) => Err(SourceFault::NoMemory),
            },
            "vast.bin" => Err(SourceFault::NoMemory),
            _ => Err(SourceFault::File),
        }
    }
}

// How a command ends over the files of the shelf, and whether it writes this text.
fn answer_of(alloc: Global, words: &[&str], text: &[u8]) -> (Result<Status, RunFault>, bool) {
    let mut out = Vec::new(alloc);
    let ended = run_words(alloc, words, &mut Shelf { alloc }, &mut out);
    (ended, out.as_slice() == text)
}

#[test]
fn files_that_memory_cannot_hold(rt: HostRuntime) -> Result<(), Fail> {
    let alloc = rt.alloc();
    let eval = ["eval", "--plain", "9", "--method", "\\M000", "vast.bin"];
    let rows: [(&[&str], &str); 3] = [
        (&["tables", "dsdt.bin", "vast.bin"], LINE_1),
        (&["tables", "vast.bin", "dsdt.bin"], ""),
        (&eval, ""),
    ];
    for (words, front) in rows {
        let text = format!(in alloc; "{front}fault E524 NoMemory\n")?;
        let answer = answer_of(alloc, words, text.as_bytes());
        assert_eq!(rt; answer, (Ok(Status::Fault), true));
    }
    Ok(())
}

fn at_44(cause: AmlCause) -> Outcome {
    Outcome::AmlError(AmlError {
        table: 1,
        at: 44,
        cause,
    })
}

const HOST: Host<'static> = Host {
    os: b"acpicheck",
    osi: &[],
};

// Whether this is listed of an outcome, over the first table.
fn is_told(alloc: Global, outcome: &Outcome, text: &str) -> Result<bool, Fail> {
    let bytes = hex::decode(alloc, TABLE_1)?;
    let namespace = Namespace::load(alloc, &[bytes.as_slice()], HOST)?;
    let mut out = Vec::new(alloc);
    list_evaluation(alloc, &mut out, &namespace, outcome)?;
    Ok(out.as_slice() == text.as_bytes())
}

#[test]
fn outcomes(rt: HostRuntime) -> Result<(), Fail> {
    let alloc = rt.alloc();
    let done = Outcome::Done(Some(Value::Int(0)));
    assert!(rt; is_told(alloc, &done, "result 0x0\n")?);
    assert!(rt; is_told(alloc, &Outcome::OutOfSteps, "out of steps\n")?);
    let failed = at_44(AmlCause::Unset);
    assert!(rt; is_told(alloc, &failed, "error 1 44 A1 Unset\n")?);
    Ok(())
}

// The length and the revision of a table that is listed by its header.
fn header_of(table: Table<'_>) -> Option<(u32, u8)> {
    match table {
        Table::Other(header) => Some((header.length, header.revision)),
        _ => None,
    }
}

// Whether this is listed of a table and a FACS.
fn is_listed(alloc: Global, bytes: &[u8], text: &str) -> Result<bool, Fail> {
    let mut out = Vec::new(alloc);
    list_tables(alloc, &mut out, &[read_any_table(bytes)?, Table::Facs])?;
    Ok(out.as_slice() == text.as_bytes())
}

#[test]
fn tables_that_were_read(rt: HostRuntime) -> Result<(), Fail> {
    let alloc = rt.alloc();
    let bytes = hex::decode(alloc, TABLE_1)?;
    let read = header_of(read_any_table(&bytes)?);
    assert_eq!(rt; read, Some((48, 2)), "a DSDT is listed by its header");
    let text = format!(in alloc; "{LINE_1}facs left out\n")?;
    assert!(rt; is_listed(alloc, &bytes, text.as_str())?);
    Ok(())
}

#[test]
fn a_table_that_ends_too_early(rt: HostRuntime) -> Result<(), Fail> {
    let bytes = hex::decode(rt.alloc(), TABLE_1)?;
    let front = bytes.get(..35).ok_or("35 bytes")?;
    let short = TableFault {
        cause: TableCause::Short,
        at: 35,
    };
    assert_eq!(rt; read_any_table(front).err(), Some(short));
    Ok(())
}

// Gives so many bytes `x`, at most two at a time, and fails in place of an end.
#[derive(Drop)]
struct Torn {
    left: usize,
}

impl Read for Torn {
    fn read(&mut self, buf: &mut [u8]) -> io::Result<usize> {
        if self.left == 0 {
            return Err(io::Error::from(ErrorKind::Other));
        }
        let n = self.left.min(buf.len()).min(2);
        buf[..n].fill(b'x');
        self.left -= n;
        Ok(n)
    }
}

// Whether all of a stream was read, and whether it gave these bytes.
fn read_of<R: Read>(alloc: Global, stream: &mut R, bytes: &[u8]) -> Result<(bool, bool), Fail> {
    let input = read_input(alloc, stream)?;
    Ok((
        matches!(input.end, End::Whole),
        input.bytes.as_slice() == bytes,
    ))
}

#[test]
fn inputs_that_end_or_fail(rt: HostRuntime) -> Result<(), Fail> {
    let alloc = rt.alloc();
    let whole = read_of(alloc, &mut b"12345".as_slice(), b"12345")?;
    assert_eq!(rt; whole, (true, true));
    let torn = read_of(alloc, &mut Torn { left: 5 }, b"xxxxx")?;
    assert_eq!(rt; torn, (false, true));
    let mut out = Vec::new(alloc);
    assert_eq!(rt;
        run(alloc, &mut Torn { left: 5 }, &mut out),
        Ok(Status::Fault)
    );
    assert_eq!(rt; out.as_slice(), b"fault E523 File\n".as_slice());
    Ok(())
}
