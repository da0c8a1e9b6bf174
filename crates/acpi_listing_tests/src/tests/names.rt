// The listing of as many names as there may be.

use super::seal;
use acpi_listing::run_words;
use acpi_sources::{Source, SourceFault, Status};
use acpi_text::RunFault;
use hex;
use std::alloc::Global;
use std::test::Fail;

const PREDEFINED: &str =
    "\\_GPE scope\n\\_PR_ scope\n\\_SB_ scope\n\\_SI_ scope\n\\_TZ_ scope\n\\_REV integer\n\\_OSI method 1\n\\_OS_ string 9\n\\_GL_ mutex\n";

const LETTERS: &[u8] = b"ABCDEFGHIJKLMNOPQRSTUVWXYZ0123456789";

// A DSDT with so many names of Zero.
fn table_of_zeros(alloc: Global, count: usize) -> Option<Vec<u8>> {
    let mut bytes = hex::decode(alloc, &super::TABLE_1[..72]).ok()?;
    for number in 0..count {
        bytes.push(8).ok()?;
        for place in [46_656, 1_296, 36, 1] {
            bytes.push(*LETTERS.get(number / place % 36)?).ok()?;
        }
        bytes.push(0).ok()?;
    }
    seal(&mut bytes)?;
    Some(bytes)
}

// Each file is such a table.
#[derive(Drop)]
struct Zeros {
    alloc: Global,
    count: usize,
}

impl Source for Zeros {
    fn read(&mut self, _name: &str) -> Result<Vec<u8>, SourceFault> {
        table_of_zeros(self.alloc, self.count).ok_or(SourceFault::NoMemory)
    }
}

// How `names` of a table with so many ends, and what it writes.
fn listed(alloc: Global, count: usize) -> (Result<Status, RunFault>, Vec<u8>) {
    let mut out = Vec::new(alloc);
    let mut files = Zeros { alloc, count };
    let ended = run_words(alloc, &["names", "zeros.bin"], &mut files, &mut out);
    (ended, out)
}

// There are at most 65,535 paths, of which nine are predefined. The name that is one too many
// stands behind a header of 36 bytes, 65,526 definitions of six bytes and an opcode.
#[test]
fn as_many_names_as_there_may_be(rt: HostRuntime) -> Result<(), Fail> {
    let (ended, out) = listed(rt.alloc(), 65_526);
    assert_eq!(rt; ended, Ok(Status::Done));
    assert!(rt; out.starts_with(PREDEFINED.as_bytes()));
    assert!(rt; out.ends_with(b"\\BOUF integer\n"));
    assert_eq!(rt; out.iter().filter(|b| **b == b'\n').count(), 65_535);
    Ok(())
}

#[test]
fn a_name_too_many(rt: HostRuntime) -> Result<(), Fail> {
    let (ended, out) = listed(rt.alloc(), 65_527);
    assert_eq!(rt; ended, Ok(Status::Fault));
    assert_eq!(rt; out.as_slice(), b"fault E303 TooMany 0 393193\n".as_slice());
    Ok(())
}
