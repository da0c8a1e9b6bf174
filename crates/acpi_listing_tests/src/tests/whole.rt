// The program as a whole: words at fault, and a standard output that fails.

use super::calls::{LINE_1, Shelf};
use acpi_listing::run_program;
use acpi_samples::Narrow;
use acpi_sources::{Fault, FaultCause, Status};
use std::alloc::{AllocError, Global};
use std::fmt::Display;
use std::io;
use std::io::BufWriter;
use std::test::Fail;

// A standard error that nobody reads.
struct Unheard;

impl Eprint for Unheard {
    fn eprint<D: Display + Drop>(&self, _value: D) -> io::Result<()> {
        Ok(())
    }

    fn eprintln<D: Display + Drop>(&self, _value: D) -> io::Result<()> {
        Ok(())
    }
}

fn words_of(alloc: Global, texts: &[&str]) -> Result<Vec<String>, AllocError> {
    let mut words = Vec::new(alloc);
    for text in texts {
        words.push(String::from_str(alloc, text)?)?;
    }
    Ok(words)
}

// What the program writes into a writer of that room, and its status.
fn ended(
    alloc: Global,
    words: Result<Vec<String>, Fault>,
    room: usize,
) -> io::Result<(Vec<u8>, Status)> {
    let narrow = Narrow::new(alloc, 4096, room)?;
    let mut out = BufWriter::new(alloc, narrow)?;
    let mut files = Shelf { alloc };
    let mut input = b"".as_slice();
    let status = run_program(alloc, words, &mut input, &mut files, &mut out, &Unheard);
    let (narrow, _) = out.into_parts();
    Ok((narrow.text, status))
}

#[test]
fn words_at_fault(rt: HostRuntime) -> Result<(), Fail> {
    let alloc = rt.alloc();
    let faults = [
        (
            FaultCause::CommandLine,
            "fault E520 CommandLine\n",
            Status::NoCommand,
        ),
        (FaultCause::NoMemory, "fault E524 NoMemory\n", Status::Fault),
    ];
    for (cause, text, status) in faults {
        let answer = ended(alloc, Err(Fault::nowhere(cause)), 4096)?;
        assert_eq!(rt; answer.0.as_slice(), text.as_bytes());
        assert_eq!(rt; answer.1, status);
    }
    Ok(())
}

// What is held back at the end is written too, or the status tells it.
#[test]
fn writers_that_fail_at_the_end(rt: HostRuntime) -> Result<(), Fail> {
    let alloc = rt.alloc();
    for room in 0..LINE_1.len() {
        let words = words_of(alloc, &["tables", "dsdt.bin"])?;
        let answer = ended(alloc, Ok(words), room)?;
        assert_eq!(rt; answer.0.as_slice(), &LINE_1.as_bytes()[..room]);
        assert_eq!(rt; answer.1, Status::Fault);
    }
    Ok(())
}
