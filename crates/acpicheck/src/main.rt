//! Checks ACPI tables and evaluates their methods.
#![tactic(auto)]

use acpi_listing::run_program;
use acpi_sources::{Disk, Status};
use acpi_words::command_words;
use std::io;
use std::io::BufWriter;
use std::process::ExitCode;

fn main(rt: HostRuntime) -> ExitCode {
    let words = command_words(&rt);
    let mut files = Disk::new(&rt);
    let Ok(mut out) = BufWriter::new(rt.alloc(), io::writer(&rt)) else {
        return ExitCode::from(Status::Fault.code());
    };
    let status = run_program(
        rt.alloc(),
        words,
        &mut rt.reader(),
        &mut files,
        &mut out,
        &rt,
    );
    ExitCode::from(status.code())
}
