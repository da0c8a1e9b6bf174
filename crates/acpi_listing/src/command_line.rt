// The program: its words, its streams and its status.

ghost use Rattle.std.specs.Io.Buffered.{writer_buffer, writer_contents};
ghost use Rattle.std.specs.Io.KnownBytes.{Keeps};
ghost use Rattle.acpi_listing.specs.Program.{RunsEither, RunsProgram};

use crate::program::{report, run_noted, run_words_noted};
use acpi_sources::{Fault, FaultCause, Source, Status};
use acpi_text::RunFault;
use acpi_words::{Notes, StandardError};
use std::alloc::Global;
use std::io::{BufWriter, ErrorKind, Read, Write};

/// Runs the program by its words, without words by its standard input, and answers how it ended: as
/// [`run_words`] or [`run`], and with a fault where not all was written. By words standard input is
/// left alone; by standard input no file is asked for.
pub fn run_program<R: Read, F: Source, W: Write + Drop, N: Eprint>(
    alloc: Global,
    words: Result<Vec<String>, Fault>,
    input: &mut R,
    files: &mut F,
    out: &mut BufWriter<W>,
    notes: &N,
) -> Status
    ensures { RunsProgram F.answers files.old files.new words
        (R.remaining input.old) (R.remaining input.new)
        (writer_contents W.contents out.old) (writer_contents W.contents out.new)
        (writer_buffer out.new) result }
{
    let ended = run_either(alloc, words, input, files, out, &StandardError::new(notes));
    write_held(out, notes);
    match ended {
        Ok(status) if out.buffer().is_empty() => status,
        _ => Status::Fault,
    }
}

// By the words, or without words by standard input.
fn run_either<R: Read, F: Source, W: Write, N: Notes>(
    alloc: Global,
    words: Result<Vec<String>, Fault>,
    input: &mut R,
    files: &mut F,
    out: &mut W,
    notes: &N,
) -> Result<Status, RunFault>
    ensures { RunsEither F.answers files.old files.new words
        (R.remaining input.old) (R.remaining input.new)
        (W.contents out.old) (W.contents out.new) result }
{
    let words = match words {
        Ok(words) => words,
        Err(fault) => {
            notes.tell(match fault.cause {
                FaultCause::NoMemory => "no memory for the words",
                _ => "a word is no UTF-8",
            });
            return report(alloc, out, fault);
        }
    };
    if words.is_empty() {
        return run_noted(alloc, input, notes, out);
    }
    run_words_noted(alloc, words.as_slice(), files, notes, out)
}

// Writes out what is still held. Standard error tells why that fails, but where nobody reads on.
fn write_held<W: Write + Drop, N: Eprint>(out: &mut BufWriter<W>, notes: &N)
    ensures { Keeps (writer_contents W.contents out.old) (writer_contents W.contents out.new) }
{
    let Err(error) = out.flush() else {
        return;
    };
    if error.kind() != ErrorKind::BrokenPipe {
        let _ = notes.eprint("acpicheck: standard output: ");
        let _ = notes.eprintln(&error);
    }
}
