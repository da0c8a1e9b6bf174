// The program over any source of files and any writer.

ghost use Rattle.std.specs.Prelude.{map};
ghost use Rattle.acpi_listing.specs.Commands.{ObeysWords, Reports, RunsWords, RunsInput};
ghost use Rattle.acpi_listing.specs.Steps.{Writes};

use crate::eval::evaluate;
use crate::files::list_files;
use crate::names::list_names_of;
use crate::resources::list_resources_of;
use crate::routing::list_routes_of;
use crate::stop::Stop;
use crate::tell::tell_end;
use crate::verify::verify_files;
use acpi_sources::{Fault, FaultCause, Source, Status, list_fault, read_input};
use acpi_text::RunFault;
use acpi_words::{LineNotes, Notes, Request, Silent, read_first_line, read_words, start_note};
use std::alloc::Global;
use std::convert::AsStr;
use std::io::{Read, Write};

/// Runs the command that the words ask for, and answers how it ended.
///
/// A fault's line is written last. Err is a failed write, or want of memory for a line: the writer
/// then holds a beginning of what is printed.
pub fn run_words<S: AsStr, F: Source, W: Write>(
    alloc: Global,
    words: &[S],
    files: &mut F,
    out: &mut W,
) -> Result<Status, RunFault>
    ensures { RunsWords F.answers (map S.text words.entry.now) files.old files.new
        (W.contents out.old) (W.contents out.new) result }
{
    run_words_noted(alloc, words, files, &Silent, out)
}

/// As [`run_words`], and tells of a fault more than its line.
pub(crate) fn run_words_noted<S: AsStr, F: Source, N: Notes, W: Write>(
    alloc: Global,
    words: &[S],
    files: &mut F,
    notes: &N,
    out: &mut W,
) -> Result<Status, RunFault>
    ensures { RunsWords F.answers (map S.text words.entry.now) files.old files.new
        (W.contents out.old) (W.contents out.new) result }
{
    match obey(alloc, words, files, notes, out) {
        Ok(status) => Ok(status),
        Err(Stop::Fault(fault)) => {
            tell_end(alloc, notes, words, fault);
            report(alloc, out, fault)
        }
        Err(Stop::Run(fault)) => Err(fault),
    }
}

/// Runs the command whose words stand on the first line of the input, split at single spaces; a
/// file `@` is the next line's hex text.
///
/// Answers as [`run_words`]. E523 where there is no line, or the input cannot be read to its end or
/// has more than 16,777,216 bytes.
pub fn run<R: Read, W: Write>(alloc: Global, input: &mut R, out: &mut W) -> Result<Status, RunFault>
    ensures { RunsInput (R.remaining input.old) (R.remaining input.new)
        (W.contents out.old) (W.contents out.new) result }
{
    run_noted(alloc, input, &Silent, out)
}

/// As [`run`], and tells of a fault more than its line, a file by the number of its line.
pub(crate) fn run_noted<R: Read, N: Notes, W: Write>(
    alloc: Global,
    input: &mut R,
    notes: &N,
    out: &mut W,
) -> Result<Status, RunFault>
    ensures { RunsInput (R.remaining input.old) (R.remaining input.new)
        (W.contents out.old) (W.contents out.new) result }
{
    let Ok(input) = read_input(alloc, input) else {
        notes.tell("no memory for standard input");
        return report(alloc, out, Fault::nowhere(FaultCause::NoMemory));
    };
    let lines = LineNotes::new(&input, notes);
    match read_first_line(alloc, &input) {
        Ok((words, mut files)) => {
            run_words_noted(alloc, words.as_slice(), &mut files, &lines, out)
        }
        Err(fault) => {
            notes.tell(start_note(fault));
            report(alloc, out, fault)
        }
    }
}

/// Writes a fault's line, and answers its status.
pub(crate) fn report<W: Write>(alloc: Global, out: &mut W, fault: Fault) -> Result<Status, RunFault>
    ensures { Reports fault (W.contents out.old) (W.contents out.new) result }
{
    list_fault(alloc, out, fault)?;
    Ok(fault.status())
}

fn obey<S: AsStr, F: Source, N: Notes, W: Write>(
    alloc: Global,
    words: &[S],
    files: &mut F,
    notes: &N,
    out: &mut W,
) -> Result<Status, Stop>
    ensures { Writes (ObeysWords F.answers (map S.text words.entry.now))
        files.old files.new (W.contents out.old) (W.contents out.new) result }
{
    match read_words(alloc, words)? {
        Request::Tables { files: names } => list_files(alloc, names.as_slice(), files, notes, out),
        Request::Names(inputs) => list_names_of(alloc, &inputs, files, notes, out),
        Request::Verify(request) => verify_files(alloc, &request, files, notes, out),
        Request::Eval(request) => evaluate(alloc, &request, files, notes, out),
        Request::Resources(request) => list_resources_of(alloc, &request, files, notes, out),
        Request::Routing(request) => list_routes_of(alloc, &request, files, notes, out),
    }
}
