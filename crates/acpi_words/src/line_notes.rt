// What is told of standard input beside a fault's line.

ghost use Rattle.std.specs.Prelude.{◌≡◌};
ghost use Rattle.acpi_words.specs.LineNotes.{start_note};

use crate::first_line::read_first_line;
use crate::notes::Notes;
use acpi_notes::{Help, line_note};
use acpi_sources::{End, Fault, FaultCause, Input, Source};
use clap::Error;
use std::alloc::Global;

/// Who is told, and the input from which words and files come.
#[derive(Drop)]
pub struct LineNotes<'a, N> {
    input: &'a Input,
    notes: &'a N,
}

impl<'a, N: Notes> LineNotes<'a, N> {
    /// Tells of this input.
    pub fn new(input: &'a Input, notes: &'a N) -> Self
        ensures input { result.input ≡ input.entry }
        ensures notes { result.notes ≡ notes.entry }
    {
        LineNotes { input, notes }
    }
}

/// Why the words of standard input cannot be had.
pub fn start_note(fault: Fault) -> &'static str
    ensures { result.now ≡ start_note fault.cause }
{
    match fault.cause {
        FaultCause::CommandLine => "the first line of standard input is no UTF-8",
        FaultCause::NoMemory => "no memory for the words",
        _ =>
            "no words, nor a first line of standard input, of 16777216 bytes at most, that has them: see acpicheck --help",
    }
}

impl<N: Notes> Notes for LineNotes<'_, N> {
    fn tell(&self, note: &str) {
        self.notes.tell(note);
    }

    fn show(&self, error: &Error) {
        self.notes.show(error);
    }

    fn help(&self, help: Help) {
        self.notes.help(help);
    }

    fn tell_unread(&self, alloc: Global) {
        let unread = match self.input.end {
            End::Whole => None,
            End::Failed(_) => Some("standard input cannot be read to its end"),
            End::TooLarge => Some("standard input has more than 16777216 bytes"),
        };
        if let Some(note) = unread {
            self.notes.tell(note);
            return;
        }
        let Ok((words, mut files)) = read_first_line(alloc, self.input) else {
            return;
        };
        let names = words.iter().filter(|word| **word == "@");
        for (number, name) in names.enumerate() {
            if files.read(name).is_err() {
                if let Ok(note) = line_note(alloc, number) {
                    self.notes.tell(note.as_str());
                }
                return;
            }
        }
        self.notes.tell("on standard input each file is the word @");
    }
}
