// Who is told what people may want to know beside what is printed.

ghost use Rattle.std.specs.Prelude.{◌≡◌};

use acpi_notes::Help;
use clap::Error;
use std::alloc::Global;

/// Who is told of a fault more than its line. Nothing of it counts for what is printed; one that
/// has no way to tell does nothing.
pub trait Notes {
    /// Tells a line.
    fn tell(&self, _note: &str) {}

    /// Tells what is wrong with the words.
    fn show(&self, _error: &Error) {}

    /// Tells what the commands and options are.
    fn help(&self, _help: Help) {}

    /// Tells why a file is not there, where its source has not done so.
    fn tell_unread(&self, _alloc: Global) {}
}

/// Nobody is told.
#[derive(Clone, Copy, Debug)]
pub struct Silent;

impl Notes for Silent {}

/// People are told on standard error.
#[derive(Drop)]
pub struct StandardError<'a, N> {
    rt: &'a N,
}

impl<'a, N> StandardError<'a, N> {
    /// The standard error of this handle.
    pub fn new(rt: &'a N) -> Self
        ensures { result.rt ≡ rt.entry }
    {
        StandardError { rt }
    }
}

impl<N: Eprint> Notes for StandardError<'_, N> {
    fn tell(&self, note: &str) {
        let _ = self.rt.eprint("acpicheck: ");
        let _ = self.rt.eprintln(note);
    }

    fn show(&self, error: &Error) {
        let _ = self.rt.eprint(error);
    }

    fn help(&self, help: Help) {
        let _ = self.rt.eprint(help.text());
    }
}
