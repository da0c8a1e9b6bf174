// The lines of standard input, of which the first has the words and the others are files in hex.

ghost use Rattle.std.specs.Prelude.{◌≡◌, Option, option_map};
ghost use Rattle.acpi_sources.specs.Input.{NextLine, hex_answers};

use crate::source::{Source, SourceFault};
use hex::FromHexError;
use std::alloc::Global;

/// The lines of some bytes, one after the other.
#[derive(Clone, Copy, Debug)]
pub struct Lines<'a> {
    rest: &'a [u8],
}

impl<'a> Lines<'a> {
    /// The lines of these bytes.
    pub fn new(bytes: &'a [u8]) -> Self
        ensures { result.rest ≡ bytes.entry }
    {
        Lines { rest: bytes }
    }

    /// The next line without its end, None where no byte is left.
    pub fn next_line(&mut self) -> Option<&'a [u8]>
        ensures { NextLine self.old.rest.now (option_map (λ line. line.now) result)
            self.new.rest.now }
    {
        let bytes = self.rest;
        if bytes.is_empty() {
            return None;
        }
        match bytes.iter().position(|b| *b == b'\n') {
            Some(end) => {
                self.rest = &bytes[end + 1..];
                Some(&bytes[..end])
            }
            None => {
                self.rest = &[];
                Some(bytes)
            }
        }
    }
}

/// Files that stand as hex text on the lines of standard input, each named `@`.
#[derive(Debug, Drop)]
pub struct HexLines<'a> {
    pub alloc: Global,
    pub lines: Lines<'a>,
    /// Whether the lines are all that standard input had.
    pub is_whole: bool,
}

impl Source for HexLines<'_> {
    ghost answers = { hex_answers };

    fn read(&mut self, name: &str) -> Result<Vec<u8>, SourceFault> {
        if name != "@" || !self.is_whole {
            return Err(SourceFault::File);
        }
        let Some(line) = self.lines.next_line() else {
            return Err(SourceFault::File);
        };
        match hex::decode(self.alloc, line) {
            Ok(bytes) => Ok(bytes),
            Err(FromHexError::OutOfMemory) => Err(SourceFault::NoMemory),
            Err(_) => Err(SourceFault::File),
        }
    }
}
