// The files of the disk.

ghost use Rattle.std.specs.Prelude.{◌≡◌, IfErr, IfOk, vec_items};
ghost use Rattle.acpi_sources.specs.Input.{IsAllOf, IsTooLarge, unread_fault};
ghost use Rattle.acpi_sources.specs.declared.disk.Unread.TheVariants as unread;

use crate::input::{End, INPUT_LIMIT, read_input};
use crate::source::{Source, SourceFault};
use std::alloc::{AllocError, Global};
use std::io::Read;
use std::rt::Files;
use std::{fs, io};
use thiserror::Error;

/// The files of the disk, by their names. Of one that cannot be read, standard error tells why.
#[derive(Drop)]
pub struct Disk<'a, R> {
    rt: &'a R,
}

impl<'a, R> Disk<'a, R> {
    /// The files that this handle opens.
    pub fn new(rt: &'a R) -> Self
        ensures { result.rt ≡ rt.entry }
    {
        Disk { rt }
    }
}

impl<R: Files + Eprint + AllocGlobal> Source for Disk<'_, R> {
    fn read(&mut self, name: &str) -> Result<Vec<u8>, SourceFault> {
        match read_file(self.rt, name) {
            Ok(bytes) => Ok(bytes),
            Err(unread) => {
                let _ = self.rt.eprint("acpicheck: ");
                let _ = self.rt.eprint(name);
                let _ = self.rt.eprint(": ");
                let _ = self.rt.eprintln(&unread);
                Err(SourceFault::from(unread))
            }
        }
    }
}

fn read_file<R: Files + AllocGlobal>(rt: &R, name: &str) -> Result<Vec<u8>, Unread> {
    match fs::open(rt, name) {
        Ok(mut file) => read_whole(rt.alloc(), &mut file),
        Err(error) => Err(Unread::Failed(error)),
    }
}

/// Why a stream was not read whole.
#[derive(Debug, Drop, Error)]
pub(crate) enum Unread {
    /// It cannot be opened or read.
    #[error("{0}")]
    Failed(io::Error),
    /// It has more than [`INPUT_LIMIT`] bytes.
    #[error("it has more than 16777216 bytes")]
    TooLarge,
    #[error("out of memory")]
    NoMemory,
}

impl From<AllocError> for Unread {
    ghost from_gives = { λ _ why. why ≡ unread.NoMemory };

    fn from(_error: AllocError) -> Unread {
        Unread::NoMemory
    }
}

impl From<Unread> for SourceFault {
    ghost from_gives = { λ why fault. fault ≡ unread_fault why };

    fn from(why: Unread) -> SourceFault {
        match why {
            Unread::NoMemory => SourceFault::NoMemory,
            Unread::Failed(_) | Unread::TooLarge => SourceFault::File,
        }
    }
}

/// All bytes of a stream, at most [`INPUT_LIMIT`].
pub(crate) fn read_whole<R: Read>(alloc: Global, input: &mut R) -> Result<Vec<u8>, Unread>
    ensures whole { IfOk result
        (λ bytes. IsAllOf (R.remaining input.old) (R.remaining input.new) (vec_items bytes)) }
    ensures large { IfErr result (λ why. why ≡ unread.TooLarge →
        IsTooLarge (R.remaining input.old) (R.remaining input.new)) }
{
    let read = read_input(alloc, input)?;
    match read.end {
        End::Whole => Ok(read.bytes),
        End::Failed(error) => Err(Unread::Failed(error)),
        End::TooLarge => Err(Unread::TooLarge),
    }
}
