// The words of the program's command line.

ghost use Rattle.std.specs.Prelude.{◌≡◌, ◌⊎◌, IfErr};
ghost use Rattle.acpi_sources.specs.Faults.{nowhere};
ghost use Rattle.acpi_sources.specs.declared.fault.FaultCause.TheVariants as cause;

use crate::folder::with_folders;
use acpi_sources::{Fault, FaultCause};
use std::env;
use std::io::ErrorKind;
use std::rt::{Env, Files};

/// The words of the command line, behind the program's name; in place of a folder among the files
/// the tables' files in it.
///
/// Fault: E520 where one is no UTF-8.
pub fn command_words<R: Env + Files + Eprint + AllocGlobal + Clone + Drop>(
    rt: &R,
) -> Result<Vec<String>, Fault>
    ensures { IfErr result (λ f. (f ≡ nowhere cause.CommandLine) ⊎ (f ≡ nowhere cause.NoMemory)) }
{
    let mut words = Vec::new(rt.alloc());
    match env::args(rt) {
        Ok(all) => {
            for word in all.skip(1) {
                words.push(word)?;
            }
            Ok(with_folders(rt, words)?)
        }
        Err(error) => Err(fault_of_unread(error.kind())),
    }
}

// Why the words cannot be had.
fn fault_of_unread(kind: ErrorKind) -> Fault
    ensures memory { kind ≡ ErrorKind.OutOfMemory → result ≡ nowhere cause.NoMemory }
    ensures words { (kind ≡ ErrorKind.OutOfMemory → ⊥) → result ≡ nowhere cause.CommandLine }
{
    match kind {
        ErrorKind::OutOfMemory => Fault::nowhere(FaultCause::NoMemory),
        _ => Fault::nowhere(FaultCause::CommandLine),
    }
}
