// What people are told of an AML error that ends an evaluation.

ghost use Rattle.std.specs.Prelude.{◌≡◌, IfErr, IfOk, map, string_bytes};
ghost use Rattle.acpi_verdicts.specs.Errors.{error_place, error_text, error_words};
ghost use Rattle.acpi_text.specs.declared.writing.RunFault.TheVariants as told;
ghost use Rattle.aml_namespace.specs.Shows.{shown};

use acpi_notes::label_of;
use acpi_text::RunFault;
use aml_meaning::{AmlCause, AmlError};
use aml_namespace::Namespace;
use aml_place_text::push_standing;
use std::alloc::{AllocError, Global};

/// Of an AML error what it is, the file, the byte, what stands there, and what the error means:
/// `A3 Divisor: dsdt.dat, byte 99 (Local0): the second operand of Divide or Mod is zero`. The files
/// are called by the names that are handed in, in the order of the tables.
///
/// # Errors
///
/// `NoMemory`, where memory is wanted.
pub fn error_text(
    alloc: Global,
    namespace: &Namespace<'_>,
    names: &[&str],
    error: AmlError,
) -> Result<Vec<u8>, RunFault>
    ensures text { IfOk result (λ text. text.items
        ≡ error_text (map (λ name. name.now) names.now) (shown namespace.now) error) }
    ensures fault { IfErr result (λ fault. fault ≡ told.NoMemory) }
{
    let mut text = Vec::new(alloc);
    let label = label_of(alloc, names, error.table)?;
    let place = error_place(alloc, label.as_str(), error)?;
    text.extend_from_slice(place.as_bytes())?;
    push_standing(&mut text, namespace.table_bytes(error.table), error.at)?;
    text.extend_from_slice(b": ")?;
    text.extend_from_slice(error_words(error.cause).as_bytes())?;
    Ok(text)
}

// An error and its place.
#[tactic(auto, unfolding(crate::specs::Errors::error_place))]
fn error_place(alloc: Global, label: &str, error: AmlError) -> Result<String, AllocError>
    ensures { IfOk result (λ part. string_bytes part ≡ error_place label.now error) }
{
    let cause = error.cause.text();
    let at = error.at;
    format!(in alloc; "{cause}: {label}, byte {at}")
}

// What an error means; `docs/CAUSES.md` has more of each, with what can be done.
fn error_words(cause: AmlCause) -> &'static str
    ensures { result.now ≡ error_words cause }
{
    match cause {
        AmlCause::Unset => "an unset local, argument or element of a package is read",
        AmlCause::Kind => "a value or an object of the wrong kind",
        AmlCause::Divisor => "the second operand of Divide or Mod is zero",
        AmlCause::Index =>
            "an index at or past the end, an empty buffer made an integer, or a field outside its buffer",
        AmlCause::Missing => "a name names nothing",
        AmlCause::Outside => {
            "an operator or a form that this program does not evaluate, or a call of a method whose body cannot be read: nothing need be wrong with the table"
        }
        AmlCause::Region => {
            "a region, a field, an access or an address space that cannot be read and written here, or a unit outside its region"
        }
        AmlCause::NoValue =>
            "a value is wanted of a call, and the method that is called gives none",
        AmlCause::Depth => "a 65th method within the others",
        AmlCause::Level => "a mutex is taken whose sync level is below that of one that is held",
        AmlCause::NotHeld => {
            "a mutex is released that is not the one which the method took last of those that it holds"
        }
        AmlCause::StillHeld => "a method ends while it holds a mutex",
    }
}
