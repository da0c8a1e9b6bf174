// The command `verify`.

ghost use Rattle.std.specs.Prelude.{◌≡◌, IfErr, IfOk, option_map};
ghost use Rattle.acpi_listing.specs.Commands.{AreVerdictsOn, VerifiesFiles, VerifiesLoaded, VerifiesTables, verdicts_status};
ghost use Rattle.acpi_sources.specs.Faults.{nowhere};
ghost use Rattle.acpi_sources.specs.Inputs.{tables_of};
ghost use Rattle.acpi_listing.specs.Steps.{Tells, Writes};
ghost use Rattle.acpi_sources.specs.declared.fault.FaultCause.TheVariants as cause;
ghost use Rattle.acpi_verdicts.specs.Verdicts.{verdicts_text};
ghost use Rattle.aml_namespace.specs.Shows.{shown};
ghost use Rattle.aml_signatures.specs.Signed.{kinds_told};

use crate::load::load_counted;
use crate::signed::read_signatures;
use crate::stop::Stop;
use crate::tell::{tell_paths, tell_refused, tell_summary, tell_untold};
use acpi_sources::{Fault, Inputs, Source, Status};
use acpi_verdicts::{any_refused, list_verdicts};
use acpi_words::{Notes, VerifyRequest};
use aml_namespace::Namespace;
use aml_signatures::Signatures;
use aml_verify::{Checked, verify};
use std::alloc::Global;
use std::io::Write;

/// Prints the verdict on each method of a DSDT and its SSDTs; where that is asked for, people are
/// told of each refused one why.
pub(crate) fn verify_files<F: Source, N: Notes, W: Write>(
    alloc: Global,
    request: &VerifyRequest<'_>,
    files: &mut F,
    notes: &N,
    out: &mut W,
) -> Result<Status, Stop>
    ensures { Writes (VerifiesFiles F.answers request.now.inputs
        (option_map (λ name. name.now) request.now.kinds))
        files.old files.new (W.contents out.old) (W.contents out.new) result }
{
    let signatures = read_signatures(alloc, request.kinds, files, notes)?;
    let inputs = Inputs::read(alloc, &request.inputs, files)?;
    verify_inputs(alloc, request, &signatures, &inputs, notes, out)
}

// Prints the verdicts on the methods of the tables that were read.
fn verify_inputs<N: Notes, W: Write>(
    alloc: Global,
    request: &VerifyRequest<'_>,
    signatures: &Signatures,
    inputs: &Inputs,
    notes: &N,
    out: &mut W,
) -> Result<Status, Stop>
    ensures { Writes (VerifiesTables (kinds_told signatures.now) (tables_of inputs.now))
        tt tt (W.contents out.old) (W.contents out.new) result }
{
    let namespace = load_counted(alloc, inputs, &request.inputs, &[], notes)?;
    verify_loaded(alloc, request, &namespace, signatures, notes, out)
}

// Prints the verdicts on the methods of a namespace.
fn verify_loaded<N: Notes, W: Write>(
    alloc: Global,
    request: &VerifyRequest<'_>,
    namespace: &Namespace<'_>,
    signatures: &Signatures,
    notes: &N,
    out: &mut W,
) -> Result<Status, Stop>
    ensures { Writes (VerifiesLoaded (kinds_told signatures.now) (shown namespace.now))
        tt tt (W.contents out.old) (W.contents out.new) result }
{
    let checked = verdicts_on(alloc, namespace, signatures)?;
    tell_reasons(alloc, request, signatures, &checked, notes);
    print_verdicts(alloc, out, &checked)
}

// Tells people why methods are refused, and how many for which cause, and which lines of `--kinds`
// have no effect, where that is asked for.
fn tell_reasons<N: Notes>(
    alloc: Global,
    request: &VerifyRequest<'_>,
    signatures: &Signatures,
    checked: &Checked<'_>,
    notes: &N,
) {
    if request.explain {
        tell_paths(alloc, notes, checked.namespace(), signatures);
        if tell_refused(alloc, notes, checked, request.inputs.files.as_slice()) {
            tell_summary(alloc, notes, checked);
        }
        tell_untold(notes, checked, checked.namespace().methods(), request.kinds);
    }
}

/// The verdicts on the methods of a namespace.
pub(crate) fn verdicts_on<'a>(
    alloc: Global,
    namespace: &'a Namespace<'a>,
    signatures: &Signatures,
) -> Result<Checked<'a>, Fault>
    ensures verdicts { IfOk result
        (AreVerdictsOn (kinds_told signatures.now) (shown namespace.now)) }
    ensures fault { IfErr result (λ f. f ≡ nowhere cause.NoMemory) }
{
    let checked = verify(alloc, namespace, signatures)?;
    Ok(checked)
}

// Prints the verdicts, and answers their status.
fn print_verdicts<W: Write>(
    alloc: Global,
    out: &mut W,
    checked: &Checked<'_>,
) -> Result<Status, Stop>
    ensures { Writes (Tells (verdicts_text checked.now) (verdicts_status checked.now))
        (tt {0}) (tt {0}) (W.contents out.old) (W.contents out.new) result }
{
    list_verdicts(alloc, out, checked)?;
    Ok(status_of(checked))
}

// How a command ends by verdicts: as refused where a method is.
fn status_of(checked: &Checked<'_>) -> Status
    ensures { result ≡ verdicts_status checked.now }
{
    if any_refused(checked) {
        Status::Refused
    } else {
        Status::Done
    }
}
