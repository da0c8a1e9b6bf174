// The verdicts on the methods of a namespace, as they are printed.

ghost use Rattle.std.specs.Prelude.{◌≡◌};
ghost use Rattle.acpi_text.specs.Lists.{Lists};
ghost use Rattle.acpi_verdicts.specs.Verdicts.{any_refused, is_refused, line_of, said_of, said_text, verdicts_text};
ghost use Rattle.aml_namespace.specs.Shows.{shown};

use acpi_text::{RunFault, VerdictLine, list_verdict};
use aml_paths::ObjectId;
use aml_verify::{Checked, Verdict};
use std::alloc::Global;
use std::io::Write;

/// Prints a line for each method of a namespace, in order of definition: `\M001 accepted 4` with
/// the most steps that it takes, `\M002 refused 0 108 V4 Unset` with the table, the place and the
/// cause, or `\M015 refused 0 108 E205 TooDeep` of a body that cannot be read.
///
/// At Err the writer holds a beginning of that text.
pub fn list_verdicts<W: Write>(
    alloc: Global,
    out: &mut W,
    checked: &Checked<'_>,
) -> Result<(), RunFault>
    ensures { Lists result (W.contents out.old) (W.contents out.new)
        (verdicts_text checked.now) }
{
    for id in checked.namespace().methods() {
        list_said(alloc, out, checked, *id)?;
    }
    Ok(())
}

/// Prints the line of what is said of the method with this number; nothing where nothing is said.
///
/// At Err the writer holds a beginning of that text.
pub fn list_said<W: Write>(
    alloc: Global,
    out: &mut W,
    checked: &Checked<'_>,
    id: ObjectId,
) -> Result<(), RunFault>
    ensures { Lists result (W.contents out.old) (W.contents out.new)
        (said_text checked.now id) }
{
    match checked.verdict(id) {
        Some(verdict) => list_verdict(alloc, out, checked.namespace(), id, line_of(verdict)),
        None => Ok(()),
    }
}

// What the line of a verdict says.
fn line_of(verdict: &Verdict) -> VerdictLine
    ensures { result ≡ line_of verdict.now }
{
    match verdict {
        Verdict::Accepted(accepted) => VerdictLine::Accepted {
            steps: accepted.bound,
        },
        Verdict::Refused(refusal, _) => VerdictLine::Refused(*refusal),
        Verdict::Unreadable { table, refusal } => VerdictLine::Unreadable {
            table: *table,
            refusal: *refusal,
        },
    }
}

/// Whether any method is refused, also since its body cannot be read.
#[must_use]
pub fn any_refused(checked: &Checked<'_>) -> bool
    ensures { result ≡ any_refused checked.now }
{
    for id in checked.namespace().methods() {
        if is_refused(checked, *id) {
            return true;
        }
    }
    false
}

// Whether the method with this number is refused.
fn is_refused(checked: &Checked<'_>, id: ObjectId) -> bool
    ensures { result ≡ is_refused (said_of checked.now id.0) }
{
    match checked.verdict(id) {
        Some(Verdict::Refused(_, _) | Verdict::Unreadable { .. }) => true,
        Some(Verdict::Accepted(_)) | None => false,
    }
}
