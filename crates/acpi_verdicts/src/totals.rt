// How many methods are accepted, and how many are refused for which cause.

ghost use Rattle.std.specs.Prelude.{◌≡◌, ◌++◌, ◌≤◌, IfErr, IfOk, OnOk, length, string_bytes};
ghost use Rattle.std.specs.List.{flat_map};
ghost use Rattle.acpi_text.specs.declared.writing.RunFault.TheVariants as told;
ghost use Rattle.acpi_verdicts.specs.Totals.{cause_line, count_line, count_of, summary_text, totals_line, why_text};
ghost use Rattle.acpi_verdicts.specs.Verdicts.{methods_of, said_of};

use acpi_text::{RunFault, cause_text};
use aml_causes::Cause;
use aml_paths::ObjectId;
use aml_verify::{Checked, Verdict};
use std::alloc::{AllocError, Global};

/// What is said of a body that cannot be read, in place of a cause.
const UNREADABLE: &str = "unreadable body";

/// The causes in their order.
const CAUSES: [Cause; 18] = [
    Cause::Unresolved,
    Cause::OutsideProfile,
    Cause::WrongKind,
    Cause::Unset,
    Cause::Cycle,
    Cause::LoopShape,
    Cause::Index,
    Cause::Divisor,
    Cause::Region,
    Cause::NoResult,
    Cause::BoundTooLarge,
    Cause::CalleeRefused,
    Cause::LocalName,
    Cause::Depth,
    Cause::Level,
    Cause::NotHeld,
    Cause::StillHeld,
    Cause::HeldDiffers,
];

/// How many methods there are, and how many of them are accepted and refused; behind that, two
/// spaces further in, for how many each cause is told, of those causes that are, and how many
/// bodies cannot be read: `methods: 3, accepted: 1, refused: 2` and `  V9 Region: 2`. Each line
/// ends in a line feed. A method of which nothing is said yet counts as accepted.
///
/// # Errors
///
/// `NoMemory`, where memory is wanted.
pub fn summary(alloc: Global, checked: &Checked<'_>) -> Result<Vec<u8>, RunFault>
    ensures text { IfOk result (λ text. text.items ≡ summary_text checked.now) }
    ensures fault { IfErr result (λ fault. fault ≡ told.NoMemory) }
{
    let mut text = Vec::new(alloc);
    let count = checked.namespace().methods().len();
    let totals = totals_line(alloc, count, count_of(checked, ""))?;
    text.extend_from_slice(totals.as_bytes())?;
    push_causes(alloc, &mut text, checked, &CAUSES)?;
    push_count(alloc, &mut text, UNREADABLE, count_of(checked, UNREADABLE))?;
    Ok(text)
}

// Adds the lines of causes.
fn push_causes(
    alloc: Global,
    text: &mut Vec<u8>,
    checked: &Checked<'_>,
    causes: &[Cause],
) -> Result<(), AllocError>
    ensures { OnOk result
        (text.new.items ≡ text.old.items ++ flat_map (cause_line checked.now) causes.now) }
{
    for cause in causes {
        let why = cause_text(*cause);
        push_count(alloc, text, why, count_of(checked, why))?;
    }
    Ok(())
}

// Adds the line of what so many methods are refused for, if there are any.
fn push_count(alloc: Global, text: &mut Vec<u8>, why: &str, count: usize) -> Result<(), AllocError>
    ensures { OnOk result (text.new.items ≡ text.old.items ++ count_line why.now count) }
{
    let line = count_line(alloc, why, count)?;
    text.extend_from_slice(line.as_bytes())
}

// The line of what so many methods are refused for; none where there are none.
#[tactic(auto, unfolding(crate::specs::Totals::count_line))]
fn count_line(alloc: Global, why: &str, count: usize) -> Result<String, AllocError>
    ensures { IfOk result (λ line. string_bytes line ≡ count_line why.now count) }
{
    if count == 0 {
        return Ok(String::new(alloc));
    }
    format!(in alloc; "  {why}: {count}\n")
}

// How many methods there are, and how many of them are accepted and refused.
#[tactic(auto, unfolding(crate::specs::Totals::totals_line))]
fn totals_line(alloc: Global, count: usize, accepted: usize) -> Result<String, AllocError>
    requires { accepted ≤ count }
    ensures { IfOk result (λ line. string_bytes line ≡ totals_line count accepted) }
{
    let refused = count - accepted;
    format!(in alloc; "methods: {count}, accepted: {accepted}, refused: {refused}\n")
}

// How many methods are refused for that, by the words of the cause; how many are accepted where it
// is empty.
fn count_of(checked: &Checked<'_>, why: &str) -> usize
    ensures count { result ≡ count_of checked.now why.now }
    ensures most { result ≤ length (methods_of checked.now) }
{
    let mut count = 0;
    for id in checked.namespace().methods() {
        if why_text(checked, *id) == why {
            count += 1;
        }
    }
    count
}

// Why the method with a number is refused, in a few words; nothing where it is accepted, or where
// nothing is said of it.
fn why_text(checked: &Checked<'_>, id: ObjectId) -> &'static str
    ensures { result.now ≡ why_text (said_of checked.now id.0) }
{
    match checked.verdict(id) {
        Some(Verdict::Refused(refusal, _)) => cause_text(refusal.why),
        Some(Verdict::Unreadable { .. }) => UNREADABLE,
        Some(Verdict::Accepted(_)) | None => "",
    }
}
