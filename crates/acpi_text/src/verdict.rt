// The line of a verdict on a method.

ghost use Rattle.std.specs.Prelude.{◌≡◌, IfOk, string_bytes};
ghost use Rattle.acpi_text.specs.Lists.{Lists};
ghost use Rattle.aml_path_text.specs.Paths.{path_of};
ghost use Rattle.aml_paths.specs.Printed.{path_text};
ghost use Rattle.acpi_text.specs.Outcome.{refusal_line};
ghost use Rattle.acpi_text.specs.Verdicts.{refused_part, verdict_line, verdict_part};
ghost use Rattle.aml_namespace.specs.Shows.{shown};

use crate::cause::cause_text;
use crate::writing::{RunFault, put};
use aml_causes::Refusal;
use aml_namespace::Namespace;
use aml_path_text::push_path;
use aml_paths::ObjectId;
use aml_tree::Refusal as Unread;
use std::alloc::{AllocError, Global};
use std::io::Write;

/// What a line says of a method before it runs.
#[derive(Clone, Copy, Debug, PartialEq, Eq)]
pub enum VerdictLine {
    /// It is accepted, and takes at most so many steps.
    Accepted { steps: u64 },
    /// It is refused.
    Refused(Refusal),
    /// Its body, in the table with this number, cannot be read.
    Unreadable { table: usize, refusal: Unread },
}

/// Prints the verdict on the method with this number behind the method's first path: `\M001
/// accepted 4` with the most steps, `\M002 refused 0 108 V4 Unset` with the table, the place and
/// the cause, or `\M015 refused 0 108 E205 TooDeep` of a body that cannot be read.
///
/// At Err the writer holds a beginning of that line.
pub fn list_verdict<W: Write>(
    alloc: Global,
    out: &mut W,
    namespace: &Namespace<'_>,
    id: ObjectId,
    verdict: VerdictLine,
) -> Result<(), RunFault>
    ensures { let path = path_of (shown namespace.now).entries id.0 in
        Lists result (W.contents out.old) (W.contents out.new)
        (verdict_line (path_text path) verdict) }
{
    let line = verdict_line_of(alloc, namespace, id, verdict)?;
    put(out, line.as_slice())
}

/// Prints that the body of the method with this number cannot be read: `\M015 refused 0 108 E205
/// TooDeep`, with the method's first path, its table and the place.
///
/// At Err the writer holds a beginning of that line.
pub fn list_refusal<W: Write>(
    alloc: Global,
    out: &mut W,
    namespace: &Namespace<'_>,
    id: ObjectId,
    table: usize,
    refusal: Unread,
) -> Result<(), RunFault>
    ensures { let path = path_of (shown namespace.now).entries id.0 in
        Lists result (W.contents out.old) (W.contents out.new)
        (refusal_line (path_text path) table refusal) }
{
    list_verdict(
        alloc,
        out,
        namespace,
        id,
        VerdictLine::Unreadable { table, refusal },
    )
}

#[tactic(auto, unfolding(crate::specs::Verdicts::verdict_line))]
fn verdict_line_of(
    alloc: Global,
    namespace: &Namespace<'_>,
    id: ObjectId,
    verdict: VerdictLine,
) -> Result<Vec<u8>, RunFault>
    ensures { let path = path_of (shown namespace.now).entries id.0 in
        IfOk result (λ line. line.items ≡ verdict_line (path_text path) verdict) }
{
    let mut line = Vec::new(alloc);
    push_path(alloc, &mut line, namespace, id)?;
    let behind = verdict_part_of(alloc, verdict)?;
    line.extend_from_slice(behind.as_bytes())?;
    Ok(line)
}

// What stands behind the path.
#[tactic(auto, unfolding(crate::specs::Verdicts::verdict_part))]
fn verdict_part_of(alloc: Global, verdict: VerdictLine) -> Result<String, AllocError>
    ensures { IfOk result (λ part. string_bytes part ≡ verdict_part verdict) }
{
    match verdict {
        VerdictLine::Accepted { steps } => format!(in alloc; " accepted {steps}\n"),
        VerdictLine::Refused(refusal) => {
            refused_part_of(alloc, refusal.table, refusal.at, cause_text(refusal.why))
        }
        VerdictLine::Unreadable { table, refusal } => {
            refused_part_of(alloc, table, refusal.at, refusal.cause.text())
        }
    }
}

// The same of a method that is refused.
#[tactic(auto, unfolding(crate::specs::Verdicts::refused_part))]
fn refused_part_of(
    alloc: Global,
    table: usize,
    at: usize,
    cause: &str,
) -> Result<String, AllocError>
    ensures { IfOk result (λ part. string_bytes part ≡ refused_part table at cause.now) }
{
    format!(in alloc; " refused {table} {at} {cause}\n")
}
