// How an evaluation ended, as it is printed.

ghost use Rattle.std.specs.Prelude.{◌≡◌, IfOk, string_bytes};
ghost use Rattle.acpi_text.specs.Lists.{Lists};
ghost use Rattle.acpi_text.specs.Outcome.{error_line, outcome_line, result_line};
ghost use Rattle.aml_values.specs.Views.{view};
ghost use Rattle.aml_namespace.specs.Shows.{shown};

use crate::values::push_value;
use crate::writing::{RunFault, put};
use aml_meaning::{AmlError, Outcome};
use aml_namespace::Namespace;
use aml_values::Value;
use std::alloc::{AllocError, Global};
use std::io::Write;

/// Prints how an evaluation ended: `result 0x2a` with the value, `result none`, `error 0 44 A1
/// Unset` with the error's table and place, or `out of steps`.
///
/// At Err the writer holds a beginning of that line.
pub fn list_evaluation<W: Write>(
    alloc: Global,
    out: &mut W,
    namespace: &Namespace<'_>,
    outcome: &Outcome,
) -> Result<(), RunFault>
    ensures { Lists result (W.contents out.old) (W.contents out.new)
        (outcome_line (shown namespace.now).entries outcome.now) }
{
    match outcome {
        Outcome::Done(Some(value)) => list_result(alloc, out, namespace, value),
        Outcome::Done(None) => put(out, b"result none\n"),
        Outcome::AmlError(error) => list_error(alloc, out, *error),
        Outcome::OutOfSteps => put(out, b"out of steps\n"),
    }
}

// Prints the line of a value that a method gave.
fn list_result<W: Write>(
    alloc: Global,
    out: &mut W,
    namespace: &Namespace<'_>,
    value: &Value,
) -> Result<(), RunFault>
    ensures { Lists result (W.contents out.old) (W.contents out.new)
        (result_line (shown namespace.now).entries (view value.now)) }
{
    let line = result_line_of(alloc, namespace, value)?;
    put(out, line.as_slice())
}

#[tactic(auto, unfolding(crate::specs::Outcome::result_line))]
fn result_line_of(
    alloc: Global,
    namespace: &Namespace<'_>,
    value: &Value,
) -> Result<Vec<u8>, RunFault>
    ensures { IfOk result
        (λ line. line.items ≡ result_line (shown namespace.now).entries (view value.now)) }
{
    let mut line = Vec::new(alloc);
    line.extend_from_slice(b"result ")?;
    push_value(alloc, &mut line, namespace, value)?;
    line.extend_from_slice(b"\n")?;
    Ok(line)
}

// Prints the line of an AML error.
fn list_error<W: Write>(alloc: Global, out: &mut W, error: AmlError) -> Result<(), RunFault>
    ensures { Lists result (W.contents out.old) (W.contents out.new) (error_line error) }
{
    let line = error_line_of(alloc, error)?;
    put(out, line.as_bytes())
}

#[tactic(auto, unfolding(crate::specs::Outcome::error_line))]
fn error_line_of(alloc: Global, error: AmlError) -> Result<String, AllocError>
    ensures { IfOk result (λ line. string_bytes line ≡ error_line error) }
{
    let table = error.table;
    let at = error.at;
    let cause = error.cause.text();
    format!(in alloc; "error {table} {at} {cause}\n")
}
