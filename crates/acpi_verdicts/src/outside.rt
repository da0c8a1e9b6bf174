// What is wanted of an operator or a form that has no meaning, in words.

ghost use Rattle.std.specs.Prelude.{◌≡◌, ◌++◌, IfErr, OnOk};
ghost use Rattle.acpi_verdicts.specs.Outside as spec;
ghost use Rattle.acpi_text.specs.declared.writing.RunFault.TheVariants as told;

use acpi_text::RunFault;
use aml_meaning::{Action, Definition, action_of, definition_of};
use aml_place_text::push_standing;
use aml_tree::op_at;

/// Adds what is wanted of the operator that stands at a place and has no meaning there, behind a
/// colon: of a field of a buffer also what stands as its source. Nothing where a name stands there,
/// or where an operator lacks nothing that is told.
pub(crate) fn push_outside(text: &mut Vec<u8>, bytes: &[u8], at: usize) -> Result<(), RunFault>
    ensures text { OnOk result
        (text.new.items ≡ text.old.items ++ spec.outside_text bytes.now at) }
    ensures fault { IfErr result (λ fault. fault ≡ told.NoMemory) }
{
    let Some((op, behind)) = op_at(bytes, at) else {
        return Ok(());
    };
    match definition_of(op) {
        Definition::Field(_) | Definition::CountedField => push_source(text, bytes, behind),
        Definition::Name | Definition::Nothing => {
            text.extend_from_slice(wanted_form(action_of(op)).as_bytes())?;
            Ok(())
        }
    }
}

// Adds what stands as the source of a field of a buffer, and what is wanted of such a field.
fn push_source(text: &mut Vec<u8>, bytes: &[u8], at: usize) -> Result<(), RunFault>
    ensures text { OnOk result
        (text.new.items ≡ text.old.items ++ spec.source_text bytes.now at) }
    ensures fault { IfErr result (λ fault. fault ≡ told.NoMemory) }
{
    text.extend_from_slice(b": found as its source")?;
    push_standing(text, bytes, at)?;
    text.extend_from_slice(b", wanted a data name, with integer literals behind it")?;
    Ok(())
}

// The form that is wanted of an operator, by the kind of its meaning.
fn wanted_form(action: Action) -> &'static str
    ensures { result.now ≡ spec.wanted_form action }
{
    match action {
        Action::Data(_) => ": wanted an integer literal as its size",
        Action::Index => {
            ": wanted it in a DerefOf, or of a name as a target, and without a target of its own"
        }
        Action::Dereference => ": wanted it as a value alone, with an Index in it",
        Action::Debug => ": wanted it as a target",
        Action::CondRefOf => ": wanted a name in it and no target",
        Action::Store => {
            ": wanted a local, an argument or Debug as its target where its value is used"
        }
        Action::Break | Action::Continue => ": wanted a While round it",
        Action::Acquire | Action::Release => ": wanted another mutex than _GL_",
        _ => "",
    }
}
