// Terms whose value asks for no other term's.

ghost use Rattle.std.specs.Prelude.{◌≤◌, IsSome};
ghost use Rattle.aml_operators.specs.Literal.{literal_in};
ghost use Rattle.aml_operators.specs.Tree.{views};
ghost use Rattle.aml_regions.specs.Events.{Log};
ghost use Rattle.aml_meaning.specs.declared.action.Action.TheVariants as does;
ghost use Rattle.aml_meaning.specs.Meaning.{act};
ghost use Rattle.aml_meaning.specs.Runs.{Runs};
ghost use Rattle.aml_machine.specs.Views.{now, value_of};
ghost use Rattle.aml_scene.specs.Letters.{HasParts, name_and_target, one_name};
ghost use Rattle.aml_scene.specs.Tells.{told};
ghost use Rattle.aml_plain.specs.Tells.{setting_of};

use crate::form::number_of_literal;
use crate::setting::Setting;
use aml_acts::operand::{asked, measured};
use aml_machine::Machine;
use aml_meaning::action_of;
use aml_operators::{Op, Term, one, two};
use aml_scene::halt::Halt;
use aml_values::Value;

/// A literal's value.
pub fn literal(here: Setting<'_>, op: Op, at: usize, parts: &[Term]) -> Result<Option<Value>, Halt>
    requires { IsSome (literal_in op (views parts.now)) }
    ensures { (around : _) (s : _) → Runs (told value_of result)
        (act (setting_of here.entry around) (does.Literal op) at (views parts.now)) s s }
{
    let number = here.scene.width.wrapped(number_of_literal(op, parts));
    Ok(Some(Value::Int(number)))
}

/// How large the value of a name, a local or an argument is.
pub fn size(
    here: Setting<'_>,
    at: usize,
    parts: &[Term],
    machine: &mut Machine,
) -> Result<Option<Value>, Halt>
    requires { HasParts one_name (views parts.now) }
    ensures means { (around : _) (log : Log) → Runs (told value_of result)
        (act (setting_of here.entry around) does.SizeOf at (views parts.now))
        (now machine.old log) (now machine.new log) }
    ensures falls { machine.new.steps ≤ machine.old.steps }
{
    let a = one(parts);
    let size = measured(here.scene, action_of(a.op), a.at, machine)?;
    Ok(Some(size))
}

/// Whether something has a name.
pub fn condition(here: Setting<'_>, at: usize, parts: &[Term]) -> Result<Option<Value>, Halt>
    requires { HasParts name_and_target (views parts.now) }
    ensures { (around : _) (s : _) → Runs (told value_of result)
        (act (setting_of here.entry around) does.CondRefOf at (views parts.now)) s s }
{
    let (a, target) = two(parts);
    let what = action_of(a.op);
    let behind = action_of(target.op);
    asked(here.scene, what, behind, at, a.at)
}
