// Acquire and Release (ACPI 6.5, 19.6).

ghost use Rattle.std.specs.Prelude.{◌≤◌};
ghost use Rattle.aml_operators.specs.Tree.{views};
ghost use Rattle.aml_regions.specs.Events.{Log};
ghost use Rattle.aml_meaning.specs.declared.action.Action.TheVariants as does;
ghost use Rattle.aml_meaning.specs.Meaning.{act};
ghost use Rattle.aml_meaning.specs.Runs.{Runs};
ghost use Rattle.aml_machine.specs.Views.{now, value_of};
ghost use Rattle.aml_scene.specs.Letters.{HasParts, name_and_word, one_name};
ghost use Rattle.aml_scene.specs.Tells.{told};
ghost use Rattle.aml_plain.specs.Tells.{setting_of};

use crate::setting::Setting;
use aml_acts::mutex::{acquired, released};
use aml_machine::Machine;
use aml_meaning::action_of;
use aml_operators::{Term, one, two};
use aml_scene::halt::Halt;
use aml_values::Value;

/// A mutex is taken: Zero.
pub fn eval_acquire(
    here: Setting<'_>,
    at: usize,
    parts: &[Term],
    machine: &mut Machine,
) -> Result<Option<Value>, Halt>
    requires { HasParts name_and_word (views parts.now) }
    ensures means { (around : _) (log : Log) → Runs (told value_of result)
        (act (setting_of here.entry around) does.Acquire at (views parts.now))
        (now machine.old log) (now machine.new log) }
    ensures falls { machine.new.steps ≤ machine.old.steps }
{
    let (operand, _) = two(parts);
    acquired(here.scene, at, action_of(operand.op), operand.at, machine)
}

/// The mutex that was taken last is released.
pub fn eval_release(
    here: Setting<'_>,
    at: usize,
    parts: &[Term],
    machine: &mut Machine,
) -> Result<Option<Value>, Halt>
    requires { HasParts one_name (views parts.now) }
    ensures means { (around : _) (log : Log) → Runs (told value_of result)
        (act (setting_of here.entry around) does.Release at (views parts.now))
        (now machine.old log) (now machine.new log) }
    ensures falls { machine.new.steps ≤ machine.old.steps }
{
    let operand = one(parts);
    released(here.scene, at, action_of(operand.op), operand.at, machine)
}
