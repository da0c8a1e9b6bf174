// Acquire and Release (ACPI 6.5, 19.6).

ghost use Rattle.std.specs.Prelude.{◌≤◌};
ghost use Rattle.aml_regions.specs.Events.{Log};
ghost use Rattle.aml_meaning.specs.declared.action.Action.TheVariants as does;
ghost use Rattle.aml_machine.specs.Views.{now};
ghost use Rattle.aml_places.specs.Lies.{StandParts};
ghost use Rattle.aml_scene.specs.Letters.{name_and_word, one_name};
ghost use Rattle.aml_quick.specs.Settings.{count_of};
ghost use Rattle.aml_direct.specs.Tells.{Acts};

use aml_acts::mutex::{acquired, released};
use aml_machine::Machine;
use aml_meaning::action_of;
use aml_places::target_at;
use aml_quick::Here;
use aml_scene::halt::Halt;
use aml_values::Value;

/// A mutex is taken: Zero.
pub fn eval_acquire(
    here: Here<'_>,
    own: usize,
    bytes: &[u8],
    at: usize,
    machine: &mut Machine,
) -> Result<(Option<Value>, usize), Halt>
    requires { StandParts (count_of here.scene.now) name_and_word bytes.now at }
    ensures means { (around : _) (log : Log) → Acts here.entry around does.Acquire
        name_and_word bytes.now own at result (now machine.old log) (now machine.new log) }
    ensures falls { machine.new.steps ≤ machine.old.steps }
{
    let (op, next) = target_at(bytes, at);
    let taken = acquired(here.scene, own, action_of(op), at, machine)?;
    Ok((taken, next + 2))
}

/// The mutex that was taken last is released.
pub fn eval_release(
    here: Here<'_>,
    own: usize,
    bytes: &[u8],
    at: usize,
    machine: &mut Machine,
) -> Result<(Option<Value>, usize), Halt>
    requires { StandParts (count_of here.scene.now) one_name bytes.now at }
    ensures means { (around : _) (log : Log) → Acts here.entry around does.Release
        one_name bytes.now own at result (now machine.old log) (now machine.new log) }
    ensures falls { machine.new.steps ≤ machine.old.steps }
{
    let (op, next) = target_at(bytes, at);
    let given = released(here.scene, own, action_of(op), at, machine)?;
    Ok((given, next))
}
