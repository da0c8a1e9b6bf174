// A store into an Index: the name that it is of.

ghost use Rattle.std.specs.Prelude.{◌≤◌};
ghost use Rattle.aml_operators.specs.declared.row.Code.TheVariants as code;
ghost use Rattle.aml_operators.specs.Shape.{IsShaped};
ghost use Rattle.aml_operators.specs.Tree.{view, views};
ghost use Rattle.aml_operators.specs.declared.term.Term.TheViews.{out-Term};
ghost use Rattle.aml_regions.specs.Events.{Log};
ghost use Rattle.aml_meaning.specs.Meaning.{indexed, name_indexed};
ghost use Rattle.aml_meaning.specs.Actions.{action};
ghost use Rattle.aml_meaning.specs.Runs.{Runs};
ghost use Rattle.aml_machine.specs.Views.{now};
ghost use Rattle.aml_scene.specs.Tells.{itself, told};
ghost use Rattle.aml_plain.specs.Tells.{setting_of};

use crate::setting::Setting;
use aml_machine::Machine;
use aml_meaning::{Action, AmlCause, action_of};
use aml_operators::{Term, first_and_rest};
use aml_scene::halt::Halt;
use aml_scene::index::{bound, refused};

/// The place of the name that a written Index is of, alone or with arguments, which are not
/// evaluated. A6 at the Index, with a step, where it is of no name.
fn name_indexed(
    here: Setting<'_>,
    at: usize,
    source: &Term,
    machine: &mut Machine,
) -> Result<usize, Halt>
    requires { IsShaped code.Body (view source.now) }
    ensures means { (around : _) (log : Log) → let t = out-Term source.now in
        Runs (told itself result)
        (name_indexed (setting_of here.entry around) at (action t.op) t.at (views t.parts.items))
        (now machine.old log) (now machine.new log) }
    ensures falls { machine.new.steps ≤ machine.old.steps }
{
    match action_of(source.op) {
        Action::Name => bound(here.scene, source.at, machine),
        Action::Invoke => {
            let (name, _) = first_and_rest(&source.parts);
            bound(here.scene, name.at, machine)
        }
        _ => refused(AmlCause::Outside, here.scene, at, machine),
    }
}

/// The same of an Index with this target of its own. A6 at the Index, with a step, where there is
/// one.
pub fn indexed(
    here: Setting<'_>,
    at: usize,
    target: Action,
    source: &Term,
    machine: &mut Machine,
) -> Result<usize, Halt>
    requires { IsShaped code.Body (view source.now) }
    ensures means { (around : _) (log : Log) → Runs (told itself result)
        (indexed (setting_of here.entry around) at target (view source.now))
        (now machine.old log) (now machine.new log) }
    ensures falls { machine.new.steps ≤ machine.old.steps }
{
    match target {
        Action::NoTarget => name_indexed(here, at, source, machine),
        _ => refused(AmlCause::Outside, here.scene, at, machine),
    }
}
