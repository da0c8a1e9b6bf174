// A store into an Index: the name that it is of, and the byte that is written.

ghost use Rattle.std.specs.Prelude.{◌≡◌, ◌≤◌, IfOk};
ghost use Rattle.aml_places.specs.Lies.{LiesTerm, Stands};
ghost use Rattle.aml_regions.specs.Events.{Log};
ghost use Rattle.aml_meaning.specs.Meaning.{indexed};
ghost use Rattle.aml_meaning.specs.Runs.{Runs};
ghost use Rattle.aml_machine.specs.Views.{now};
ghost use Rattle.aml_scene.specs.Tells.{itself, told};
ghost use Rattle.aml_quick.specs.Makes.{byte_changed, left};
ghost use Rattle.aml_quick.specs.Settings.{count_of, setting_of};
ghost use Rattle.aml_direct.specs.Tells.{nothing};
ghost use Rattle.aml_values.specs.Views as values;

use aml_machine::Machine;
use aml_meaning::{Action, AmlCause};
use aml_quick::{Here, Written};
use aml_scene::halt::Halt;
use aml_scene::index::{bound, refused, write_byte};
use aml_tree::op_at;
use aml_values::Value;

/// The place of the name that a written Index is of, alone or with arguments, which are not
/// evaluated. A6 at the Index, with a step, where it has a target of its own or is of no name.
pub fn indexed(
    here: Here<'_>,
    own: usize,
    target: Action,
    bytes: &[u8],
    at: usize,
    machine: &mut Machine,
) -> Result<usize, Halt>
    requires { Stands (LiesTerm (count_of here.scene.now)) bytes.now at }
    ensures means { (around : _) (log : Log) (t : _) →
        LiesTerm (count_of here.entry.scene.now) bytes.now at t → Runs (told itself result)
        (indexed (setting_of here.entry around) own target t)
        (now machine.old log) (now machine.new log) }
    ensures falls { machine.new.steps ≤ machine.old.steps }
{
    match target {
        Action::NoTarget => match op_at(bytes, at) {
            None => bound(here.scene, at, machine),
            Some(_) => refused(AmlCause::Outside, here.scene, own, machine),
        },
        _ => refused(AmlCause::Outside, here.scene, own, machine),
    }
}

/// A value written into the byte that an Index numbers, of what the name at a place holds, behind
/// the index: the place behind the Index.
pub fn write_numbered(
    here: Here<'_>,
    own: usize,
    name: usize,
    written: Written,
    stored: &Value,
    machine: &mut Machine,
) -> Result<usize, Halt>
    requires { written.steps ≤ machine.now.steps }
    ensures means { (around : _) (log : Log) → Runs (told nothing result)
        (byte_changed (setting_of here.entry around) own name written (values.view stored.now))
        (left machine.old written.steps log) (now machine.new log) }
    ensures next { IfOk result (λ next. next ≡ written.next) }
    ensures falls { machine.new.steps ≤ machine.old.steps }
{
    machine.steps = written.steps;
    let index = Value::Int(written.index);
    write_byte(
        here.scene,
        own,
        name,
        written.operand,
        &index,
        stored,
        machine,
    )?;
    Ok(written.next)
}
