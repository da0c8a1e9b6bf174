// The steps that are left.

ghost use Rattle.std.specs.Prelude.{◌≡◌, ◌≤◌, suc, OnOk};
ghost use Rattle.aml_regions.specs.Events.{Log};
ghost use Rattle.aml_meaning.specs.Parts.{tick};
ghost use Rattle.aml_meaning.specs.Runs.{Runs};
ghost use Rattle.aml_machine.specs.Views.{now};
ghost use Rattle.aml_scene.specs.Tells.{went};

use crate::halt::Halt;
use aml_machine::Machine;

/// Takes a step, where one is left.
pub fn take_step(machine: &mut Machine) -> Result<(), Halt>
    ensures means { (log : Log) →
        Runs (went result) tick (now machine.old log) (now machine.new log) }
    ensures takes { OnOk result (machine.old.steps ≡ suc machine.new.steps) }
    ensures falls { machine.new.steps ≤ machine.old.steps }
{
    if machine.steps == 0 {
        return Err(Halt::OutOfSteps);
    }
    machine.steps -= 1;
    Ok(())
}
