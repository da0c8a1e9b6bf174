// A method's body, from its beginning to its end.

ghost use Rattle.std.specs.Prelude.{◌≡◌, map, true};
ghost use Rattle.aml_values.specs.Views as values;
ghost use Rattle.aml_operators.specs.declared.row.Code.TheVariants as code;
ghost use Rattle.aml_operators.specs.Shape.{AreShaped};
ghost use Rattle.aml_operators.specs.Tree.{views};
ghost use Rattle.aml_machine.specs.Views.{names_of};
ghost use Rattle.aml_scene.specs.Outcomes.{EvaluatesBody, outcome_of};
ghost use Rattle.aml_plain.specs.Tells.{setting_of};

use crate::eval::calls::eval_body;
use crate::setting::Setting;
use aml_contents::Names;
use aml_machine::{Arguments, Frame, Machine, Mutexes};
use aml_meaning::Outcome;
use aml_operators::Term;
use aml_paths::NoMemory;
use aml_regions::World;
use aml_scene::halt::outcome_of;
use aml_values::Value;
use std::alloc::Global;
use std::mem;

/// Evaluates a body where it stands, with its arguments and at most so many steps.
///
/// An error's place is a term's. Arguments behind the seventh are not looked at.
pub fn evaluate_body<W: World>(
    alloc: Global,
    here: Setting<'_>,
    body: &[Term],
    arguments: Vec<Value>,
    names: &mut Names,
    world: &mut W,
    fuel: u64,
) -> Result<Outcome, NoMemory>
    requires { AreShaped code.Body (views body.now) }
    ensures { (around : _) → EvaluatesBody true (setting_of here.entry around) (views body.now)
        (map values.view arguments.items) fuel (names_of names.old) (W.log world.old)
        result (names_of names.new) (W.log world.new) }
{
    let mut machine = Machine {
        frame: Frame::new(alloc, Mutexes::watched(alloc), Arguments::of(arguments)),
        names: mem::replace(names, Names::new(alloc)),
        steps: fuel,
    };
    let ended = eval_body(alloc, here, body, &mut machine, world);
    *names = machine.names;
    outcome_of(here.scene.table, ended)
}
