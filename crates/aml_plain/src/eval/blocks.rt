// Statements one after the other, choices and loops.

ghost use Rattle.std.specs.Prelude.{◌<◌, ◌≤◌};
ghost use Rattle.aml_operators.specs.declared.row.Code.TheVariants as code;
ghost use Rattle.aml_operators.specs.Shape.{AreShaped, IsShaped};
ghost use Rattle.aml_operators.specs.declared.term.Term.TheViews.{out-Term};
ghost use Rattle.aml_operators.specs.Tree.{view, views};
ghost use Rattle.aml_meaning.specs.declared.action.Action.TheVariants as does;
ghost use Rattle.aml_meaning.specs.Meaning.{mean_all, tested, value};
ghost use Rattle.aml_meaning.specs.Definitions.{statement};
ghost use Rattle.aml_meaning.specs.Loops.{loop};
ghost use Rattle.aml_scene.specs.Letters.{HasParts, branch, test_and_statements};
ghost use Rattle.aml_machine.specs.Views.{now};
ghost use Rattle.aml_plain.specs.Roughly.{Runs};
ghost use Rattle.aml_plain.specs.Tells.{Acts, setting_of};
ghost use Rattle.aml_scene.specs.Tells.{place_in, went};

use crate::eval::terms::{run, test};
use crate::form::branches;
use crate::operand::condition;
use crate::setting::Setting;
use aml_machine::Machine;
use aml_operators::{Term, first_and_rest};
use aml_regions::World;
use aml_scene::halt::Halt;
use aml_values::Value;
use std::alloc::Global;

/// The statements of an If, or those of its Else.
#[cycle(value)]
#[inline(always)]
pub(super) fn eval_if<W: World>(
    alloc: Global,
    here: Setting<'_>,
    parts: &[Term],
    machine: &mut Machine,
    world: &mut W,
) -> Result<Option<Value>, Halt>
    requires { HasParts branch (views parts.now) }
    ensures means { (around : _) (at : _) → Acts here.entry around does.If at
        parts.now result (now machine.old (W.log world.old)) (now machine.new (W.log world.new)) }
    ensures falls { machine.new.steps ≤ machine.old.steps }
{
    let (condition, statements) = first_and_rest(parts);
    let (block, other) = branches(statements);
    let x = test(alloc, here, condition, machine, world)?;
    let chosen = if x == 0 { other } else { block };
    eval_all(alloc, here, chosen, machine, world)?;
    Ok(None)
}

/// A loop.
#[cycle(value)]
#[inline(always)]
pub(super) fn eval_while<W: World>(
    alloc: Global,
    here: Setting<'_>,
    parts: &[Term],
    machine: &mut Machine,
    world: &mut W,
) -> Result<Option<Value>, Halt>
    requires { HasParts test_and_statements (views parts.now) }
    ensures means { (around : _) (at : _) → Acts here.entry around does.While at
        parts.now result (now machine.old (W.log world.old)) (now machine.new (W.log world.new)) }
    ensures falls { machine.new.steps ≤ machine.old.steps }
{
    let (condition, body) = first_and_rest(parts);
    turns(alloc, here, condition, body, machine, world)?;
    Ok(None)
}

/// A loop's turns, from one of its tests on.
#[cycle(value)]
pub(super) fn turns<W: World>(
    alloc: Global,
    here: Setting<'_>,
    condition: &Term,
    body: &[Term],
    machine: &mut Machine,
    world: &mut W,
) -> Result<(), Halt>
    requires tests { IsShaped code.Body (view condition.now) }
    requires runs { AreShaped code.Body (views body.now) }
    ensures means { (around : _) → let s = setting_of here.entry around in Runs (went result) (loop
        (tested s (place_in here.entry.scene.now (out-Term condition.now).at)
        (value s (view condition.now)))
        (mean_all s (views body.now)))
        (now machine.old (W.log world.old)) (now machine.new (W.log world.new)) }
    ensures falls { machine.new.steps ≤ machine.old.steps }
{
    'turns: loop {
        let x = test(alloc, here, condition, machine, world)?;
        if x == 0 {
            return Ok(());
        }
        match eval_all(alloc, here, body, machine, world) {
            Ok(()) => {}
            Err(Halt::Continued(_)) => {}
            Err(Halt::Broke(_)) => return Ok(()),
            Err(Halt::NoMemory) => return Err(Halt::NoMemory),
            Err(Halt::OutOfSteps) => return Err(Halt::OutOfSteps),
            Err(Halt::Error(error)) => return Err(Halt::Error(error)),
            Err(Halt::Returned(returned)) => return Err(Halt::Returned(returned)),
        }
    }
}

/// Statements, one after the other.
#[cycle(value)]
pub fn eval_all<W: World>(
    alloc: Global,
    here: Setting<'_>,
    statements: &[Term],
    machine: &mut Machine,
    world: &mut W,
) -> Result<(), Halt>
    requires { AreShaped code.Body (views statements.now) }
    ensures means { (around : _) → Runs (went result)
        (mean_all (setting_of here.entry around) (views statements.now))
        (now machine.old (W.log world.old)) (now machine.new (W.log world.new)) }
    ensures falls { machine.new.steps ≤ machine.old.steps }
{
    for statement in statements {
        run(alloc, here, statement, machine, world)?;
    }
    Ok(())
}
