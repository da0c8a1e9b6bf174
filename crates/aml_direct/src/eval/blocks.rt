// Statements one after the other, choices and loops.

ghost use Rattle.std.specs.Prelude.{◌≤◌};
ghost use Rattle.aml_operators.specs.Tree.{trees};
ghost use Rattle.aml_meaning.specs.declared.action.Action.TheVariants as does;
ghost use Rattle.aml_meaning.specs.Loops.{loop};
ghost use Rattle.aml_meaning.specs.Meaning.{mean_all};
ghost use Rattle.aml_meaning.specs.Runs.{Runs};
ghost use Rattle.aml_machine.specs.Views.{now};
ghost use Rattle.aml_scene.specs.Letters.{branch, test_and_statements};
ghost use Rattle.aml_scene.specs.Tells.{went};
ghost use Rattle.aml_places.specs.Lies.{LieAll, LieLoop, StandParts, Stands};
ghost use Rattle.aml_quick.specs.Settings.{count_of, setting_of};
ghost use Rattle.aml_direct.specs.Tells.{Acts, Chooses, StandElse, StandLoop, tested};

use crate::eval::terms::{run, test};
use aml_machine::Machine;
use aml_places::{has_else, package, past_else};
use aml_quick::Here;
use aml_regions::World;
use aml_scene::halt::Halt;
use aml_values::Value;
use std::alloc::Global;

/// The statements of an If, or those of its Else.
#[cycle(value)]
#[inline(always)]
pub(super) fn eval_if<W: World>(
    alloc: Global,
    here: Here<'_>,
    bytes: &[u8],
    at: usize,
    machine: &mut Machine,
    world: &mut W,
) -> Result<(Option<Value>, usize), Halt>
    requires { StandParts (count_of here.scene.now) branch bytes.now at }
    ensures means { (around : _) (own : _) → Acts here.entry around does.If
        branch bytes.now own at result
        (now machine.old (W.log world.old)) (now machine.new (W.log world.new)) }
    ensures falls { machine.new.steps ≤ machine.old.steps }
{
    let (end, from) = package(bytes, at);
    let inside = &bytes[..end];
    let (x, block) = test(alloc, here, inside, from, machine, world)?;
    if x == 0 {
        let next = eval_else(alloc, here, bytes, end, machine, world)?;
        return Ok((None, next));
    }
    eval_all(alloc, here, inside, block, machine, world)?;
    Ok((None, past_else(bytes, end)))
}

/// The statements of an Else, where one stands: the place behind them.
#[cycle(value)]
pub(super) fn eval_else<W: World>(
    alloc: Global,
    here: Here<'_>,
    bytes: &[u8],
    at: usize,
    machine: &mut Machine,
    world: &mut W,
) -> Result<usize, Halt>
    requires { StandElse (count_of here.scene.now) bytes.now at }
    ensures means { (around : _) → Chooses here.entry around bytes.now at result
        (now machine.old (W.log world.old)) (now machine.new (W.log world.new)) }
    ensures falls { machine.new.steps ≤ machine.old.steps }
{
    if !has_else(bytes, at) {
        return Ok(at);
    }
    let (end, from) = package(bytes, at + 1);
    eval_all(alloc, here, &bytes[..end], from, machine, world)?;
    Ok(end)
}

/// A loop.
#[cycle(value)]
#[inline(always)]
pub(super) fn eval_while<W: World>(
    alloc: Global,
    here: Here<'_>,
    bytes: &[u8],
    at: usize,
    machine: &mut Machine,
    world: &mut W,
) -> Result<(Option<Value>, usize), Halt>
    requires { StandParts (count_of here.scene.now) test_and_statements bytes.now at }
    ensures means { (around : _) (own : _) → Acts here.entry around does.While
        test_and_statements bytes.now own at result
        (now machine.old (W.log world.old)) (now machine.new (W.log world.new)) }
    ensures falls { machine.new.steps ≤ machine.old.steps }
{
    let (end, from) = package(bytes, at);
    turns(alloc, here, &bytes[..end], from, machine, world)?;
    Ok((None, end))
}

/// A loop's turns, from one of its tests on: each goes back to the place of the test.
#[cycle(value)]
pub(super) fn turns<W: World>(
    alloc: Global,
    here: Here<'_>,
    bytes: &[u8],
    from: usize,
    machine: &mut Machine,
    world: &mut W,
) -> Result<(), Halt>
    requires { StandLoop (count_of here.scene.now) bytes.now from }
    ensures means { (around : _) (t : _) (body : _) →
        LieLoop (count_of here.entry.scene.now) bytes.now from t body → Runs (went result)
        (loop (tested (setting_of here.entry around) t)
        (mean_all (setting_of here.entry around) (trees body)))
        (now machine.old (W.log world.old)) (now machine.new (W.log world.new)) }
    ensures falls { machine.new.steps ≤ machine.old.steps }
{
    'turns: loop {
        let (x, body) = test(alloc, here, bytes, from, machine, world)?;
        if x == 0 {
            return Ok(());
        }
        match eval_all(alloc, here, bytes, body, machine, world) {
            Ok(()) => {}
            Err(Halt::Continued(_)) => {}
            Err(Halt::Broke(_)) => return Ok(()),
            Err(Halt::NoMemory) => return Err(Halt::NoMemory),
            Err(Halt::OutOfSteps) => return Err(Halt::OutOfSteps),
            Err(Halt::Error(error)) => return Err(Halt::Error(error)),
            Err(Halt::Returned(returned)) => return Err(Halt::Returned(returned)),
        }
    }
}

/// Statements from a place to the end of the bytes, one after the other.
#[cycle(value)]
pub(super) fn eval_all<W: World>(
    alloc: Global,
    here: Here<'_>,
    bytes: &[u8],
    from: usize,
    machine: &mut Machine,
    world: &mut W,
) -> Result<(), Halt>
    requires { Stands (LieAll (count_of here.scene.now)) bytes.now from }
    ensures means { (around : _) (ts : _) →
        LieAll (count_of here.entry.scene.now) bytes.now from ts →
        Runs (went result) (mean_all (setting_of here.entry around) (trees ts))
        (now machine.old (W.log world.old)) (now machine.new (W.log world.new)) }
    ensures falls { machine.new.steps ≤ machine.old.steps }
{
    let mut at = from;
    'statements: while at < bytes.len() {
        at = run(alloc, here, bytes, at, machine, world)?;
    }
    Ok(())
}
