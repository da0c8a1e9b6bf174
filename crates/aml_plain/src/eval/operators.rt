// Operators over values.

ghost use Rattle.std.specs.Prelude.{◌<◌, ◌≤◌, Some};
ghost use Rattle.aml_values.specs.Values.{Int};
ghost use Rattle.aml_operators.specs.Tree.{views};
ghost use Rattle.aml_meaning.specs.declared.action.Action.TheVariants as does;
ghost use Rattle.aml_meaning.specs.Meaning.{act, store, value};
ghost use Rattle.aml_scene.specs.Letters.{HasParts, name_and_term, one_name, one_term, term_and_target, two_terms, two_terms_and_target, two_terms_and_two_targets};
ghost use Rattle.aml_scene.specs.Stores.{dropped};
ghost use Rattle.aml_machine.specs.Views.{now};
ghost use Rattle.aml_plain.specs.Roughly.{Runs};
ghost use Rattle.aml_plain.specs.Tells.{Acts, setting_of};
ghost use Rattle.aml_scene.specs.Tells.{went};

use crate::eval::stores::{store, store_kept};
use crate::eval::terms::{operand, value};
use crate::setting::Setting;
use aml_acts::mutex::none_held;
use aml_acts::notice::{notice, notified, notify, pause};
use aml_acts::operand::changed_in_place;
use aml_machine::Machine;
use aml_meaning::{Arithmetic, Bitwise, Comparison, Conversion, Pause, action_of};
use aml_operators::{Term, four, one, three, two};
use aml_regions::World;
use aml_scene::grow::join_into;
use aml_scene::halt::Halt;
use aml_scene::rules::{combined, divided, integer, negated, transformed};
use aml_scene::standing::{concatenated_with, converted_from, said_of};
use aml_values::Value;
use std::alloc::Global;

/// A Concatenate as a statement: what it gives is moved to its target, or grows there.
#[cycle(value)]
#[inline(never)]
pub(super) fn run_concatenate<W: World>(
    alloc: Global,
    here: Setting<'_>,
    at: usize,
    parts: &[Term],
    machine: &mut Machine,
    world: &mut W,
) -> Result<(), Halt>
    requires { HasParts two_terms_and_target (views parts.now) }
    ensures means { (around : _) → Runs (went result)
        (dropped (act (setting_of here.entry around) does.Concatenate at (views parts.now)))
        (now machine.old (W.log world.old)) (now machine.new (W.log world.new)) }
    ensures falls { machine.new.steps ≤ machine.old.steps }
{
    let (a, b, target) = three(parts);
    let x = operand(alloc, here, a, Some(b), machine, world)?;
    let y = operand(alloc, here, b, None, machine, world)?;
    let into = action_of(target.op);
    let joined = join_into(alloc, here.scene, at, a.at, x, b.at, &y, into, machine)?;
    match joined {
        Some(given) => store(alloc, here, target, given, machine, world),
        None => Ok(()),
    }
}

/// Two integers, joined and stored.
#[cycle(value)]
pub(super) fn eval_binary<W: World>(
    alloc: Global,
    here: Setting<'_>,
    arithmetic: Arithmetic,
    parts: &[Term],
    machine: &mut Machine,
    world: &mut W,
) -> Result<Option<Value>, Halt>
    requires { HasParts two_terms_and_target (views parts.now) }
    ensures means { (around : _) (at : _) → Acts here.entry around (does.Binary arithmetic) at
        parts.now result (now machine.old (W.log world.old)) (now machine.new (W.log world.new)) }
    ensures falls { machine.new.steps ≤ machine.old.steps }
{
    let (a, b, target) = three(parts);
    let x = value(alloc, here, a, machine, world)?;
    let y = value(alloc, here, b, machine, world)?;
    let joined = combined(here.scene, arithmetic, a.at, &x, b.at, &y)?;
    store(alloc, here, target, Value::Int(joined), machine, world)?;
    Ok(Some(Value::Int(joined)))
}

/// What one integer gives, stored.
#[cycle(value)]
pub(super) fn eval_unary<W: World>(
    alloc: Global,
    here: Setting<'_>,
    operation: Bitwise,
    parts: &[Term],
    machine: &mut Machine,
    world: &mut W,
) -> Result<Option<Value>, Halt>
    requires { HasParts term_and_target (views parts.now) }
    ensures means { (around : _) (at : _) → Acts here.entry around (does.Unary operation) at
        parts.now result (now machine.old (W.log world.old)) (now machine.new (W.log world.new)) }
    ensures falls { machine.new.steps ≤ machine.old.steps }
{
    let (a, target) = two(parts);
    let x = value(alloc, here, a, machine, world)?;
    let given = transformed(here.scene, operation, a.at, &x)?;
    store(alloc, here, target, Value::Int(given), machine, world)?;
    Ok(Some(Value::Int(given)))
}

/// An integer and one, stored back.
#[cycle(value)]
pub(super) fn eval_by_one<W: World>(
    alloc: Global,
    here: Setting<'_>,
    arithmetic: Arithmetic,
    parts: &[Term],
    machine: &mut Machine,
    world: &mut W,
) -> Result<Option<Value>, Halt>
    requires { HasParts one_name (views parts.now) }
    ensures means { (around : _) (at : _) → Acts here.entry around (does.ByOne arithmetic) at
        parts.now result (now machine.old (W.log world.old)) (now machine.new (W.log world.new)) }
    ensures falls { machine.new.steps ≤ machine.old.steps }
{
    let a = one(parts);
    changed_in_place(here.scene, action_of(a.op), a.at, machine)?;
    let x = value(alloc, here, a, machine, world)?;
    let joined = combined(here.scene, arithmetic, a.at, &x, a.at, &Value::Int(1))?;
    store(alloc, here, a, Value::Int(joined), machine, world)?;
    Ok(Some(Value::Int(joined)))
}

/// What is said of two values; both are evaluated.
#[cycle(value)]
pub(super) fn eval_compare<W: World>(
    alloc: Global,
    here: Setting<'_>,
    comparison: Comparison,
    parts: &[Term],
    machine: &mut Machine,
    world: &mut W,
) -> Result<Option<Value>, Halt>
    requires { HasParts two_terms (views parts.now) }
    ensures means { (around : _) (at : _) → Acts here.entry around (does.Compare comparison) at
        parts.now result (now machine.old (W.log world.old)) (now machine.new (W.log world.new)) }
    ensures falls { machine.new.steps ≤ machine.old.steps }
{
    let (a, b) = two(parts);
    let x = operand(alloc, here, a, Some(b), machine, world)?;
    let y = operand(alloc, here, b, None, machine, world)?;
    let said = said_of(here.scene, comparison, a.at, &x, b.at, &y, machine)?;
    Ok(Some(Value::Int(said)))
}

/// Whether an integer is zero.
#[cycle(value)]
pub(super) fn eval_not<W: World>(
    alloc: Global,
    here: Setting<'_>,
    parts: &[Term],
    machine: &mut Machine,
    world: &mut W,
) -> Result<Option<Value>, Halt>
    requires { HasParts one_term (views parts.now) }
    ensures means { (around : _) (at : _) → Acts here.entry around does.LNot at
        parts.now result (now machine.old (W.log world.old)) (now machine.new (W.log world.new)) }
    ensures falls { machine.new.steps ≤ machine.old.steps }
{
    let a = one(parts);
    let x = value(alloc, here, a, machine, world)?;
    let said = negated(here.scene, a.at, &x)?;
    Ok(Some(Value::Int(said)))
}

/// An integer divided by another: the remainder is stored, then the quotient.
#[cycle(value)]
pub(super) fn eval_divide<W: World>(
    alloc: Global,
    here: Setting<'_>,
    parts: &[Term],
    machine: &mut Machine,
    world: &mut W,
) -> Result<Option<Value>, Halt>
    requires { HasParts two_terms_and_two_targets (views parts.now) }
    ensures means { (around : _) (at : _) → Acts here.entry around does.Divide at
        parts.now result (now machine.old (W.log world.old)) (now machine.new (W.log world.new)) }
    ensures falls { machine.new.steps ≤ machine.old.steps }
{
    let (a, b, remainder, quotient) = four(parts);
    let x = value(alloc, here, a, machine, world)?;
    let y = value(alloc, here, b, machine, world)?;
    let division = divided(here.scene, a.at, &x, b.at, &y)?;
    let left = Value::Int(division.remainder);
    let often = Value::Int(division.quotient);
    store(alloc, here, remainder, left, machine, world)?;
    store(alloc, here, quotient, often, machine, world)?;
    Ok(Some(Value::Int(division.quotient)))
}

/// A value as one of another kind, stored.
#[cycle(value)]
pub(super) fn eval_convert<W: World>(
    alloc: Global,
    here: Setting<'_>,
    conversion: Conversion,
    at: usize,
    parts: &[Term],
    machine: &mut Machine,
    world: &mut W,
) -> Result<Option<Value>, Halt>
    requires { HasParts term_and_target (views parts.now) }
    ensures means { (around : _) → Acts here.entry around (does.Convert conversion) at
        parts.now result (now machine.old (W.log world.old)) (now machine.new (W.log world.new)) }
    ensures falls { machine.new.steps ≤ machine.old.steps }
{
    let (a, target) = two(parts);
    let x = operand(alloc, here, a, None, machine, world)?;
    let given = converted_from(alloc, here.scene, conversion, at, a.at, x, machine)?;
    store_kept(alloc, here, target, given, machine, world)
}

/// Two buffers or two strings joined, stored.
#[cycle(value)]
pub(super) fn eval_concatenate<W: World>(
    alloc: Global,
    here: Setting<'_>,
    at: usize,
    parts: &[Term],
    machine: &mut Machine,
    world: &mut W,
) -> Result<Option<Value>, Halt>
    requires { HasParts two_terms_and_target (views parts.now) }
    ensures means { (around : _) → Acts here.entry around does.Concatenate at
        parts.now result (now machine.old (W.log world.old)) (now machine.new (W.log world.new)) }
    ensures falls { machine.new.steps ≤ machine.old.steps }
{
    let (a, b, target) = three(parts);
    let x = value(alloc, here, a, machine, world)?;
    let y = operand(alloc, here, b, None, machine, world)?;
    let given = concatenated_with(here.scene, at, a.at, x, b.at, &y, machine)?;
    store_kept(alloc, here, target, given, machine, world)
}

/// A method's end with a value, where it holds no mutex.
#[cycle(value)]
pub(super) fn eval_return<W: World>(
    alloc: Global,
    here: Setting<'_>,
    at: usize,
    parts: &[Term],
    machine: &mut Machine,
    world: &mut W,
) -> Result<Option<Value>, Halt>
    requires { HasParts one_term (views parts.now) }
    ensures means { (around : _) → Acts here.entry around does.Return at
        parts.now result (now machine.old (W.log world.old)) (now machine.new (W.log world.new)) }
    ensures falls { machine.new.steps ≤ machine.old.steps }
{
    let returned = value(alloc, here, one(parts), machine, world)?;
    none_held(here.scene, at, machine)?;
    Err(Halt::Returned(returned))
}

/// An object notified with an integer.
#[cycle(value)]
pub(super) fn eval_notify<W: World>(
    alloc: Global,
    here: Setting<'_>,
    parts: &[Term],
    machine: &mut Machine,
    world: &mut W,
) -> Result<Option<Value>, Halt>
    requires { HasParts name_and_term (views parts.now) }
    ensures means { (around : _) (at : _) → Acts here.entry around does.Notify at
        parts.now result (now machine.old (W.log world.old)) (now machine.new (W.log world.new)) }
    ensures falls { machine.new.steps ≤ machine.old.steps }
{
    let (o, a) = two(parts);
    let object = notified(here.scene, action_of(o.op), o.at, machine)?;
    let x = value(alloc, here, a, machine, world)?;
    let id = notice(here.scene, o.at, object)?;
    let number = integer(here.scene, a.at, &x)?;
    notify(id, number, machine, world)?;
    Ok(None)
}

/// A pause of so many units of time.
#[cycle(value)]
pub(super) fn eval_pause<W: World>(
    alloc: Global,
    here: Setting<'_>,
    asked: Pause,
    parts: &[Term],
    machine: &mut Machine,
    world: &mut W,
) -> Result<Option<Value>, Halt>
    requires { HasParts one_term (views parts.now) }
    ensures means { (around : _) (at : _) → Acts here.entry around (does.Pause asked) at
        parts.now result (now machine.old (W.log world.old)) (now machine.new (W.log world.new)) }
    ensures falls { machine.new.steps ≤ machine.old.steps }
{
    let a = one(parts);
    let x = value(alloc, here, a, machine, world)?;
    let number = integer(here.scene, a.at, &x)?;
    pause(asked, number, machine, world)?;
    Ok(None)
}
