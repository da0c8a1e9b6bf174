// Terms whose value asks for no other term's.

ghost use Rattle.std.specs.Prelude.{◌≡◌, ◌≤◌, Some, ◌<◌, Ok, OnOk};
ghost use Rattle.aml_operators.specs.declared.row.Spot.TheVariants as spot;
ghost use Rattle.aml_operators.specs.Shape.{operator_of, part_letters};
ghost use Rattle.aml_operators.specs.Tree.{trees};
ghost use Rattle.aml_regions.specs.Events.{Log};
ghost use Rattle.aml_meaning.specs.Actions.{action};
ghost use Rattle.aml_meaning.specs.declared.action.Action.TheVariants as does;
ghost use Rattle.aml_meaning.specs.Meaning.{given, value};
ghost use Rattle.aml_machine.specs.Views.{now, value_of};
ghost use Rattle.aml_scene.specs.Letters.{name_and_target, one_name};
ghost use Rattle.aml_places.specs.Lies.{LiesTarget, StandParts, Stands};
ghost use Rattle.aml_scene.specs.Tells.{told};
ghost use Rattle.aml_values.specs.Views as values;
ghost use Rattle.aml_meaning.specs.Runs.{Runs};
ghost use Rattle.aml_quick.specs.Settings.{count_of, setting_of};
ghost use Rattle.aml_direct.specs.Tells.{Acts};

use aml_acts::operand::{argument, asked, local, measured};
use aml_acts::target::named;
use aml_literals::literal_number;
use aml_machine::Machine;
use aml_meaning::{Action, AmlCause, action_of};
use aml_operators::Op;
use aml_places::target_at;
use aml_quick::Here;
use aml_regions::World;
use aml_scene::halt::{Halt, fails, want};
use aml_scene::steps::take_step;
use aml_values::Value;
use std::alloc::Global;

/// An integer literal's value, and the place behind it.
pub fn literal(here: Here<'_>, op: Op, bytes: &[u8], at: usize) -> (Value, usize)
    requires literal { action op ≡ does.Literal op }
    requires there { StandParts (count_of here.scene.now) (part_letters op) bytes.now at }
    ensures { (around : _) (own : _) (s : _) → Acts here.entry around
        (does.Literal op) (part_letters op) bytes.now own at (Ok (Some result.0, result.1)) s s }
{
    let (number, next) = literal_number(op, bytes, at);
    (Value::Int(here.scene.width.wrapped(number)), next)
}

/// How large the value of a name, a local or an argument is.
pub fn size(
    here: Here<'_>,
    bytes: &[u8],
    at: usize,
    machine: &mut Machine,
) -> Result<(Option<Value>, usize), Halt>
    requires { StandParts (count_of here.scene.now) one_name bytes.now at }
    ensures means { (around : _) (own : _) (log : Log) → Acts here.entry around
        does.SizeOf one_name bytes.now own at result (now machine.old log) (now machine.new log) }
    ensures falls { machine.new.steps ≤ machine.old.steps }
{
    let (op, next) = target_at(bytes, at);
    let size = measured(here.scene, action_of(op), at, machine)?;
    Ok((Some(size), next))
}

/// Whether something has a name.
pub fn condition(
    here: Here<'_>,
    own: usize,
    bytes: &[u8],
    at: usize,
) -> Result<(Option<Value>, usize), Halt>
    requires { StandParts (count_of here.scene.now) name_and_target bytes.now at }
    ensures { (around : _) (s : _) → Acts here.entry around
        does.CondRefOf name_and_target bytes.now own at result s s }
{
    let (op, second) = target_at(bytes, at);
    let Action::Name = action_of(op) else {
        return Err(fails(AmlCause::Outside, here.scene, own));
    };
    let (target, next) = target_at(bytes, second);
    let said = asked(here.scene, Action::Name, action_of(target), own, at)?;
    Ok((said, next))
}

/// What a name, a local or an argument holds that stands where it is changed. A6 at its place where
/// it is none of these.
fn held_there<W: World>(
    alloc: Global,
    here: Here<'_>,
    op: Op,
    at: usize,
    machine: &mut Machine,
    world: &mut W,
) -> Result<Option<Value>, Halt>
    requires { action op ≡ does.Dereference → ⊥ }
    ensures means { (around : _) (bytes : _) (t : _) →
        LiesTarget (count_of here.entry.scene.now) bytes at t → operator_of t ≡ op → (parts : _) →
        Runs (told value_of result) (given (setting_of here.entry around) (action op) at parts)
        (now machine.old (W.log world.old)) (now machine.new (W.log world.new)) }
    ensures falls { machine.new.steps ≤ machine.old.steps }
{
    match action_of(op) {
        Action::Name => named(alloc, here.scene, at, machine, world),
        Action::Local(k) => local(alloc, here.scene, k, at, machine),
        Action::Argument(k) => argument(alloc, here.scene, k, at, machine),
        _ => Err(fails(AmlCause::Outside, here.scene, at)),
    }
}

/// The value of a name, a local or an argument that stands where it is changed, with its step. A6
/// at its place where it is none of these.
pub fn changed<W: World>(
    alloc: Global,
    here: Here<'_>,
    op: Op,
    at: usize,
    machine: &mut Machine,
    world: &mut W,
) -> Result<Value, Halt>
    requires { action op ≡ does.Dereference → ⊥ }
    ensures means { (around : _) (bytes : _) (t : _) →
        LiesTarget (count_of here.entry.scene.now) bytes at t → operator_of t ≡ op →
        Runs (told values.view result) (value (setting_of here.entry around) t)
        (now machine.old (W.log world.old)) (now machine.new (W.log world.new)) }
    ensures takes { OnOk result (machine.new.steps < machine.old.steps) }
    ensures falls { machine.new.steps ≤ machine.old.steps }
{
    take_step(machine)?;
    let answer = held_there(alloc, here, op, at, machine, world)?;
    want(here.scene, at, answer)
}
