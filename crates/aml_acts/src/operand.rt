// What asks for no other term's value.

ghost use Rattle.std.specs.Prelude.{◌≡◌, ◌≤◌};
ghost use Rattle.aml_values.specs.Views.{view};
ghost use Rattle.aml_operators.specs.Tree.{Trees};
ghost use Rattle.aml_regions.specs.Events.{Log};
ghost use Rattle.aml_meaning.specs.declared.action.Action.TheVariants as does;
ghost use Rattle.aml_meaning.specs.Meaning.{act, asked, changed_in_place, is_there, measured, named_seen, sizeless, takes_operand, untargeted};
ghost use Rattle.aml_meaning.specs.Runs.{Runs};
ghost use Rattle.aml_machine.specs.Views.{now, value_of};
ghost use Rattle.aml_scene.specs.Tells.{setting_in, told, went};

use crate::contents;
use crate::own_name::own_seen;
use crate::slots::{held, seen};
use aml_machine::Machine;
use aml_meaning::{Action, AmlCause};
use aml_namespace::Link;
use aml_rules::truth;
use aml_scene::halt::{Halt, Scene, fails};
use aml_scene::own::link_of;
use aml_scene::rules::sized;
use aml_scene::steps::take_step;
use aml_values::Value;
use std::alloc::Global;

/// A local's value. A1 at its place where it is unset.
pub fn local(
    alloc: Global,
    scene: &Scene<'_>,
    k: u8,
    at: usize,
    machine: &Machine,
) -> Result<Option<Value>, Halt>
    ensures { (call : _) (parts : Trees) (log : Log) → Runs (told value_of result)
        (act (setting_in scene.now call) (does.Local k) at parts)
        (now machine.now log) (now machine.now log) }
{
    let content = held(alloc, scene, at, &machine.frame.locals, k)?;
    Ok(Some(content))
}

/// An argument's value. A1 at its place where it is unset.
pub fn argument(
    alloc: Global,
    scene: &Scene<'_>,
    k: u8,
    at: usize,
    machine: &Machine,
) -> Result<Option<Value>, Halt>
    ensures { (call : _) (parts : Trees) (log : Log) → Runs (told value_of result)
        (act (setting_in scene.now call) (does.Argument k) at parts)
        (now machine.now log) (now machine.now log) }
{
    let content = held(alloc, scene, at, &machine.frame.args, k)?;
    Ok(Some(content))
}

/// Why what a name means has no size.
fn sizeless(link: Link) -> AmlCause
    ensures { result ≡ sizeless link }
{
    match link {
        Link::Missing => AmlCause::Missing,
        _ => AmlCause::Kind,
    }
}

/// What SizeOf measures of a name, where it stands.
fn named_seen<'a>(scene: &Scene<'_>, at: usize, machine: &'a Machine) -> Result<&'a Value, Halt>
    ensures { (call : _) (log : Log) → let s = setting_in scene.now call in
        Runs (told (λ v. view v.now) result) (named_seen s (s.link at) at)
        (now machine.now log) (now machine.now log) }
{
    match link_of(scene, at) {
        Link::Data(id) => contents::seen(scene, at, id, machine),
        Link::Own(number) => own_seen(scene, at, number, machine),
        link => Err(fails(sizeless(link), scene, at)),
    }
}

/// How large the value of a name, a local or an argument is, for SizeOf. At its place A5 where the
/// name names nothing, A1 where it holds nothing, A2 where that has no size, and A6, with a step,
/// where no name, local or argument stands.
pub fn measured(
    scene: &Scene<'_>,
    action: Action,
    at: usize,
    machine: &mut Machine,
) -> Result<Value, Halt>
    ensures means { (call : _) (log : Log) → Runs (told view result)
        (measured (setting_in scene.now call) action at)
        (now machine.old log) (now machine.new log) }
    ensures falls { machine.new.steps ≤ machine.old.steps }
{
    match action {
        Action::Local(k) => {
            let held = seen(scene, at, &machine.frame.locals, k)?;
            sized(scene, at, held)
        }
        Action::Argument(k) => {
            let held = seen(scene, at, &machine.frame.args, k)?;
            sized(scene, at, held)
        }
        Action::Name => {
            let held = named_seen(scene, at, machine)?;
            sized(scene, at, held)
        }
        _ => {
            take_step(machine)?;
            Err(fails(AmlCause::Outside, scene, at))
        }
    }
}

/// Whether a name names something.
fn is_there(link: Link) -> bool
    ensures { result ≡ is_there link }
{
    match link {
        Link::Missing => false,
        _ => true,
    }
}

/// Whether the name at a place, asked of with a target, names something. A6 at the operator where
/// there is a target.
fn asked_name(
    scene: &Scene<'_>,
    target: Action,
    at: usize,
    from: usize,
) -> Result<Option<Value>, Halt>
    ensures { (call : _) (s : _) → Runs (told value_of result)
        (asked (setting_in scene.now call) does.Name target at from) s s }
{
    match target {
        Action::NoTarget => {
            let there = is_there(link_of(scene, from));
            Ok(Some(Value::Int(truth(scene.width, there))))
        }
        _ => Err(fails(AmlCause::Outside, scene, at)),
    }
}

/// Whether what stands at a place names something, for a CondRefOf at another with a target. A6 at
/// the operator where it is no name, or where there is a target.
pub fn asked(
    scene: &Scene<'_>,
    what: Action,
    target: Action,
    at: usize,
    from: usize,
) -> Result<Option<Value>, Halt>
    ensures { (call : _) (s : _) → Runs (told value_of result)
        (asked (setting_in scene.now call) what target at from) s s }
{
    match what {
        Action::Name => asked_name(scene, target, at, from),
        _ => Err(fails(AmlCause::Outside, scene, at)),
    }
}

/// That an Index has no target of its own. A6 at the Index where it has one.
pub fn untargeted(scene: &Scene<'_>, at: usize, target: Action) -> Result<(), Halt>
    ensures { (call : _) (s : _) → Runs (went result)
        (untargeted (setting_in scene.now call) at target) s s }
{
    match target {
        Action::NoTarget => Ok(()),
        _ => Err(fails(AmlCause::Outside, scene, at)),
    }
}

/// Whether a Store into this target may be an operand.
pub fn takes_operand(target: Action) -> bool
    ensures { result ≡ takes_operand target }
{
    match target {
        Action::Local(_) | Action::Argument(_) | Action::NoTarget | Action::Debug => true,
        _ => false,
    }
}

/// That what Increment or Decrement changes is no DerefOf. A6 there, with a step, where it is one.
pub fn changed_in_place(
    scene: &Scene<'_>,
    action: Action,
    at: usize,
    machine: &mut Machine,
) -> Result<(), Halt>
    ensures means { (call : _) (log : Log) → Runs (went result)
        (changed_in_place (setting_in scene.now call) action at)
        (now machine.old log) (now machine.new log) }
    ensures falls { machine.new.steps ≤ machine.old.steps }
{
    match action {
        Action::Dereference => {
            take_step(machine)?;
            Err(fails(AmlCause::Outside, scene, at))
        }
        _ => Ok(()),
    }
}
