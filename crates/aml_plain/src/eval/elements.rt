// Elements of buffers, strings and packages that are read.

ghost use Rattle.std.specs.Prelude.{◌<◌, ◌≤◌, IfOk, Some};
ghost use Rattle.std.specs.Option.{option_map};
ghost use Rattle.aml_operators.specs.Tree.{view, views};
ghost use Rattle.aml_meaning.specs.declared.action.Action.TheVariants as does;
ghost use Rattle.aml_meaning.specs.Meaning.{act, value};
ghost use Rattle.aml_scene.specs.Letters.{HasParts, one_term};
ghost use Rattle.aml_plain.specs.Roughly.{Runs};
ghost use Rattle.aml_plain.specs.Standing.{IsLeftIn};
ghost use Rattle.aml_scene.specs.Standing.{seen_in};
ghost use Rattle.aml_machine.specs.Views.{now};
ghost use Rattle.aml_plain.specs.Tells.{Acts, setting_of};
ghost use Rattle.aml_scene.specs.Tells.{told};

use crate::eval::terms::{operand, value};
use crate::setting::Setting;
use crate::standing::element_of;
use aml_acts::operand::untargeted;
use aml_machine::Machine;
use aml_meaning::{Action, AmlCause, action_of};
use aml_operators::{Term, one, three};
use aml_regions::World;
use aml_scene::halt::{Halt, fails};
use aml_scene::standing::{Operand, taken};
use aml_scene::steps::take_step;
use aml_values::Value;
use std::alloc::Global;

/// What an Index leads to, where its value is wanted.
#[cycle(value)]
pub(super) fn eval_dereference<W: World>(
    alloc: Global,
    here: Setting<'_>,
    at: usize,
    parts: &[Term],
    machine: &mut Machine,
    world: &mut W,
) -> Result<Option<Value>, Halt>
    requires { HasParts one_term (views parts.now) }
    ensures means { (around : _) → Acts here.entry around does.Dereference at
        parts.now result (now machine.old (W.log world.old)) (now machine.new (W.log world.new)) }
    ensures falls { machine.new.steps ≤ machine.old.steps }
{
    let element = dereferenced(alloc, here, at, parts, None, machine, world)?;
    let value = taken(alloc, element, machine)?;
    Ok(Some(value))
}

/// What an Index leads to as an operand: a byte or an element of a value, at an index of its own
/// place.
#[cycle(value)]
#[inline(never)]
pub(super) fn dereferenced<W: World>(
    alloc: Global,
    here: Setting<'_>,
    at: usize,
    parts: &[Term],
    behind: Option<&Term>,
    machine: &mut Machine,
    world: &mut W,
) -> Result<Operand, Halt>
    requires { HasParts one_term (views parts.now) }
    ensures means { (around : _) → Runs (told (λ o. Some (seen_in machine.new o)) result)
        (act (setting_of here.entry around) does.Dereference at (views parts.now))
        (now machine.old (W.log world.old)) (now machine.new (W.log world.new)) }
    ensures left { (around : _) → IfOk result (IsLeftIn (setting_of here.entry around)
        (option_map (λ t. view t.now) behind.entry) machine.new) }
    ensures falls { machine.new.steps ≤ machine.old.steps }
{
    let index = one(parts);
    match action_of(index.op) {
        Action::Index => {
            let (a, b, target) = three(&index.parts);
            take_step(machine)?;
            untargeted(here.scene, index.at, action_of(target.op))?;
            let x = operand(alloc, here, a, Some(b), machine, world)?;
            let i = value(alloc, here, b, machine, world)?;
            element_of(alloc, here, index.at, a.at, x, b.at, &i, behind, machine)
        }
        _ => Err(fails(AmlCause::Outside, here.scene, at)),
    }
}
