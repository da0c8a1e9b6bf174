// Names with their arguments, methods that are called, and their bodies.

ghost use Rattle.std.specs.Prelude.{◌<◌, ◌≤◌, IsSome, map};
ghost use Rattle.aml_values.specs.Views as values;
ghost use Rattle.aml_operators.specs.declared.row.Code.TheVariants as code;
ghost use Rattle.aml_operators.specs.Shape.{AreShaped, IsShaped};
ghost use Rattle.aml_operators.specs.Tree.{view, views};
ghost use Rattle.aml_namespace.specs.Names.{method_at};
ghost use Rattle.aml_namespace.specs.Shows.{shown};
ghost use Rattle.aml_meaning.specs.declared.action.Action.TheVariants as does;
ghost use Rattle.aml_meaning.specs.Meaning.{value, values};
ghost use Rattle.aml_meaning.specs.declared.definition.Definition.TheVariants as makes;
ghost use Rattle.aml_meaning.specs.Definitions.{made, mean_method, statement};
ghost use Rattle.aml_scene.specs.Letters.{HasParts, invoked_name, name_and_data};
ghost use Rattle.aml_machine.specs.Views.{now, value_of};
ghost use Rattle.aml_plain.specs.Roughly.{Runs};
ghost use Rattle.aml_plain.specs.Tells.{Acts, setting_of};
ghost use Rattle.aml_scene.specs.Tells.{place_in, told, values_of, went};

use crate::callee::callee_of;
use crate::define::{counted_field, sized_field};
use crate::eval::terms::{run, value};
use crate::form::first_or;
use crate::operand::size;
use crate::setting::Setting;
use aml_acts::contents;
use aml_acts::mutex::none_held;
use aml_acts::operand::argument;
use aml_acts::target::named;
use aml_machine::{Arguments, Machine};
use aml_meaning::{AmlCause, Definition, definition_of};
use aml_namespace::Link;
use aml_operators::{Term, first_and_rest, two};
use aml_paths::ObjectId;
use aml_regions::World;
use aml_scene::halt::{Halt, fails, leave};
use aml_scene::interfaces::interface_asked;
use aml_scene::own::{link_of, makes_own};
use aml_scene::scene::Scene;
use aml_scene::steps::take_step;
use aml_values::Value;
use std::alloc::Global;

/// What a name means, with its arguments. Those of a name that means nothing are not evaluated.
#[cycle(value)]
pub(super) fn eval_invoke<W: World>(
    alloc: Global,
    here: Setting<'_>,
    parts: &[Term],
    machine: &mut Machine,
    world: &mut W,
) -> Result<Option<Value>, Halt>
    requires { HasParts invoked_name (views parts.now) }
    ensures means { (around : _) (at : _) → Acts here.entry around does.Invoke at
        parts.now result (now machine.old (W.log world.old)) (now machine.new (W.log world.new)) }
    ensures falls { machine.new.steps ≤ machine.old.steps }
{
    let (name, arguments) = first_and_rest(parts);
    match link_of(here.scene, name.at) {
        Link::Method(id) => {
            let given = eval_arguments(alloc, here, arguments, machine, world)?;
            call(alloc, here, name.at, id, given, machine, world)
        }
        Link::OsInterfaces => {
            let given = eval_arguments(alloc, here, arguments, machine, world)?;
            interface_asked(here.scene, name.at, first_or(arguments, name.at), &given)
        }
        _ => named(alloc, here.scene, name.at, machine, world),
    }
}

/// The values of arguments, from the first to the last.
#[cycle(value)]
pub(super) fn eval_arguments<W: World>(
    alloc: Global,
    here: Setting<'_>,
    arguments: &[Term],
    machine: &mut Machine,
    world: &mut W,
) -> Result<Vec<Value>, Halt>
    requires { AreShaped code.Body (views arguments.now) }
    ensures means { (around : _) → Runs (told values_of result)
        (values (setting_of here.entry around) (views arguments.now))
        (now machine.old (W.log world.old)) (now machine.new (W.log world.new)) }
    ensures falls { machine.new.steps ≤ machine.old.steps }
{
    let mut given = Vec::new(alloc);
    for argument in arguments {
        let each = value(alloc, here, argument, machine, world)?;
        given.push(each)?;
    }
    Ok(given)
}

/// A method called from a place. A6 there where its body doesn't parse, A9 where it would be the
/// 65th. By a call of its own, so that the caller's frame, which lies on the stack meanwhile, lies
/// there once for each method that is active and not once for each term.
#[cycle(value)]
#[inline(never)]
pub(super) fn call<W: World>(
    alloc: Global,
    here: Setting<'_>,
    at: usize,
    id: ObjectId,
    given: Vec<Value>,
    machine: &mut Machine,
    world: &mut W,
) -> Result<Option<Value>, Halt>
    requires { IsSome (method_at (shown here.scene.now.namespace.now) id.0) }
    ensures means { (around : _) →
        let s = setting_of here.entry around in Runs (told value_of result)
        (s.call (place_in here.entry.scene.now at) id.0 (map values.view given.items))
        (now machine.old (W.log world.old)) (now machine.new (W.log world.new)) }
    ensures falls { machine.new.steps ≤ machine.old.steps }
{
    let callee = callee_of(alloc, here, at, id)?;
    let body = callee.prepared();
    if here.depth == 0 {
        return Err(fails(AmlCause::Depth, here.scene, at));
    }
    let scene = Scene {
        table: body.table,
        opcode: body.opcode,
        width: here.scene.namespace.width(),
        namespace: here.scene.namespace,
        method: id,
        bytes: here.scene.namespace.body_bytes(id),
        owns: &body.owns,
        links: &body.links,
    };
    let inside = Setting {
        scene: &scene,
        bodies: here.bodies,
        depth: here.depth - 1,
    };
    let mut called = machine.enter(alloc, Arguments::of(given));
    let ended = eval_body(alloc, inside, &body.body, &mut called, world);
    machine.take_back(alloc, &mut called);
    leave(scene.table, ended)
}

/// An own name is made of its data. A6 at the opcode where its name may not be one, or is made
/// already.
#[cycle(value)]
pub(super) fn eval_name<W: World>(
    alloc: Global,
    here: Setting<'_>,
    at: usize,
    parts: &[Term],
    machine: &mut Machine,
    world: &mut W,
) -> Result<(), Halt>
    requires { HasParts name_and_data (views parts.now) }
    ensures means { (around : _) → Runs (went result)
        (made (setting_of here.entry around) makes.Name at (views parts.now))
        (now machine.old (W.log world.old)) (now machine.new (W.log world.new)) }
    ensures falls { machine.new.steps ≤ machine.old.steps }
{
    let (name, data) = two(parts);
    if makes_own(here.scene, name.at) {
        let held = value(alloc, here, data, machine, world)?;
        contents::define_own(alloc, here.scene, held, machine)
    } else {
        Err(fails(AmlCause::Outside, here.scene, at))
    }
}

/// A statement at the top of a method's body, whose value is dropped.
#[cycle(value)]
pub(super) fn eval_statement<W: World>(
    alloc: Global,
    here: Setting<'_>,
    term: &Term,
    machine: &mut Machine,
    world: &mut W,
) -> Result<(), Halt>
    requires { IsShaped code.Body (view term.now) }
    ensures means { (around : _) → Runs (went result)
        (statement (setting_of here.entry around) (view term.now))
        (now machine.old (W.log world.old)) (now machine.new (W.log world.new)) }
    ensures falls { machine.new.steps ≤ machine.old.steps }
{
    match definition_of(term.op) {
        Definition::Name => {
            take_step(machine)?;
            eval_name(alloc, here, term.at, &term.parts, machine, world)
        }
        Definition::Field(size) => sized_field(alloc, here, size, term.at, &term.parts, machine),
        Definition::CountedField => counted_field(alloc, here, term.at, &term.parts, machine),
        Definition::Nothing => run(alloc, here, term, machine, world),
    }
}

/// A method: the statements of its body, one after the other, and its end, where it holds no mutex.
#[cycle(value)]
pub fn eval_body<W: World>(
    alloc: Global,
    here: Setting<'_>,
    body: &[Term],
    machine: &mut Machine,
    world: &mut W,
) -> Result<(), Halt>
    requires { AreShaped code.Body (views body.now) }
    ensures means { (around : _) → Runs (went result)
        (mean_method (setting_of here.entry around) (views body.now))
        (now machine.old (W.log world.old)) (now machine.new (W.log world.new)) }
    ensures falls { machine.new.steps ≤ machine.old.steps }
{
    for term in body {
        eval_statement(alloc, here, term, machine, world)?;
    }
    none_held(here.scene, here.scene.opcode, machine)
}
