// A method's evaluation, from the bytes of its table.

ghost use Rattle.std.specs.Prelude.{◌≡◌, List, Some, IsSome, map};
ghost use Rattle.aml_values.specs.Views as values;
ghost use Rattle.aml_operators.specs.Tree.{Tree, trees, view, views};
ghost use Rattle.aml_objects.specs.declared.object.Method.{Method};
ghost use Rattle.aml_namespace.specs.Shows.{shown};
ghost use Rattle.aml_namespace.specs.Names.{method_at, IsBodyOf};
ghost use Rattle.aml_bodies.specs.Methods.{AreStatementsOf};
ghost use Rattle.aml_plain.specs.Methods.{Evaluates, Parses};
ghost use Rattle.aml_machine.specs.Views.{names_of};

use crate::body::evaluate_body;
use crate::setting::Setting;
use aml_bodies::{Bodies, prepare_body};
use aml_contents::Names;
use aml_meaning::Outcome;
use aml_namespace::Namespace;
use aml_paths::{NoMemory, ObjectId};
use aml_regions::World;
use aml_scene::scene::Scene;
use aml_tree::{Term, TreeFault};
use aml_values::Value;
use std::alloc::Global;

/// How many methods may be active within the first.
const MOST_WITHIN: u8 = 63;

/// Evaluates a method whose body is read already, as `Namespace::tree` answers it, with its
/// arguments and at most so many steps, over what names hold and a world.
///
/// After an AML error, at the end of the steps and for want of memory, names and world are as the
/// steps so far left them.
pub fn evaluate_tree<W: World>(
    alloc: Global,
    namespace: &Namespace<'_>,
    names: &mut Names,
    method: ObjectId,
    body: Vec<Term>,
    arguments: Vec<Value>,
    world: &mut W,
    fuel: u64,
) -> Result<Outcome, NoMemory>
    requires known { IsSome (method_at (shown namespace.now) method.0) }
    requires read { AreStatementsOf (shown namespace.now) method.0 (map view body.items) }
    ensures { let ns = shown namespace.now in (m : Method) → method_at ns method.0 ≡ Some m →
        Evaluates ns method.0 m (views body.items) (map values.view arguments.items) fuel
        (names_of names.old) (W.log world.old)
        result (names_of names.new) (W.log world.new) }
{
    let prepared = prepare_body(alloc, namespace, method, body)?;
    let bodies = Bodies::of(alloc, namespace, method, prepared)?;
    let first = &bodies.first;
    let scene = Scene {
        table: first.table,
        opcode: first.opcode,
        width: namespace.width(),
        namespace,
        method,
        bytes: namespace.body_bytes(method),
        owns: &first.owns,
        links: &first.links,
    };
    let here = Setting {
        scene: &scene,
        bodies: &bodies,
        depth: MOST_WITHIN,
    };
    evaluate_body(alloc, here, &first.body, arguments, names, world, fuel)
}

/// Evaluates a method from the bytes of its table, with its arguments and at most so many steps,
/// over what names hold and a world.
///
/// The outcome is the definition's of the tree that the grammar ties to those bytes: its value or
/// none, its error at its table and place, or out of steps; and so are what names hold afterwards
/// and the events that the world gained. The caller knows that the body parses. Want of memory may
/// come anywhere: names and events are then those of the definition with fewer steps.
pub fn evaluate_plain<W: World>(
    alloc: Global,
    namespace: &Namespace<'_>,
    names: &mut Names,
    method: ObjectId,
    arguments: Vec<Value>,
    world: &mut W,
    fuel: u64,
) -> Result<Outcome, NoMemory>
    requires known { IsSome (method_at (shown namespace.now) method.0) }
    requires parses { Parses (shown namespace.now) method.0 }
    ensures { let ns = shown namespace.now in
        (m : Method) → method_at ns method.0 ≡ Some m → (ts : List Tree) →
        IsBodyOf ns method.0 m ts →
        Evaluates ns method.0 m (trees ts) (map values.view arguments.items) fuel
        (names_of names.old) (W.log world.old)
        result (names_of names.new) (W.log world.new) }
{
    match namespace.tree(alloc, method) {
        Ok(body) => evaluate_tree(
            alloc, namespace, names, method, body, arguments, world, fuel,
        ),
        Err(TreeFault::NoMemory) => Err(NoMemory),
        Err(TreeFault::Refused(_)) => unreachable!(),
    }
}
