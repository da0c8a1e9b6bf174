// A method's evaluation, from the bytes of its body.

ghost use Rattle.std.specs.Prelude.{◌≡◌, IfNone, IfSome, IsSome, List, Some, map};
ghost use Rattle.aml_values.specs.Views as values;
ghost use Rattle.aml_operators.specs.Tree.{Tree, trees};
ghost use Rattle.aml_objects.specs.declared.object.Method.{Method};
ghost use Rattle.aml_namespace.specs.Names.{IsBodyOf, method_at};
ghost use Rattle.aml_namespace.specs.Shows.{shown};
ghost use Rattle.aml_machine.specs.Views.{names_of};
ghost use Rattle.aml_bodies.specs.Kept.{kept_at};
ghost use Rattle.aml_quick.specs.Keeps.{AreSound, IsKept};
ghost use Rattle.aml_direct.specs.Methods.{Evaluates, Spares};

use crate::eval::calls::eval_body;
use aml_bodies::Kept;
use aml_contents::Names;
use aml_machine::{Arguments, Frame, Machine, Mutexes};
use aml_meaning::Outcome;
use aml_namespace::Namespace;
use aml_paths::{NoMemory, ObjectId};
use aml_quick::{Here, kept_in};
use aml_regions::World;
use aml_scene::halt::outcome_of;
use aml_scene::scene::Scene;
use aml_values::Value;
use std::alloc::Global;
use std::mem;

/// How many methods may be active within the first.
const MOST_WITHIN: u8 = 63;

/// Evaluates a method straight from the bytes of its table, with its arguments and at most so many
/// steps, over what names hold and a world. No tree is made.
///
/// The outcome is that of the meaning of the tree that the grammar ties to those bytes, where
/// mutexes are not watched: its value or none, its error at its table and place, or out of steps;
/// and so are what names hold afterwards and the events that the world gained. Want of memory comes
/// where the world refuses a call, or where the meaning says that memory is wanted: names and
/// events are then those of the meaning with fewer steps. Arguments behind the seventh are not
/// looked at.
pub fn evaluate_direct<W: World>(
    alloc: Global,
    namespace: &Namespace<'_>,
    kept: &[Option<Kept>],
    names: &mut Names,
    method: ObjectId,
    arguments: Vec<Value>,
    world: &mut W,
    fuel: u64,
) -> Result<Outcome, NoMemory>
    requires known { IsSome (method_at (shown namespace.now) method.0) }
    requires kept { AreSound (shown namespace.now) kept.now }
    requires first { IsSome (kept_at kept.now method.0) }
    ensures means { let ns = shown namespace.now in
        (m : Method) → method_at ns method.0 ≡ Some m → (ts : List Tree) →
        IsBodyOf ns method.0 m ts →
        Evaluates ns method.0 m (trees ts) (map values.view arguments.items) fuel
        (names_of names.old) (W.log world.old)
        result (names_of names.new) (W.log world.new) }
    ensures spares { let ns = shown namespace.now in
        (m : Method) → method_at ns method.0 ≡ Some m → (ts : List Tree) →
        IsBodyOf ns method.0 m ts →
        Spares ns method.0 m (trees ts) (map values.view arguments.items) fuel
        (names_of names.old) (W.log world.old) result (W.log world.new) }
{
    let Some(body) = kept_in(kept, method) else {
        unreachable!()
    };
    let bytes = namespace.body_bytes(method);
    let scene = Scene {
        table: body.table,
        opcode: body.opcode,
        width: namespace.width(),
        namespace,
        method,
        bytes,
        owns: &body.owns,
        links: &body.links,
    };
    let here = Here {
        scene: &scene,
        kept,
        depth: MOST_WITHIN,
        asks_calls: true,
    };
    let mut machine = Machine {
        frame: Frame::new(alloc, Mutexes::unwatched(alloc), Arguments::of(arguments)),
        names: mem::replace(names, Names::new(alloc)),
        steps: fuel,
    };
    let ended = eval_body(alloc, here, bytes, body.start, &mut machine, world);
    *names = machine.names;
    outcome_of(scene.table, ended)
}
