// Names and targets: what is read by a name alone, and what a store does.

ghost use Rattle.std.specs.Prelude.{◌≡◌, ◌≤◌};
ghost use Rattle.aml_values.specs.Views as values;
ghost use Rattle.aml_meaning.specs.Meaning.{named, named_target, put, unwritable};
ghost use Rattle.aml_meaning.specs.Runs.{Runs};
ghost use Rattle.aml_machine.specs.Views.{now, value_of};
ghost use Rattle.aml_scene.specs.Tells.{setting_in, told, went};

use crate::buffer_field::{buffer_field_read, buffer_field_stored, named_buffer_field};
use crate::contents;
use crate::field::{field_read, field_stored};
use crate::own_name::{own_held, own_stored};
use aml_machine::Machine;
use aml_meaning::{Action, AmlCause};
use aml_namespace::Link;
use aml_regions::World;
use aml_scene::halt::{Halt, Scene, fails};
use aml_scene::own::link_of;
use aml_scene::steps::take_step;
use aml_values::Value;
use std::alloc::Global;

/// Why a name alone cannot be read or written.
fn unwritable(link: Link) -> AmlCause
    ensures { result ≡ unwritable link }
{
    match link {
        Link::Missing => AmlCause::Missing,
        Link::Method(_) | Link::OsInterfaces | Link::Object(_) => AmlCause::Kind,
        _ => AmlCause::Outside,
    }
}

/// What a name alone means where it is read.
pub fn named<W: World>(
    alloc: Global,
    scene: &Scene<'_>,
    at: usize,
    machine: &mut Machine,
    world: &mut W,
) -> Result<Option<Value>, Halt>
    ensures means { (call : _) → let s = setting_in scene.now call in
        Runs (told value_of result) (named s (s.link at) at)
        (now machine.old (W.log world.old)) (now machine.new (W.log world.new)) }
    ensures falls { machine.new.steps ≤ machine.old.steps }
{
    match link_of(scene, at) {
        Link::Data(id) => {
            let content = contents::content(alloc, scene, at, id, machine)?;
            Ok(Some(content))
        }
        Link::Own(number) => own_held(alloc, scene, at, number, machine),
        Link::Field(id) => field_read(alloc, scene, at, id, machine, world),
        Link::BufferField(id) => buffer_field_read(
            alloc,
            scene,
            at,
            named_buffer_field(scene, id),
            machine,
        ),
        link => Err(fails(unwritable(link), scene, at)),
    }
}

/// What a target that evaluates nothing does.
pub fn put<W: World>(
    scene: &Scene<'_>,
    action: Action,
    at: usize,
    stored: Value,
    machine: &mut Machine,
    world: &mut W,
) -> Result<(), Halt>
    ensures means { (call : _) → Runs (went result)
        (put (setting_in scene.now call) action at (values.view stored))
        (now machine.old (W.log world.old)) (now machine.new (W.log world.new)) }
    ensures falls { machine.new.steps ≤ machine.old.steps }
{
    match action {
        Action::NoTarget => Ok(()),
        Action::Local(k) => {
            take_step(machine)?;
            machine.set_local(k, stored);
            Ok(())
        }
        Action::Argument(k) => {
            take_step(machine)?;
            machine.set_argument(k, stored);
            Ok(())
        }
        Action::Debug => take_step(machine),
        Action::Name => put_name(scene, at, stored, machine, world),
        _ => {
            take_step(machine)?;
            Err(fails(AmlCause::Outside, scene, at))
        }
    }
}

/// Stores into what a name means.
fn put_name<W: World>(
    scene: &Scene<'_>,
    at: usize,
    stored: Value,
    machine: &mut Machine,
    world: &mut W,
) -> Result<(), Halt>
    ensures means { (call : _) → let s = setting_in scene.now call in
        Runs (went result) (named_target s (s.link at) at (values.view stored))
        (now machine.old (W.log world.old)) (now machine.new (W.log world.new)) }
    ensures falls { machine.new.steps ≤ machine.old.steps }
{
    match link_of(scene, at) {
        Link::Data(id) => contents::set_name(scene, at, id, stored, machine),
        Link::Own(number) => own_stored(scene, at, number, stored, machine),
        Link::Field(id) => field_stored(scene, at, id, &stored, machine, world),
        Link::BufferField(id) => buffer_field_stored(
            scene,
            at,
            named_buffer_field(scene, id),
            &stored,
            machine,
        ),
        link => {
            take_step(machine)?;
            Err(fails(unwritable(link), scene, at))
        }
    }
}
