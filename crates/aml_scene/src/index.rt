// A store into an Index: the name that it is of, and the byte that is written.

ghost use Rattle.std.specs.Prelude.{◌≤◌};
ghost use Rattle.aml_values.specs.Views as values;
ghost use Rattle.aml_contents.specs.Contents.{content_at};
ghost use Rattle.aml_contents.specs.Held.{contents};
ghost use Rattle.aml_regions.specs.Events.{Log};
ghost use Rattle.aml_meaning.specs.Changes.{change};
ghost use Rattle.aml_meaning.specs.Elements.{byte_written};
ghost use Rattle.aml_meaning.specs.Meaning.{bound, refused};
ghost use Rattle.aml_meaning.specs.Runs.{Runs};
ghost use Rattle.aml_machine.specs.Views.{names_of, now};
ghost use Rattle.aml_scene.specs.Tells.{IsChanged, itself, place_in, setting_in, told, went};

use crate::halt::{Halt, Scene, fails};
use crate::own::link_of;
use crate::rules::byte_stored;
use crate::steps::take_step;
use aml_contents::Names;
use aml_machine::Machine;
use aml_meaning::AmlCause;
use aml_namespace::Link;
use aml_paths::ObjectId;
use aml_values::Value;

/// A target that errs before it evaluates anything: the step of its store, and then the error.
pub fn refused(
    cause: AmlCause,
    scene: &Scene<'_>,
    at: usize,
    machine: &mut Machine,
) -> Result<usize, Halt>
    ensures means { (call : _) (log : Log) → Runs (told itself result)
        (refused (setting_in scene.now call) cause at)
        (now machine.old log) (now machine.new log) }
    ensures falls { machine.new.steps ≤ machine.old.steps }
{
    take_step(machine)?;
    Err(fails(cause, scene, at))
}

/// The place of a name that names something. A5 at the name, with a step, where it names nothing.
pub fn bound(scene: &Scene<'_>, at: usize, machine: &mut Machine) -> Result<usize, Halt>
    ensures means { (call : _) (log : Log) → let s = setting_in scene.now call in
        Runs (told itself result) (bound s (s.link at) at)
        (now machine.old log) (now machine.new log) }
    ensures falls { machine.new.steps ≤ machine.old.steps }
{
    match link_of(scene, at) {
        Link::Missing => refused(AmlCause::Missing, scene, at, machine),
        _ => Ok(at),
    }
}

/// Writes a byte into what the name with a number holds, by the rule of Index.
fn write_in(
    scene: &Scene<'_>,
    at: usize,
    name: usize,
    names: &mut Names,
    id: ObjectId,
    operand: usize,
    index: &Value,
    stored: &Value,
) -> Result<(), Halt>
    ensures { IsChanged (byte_written (place_in scene.now at) (place_in scene.now name)
        (place_in scene.now operand) (values.view index.now) (values.view stored.now)
        (content_at (contents names.old) id.0))
        (went result) id.0 (names_of names.old) (names_of names.new) }
{
    let written = match names.get(id) {
        Some(content) => byte_stored(scene, at, name, content, operand, index, stored)?,
        None => return Err(fails(AmlCause::Kind, scene, name)),
    };
    names.set_byte(id, written.place, written.byte);
    Ok(())
}

/// Writes a byte into what the name at a place means, by the rule of Index, with a step. A2 at the
/// name where it holds nothing that bytes are written into, and the errors of the rule.
pub fn write_byte(
    scene: &Scene<'_>,
    at: usize,
    name: usize,
    operand: usize,
    index: &Value,
    stored: &Value,
    machine: &mut Machine,
) -> Result<(), Halt>
    ensures means { (call : _) (log : Log) → let s = setting_in scene.now call in
        Runs (went result) (change (s.link name) (byte_written (place_in scene.now at)
        (place_in scene.now name) (place_in scene.now operand)
        (values.view index.now) (values.view stored.now)))
        (now machine.old log) (now machine.new log) }
    ensures falls { machine.new.steps ≤ machine.old.steps }
{
    if machine.steps == 0 {
        return Err(Halt::OutOfSteps);
    }
    machine.steps -= 1;
    match link_of(scene, name) {
        Link::Data(id) => {
            write_in(
                scene,
                at,
                name,
                &mut machine.names,
                id,
                operand,
                index,
                stored,
            )
        }
        Link::Own(number) => {
            let owns = &mut machine.frame.owns;
            write_in(
                scene,
                at,
                name,
                owns,
                ObjectId(number),
                operand,
                index,
                stored,
            )
        }
        _ => Err(fails(AmlCause::Kind, scene, name)),
    }
}
