// Own names: what they hold, or the fields of buffers that they are.

ghost use Rattle.std.specs.Prelude.{◌≤◌};
ghost use Rattle.aml_values.specs.Views.{view};
ghost use Rattle.aml_regions.specs.Events.{Log};
ghost use Rattle.aml_meaning.specs.Meaning.{own_held, own_seen, own_stored};
ghost use Rattle.aml_meaning.specs.Runs.{Runs};
ghost use Rattle.aml_machine.specs.Views.{now, value_of};
ghost use Rattle.aml_scene.specs.Tells.{setting_in, told, went};

use crate::buffer_field::{buffer_field_read, buffer_field_stored};
use crate::contents;
use aml_fields::usable_buffer_field;
use aml_machine::Machine;
use aml_meaning::AmlCause;
use aml_scene::halt::{Halt, Scene, fails};
use aml_values::Value;
use std::alloc::Global;

/// What an own name means where it is read.
pub fn own_held(
    alloc: Global,
    scene: &Scene<'_>,
    at: usize,
    number: usize,
    machine: &Machine,
) -> Result<Option<Value>, Halt>
    ensures { (call : _) (log : Log) → Runs (told value_of result)
        (own_held (setting_in scene.now call) number at)
        (now machine.now log) (now machine.now log) }
{
    match machine.own_field(number) {
        Some(field) => buffer_field_read(alloc, scene, at, usable_buffer_field(field), machine),
        None => {
            let content = contents::own_content(alloc, scene, at, number, machine)?;
            Ok(Some(content))
        }
    }
}

/// Stores into an own name, or into the field that it is.
pub fn own_stored(
    scene: &Scene<'_>,
    at: usize,
    number: usize,
    stored: Value,
    machine: &mut Machine,
) -> Result<(), Halt>
    ensures means { (call : _) (log : Log) → Runs (went result)
        (own_stored (setting_in scene.now call) number at (view stored))
        (now machine.old log) (now machine.new log) }
    ensures falls { machine.new.steps ≤ machine.old.steps }
{
    match machine.own_field(number) {
        Some(field) => buffer_field_stored(scene, at, usable_buffer_field(field), &stored, machine),
        None => contents::set_own(scene, at, number, stored, machine),
    }
}

/// What SizeOf measures of an own name, where it stands. A2 at the name where it is a field.
pub fn own_seen<'a>(
    scene: &Scene<'_>,
    at: usize,
    number: usize,
    machine: &'a Machine,
) -> Result<&'a Value, Halt>
    ensures { (call : _) (log : Log) → Runs (told (λ v. view v.now) result)
        (own_seen (setting_in scene.now call) number at)
        (now machine.now log) (now machine.now log) }
{
    match machine.own_field(number) {
        Some(_) => Err(fails(AmlCause::Kind, scene, at)),
        None => contents::own_seen(scene, at, number, machine),
    }
}
