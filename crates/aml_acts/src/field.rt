// Fields of regions behind names.

ghost use Rattle.std.specs.Prelude.{◌≡◌, ◌≤◌, IfOk, IfSome};
ghost use Rattle.aml_values.specs.Values.{Buf};
ghost use Rattle.aml_values.specs.Views.{view};
ghost use Rattle.aml_namespace.specs.Shows.{shown};
ghost use Rattle.aml_objects.specs.Widths.{bits_of};
ghost use Rattle.aml_regions.specs.Fields.{IsSoundField};
ghost use Rattle.aml_meaning.specs.Fields.{read_value, write_bits};
ghost use Rattle.aml_meaning.specs.FieldValues.{takes_buffer, wanted_field};
ghost use Rattle.aml_meaning.specs.Meaning.{bits_stored, field_read, field_stored};
ghost use Rattle.aml_meaning.specs.Reached.{field_numbered};
ghost use Rattle.aml_meaning.specs.Runs.{Runs, ruled};
ghost use Rattle.aml_machine.specs.Views.{now, value_of};
ghost use Rattle.aml_scene.specs.Tells.{itself, place_in, setting_in, told, went};

use aml_fields::{BitBytes, Bits, field_in, read_count, read_field, write_count, write_field};
use aml_machine::Machine;
use aml_meaning::AmlCause;
use aml_namespace::{Namespace, Object, Width};
use aml_paths::ObjectId;
use aml_regions::{AnyField, World};
use aml_scene::halt::{Halt, Scene, fails};
use aml_scene::steps::take_step;
use aml_values::Value;
use std::alloc::Global;

/// The field that an object is, where it is one that can be read and written.
fn field_numbered(namespace: &Namespace<'_>, id: ObjectId) -> Option<AnyField>
    ensures is { result ≡ field_numbered (shown namespace.now) id.0 }
    ensures sound { IfSome result IsSoundField }
{
    match namespace.object(id) {
        Some(Object::Field(field)) => field_in(namespace, &field),
        _ => None,
    }
}

/// The same where it is wanted. A7 at its name where there is none.
fn wanted_field(scene: &Scene<'_>, at: usize, id: ObjectId) -> Result<AnyField, Halt>
    ensures is { told itself result ≡ ruled
        (wanted_field (place_in scene.now at)
        (field_numbered (shown scene.now.namespace.now) id.0)) }
    ensures sound { IfOk result IsSoundField }
{
    match field_numbered(scene.namespace, id) {
        Some(field) => Ok(field),
        None => Err(fails(AmlCause::Region, scene, at)),
    }
}

/// A field's value. Each event takes a step.
fn read_value<W: World>(
    alloc: Global,
    width: Width,
    field: &AnyField,
    machine: &mut Machine,
    world: &mut W,
) -> Result<Value, Halt>
    requires { IsSoundField field.now }
    ensures means { Runs (told view result) (read_value (bits_of width) field.now)
        (now machine.old (W.log world.old)) (now machine.new (W.log world.new)) }
    ensures falls { machine.new.steps ≤ machine.old.steps }
{
    let limit = machine.steps;
    machine.steps = limit.saturating_sub(read_count(field));
    match read_field(alloc, world, field, width, limit)? {
        Some(value) => Ok(value),
        None => Err(Halt::OutOfSteps),
    }
}

/// Gives a field bits. Each event takes a step.
fn write_bits<W: World, B: Bits>(
    field: &AnyField,
    value: &B,
    machine: &mut Machine,
    world: &mut W,
) -> Result<(), Halt>
    requires { IsSoundField field.now }
    ensures means { Runs (went result) (write_bits field.now (B.bit value.now))
        (now machine.old (W.log world.old)) (now machine.new (W.log world.new)) }
    ensures falls { machine.new.steps ≤ machine.old.steps }
{
    let limit = machine.steps;
    machine.steps = limit.saturating_sub(write_count(field));
    if write_field(world, field, value, limit)? {
        Ok(())
    } else {
        Err(Halt::OutOfSteps)
    }
}

/// What a field's name means where it is read.
pub fn field_read<W: World>(
    alloc: Global,
    scene: &Scene<'_>,
    at: usize,
    id: ObjectId,
    machine: &mut Machine,
    world: &mut W,
) -> Result<Option<Value>, Halt>
    ensures means { (call : _) → Runs (told value_of result)
        (field_read (setting_in scene.now call) id.0 at)
        (now machine.old (W.log world.old)) (now machine.new (W.log world.new)) }
    ensures falls { machine.new.steps ≤ machine.old.steps }
{
    let field = wanted_field(scene, at, id)?;
    let value = read_value(alloc, scene.width, &field, machine, world)?;
    Ok(Some(value))
}

/// Whether a field of so many bits takes a buffer.
pub fn takes_buffer(width: Width, bits: u64, bytes: &[u8]) -> bool
    requires { bits ≤ 2048 }
    ensures { result ≡ takes_buffer (bits_of width) bits bytes.now }
{
    u64::from(width.bits()) < bits && bytes.len() as u64 == (bits + 7) / 8
}

/// Gives a field the bits of a buffer. A2 at its name where it does not take that buffer.
fn write_buffer<W: World>(
    scene: &Scene<'_>,
    at: usize,
    field: &AnyField,
    bytes: &[u8],
    machine: &mut Machine,
    world: &mut W,
) -> Result<(), Halt>
    requires { IsSoundField field.now }
    ensures means { (call : _) → Runs (went result)
        (bits_stored (setting_in scene.now call) at field.now (Buf bytes.now))
        (now machine.old (W.log world.old)) (now machine.new (W.log world.new)) }
    ensures falls { machine.new.steps ≤ machine.old.steps }
{
    if !takes_buffer(scene.width, field.layout().bits, bytes) {
        return Err(fails(AmlCause::Kind, scene, at));
    }
    write_bits(field, &BitBytes { bytes }, machine, world)
}

/// Stores into a field. A2 at its name for what it does not take.
pub fn field_stored<W: World>(
    scene: &Scene<'_>,
    at: usize,
    id: ObjectId,
    stored: &Value,
    machine: &mut Machine,
    world: &mut W,
) -> Result<(), Halt>
    ensures means { (call : _) → Runs (went result)
        (field_stored (setting_in scene.now call) id.0 at (view stored.now))
        (now machine.old (W.log world.old)) (now machine.new (W.log world.new)) }
    ensures falls { machine.new.steps ≤ machine.old.steps }
{
    take_step(machine)?;
    let field = wanted_field(scene, at, id)?;
    match stored {
        Value::Int(number) => write_bits(&field, number, machine, world),
        Value::Buf(bytes) => write_buffer(scene, at, &field, bytes.as_slice(), machine, world),
        _ => Err(fails(AmlCause::Kind, scene, at)),
    }
}
