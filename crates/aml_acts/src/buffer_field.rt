// Fields of buffers (ACPI 6.5, 19.6, CreateField and its kin).

ghost use Rattle.std.specs.Prelude.{◌≡◌, ◌<◌, ◌≤◌, ◌+◌, ◌*◌, length, Some, IfOk, IfSome};
ghost use Rattle.std.specs.Option.{option_map};
ghost use Rattle.aml_values.specs.Values.{Buf};
ghost use Rattle.aml_values.specs.Views.{view};
ghost use Rattle.aml_contents.specs.Contents.{content_at};
ghost use Rattle.aml_contents.specs.Held.{contents};
ghost use Rattle.aml_namespace.specs.Shows.{shown};
ghost use Rattle.aml_objects.specs.Widths.{bits_of};
ghost use Rattle.aml_regions.specs.BufferFields.{stored};
ghost use Rattle.aml_regions.specs.Events.{Log};
ghost use Rattle.aml_meaning.specs.BufferFields.{IsLaidOut, buffer_field_numbered, bytes_around, first_bit, read_buffer_field, wanted_buffer_field, written_buffer_field};
ghost use Rattle.aml_meaning.specs.Changes.{change, held_by, result_takes_memory};
ghost use Rattle.aml_meaning.specs.Meaning.{buffer_field_changed, buffer_field_read};
ghost use Rattle.aml_meaning.specs.Runs.{Runs, ruled};
ghost use Rattle.aml_machine.specs.Views.{names_of, now, value_of};
ghost use Rattle.aml_scene.specs.Tells.{IsChanged, IsOrWanted, itself, place_in, setting_in, told, went};

use crate::field::takes_buffer;
use aml_contents::Names;
use aml_fields::{BitBytes, buffer_field_numbered, buffer_field_value};
use aml_machine::{Machine, held_by, lies_in, put_bits};
use aml_meaning::{AmlCause, BufferField};
use aml_namespace::Link;
use aml_paths::ObjectId;
use aml_scene::halt::{Halt, Scene, fails};
use aml_scene::steps::take_step;
use aml_values::Value;
use std::alloc::Global;

/// The field of a buffer that an object is, where it is one that can be read and written.
pub fn named_buffer_field(scene: &Scene<'_>, id: ObjectId) -> Option<BufferField>
    ensures is { result ≡ buffer_field_numbered (shown scene.now.namespace.now) id.0 }
    ensures laid_out { IfSome result IsLaidOut }
{
    buffer_field_numbered(scene.namespace, id)
}

/// The field, where it is wanted. A7 at its name where there is none that can be read and written.
fn wanted_buffer_field(
    scene: &Scene<'_>,
    at: usize,
    field: Option<BufferField>,
) -> Result<BufferField, Halt>
    requires { IfSome field IsLaidOut }
    ensures is { told itself result ≡ ruled (wanted_buffer_field (place_in scene.now at) field) }
    ensures laid_out { IfOk result IsLaidOut }
{
    match field {
        Some(field) => Ok(field),
        None => Err(fails(AmlCause::Region, scene, at)),
    }
}

/// The bytes of the buffer in which a field lies. At its name A2 where its source holds no buffer,
/// and A4 where one of its bits lies past the end.
fn bytes_around<'a>(
    scene: &Scene<'_>,
    at: usize,
    field: BufferField,
    held: Option<&'a Value>,
) -> Result<&'a [u8], Halt>
    requires { IsLaidOut field }
    ensures is { told (λ b. b.now) result ≡ ruled (bytes_around (place_in scene.now at) field
        (option_map (λ v. view v.now) held.entry)) }
    ensures inside { IfOk result (λ b. first_bit field + field.bits ≤ 8 * length b.now) }
{
    let Some(Value::Buf(bytes)) = held else {
        return Err(fails(AmlCause::Kind, scene, at));
    };
    if lies_in(field, bytes.len()) {
        Ok(bytes.as_slice())
    } else {
        Err(fails(AmlCause::Index, scene, at))
    }
}

/// The value of a field of what its source holds.
fn content(
    alloc: Global,
    scene: &Scene<'_>,
    at: usize,
    field: BufferField,
    held: Option<&Value>,
) -> Result<Value, Halt>
    requires { IsLaidOut field }
    ensures { let rule = read_buffer_field (bits_of scene.now.width) (place_in scene.now at) field
        (option_map (λ v. view v.now) held.entry) in
        IsOrWanted (result_takes_memory rule) (told view result) (ruled rule) }
{
    let bytes = bytes_around(scene, at, field, held)?;
    let value = buffer_field_value(alloc, scene.width, field, bytes)?;
    Ok(value)
}

/// What the name of a field of a buffer means where it is read. A7 at it where there is none that
/// can be read and written.
pub fn buffer_field_read(
    alloc: Global,
    scene: &Scene<'_>,
    at: usize,
    field: Option<BufferField>,
    machine: &Machine,
) -> Result<Option<Value>, Halt>
    requires { IfSome field IsLaidOut }
    ensures { (call : _) (log : Log) → Runs (told value_of result)
        (buffer_field_read (setting_in scene.now call) field at)
        (now machine.now log) (now machine.now log) }
{
    let field = wanted_buffer_field(scene, at, field)?;
    let held = held_by(machine, field.source);
    let value = content(alloc, scene, at, field, held)?;
    Ok(Some(value))
}

/// Stores into a field of the buffer that the name with a number holds. At the field's name A2
/// where it holds no buffer, A4 where a bit of the field lies past the end, and A2 for what the
/// field does not take.
fn write_in(
    scene: &Scene<'_>,
    at: usize,
    field: BufferField,
    stored: &Value,
    names: &mut Names,
    id: ObjectId,
) -> Result<(), Halt>
    requires { IsLaidOut field }
    ensures { IsChanged (written_buffer_field (bits_of scene.now.width)
        (place_in scene.now at) field
        (view stored.now) (content_at (contents names.old) id.0))
        (went result) id.0 (names_of names.old) (names_of names.new) }
{
    let size = bytes_around(scene, at, field, names.get(id))?.len();
    match stored {
        Value::Int(number) => put_bits(field, size, number, names, id),
        Value::Buf(given) => {
            let bytes = given.as_slice();
            if !takes_buffer(scene.width, field.bits, bytes) {
                return Err(fails(AmlCause::Kind, scene, at));
            }
            put_bits(field, size, &BitBytes { bytes }, names, id);
        }
        _ => return Err(fails(AmlCause::Kind, scene, at)),
    }
    Ok(())
}

/// Stores into a field, with a step. A2 and A4 at its name, as when it is read, and A2 for what it
/// does not take.
fn put_buffer_field(
    scene: &Scene<'_>,
    at: usize,
    field: BufferField,
    stored: &Value,
    machine: &mut Machine,
) -> Result<(), Halt>
    requires { IsLaidOut field }
    ensures means { (log : Log) → Runs (went result)
        (change field.source (written_buffer_field (bits_of scene.now.width)
        (place_in scene.now at) field
        (view stored.now)))
        (now machine.old log) (now machine.new log) }
    ensures falls { machine.new.steps ≤ machine.old.steps }
{
    if machine.steps == 0 {
        return Err(Halt::OutOfSteps);
    }
    machine.steps -= 1;
    match field.source {
        Link::Data(source) => write_in(scene, at, field, stored, &mut machine.names, source),
        Link::Own(number) => {
            let owns = &mut machine.frame.owns;
            write_in(scene, at, field, stored, owns, ObjectId(number))
        }
        _ => Err(fails(AmlCause::Kind, scene, at)),
    }
}

/// Stores into what the name of a field of a buffer means. A7 at its name where there is none that
/// can be read and written.
pub fn buffer_field_stored(
    scene: &Scene<'_>,
    at: usize,
    field: Option<BufferField>,
    stored: &Value,
    machine: &mut Machine,
) -> Result<(), Halt>
    requires { IfSome field IsLaidOut }
    ensures means { (call : _) (log : Log) → Runs (went result)
        (buffer_field_changed (setting_in scene.now call) at field (view stored.now))
        (now machine.old log) (now machine.new log) }
    ensures falls { machine.new.steps ≤ machine.old.steps }
{
    match field {
        Some(field) => put_buffer_field(scene, at, field, stored, machine),
        None => {
            take_step(machine)?;
            Err(fails(AmlCause::Region, scene, at))
        }
    }
}
