// What names hold: read, stored and made, each with its error.

ghost use Rattle.std.specs.Prelude.{◌≡◌, ◌≤◌, None, Some};
ghost use Rattle.aml_values.specs.Views.{view};
ghost use Rattle.aml_contents.specs.Contents.{content_at};
ghost use Rattle.aml_regions.specs.Events.{Log};
ghost use Rattle.aml_objects.specs.Widths.{bits_of};
ghost use Rattle.aml_meaning.specs.Owns.{define_field, define_own, set_own};
ghost use Rattle.aml_meaning.specs.Parts.{copy_takes_memory, set_name};
ghost use Rattle.aml_meaning.specs.Runs.{Runs, content};
ghost use Rattle.aml_machine.specs.Views.{made, now};
ghost use Rattle.aml_scene.specs.Tells.{IsOrWanted, is_package, told, went};

use aml_machine::{Machine, copied};
use aml_meaning::{AmlCause, BufferField};
use aml_paths::{NoMemory, ObjectId};
use aml_scene::halt::{Halt, Scene, fails};
use aml_values::Value;
use std::alloc::Global;

/// What a data name holds, where it stands. A1 at the term's place where it holds nothing.
pub fn seen<'a>(
    scene: &Scene<'_>,
    at: usize,
    id: ObjectId,
    machine: &'a Machine,
) -> Result<&'a Value, Halt>
    ensures { (log : Log) → told (λ v. view v.now) result
        ≡ content scene.now.table at
        (Some (content_at (now machine.now log).names.contents id.0)) }
{
    match machine.names.get(id) {
        Some(value) => Ok(value),
        None => Err(fails(AmlCause::Unset, scene, at)),
    }
}

/// A copy of what a data name holds. A1 at the term's place where it holds nothing.
pub fn content(
    alloc: Global,
    scene: &Scene<'_>,
    at: usize,
    id: ObjectId,
    machine: &Machine,
) -> Result<Value, Halt>
    ensures { (log : Log) →
        let slot = Some (content_at (now machine.now log).names.contents id.0) in
        IsOrWanted (copy_takes_memory slot) (told view result) (content scene.now.table at slot) }
{
    match machine.names.get(id) {
        Some(value) => {
            let kept = copied(alloc, value)?;
            Ok(kept)
        }
        None => Err(fails(AmlCause::Unset, scene, at)),
    }
}

/// Makes a data name hold a value of its kind, with a step. A2 at the target's place for a package
/// and a value of another kind.
pub fn set_name(
    scene: &Scene<'_>,
    at: usize,
    id: ObjectId,
    value: Value,
    machine: &mut Machine,
) -> Result<(), Halt>
    ensures means { (log : Log) → Runs (went result)
        (set_name scene.now.table at id.0 (view value))
        (now machine.old log) (now machine.new log) }
    ensures falls { machine.new.steps ≤ machine.old.steps }
{
    if machine.steps == 0 {
        return Err(Halt::OutOfSteps);
    }
    machine.steps -= 1;
    if is_package(&value) {
        return Err(fails(AmlCause::Kind, scene, at));
    }
    if machine.names.set(id, value).is_ok() {
        Ok(())
    } else {
        Err(fails(AmlCause::Kind, scene, at))
    }
}

/// What an own name holds, where it stands. A1 at the term's place where it holds nothing.
pub fn own_seen<'a>(
    scene: &Scene<'_>,
    at: usize,
    number: usize,
    machine: &'a Machine,
) -> Result<&'a Value, Halt>
    ensures { (log : Log) → told (λ v. view v.now) result
        ≡ content scene.now.table at
        (Some (content_at (now machine.now log).frame.owns.contents number)) }
{
    match machine.frame.owns.get(ObjectId(number)) {
        Some(value) => Ok(value),
        None => Err(fails(AmlCause::Unset, scene, at)),
    }
}

/// A copy of what an own name holds. A1 at the term's place where it holds nothing.
pub fn own_content(
    alloc: Global,
    scene: &Scene<'_>,
    at: usize,
    number: usize,
    machine: &Machine,
) -> Result<Value, Halt>
    ensures { (log : Log) →
        let slot = Some (content_at (now machine.now log).frame.owns.contents number) in
        IsOrWanted (copy_takes_memory slot) (told view result) (content scene.now.table at slot) }
{
    match machine.frame.owns.get(ObjectId(number)) {
        Some(value) => {
            let kept = copied(alloc, value)?;
            Ok(kept)
        }
        None => Err(fails(AmlCause::Unset, scene, at)),
    }
}

/// Makes an own name hold a value of its kind, with a step. A2 at the target's place for a package
/// and a value of another kind.
pub fn set_own(
    scene: &Scene<'_>,
    at: usize,
    number: usize,
    value: Value,
    machine: &mut Machine,
) -> Result<(), Halt>
    ensures means { (log : Log) → Runs (went result)
        (set_own scene.now.table at number (view value))
        (now machine.old log) (now machine.new log) }
    ensures falls { machine.new.steps ≤ machine.old.steps }
{
    if machine.steps == 0 {
        return Err(Halt::OutOfSteps);
    }
    machine.steps -= 1;
    if is_package(&value) {
        return Err(fails(AmlCause::Kind, scene, at));
    }
    if machine.frame.owns.set(ObjectId(number), value).is_ok() {
        Ok(())
    } else {
        Err(fails(AmlCause::Kind, scene, at))
    }
}

/// Makes an own name more, which holds this value first.
pub fn define_own(
    alloc: Global,
    scene: &Scene<'_>,
    value: Value,
    machine: &mut Machine,
) -> Result<(), Halt>
    ensures means { (log : Log) → Runs (went result)
        (define_own (bits_of scene.now.width) (view value))
        (now machine.old log) (now machine.new log) }
    ensures steps { machine.new.steps ≡ machine.old.steps }
{
    made(machine.define_own(alloc, scene.width, value))
}

/// Makes an own name more, which is a field of a buffer.
pub fn define_field(
    alloc: Global,
    scene: &Scene<'_>,
    field: BufferField,
    machine: &mut Machine,
) -> Result<(), Halt>
    ensures means { (log : Log) → Runs (went result)
        (define_field (bits_of scene.now.width) field)
        (now machine.old log) (now machine.new log) }
    ensures steps { machine.new.steps ≡ machine.old.steps }
{
    made(machine.define_field(alloc, scene.width, field))
}

/// An answer that may want memory.
fn made(answer: Result<(), NoMemory>) -> Result<(), Halt>
    ensures { went result ≡ made answer }
{
    match answer {
        Ok(()) => Ok(()),
        Err(NoMemory) => Err(Halt::NoMemory),
    }
}

/// Whether a value is a package.
fn is_package(value: &Value) -> bool
    ensures { result ≡ is_package (view value.now) }
{
    match value {
        Value::Pkg(_) => true,
        _ => false,
    }
}
