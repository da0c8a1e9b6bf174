// Acquire and Release (ACPI 6.5, 19.6).

ghost use Rattle.std.specs.Prelude.{◌≡◌, ◌≤◌, Some};
ghost use Rattle.aml_regions.specs.Events.{Log};
ghost use Rattle.aml_meaning.specs.Meaning.{mutex, mutex_named, mutex_numbered};
ghost use Rattle.aml_meaning.specs.Mutexes.{acquire, none_held, release};
ghost use Rattle.aml_meaning.specs.Runs.{Runs};
ghost use Rattle.aml_acts.specs.Mutexes.{acquired, released};
ghost use Rattle.aml_machine.specs.Views.{now, value_of};
ghost use Rattle.aml_scene.specs.Tells.{itself, setting_in, told, went};

use aml_machine::Machine;
use aml_meaning::{Action, AmlCause, TakenMutex};
use aml_namespace::{Link, Object};
use aml_paths::ObjectId;
use aml_scene::halt::{Halt, Scene, fails};
use aml_scene::own::link_of;
use aml_scene::steps::take_step;
use aml_values::Value;

/// The mutex that an object with a number is, named at a place. A2 there where it is none; A6 at
/// the operator for the global lock.
fn mutex_in(
    scene: &Scene<'_>,
    at: usize,
    from: usize,
    id: ObjectId,
    object: Object,
) -> Result<TakenMutex, Halt>
    ensures { (call : _) (s : _) → Runs (told itself result)
        (mutex_numbered (setting_in scene.now call) at from id.0 (Some object)) s s }
{
    match object {
        Object::Mutex { sync_level } => Ok(TakenMutex {
            object: id,
            level: sync_level,
        }),
        Object::GlobalLock => Err(fails(AmlCause::Outside, scene, at)),
        _ => Err(fails(AmlCause::Kind, scene, from)),
    }
}

/// The mutex that the object with a number is.
fn mutex_numbered(
    scene: &Scene<'_>,
    at: usize,
    from: usize,
    id: ObjectId,
) -> Result<TakenMutex, Halt>
    ensures { (call : _) (s : _) → let inside = setting_in scene.now call in
        Runs (told itself result) (mutex_numbered inside at from id.0 (inside.object id.0)) s s }
{
    match scene.namespace.object(id) {
        Some(object) => mutex_in(scene, at, from, id, object),
        None => Err(fails(AmlCause::Kind, scene, from)),
    }
}

/// The mutex that a name names. A5 at the name where it names nothing.
fn mutex_named(scene: &Scene<'_>, at: usize, from: usize) -> Result<TakenMutex, Halt>
    ensures { (call : _) (s : _) → let inside = setting_in scene.now call in
        Runs (told itself result) (mutex_named inside at from (inside.link from)) s s }
{
    match link_of(scene, from) {
        Link::Missing => Err(fails(AmlCause::Missing, scene, from)),
        Link::Object(id) => mutex_numbered(scene, at, from, id),
        _ => Err(fails(AmlCause::Kind, scene, from)),
    }
}

/// The mutex that an operand is, for an operator at a place.
fn mutex_of(
    scene: &Scene<'_>,
    at: usize,
    action: Action,
    from: usize,
    machine: &mut Machine,
) -> Result<TakenMutex, Halt>
    ensures means { (call : _) (log : Log) → Runs (told itself result)
        (mutex (setting_in scene.now call) at action from)
        (now machine.old log) (now machine.new log) }
    ensures falls { machine.new.steps ≤ machine.old.steps }
{
    match action {
        Action::Name => mutex_named(scene, at, from),
        Action::Local(_) => Err(fails(AmlCause::Kind, scene, from)),
        Action::Argument(_) => Err(fails(AmlCause::Kind, scene, from)),
        _ => {
            take_step(machine)?;
            Err(fails(AmlCause::Outside, scene, from))
        }
    }
}

/// Takes a mutex, where they are watched. A10 at the operator where its level is below one that is
/// held.
fn take(scene: &Scene<'_>, at: usize, mutex: TakenMutex, machine: &mut Machine) -> Result<(), Halt>
    ensures means { (log : Log) → Runs (went result)
        (acquire scene.now.table at mutex)
        (now machine.old log) (now machine.new log) }
    ensures steps { machine.new.steps ≡ machine.old.steps }
{
    if !machine.frame.mutexes.are_watched() {
        return Ok(());
    }
    if mutex.level < machine.frame.mutexes.level() {
        return Err(fails(AmlCause::Level, scene, at));
    }
    machine.frame.mutexes.push(mutex)?;
    Ok(())
}

/// Releases a mutex, where they are watched. A11 at the operator where it is not the one that was
/// taken last.
fn give_back(
    scene: &Scene<'_>,
    at: usize,
    mutex: TakenMutex,
    machine: &mut Machine,
) -> Result<(), Halt>
    ensures means { (log : Log) → Runs (went result)
        (release scene.now.table at mutex)
        (now machine.old log) (now machine.new log) }
    ensures steps { machine.new.steps ≡ machine.old.steps }
{
    if !machine.frame.mutexes.are_watched() {
        return Ok(());
    }
    if machine.frame.mutexes.release(mutex.object) {
        Ok(())
    } else {
        Err(fails(AmlCause::NotHeld, scene, at))
    }
}

/// That a method which ends at a place holds no mutex, where they are watched. A12 there where it
/// does.
pub fn none_held(scene: &Scene<'_>, at: usize, machine: &Machine) -> Result<(), Halt>
    ensures { (log : Log) → Runs (went result)
        (none_held scene.now.table at) (now machine.now log) (now machine.now log) }
{
    if !machine.frame.mutexes.are_watched() {
        return Ok(());
    }
    if machine.frame.mutexes.is_empty() {
        Ok(())
    } else {
        Err(fails(AmlCause::StillHeld, scene, at))
    }
}

/// The mutex that an operand of Acquire is, taken: Zero. A5 at the operand where it names nothing,
/// A2 there where it is no mutex, A6 there, with a step, where it is no name, local or argument; at
/// the operator A6 for the global lock, and A10 where a mutex of a higher level is held.
pub fn acquired(
    scene: &Scene<'_>,
    at: usize,
    action: Action,
    from: usize,
    machine: &mut Machine,
) -> Result<Option<Value>, Halt>
    ensures means { (call : _) (log : Log) → Runs (told value_of result)
        (acquired (setting_in scene.now call) at action from)
        (now machine.old log) (now machine.new log) }
    ensures falls { machine.new.steps ≤ machine.old.steps }
{
    let mutex = mutex_of(scene, at, action, from, machine)?;
    take(scene, at, mutex, machine)?;
    Ok(Some(Value::Int(0)))
}

/// The mutex that an operand of Release is, released. The operand errs as that of Acquire does; A11
/// at the operator where it is not the mutex that was taken last.
pub fn released(
    scene: &Scene<'_>,
    at: usize,
    action: Action,
    from: usize,
    machine: &mut Machine,
) -> Result<Option<Value>, Halt>
    ensures means { (call : _) (log : Log) → Runs (told value_of result)
        (released (setting_in scene.now call) at action from)
        (now machine.old log) (now machine.new log) }
    ensures falls { machine.new.steps ≤ machine.old.steps }
{
    let mutex = mutex_of(scene, at, action, from, machine)?;
    give_back(scene, at, mutex, machine)?;
    Ok(None)
}
