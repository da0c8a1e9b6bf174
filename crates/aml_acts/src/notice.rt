// What a world is told: Notify, Sleep and Stall (ACPI 6.5, 19.6).

ghost use Rattle.std.specs.Prelude.{◌≡◌, ◌≤◌};
ghost use Rattle.aml_paths.specs.declared.scope.ObjectId.{ObjectId};
ghost use Rattle.aml_regions.specs.Events.{Notified, Stalled, Log};
ghost use Rattle.aml_meaning.specs.Meaning.{notified, notified_name};
ghost use Rattle.aml_meaning.specs.Notices.{is_notifiable, notice, paused};
ghost use Rattle.aml_meaning.specs.Parts.{make_event, sleep};
ghost use Rattle.aml_meaning.specs.Runs.{Runs, ruled};
ghost use Rattle.aml_machine.specs.Views.{now};
ghost use Rattle.aml_scene.specs.Tells.{itself, place_in, setting_in, told, went};

use aml_machine::Machine;
use aml_meaning::{Action, AmlCause, Pause};
use aml_namespace::{Link, Object};
use aml_paths::ObjectId;
use aml_regions::World;
use aml_scene::halt::{Halt, Scene, fails};
use aml_scene::own::link_of;
use aml_scene::steps::take_step;

/// Whether an object can be notified.
fn is_notifiable(object: Option<Object>) -> bool
    ensures { result ≡ is_notifiable object }
{
    match object {
        Some(Object::Device | Object::Processor | Object::ThermalZone) => true,
        _ => false,
    }
}

/// The object that a name names, where it can be notified. A5 at the name where it names nothing.
fn notified_name(scene: &Scene<'_>, at: usize) -> Result<Option<ObjectId>, Halt>
    ensures { (call : _) (s : _) → let inside = setting_in scene.now call in
        Runs (told itself result) (notified_name inside (inside.link at) at) s s }
{
    match link_of(scene, at) {
        Link::Missing => Err(fails(AmlCause::Missing, scene, at)),
        Link::Object(id) => {
            if is_notifiable(scene.namespace.object(id)) {
                Ok(Some(id))
            } else {
                Ok(None)
            }
        }
        _ => Ok(None),
    }
}

/// The object that a Notify is of, where it can be notified.
pub fn notified(
    scene: &Scene<'_>,
    action: Action,
    at: usize,
    machine: &mut Machine,
) -> Result<Option<ObjectId>, Halt>
    ensures means { (call : _) (log : Log) → Runs (told itself result)
        (notified (setting_in scene.now call) action at)
        (now machine.old log) (now machine.new log) }
    ensures falls { machine.new.steps ≤ machine.old.steps }
{
    match action {
        Action::Name => notified_name(scene, at),
        Action::Local(_) => Ok(None),
        Action::Argument(_) => Ok(None),
        _ => {
            take_step(machine)?;
            Err(fails(AmlCause::Outside, scene, at))
        }
    }
}

/// The object that is notified. A2 at the place of what cannot be.
pub fn notice(scene: &Scene<'_>, at: usize, object: Option<ObjectId>) -> Result<ObjectId, Halt>
    ensures { told itself result ≡ ruled (notice (place_in scene.now at) object) }
{
    match object {
        Some(id) => Ok(id),
        None => Err(fails(AmlCause::Kind, scene, at)),
    }
}

/// Tells a world of a Notify, with a step.
pub fn notify<W: World>(
    object: ObjectId,
    value: u64,
    machine: &mut Machine,
    world: &mut W,
) -> Result<(), Halt>
    ensures means { Runs (went result) (make_event (Notified object value))
        (now machine.old (W.log world.old)) (now machine.new (W.log world.new)) }
    ensures falls { machine.new.steps ≤ machine.old.steps }
{
    if machine.steps == 0 {
        return Err(Halt::OutOfSteps);
    }
    machine.steps -= 1;
    world.notify(object, value)?;
    Ok(())
}

/// Tells a world of a Sleep, with a step. What names hold behind it is what the world leaves.
fn sleep<W: World>(milliseconds: u64, machine: &mut Machine, world: &mut W) -> Result<(), Halt>
    ensures means { Runs (went result) (sleep milliseconds)
        (now machine.old (W.log world.old)) (now machine.new (W.log world.new)) }
    ensures falls { machine.new.steps ≤ machine.old.steps }
{
    if machine.steps == 0 {
        return Err(Halt::OutOfSteps);
    }
    machine.steps -= 1;
    world.sleep(milliseconds, &mut machine.names)?;
    Ok(())
}

/// Tells a world of a Stall, with a step.
fn stall<W: World>(microseconds: u64, machine: &mut Machine, world: &mut W) -> Result<(), Halt>
    ensures means { Runs (went result) (make_event (Stalled microseconds))
        (now machine.old (W.log world.old)) (now machine.new (W.log world.new)) }
    ensures falls { machine.new.steps ≤ machine.old.steps }
{
    if machine.steps == 0 {
        return Err(Halt::OutOfSteps);
    }
    machine.steps -= 1;
    world.stall(microseconds)?;
    Ok(())
}

/// Tells a world of a pause, with a step.
pub fn pause<W: World>(
    pause: Pause,
    value: u64,
    machine: &mut Machine,
    world: &mut W,
) -> Result<(), Halt>
    ensures means { Runs (went result) (paused pause value)
        (now machine.old (W.log world.old)) (now machine.new (W.log world.new)) }
    ensures falls { machine.new.steps ≤ machine.old.steps }
{
    match pause {
        Pause::Sleep => sleep(value, machine, world),
        Pause::Stall => stall(value, machine, world),
    }
}
