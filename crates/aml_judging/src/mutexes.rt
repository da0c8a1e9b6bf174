// Mutexes that are taken and released.

ghost use Rattle.std.specs.Prelude.{◌≡◌, Option};
ghost use Rattle.aml_objects.specs.declared.object.Object.{Object};
ghost use Rattle.aml_meaning.specs.Actions.{action};
ghost use Rattle.aml_judged.specs.Judge.{judged_mutex, judged_mutex_named, judged_mutex_numbered, judged_none_held, judged_released, judged_taken};
ghost use Rattle.aml_judging.specs.Follows.{Gives, Judges};

use crate::names::{refusal, refusal_for};
use crate::progress::Progress;
use aml_causes::{Cause, Refusal};
use aml_findings::{Around, Wanted, finds};
use aml_known::{Held, Stop};
use aml_meaning::{Action, TakenMutex, action_of};
use aml_namespace::{Link, Object};
use aml_operators::Op;
use aml_paths::ObjectId;

/// The mutex that the object with a number is, named at a place, for an operator at another. V2 at
/// the operator of the global lock, V3 at the name of what is no mutex.
fn numbered<A: Around>(
    here: &A,
    at: usize,
    from: usize,
    id: ObjectId,
    object: Option<Object>,
) -> Result<TakenMutex, Refusal>
    ensures { Gives (λ m. m)
        (judged_mutex_numbered (A.around here.now) at from id.0 object) result }
{
    match object {
        Some(Object::Mutex { sync_level }) => Ok(TakenMutex {
            object: id,
            level: sync_level,
        }),
        Some(Object::GlobalLock) => Err(refusal(here, Cause::OutsideProfile, at)),
        _ => {
            let finding = finds::named(here, Link::Object(id), Wanted::Mutex);
            Err(refusal_for(here, Cause::WrongKind, from, finding))
        }
    }
}

/// The mutex that a name means. V1 where it names nothing, V3 where it names no object of this
/// kind.
fn named<A: Around>(here: &A, at: usize, from: usize, link: Link) -> Result<TakenMutex, Refusal>
    ensures { Gives (λ m. m) (judged_mutex_named (A.around here.now) at from link) result }
{
    match link {
        Link::Missing => Err(refusal(here, Cause::Unresolved, from)),
        Link::Object(id) => numbered(here, at, from, id, here.object(id)),
        _ => {
            let finding = finds::named(here, link, Wanted::Mutex);
            Err(refusal_for(here, Cause::WrongKind, from, finding))
        }
    }
}

/// The mutex that an operand of Acquire or Release is. A local and an argument are none, and are
/// not read: V3. V2 at any other operand.
pub fn mutex<A: Around>(here: &A, at: usize, op: Op, from: usize) -> Result<TakenMutex, Refusal>
    ensures { Gives (λ m. m) (judged_mutex (A.around here.now) at (action op) from) result }
{
    match action_of(op) {
        Action::Name => named(here, at, from, here.link(from)),
        Action::Local(_) | Action::Argument(_) => {
            let finding = finds::unread(Wanted::Mutex);
            Err(refusal_for(here, Cause::WrongKind, from, finding))
        }
        _ => Err(refusal(here, Cause::OutsideProfile, from)),
    }
}

/// A mutex is taken (ACPI 6.5, 19.6, Acquire). V15 at the operator where its level is below that of
/// one that is held, V18 where ways hold different mutexes.
pub fn taken<A: Around>(
    here: &A,
    at: usize,
    mutex: TakenMutex,
    progress: &mut Progress,
) -> Result<(), Stop>
    ensures { Judges (A.numbered here.now) (λ lists u. u)
        (judged_taken (A.around here.now) at mutex) progress.old progress.new result }
{
    let held = progress.env.held;
    if let Held::Different = held {
        return Err(Stop::Refused(refusal(here, Cause::HeldDiffers, at)));
    }
    if mutex.level < progress.locks.greatest(held)? {
        let finding = finds::level(Some(mutex.level), progress.locks.greatest(held).ok());
        return Err(Stop::Refused(refusal_for(here, Cause::Level, at, finding)));
    }
    progress.env.held = progress.locks.take(held, mutex)?;
    progress.exits.takes(Some(mutex.level));
    Ok(())
}

/// A mutex is released (19.6, Release). V16 at the operator where it was not the last that was
/// taken, V18 where ways hold different mutexes.
pub fn released<A: Around>(
    here: &A,
    at: usize,
    mutex: TakenMutex,
    progress: &mut Progress,
) -> Result<(), Stop>
    ensures { Judges (A.numbered here.now) (λ lists u. u)
        (judged_released (A.around here.now) at mutex) progress.old progress.new result }
{
    let held = progress.env.held;
    if let Held::Different = held {
        return Err(Stop::Refused(refusal(here, Cause::HeldDiffers, at)));
    }
    match progress.locks.release(held, mutex.object)? {
        Some(left) => {
            progress.env.held = left;
            Ok(())
        }
        None => {
            let finding = finds::released(mutex.object, progress.locks.last(held));
            Err(Stop::Refused(refusal_for(here, Cause::NotHeld, at, finding)))
        }
    }
}

/// No mutex is held where the method ends by a way that counts. V17 at that place.
pub fn none_held<A: Around>(here: &A, at: usize, progress: &Progress) -> Result<(), Stop>
    ensures { Judges (A.numbered here.now) (λ lists u. u) (judged_none_held (A.around here.now) at)
        progress.now progress.now result }
{
    if !progress.env.counts {
        return Ok(());
    }
    if progress.locks.same(progress.env.held, Held::Nothing)? {
        Ok(())
    } else {
        let finding = finds::still_held(progress.locks.last(progress.env.held));
        Err(Stop::Refused(refusal_for(here, Cause::StillHeld, at, finding)))
    }
}
