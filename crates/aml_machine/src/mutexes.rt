// The mutexes that a running method holds.

ghost use Rattle.std.specs.Prelude.{◌≡◌, ◌≤◌, ◌++◌, ◌∷◌, [], OnErr, OnOk, false, true};
ghost use Rattle.aml_meaning.specs.Mutexes.{without_last};
ghost use Rattle.aml_meaning.specs.State.{greatest_level};
ghost use Rattle.aml_machine.specs.Mutexes.{are_rising, held_if, is_empty};

use aml_meaning::TakenMutex;
use aml_paths::{NoMemory, ObjectId};
use std::alloc::Global;

/// The mutexes that a method has taken and not released, in order of taking, and the greatest level
/// of those that its callers hold. No level is below the one before it, so the last is the
/// greatest. Where mutexes are not watched, none is kept here, and nothing is asked of them.
#[derive(Drop)]
pub struct Mutexes {
    taken: Vec<TakenMutex>,
    outside: u8,
    watched: bool,
    ghost rising: { are_rising outside taken.items ≡ true },
}

impl Mutexes {
    /// None yet, in a method that nobody called.
    pub fn watched(alloc: Global) -> Mutexes
        ensures none { result.taken.items ≡ [] }
        ensures outside { result.outside ≡ 0 }
        ensures watched { result.watched ≡ true }
    {
        Mutexes {
            taken: Vec::new(alloc),
            outside: 0,
            watched: true,
        }
    }

    /// None, as mutexes are not watched.
    pub fn unwatched(alloc: Global) -> Mutexes
        ensures none { result.taken.items ≡ [] }
        ensures outside { result.outside ≡ 0 }
        ensures watched { result.watched ≡ false }
    {
        Mutexes {
            taken: Vec::new(alloc),
            outside: 0,
            watched: false,
        }
    }

    /// None yet, in a method that the one which holds these calls.
    pub fn of_callee(&self, alloc: Global) -> Mutexes
        ensures none { result.taken.items ≡ [] }
        ensures outside { result.outside ≡ greatest_level self.now.outside self.now.taken.items }
        ensures watched { result.watched ≡ self.now.watched }
    {
        Mutexes {
            taken: Vec::new(alloc),
            outside: self.level(),
            watched: self.watched,
        }
    }

    /// Whether mutexes are watched.
    pub fn are_watched(&self) -> bool
        ensures { result ≡ self.now.watched }
    {
        self.watched
    }

    /// The greatest level that is held, by the method or by a caller of its.
    pub fn level(&self) -> u8
        ensures { result ≡ greatest_level self.now.outside self.now.taken.items }
    {
        match self.taken.last() {
            Some(last) => last.level,
            None => self.outside,
        }
    }

    /// Whether the method holds none.
    pub fn is_empty(&self) -> bool
        ensures { result ≡ is_empty self.now.taken.items }
    {
        self.taken.is_empty()
    }

    /// Takes a mutex, behind the others.
    pub fn push(&mut self, mutex: TakenMutex) -> Result<(), NoMemory>
        requires { greatest_level self.old.outside self.old.taken.items ≤ mutex.level }
        ensures taken { OnOk result (self.new.taken.items ≡ self.old.taken.items ++ mutex ∷ []) }
        ensures lost { OnErr result (self.new.taken.items ≡ self.old.taken.items) }
        ensures outside { self.new.outside ≡ self.old.outside }
        ensures watched { self.new.watched ≡ self.old.watched }
    {
        match self.taken.push(mutex) {
            Ok(()) => Ok(()),
            Err(_) => Err(NoMemory),
        }
    }

    /// Releases the mutex that was taken last, where it is the one with this number.
    pub fn release(&mut self, object: ObjectId) -> bool
        ensures released { without_last object.0 self.old.taken.items ≡
            held_if result self.new.taken.items }
        ensures kept { result ≡ false → self.new.taken.items ≡ self.old.taken.items }
        ensures outside { self.new.outside ≡ self.old.outside }
        ensures watched { self.new.watched ≡ self.old.watched }
    {
        let last = match self.taken.last() {
            Some(last) => last.object.0,
            None => return false,
        };
        if last != object.0 {
            return false;
        }
        self.taken.pop();
        true
    }
}
