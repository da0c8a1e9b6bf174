// Which mutexes a method holds, at each place of its body.

ghost use Rattle.std.specs.Prelude.{◌≡◌, ◌<◌, ◌++◌, ◌∷◌, ◌==◌, ◌&&◌, [], ℕ, IfOk, IfSome, List, None, OnOk, length, slice_get};
ghost use Rattle.std.specs.List.{last_or};
ghost use Rattle.std.specs.Option.{option_map};
ghost use Rattle.aml_judged.specs.Known as judged;
ghost use Rattle.aml_judged.specs.Judge.{is_level};
ghost use Rattle.aml_judged.specs.Judged.{Around};
ghost use Rattle.aml_meaning.specs.declared.mutex.TakenMutex.{TakenMutex};
ghost use Rattle.aml_meaning.specs.Mutexes.{without_last};
ghost use Rattle.aml_meaning.specs.State.{greatest_level};
ghost use Rattle.aml_known.specs.Views.{CanBeRead, Grown, IsBefore, IsBehind, IsCertain, IsThere, Says, held_of, last_of, mutexes_of, same_by};

use aml_meaning::TakenMutex;
use aml_paths::{NoMemory, ObjectId};
use std::alloc::Global;

/// The mutexes that a method holds at a place, in the order in which it took them: none, or those
/// up to one that it took; or different ones, where ways have met that hold different mutexes.
#[derive(Clone, Copy, Debug, PartialEq, Eq)]
pub enum Held {
    Nothing,
    /// The number of the last taking among `Locks`.
    UpTo(usize),
    Different,
}

/// One taking of a mutex, behind others.
#[derive(Clone, Copy, Debug, PartialEq, Eq)]
pub struct Taking {
    pub mutex: TakenMutex,
    /// The taking before it of those that are held; none where it is the first.
    pub before: Option<usize>,
    /// The greatest level of those, and its own.
    pub greatest: u8,
}

/// All takings of mutexes in a body so far. What is held at a place is told by its last taking, so
/// that it is copied without memory, and compared by what differs.
#[derive(Drop)]
pub struct Locks {
    pub takings: Vec<Taking>,
}

/// What the last mutexes of two lists tell of the lists.
#[derive(Clone, Copy, Debug, PartialEq, Eq)]
enum Compared {
    Same,
    Different,
    /// They are the same just where those up to two earlier takings are.
    Before(usize, usize),
}

/// Whether two mutexes are the same, with the same level.
fn is_same(one: TakenMutex, other: TakenMutex) -> bool
    ensures { result ≡ ((one.object.0 == other.object.0) && (one.level == other.level)) }
{
    one.object.0 == other.object.0 && one.level == other.level
}

impl Held {
    /// The last taking of those that are held, if any is.
    fn last(self) -> Option<usize>
        ensures { result ≡ last_of self }
    {
        match self {
            Held::UpTo(last) => Some(last),
            Held::Nothing | Held::Different => None,
        }
    }
}

impl Locks {
    /// No taking yet.
    pub fn new(alloc: Global) -> Locks
        ensures none { result.takings.items ≡ [] }
        ensures read { CanBeRead result.takings.items }
    {
        Locks {
            takings: Vec::new(alloc),
        }
    }

    /// The taking with a number. Where there is none, or it does not stand behind the one before
    /// it, which what these calls answer never leads to, memory is said to be wanted.
    fn taking(&self, number: usize) -> Result<Taking, NoMemory>
        ensures there { IfOk result (λ t. slice_get self.now.takings.items number ≡ Some t) }
        ensures behind { IfOk result (IsBehind number) }
    {
        let Some(taking) = self.takings.get(number) else {
            return Err(NoMemory);
        };
        match taking.before {
            Some(before) => {
                if before < number {
                    Ok(*taking)
                } else {
                    Err(NoMemory)
                }
            }
            None => Ok(*taking),
        }
    }

    /// The greatest level of the mutexes that are held; 0 where none is, or where ways hold
    /// different ones.
    pub fn greatest(&self, held: Held) -> Result<u8, NoMemory>
        ensures level { (lists : ℕ → List TakenMutex) → Says lists self.now.takings.items →
            IfOk result (λ level. level ≡ greatest_level 0 (mutexes_of lists held)) }
        ensures there { OnOk result (IsThere (length self.now.takings.items) held) }
    {
        match held {
            Held::UpTo(last) => Ok(self.taking(last)?.greatest),
            Held::Nothing | Held::Different => Ok(0),
        }
    }

    /// Whether a method that takes mutexes, the least of which has a level, if it takes any, may be
    /// called where these are held.
    pub fn takes_level(&self, least: Option<u8>, held: Held) -> Result<bool, NoMemory>
        ensures { (here : Around) (lists : ℕ → List TakenMutex) →
            Says lists self.now.takings.items →
            IfOk result (λ may. may ≡ is_level here least (mutexes_of lists held)) }
    {
        match least {
            Some(level) => Ok(self.greatest(held)? <= level),
            None => Ok(true),
        }
    }

    /// A mutex is taken behind those that are held.
    pub fn take(&mut self, held: Held, mutex: TakenMutex) -> Result<Held, NoMemory>
        ensures takes { (lists : ℕ → List TakenMutex) → Says lists self.new.takings.items →
            IfOk result (λ now. held_of lists now
            ≡ judged.These (mutexes_of lists held ++ mutex ∷ [])) }
        ensures grows { Grown self.old.takings.items self.new.takings.items }
        ensures read { CanBeRead self.old.takings.items → CanBeRead self.new.takings.items }
    {
        let greatest = self.greatest(held)?;
        let number = self.takings.len();
        let taking = Taking {
            mutex,
            before: held.last(),
            greatest: greatest.max(mutex.level),
        };
        match self.takings.push(taking) {
            Ok(()) => Ok(Held::UpTo(number)),
            Err(_) => Err(NoMemory),
        }
    }

    /// What is held once the mutex with this number is released; none where it is not the last that
    /// was taken.
    pub fn release(&self, held: Held, object: ObjectId) -> Result<Option<Held>, NoMemory>
        ensures releases { (lists : ℕ → List TakenMutex) → Says lists self.now.takings.items →
            IfOk result (λ left. option_map (mutexes_of lists) left
            ≡ without_last object.0 (mutexes_of lists held)) }
        ensures certain { IfOk result (λ left. IfSome left IsCertain) }
    {
        let Held::UpTo(last) = held else {
            return Ok(None);
        };
        let taking = self.taking(last)?;
        if taking.mutex.object.0 != object.0 {
            return Ok(None);
        }
        match taking.before {
            Some(before) => Ok(Some(Held::UpTo(before))),
            None => Ok(Some(Held::Nothing)),
        }
    }

    /// The mutex that was taken last of those that are held; none where none is, or where ways hold
    /// different ones.
    pub fn last(&self, held: Held) -> Result<Option<TakenMutex>, NoMemory>
        ensures { (lists : ℕ → List TakenMutex) → Says lists self.now.takings.items →
            IfOk result (λ last. last ≡ last_or None (mutexes_of lists held)) }
    {
        match held {
            Held::UpTo(last) => Ok(Some(self.taking(last)?.mutex)),
            Held::Nothing | Held::Different => Ok(None),
        }
    }

    /// What the last of the mutexes up to two takings tell of these.
    fn compare(&self, one: usize, other: usize) -> Result<Compared, NoMemory>
        ensures tells { (lists : ℕ → List TakenMutex) → Says lists self.now.takings.items →
            IfOk result (λ compared. judged.same_mutexes (lists one) (lists other)
            ≡ same_by lists compared) }
        ensures before { IfOk result (IsBefore one) }
    {
        if one == other {
            return Ok(Compared::Same);
        }
        let a = self.taking(one)?;
        let b = self.taking(other)?;
        if !is_same(a.mutex, b.mutex) {
            return Ok(Compared::Different);
        }
        match (a.before, b.before) {
            (Some(one), Some(other)) => Ok(Compared::Before(one, other)),
            (None, None) => Ok(Compared::Same),
            (Some(_), None) | (None, Some(_)) => Ok(Compared::Different),
        }
    }

    /// Whether the mutexes up to two takings are the same, in the same order.
    fn is_same_up_to(&self, one: usize, other: usize) -> Result<bool, NoMemory>
        ensures { (lists : ℕ → List TakenMutex) → Says lists self.now.takings.items →
            IfOk result (λ same. same ≡ judged.same_mutexes (lists one) (lists other)) }
    {
        let mut end = one;
        let mut other_end = other;
        'ends: loop {
            match self.compare(end, other_end)? {
                Compared::Same => return Ok(true),
                Compared::Different => return Ok(false),
                Compared::Before(before, other_before) => {
                    end = before;
                    other_end = other_before;
                }
            }
        }
    }

    /// Whether just the same is held at two places; where ways hold different mutexes, never.
    pub fn same(&self, one: Held, other: Held) -> Result<bool, NoMemory>
        ensures { (lists : ℕ → List TakenMutex) → Says lists self.now.takings.items →
            IfOk result (λ same.
            same ≡ judged.same_held (held_of lists one) (held_of lists other)) }
    {
        match (one, other) {
            (Held::Nothing, Held::Nothing) => Ok(true),
            (Held::UpTo(a), Held::UpTo(b)) => self.is_same_up_to(a, b),
            // Only where there is such a taking is more held than nothing.
            (Held::UpTo(last), Held::Nothing) => {
                self.taking(last)?;
                Ok(false)
            }
            (Held::Nothing, Held::UpTo(last)) => {
                self.taking(last)?;
                Ok(false)
            }
            (Held::Different, _) | (_, Held::Different) => Ok(false),
        }
    }

    /// What is held where two ways meet.
    pub fn join(&self, one: Held, other: Held) -> Result<Held, NoMemory>
        ensures { (lists : ℕ → List TakenMutex) → Says lists self.now.takings.items →
            IfOk result (λ both. held_of lists both
            ≡ judged.join_held (held_of lists one) (held_of lists other)) }
    {
        if self.same(one, other)? {
            Ok(one)
        } else {
            Ok(Held::Different)
        }
    }
}
