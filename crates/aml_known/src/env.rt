// What is known at a place of a body.

ghost use Rattle.std.specs.Prelude.{◌≡◌, ℕ, IfOk, List, slice_get};
ghost use Rattle.aml_kinds.specs.Kinds.{Shape};
ghost use Rattle.aml_judged.specs.Bodies as bodies;
ghost use Rattle.aml_judged.specs.Known as judged;
ghost use Rattle.aml_meaning.specs.declared.mutex.TakenMutex.{TakenMutex};
ghost use Rattle.aml_known.specs.Views.{AreApart, Says, env_of, kinds_of};

use crate::known::Known;
use crate::locks::{Held, Locks};
use crate::slots::{Slot, are_within, join_slots};
use aml_paths::NoMemory;

/// What is known at a place: of each local and argument a kind, or none where it may be unset;
/// which mutexes are held; whether the place is reached by a way that counts, and whether it stands
/// in a loop.
#[derive(Clone, Copy, Debug)]
pub struct Env {
    pub locals: [Slot; 8],
    pub args: [Slot; 7],
    pub held: Held,
    pub counts: bool,
    pub looped: bool,
}

/// The kind with a number, if there is one.
fn given(kinds: &[Known], number: usize) -> Slot
    ensures { result ≡ slice_get kinds.now number }
{
    kinds.get(number).copied()
}

impl Env {
    /// What is known where a method begins that has arguments of these kinds; those behind the
    /// seventh are not looked at.
    pub fn new(args: &[Known]) -> Env
        ensures { (shapes : ℕ → Shape) (lists : ℕ → List TakenMutex) →
            env_of shapes lists result ≡ bodies.entry (kinds_of shapes args.now) }
    {
        Env {
            locals: [None, None, None, None, None, None, None, None],
            args: [
                given(args, 0),
                given(args, 1),
                given(args, 2),
                given(args, 3),
                given(args, 4),
                given(args, 5),
                given(args, 6),
            ],
            held: Held::Nothing,
            counts: true,
            looped: false,
        }
    }

    /// What is known where one of two ends is reached: of those that count, or of both where none
    /// does; then what the first holds is held.
    pub fn join(mut self, other: Env, locks: &Locks) -> Result<Env, NoMemory>
        ensures { (shapes : ℕ → Shape) (lists : ℕ → List TakenMutex) → AreApart shapes →
            Says lists locks.now.takings.items → IfOk result (λ both. env_of shapes lists both
            ≡ judged.join_env (env_of shapes lists self) (env_of shapes lists other)) }
    {
        if self.counts && !other.counts {
            return Ok(self);
        }
        if other.counts && !self.counts {
            return Ok(other);
        }
        join_slots(&mut self.locals, &other.locals);
        join_slots(&mut self.args, &other.args);
        if self.counts {
            self.held = locks.join(self.held, other.held)?;
        }
        Ok(self)
    }

    /// Whether an end that counts is within what a loop began with.
    pub fn is_end_within(&self, start: &Env) -> bool
        ensures { (shapes : ℕ → Shape) (lists : ℕ → List TakenMutex) → AreApart shapes →
            result ≡ judged.end_within (env_of shapes lists self.now)
            (env_of shapes lists start.now) }
    {
        !self.counts
            || (are_within(&self.locals, &start.locals) && are_within(&self.args, &start.args))
    }

    /// Whether an end that counts holds what is held at another place.
    pub fn holds_as(&self, other: &Env, locks: &Locks) -> Result<bool, NoMemory>
        ensures { (shapes : ℕ → Shape) (lists : ℕ → List TakenMutex) →
            Says lists locks.now.takings.items → IfOk result (λ same. same
            ≡ judged.holds_as (env_of shapes lists self.now) (env_of shapes lists other.now)) }
    {
        if self.counts {
            locks.same(self.held, other.held)
        } else {
            Ok(true)
        }
    }

    /// Whether two ends hold the same, where both count.
    pub fn agrees(&self, other: &Env, locks: &Locks) -> Result<bool, NoMemory>
        ensures { (shapes : ℕ → Shape) (lists : ℕ → List TakenMutex) →
            Says lists locks.now.takings.items → IfOk result (λ same. same
            ≡ judged.ends_agree (env_of shapes lists self.now) (env_of shapes lists other.now)) }
    {
        if self.counts && other.counts {
            locks.same(self.held, other.held)
        } else {
            Ok(true)
        }
    }
}
