// What is known where a loop or a method is left.

ghost use Rattle.std.specs.Prelude.{◌≡◌, ℕ, IfOk, List, OnOk, Some};
ghost use Rattle.std.specs.Option.{option_map};
ghost use Rattle.aml_kinds.specs.Kinds.{Shape};
ghost use Rattle.aml_judged.specs.Judged as judged;
ghost use Rattle.aml_judged.specs.Known.{join_env};
ghost use Rattle.aml_meaning.specs.declared.mutex.TakenMutex.{TakenMutex};
ghost use Rattle.aml_known.specs.Views.{AreApart, Says, env_of, exits_of, kind_of};

use crate::env::Env;
use crate::known::Known;
use crate::locks::Locks;
use aml_paths::NoMemory;

/// What is known at the exits that count: of all Breaks and of all Continues of the loop around,
/// and the kind of what the Returns give; and the least level of a mutex that is taken, by a way
/// that counts or by one that does not.
#[derive(Clone, Copy, Debug)]
pub struct Exits {
    pub broke: Option<Env>,
    pub continued: Option<Env>,
    pub returned: Option<Known>,
    pub least: Option<u8>,
}

/// What is known of the one end or of the other, where there are any.
fn either(one: Option<Env>, other: Env, locks: &Locks) -> Result<Env, NoMemory>
    ensures { (shapes : ℕ → Shape) (lists : ℕ → List TakenMutex) → AreApart shapes →
        Says lists locks.now.takings.items → IfOk result (λ both. Some (env_of shapes lists both)
        ≡ judged.either join_env (option_map (env_of shapes lists) one)
        (Some (env_of shapes lists other))) }
{
    match one {
        Some(env) => env.join(other, locks),
        None => Ok(other),
    }
}

impl Exits {
    /// Nothing is left, and no mutex taken.
    pub fn new() -> Exits
        ensures { (shapes : ℕ → Shape) (lists : ℕ → List TakenMutex) →
            exits_of shapes lists result ≡ judged.no_exits }
    {
        Exits {
            broke: None,
            continued: None,
            returned: None,
            least: None,
        }
    }

    /// A Break that counts.
    pub fn breaks(&mut self, env: Env, locks: &Locks) -> Result<(), NoMemory>
        ensures { (shapes : ℕ → Shape) (lists : ℕ → List TakenMutex) → AreApart shapes →
            Says lists locks.now.takings.items → OnOk result (exits_of shapes lists self.new
            ≡ judged.join_exits (exits_of shapes lists self.old)
            (record judged.no_exits { broke = Some (env_of shapes lists env) })) }
    {
        self.broke = Some(either(self.broke, env, locks)?);
        Ok(())
    }

    /// A Continue that counts.
    pub fn continues(&mut self, env: Env, locks: &Locks) -> Result<(), NoMemory>
        ensures { (shapes : ℕ → Shape) (lists : ℕ → List TakenMutex) → AreApart shapes →
            Says lists locks.now.takings.items → OnOk result (exits_of shapes lists self.new
            ≡ judged.join_exits (exits_of shapes lists self.old)
            (record judged.no_exits { continued = Some (env_of shapes lists env) })) }
    {
        self.continued = Some(either(self.continued, env, locks)?);
        Ok(())
    }

    /// A Return that counts, of a value of a kind.
    pub fn returns(&mut self, kind: Known)
        ensures { (shapes : ℕ → Shape) (lists : ℕ → List TakenMutex) → AreApart shapes →
            exits_of shapes lists self.new ≡ judged.join_exits (exits_of shapes lists self.old)
            (record judged.no_exits { returned = Some (kind_of shapes kind) }) }
    {
        self.returned = Some(match self.returned {
            Some(other) => other.join(kind),
            None => kind,
        });
    }

    /// Mutexes are taken, the least of which has a level, if any is.
    pub fn takes(&mut self, least: Option<u8>)
        ensures { (shapes : ℕ → Shape) (lists : ℕ → List TakenMutex) →
            exits_of shapes lists self.new ≡ judged.join_exits (exits_of shapes lists self.old)
            (judged.taking least) }
    {
        self.least = match (self.least, least) {
            (Some(one), Some(other)) => Some(one.min(other)),
            (None, other) => other,
            (one, None) => one,
        };
    }
}
