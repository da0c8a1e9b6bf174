// Why an evaluation ends before its end.

ghost use Rattle.std.specs.Prelude.{◌≡◌};
ghost use Rattle.aml_meaning.specs.declared.error.AmlCause.TheVariants as cause;
ghost use Rattle.aml_values.specs.Views.{view};
ghost use Rattle.aml_meaning.specs.Meaning.{want};
ghost use Rattle.aml_meaning.specs.Runs.{By, Runs, method_result};
ghost use Rattle.aml_meaning.specs.State.{error};
ghost use Rattle.aml_scene.specs.Outcomes.{outcome_of};
ghost use Rattle.aml_scene.specs.Stores.{dropped};
ghost use Rattle.aml_machine.specs.Views.{value_of};
ghost use Rattle.aml_scene.specs.Tells.{halted, setting_in, told, went};

pub use crate::scene::Scene;
use aml_meaning::{AmlCause, AmlError, Outcome};
use aml_paths::NoMemory;
use aml_values::Value;
use std::alloc::AllocFailed;

/// Why an evaluation ends before its end.
#[derive(Drop)]
pub enum Halt {
    NoMemory,
    OutOfSteps,
    Error(AmlError),
    Returned(Value),
    /// A Break, at its place.
    Broke(usize),
    /// A Continue, at its place.
    Continued(usize),
}

impl From<NoMemory> for Halt {
    ghost use Rattle.aml_scene.specs.declared.halt.Halt.TheVariants as halt;

    ghost from_gives = { λ _ given. given ≡ halt.NoMemory };

    fn from(_error: NoMemory) -> Halt {
        Halt::NoMemory
    }
}

impl<T: Drop> From<AllocFailed<T>> for Halt {
    ghost use Rattle.aml_scene.specs.declared.halt.Halt.TheVariants as halt;

    ghost from_gives = { λ _ given. given ≡ halt.NoMemory };

    fn from(_error: AllocFailed<T>) -> Halt {
        Halt::NoMemory
    }
}

/// An error at a place of the body's table.
pub fn fails(cause: AmlCause, scene: &Scene<'_>, at: usize) -> Halt
    ensures { halted result ≡ By (error cause scene.now.table at) }
{
    Halt::Error(AmlError {
        table: scene.table,
        at,
        cause,
    })
}

/// A term's value where one is wanted.
pub fn want(scene: &Scene<'_>, at: usize, value: Option<Value>) -> Result<Value, Halt>
    ensures { (call : _) (s : _) → Runs (told view result)
        (want (setting_in scene.now call) at (value_of value)) s s }
{
    match value {
        Some(value) => Ok(value),
        None => Err(fails(AmlCause::NoValue, scene, at)),
    }
}

/// A statement's answer, without the value of its term.
pub fn without_value(answer: Result<Option<Value>, Halt>) -> Result<(), Halt>
    ensures { (m : _) (s t : _) → Runs (told value_of answer) m s t →
        Runs (went result) (dropped m) s t }
{
    match answer {
        Ok(_) => Ok(()),
        Err(halt) => Err(halt),
    }
}

/// What a call makes of how the statements of a method of a table ended. A6 at a Break or Continue
/// outside any While.
pub fn leave(table: usize, ended: Result<(), Halt>) -> Result<Option<Value>, Halt>
    ensures { told value_of result ≡ method_result table (went ended) }
{
    match ended {
        Ok(()) => Ok(None),
        Err(Halt::Returned(returned)) => Ok(Some(returned)),
        Err(Halt::Broke(at) | Halt::Continued(at)) => Err(Halt::Error(AmlError {
            table,
            at,
            cause: AmlCause::Outside,
        })),
        Err(Halt::NoMemory) => Err(Halt::NoMemory),
        Err(Halt::OutOfSteps) => Err(Halt::OutOfSteps),
        Err(Halt::Error(error)) => Err(Halt::Error(error)),
    }
}

/// How a method of a table ends whose statements ended so. A6 at a Break or Continue outside any
/// While.
pub fn outcome_of(table: usize, ended: Result<(), Halt>) -> Result<Outcome, NoMemory>
    ensures { result ≡ outcome_of table ended }
{
    match ended {
        Ok(()) => Ok(Outcome::Done(None)),
        Err(Halt::Returned(value)) => Ok(Outcome::Done(Some(value))),
        Err(Halt::Error(error)) => Ok(Outcome::AmlError(error)),
        Err(Halt::Broke(at) | Halt::Continued(at)) => Ok(Outcome::AmlError(AmlError {
            table,
            at,
            cause: AmlCause::Outside,
        })),
        Err(Halt::OutOfSteps) => Ok(Outcome::OutOfSteps),
        Err(Halt::NoMemory) => Err(NoMemory),
    }
}
