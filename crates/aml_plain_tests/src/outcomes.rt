// How a method ends, and what names hold then.

ghost use Rattle.std.specs.Prelude.{IsSome};
ghost use Rattle.aml_namespace.specs.Names.{method_at};
ghost use Rattle.aml_namespace.specs.Shows.{shown};
ghost use Rattle.aml_plain.specs.Methods.{Parses};

use crate::plain::refused;
use aml_contents::Names;
use aml_meaning::{AmlCause, Outcome};
use aml_namespace::{LoadFault, Namespace};
use aml_paths::{NoMemory, ObjectId};
use aml_plain::evaluate_plain;
use aml_regions::World;
use aml_values::Value;
use std::alloc::Global;

/// What is wanted of an evaluation.
#[derive(Clone, Copy, Debug)]
pub(crate) enum Wanted {
    Nothing,
    Int(u64),
    Buf(&'static [u8]),
    Str(&'static [u8]),
    /// An error in the first table, and its place.
    Error(AmlCause, usize),
    OutOfSteps,
}

/// Whether a value is the wanted one.
pub(crate) fn gives(value: &Value, wanted: Wanted) -> bool {
    match (value, wanted) {
        (Value::Int(number), Wanted::Int(right)) => *number == right,
        (Value::Buf(bytes), Wanted::Buf(right)) => bytes.as_slice() == right,
        (Value::Str(bytes), Wanted::Str(right)) => bytes.as_slice() == right,
        _ => false,
    }
}

/// Whether an outcome is the wanted one.
pub(crate) fn ends(outcome: &Outcome, wanted: Wanted) -> bool {
    match (outcome, wanted) {
        (Outcome::Done(Some(value)), _) => gives(value, wanted),
        (Outcome::Done(None), Wanted::Nothing) => true,
        (Outcome::OutOfSteps, Wanted::OutOfSteps) => true,
        (Outcome::AmlError(error), Wanted::Error(cause, at)) => {
            error.table == 0 && error.cause == cause && error.at == at
        }
        _ => false,
    }
}

/// What the names of a namespace hold first.
pub(crate) fn first_names(alloc: Global, namespace: &Namespace<'_>) -> Result<Names, LoadFault> {
    match Names::initial(alloc, namespace) {
        Ok(names) => Ok(names),
        Err(NoMemory) => Err(LoadFault::NoMemory),
    }
}

/// The outcome of a method without arguments, whose body parses, over a world.
fn outcome_of_method<W: World>(
    alloc: Global,
    namespace: &Namespace<'_>,
    method: ObjectId,
    names: &mut Names,
    world: &mut W,
    fuel: u64,
) -> Result<Outcome, LoadFault>
    requires known { IsSome (method_at (shown namespace.now) method.0) }
    requires parses { Parses (shown namespace.now) method.0 }
{
    let given = Vec::new(alloc);
    match evaluate_plain(alloc, namespace, names, method, given, world, fuel) {
        Ok(outcome) => Ok(outcome),
        Err(NoMemory) => Err(LoadFault::NoMemory),
    }
}

/// The outcome of a method without arguments, over a world.
pub(crate) fn outcome_in<W: World>(
    alloc: Global,
    namespace: &Namespace<'_>,
    method: ObjectId,
    names: &mut Names,
    world: &mut W,
    fuel: u64,
) -> Result<Outcome, LoadFault>
    requires { IsSome (method_at (shown namespace.now) method.0) }
{
    match namespace.tree(alloc, method) {
        Ok(_) => outcome_of_method(alloc, namespace, method, names, world, fuel),
        Err(fault) => Err(refused(fault)),
    }
}
