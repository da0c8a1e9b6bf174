// Methods from the terms and from the bytes of their tables. What bodies give is told by the rows
// of crates/acpicheck/rows.

ghost use Rattle.std.specs.Prelude.{IsSome};
ghost use Rattle.aml_namespace.specs.Names.{method_at};
ghost use Rattle.aml_namespace.specs.Shows.{shown};
ghost use Rattle.aml_plain.specs.Methods.{Parses};

use crate::outcomes::first_names;
use acpi_samples::{DSDT, HOST, table_of};
use aml_meaning::{AmlCause, AmlError, Outcome};
use aml_namespace::{LoadCause, LoadFault, LoadRefusal, Namespace};
use aml_paths::{NoMemory, ObjectId};
use aml_plain::{evaluate_plain, evaluate_tree};
use aml_regions::RegisterFile;
use aml_tree::TreeFault;
use aml_values::Value;
use std::alloc::{AllocError, Global};
use std::process::Abort;
use std::test::Fail;

/// How an evaluation ends, by the integer that it gives.
#[derive(Clone, Copy, Debug, PartialEq, Eq)]
enum Ended {
    Done(Option<u64>),
    /// With a buffer, a string or a package.
    Other,
    AmlError(AmlError),
    OutOfSteps,
}

fn ended_by(outcome: &Outcome) -> Ended {
    match outcome {
        Outcome::Done(Some(Value::Int(number))) => Ended::Done(Some(*number)),
        Outcome::Done(Some(_)) => Ended::Other,
        Outcome::Done(None) => Ended::Done(None),
        Outcome::AmlError(error) => Ended::AmlError(*error),
        Outcome::OutOfSteps => Ended::OutOfSteps,
    }
}

/// An error in the first table.
fn error(cause: AmlCause, at: usize) -> Ended {
    Ended::AmlError(AmlError {
        table: 0,
        at,
        cause,
    })
}

/// The fault of a body of the first table, as that of the table.
pub(crate) fn refused(fault: TreeFault) -> LoadFault {
    match fault {
        TreeFault::NoMemory => LoadFault::NoMemory,
        TreeFault::Refused(refusal) => LoadFault::Refused(LoadRefusal {
            cause: LoadCause::Tree(refusal.cause),
            table: 0,
            at: refusal.at,
        }),
    }
}

/// The first method's outcome, from its terms, over a world.
fn outcome_of_terms(
    alloc: Global,
    namespace: &Namespace<'_>,
    arguments: &[u64],
    world: &mut RegisterFile,
    fuel: u64,
) -> Result<Ended, LoadFault>
    requires { IsSome (method_at (shown namespace.now) 9) }
{
    let body = match namespace.tree(alloc, ObjectId(9)) {
        Ok(body) => body,
        Err(fault) => return Err(refused(fault)),
    };
    let mut names = first_names(alloc, namespace)?;
    let given = integers(alloc, arguments)?;
    let answer = evaluate_tree(
        alloc,
        namespace,
        &mut names,
        ObjectId(9),
        body,
        given,
        world,
        fuel,
    );
    match answer {
        Ok(outcome) => Ok(ended_by(&outcome)),
        Err(NoMemory) => Err(LoadFault::NoMemory),
    }
}

/// The first method's outcome, from its bytes.
fn outcome_of_bytes(
    alloc: Global,
    namespace: &Namespace<'_>,
    arguments: &[u64],
    fuel: u64,
) -> Result<Ended, LoadFault>
    requires { IsSome (method_at (shown namespace.now) 9) }
{
    match namespace.tree(alloc, ObjectId(9)) {
        Ok(_) => outcome_of_method(alloc, namespace, arguments, fuel),
        Err(fault) => Err(refused(fault)),
    }
}

/// The outcome of the first method, whose body parses.
fn outcome_of_method(
    alloc: Global,
    namespace: &Namespace<'_>,
    arguments: &[u64],
    fuel: u64,
) -> Result<Ended, LoadFault>
    requires known { IsSome (method_at (shown namespace.now) 9) }
    requires parses { Parses (shown namespace.now) 9 }
{
    let mut names = first_names(alloc, namespace)?;
    let mut world = RegisterFile::new(alloc);
    let given = integers(alloc, arguments)?;
    let answer = evaluate_plain(
        alloc,
        namespace,
        &mut names,
        ObjectId(9),
        given,
        &mut world,
        fuel,
    );
    match answer {
        Ok(outcome) => Ok(ended_by(&outcome)),
        Err(NoMemory) => Err(LoadFault::NoMemory),
    }
}

/// Integers, as arguments.
fn integers(alloc: Global, numbers: &[u64]) -> Result<Vec<Value>, AllocError> {
    let mut values = Vec::new(alloc);
    for number in numbers {
        values.push(Value::Int(*number))?;
    }
    Ok(values)
}

/// The first method's outcome, from its terms, from which that from its bytes may not differ.
fn evaluated(
    rt: &impl Abort,
    alloc: Global,
    namespace: &Namespace<'_>,
    arguments: &[u64],
    fuel: u64,
) -> Result<Ended, LoadFault>
    requires { IsSome (method_at (shown namespace.now) 9) }
{
    let mut world = RegisterFile::new(alloc);
    let outcome = outcome_of_terms(alloc, namespace, arguments, &mut world, fuel)?;
    let plain = outcome_of_bytes(alloc, namespace, arguments, fuel)?;
    assert_eq!(rt; plain, outcome);
    Ok(outcome)
}

/// The first method's outcome, or the fault of its load or of an evaluation.
fn outcome_of(
    rt: &impl Abort,
    alloc: Global,
    table: &[u8],
    arguments: &[u64],
    fuel: u64,
) -> Result<Ended, LoadFault> {
    let namespace = Namespace::load(alloc, &[table], HOST)?;
    assert!(rt; namespace.method(ObjectId(9)).is_some());
    evaluated(rt, alloc, &namespace, arguments, fuel)
}

/// Store (Arg0, Local0), Return (Local0)
const STORE: &[u8] = b"\x14\x0bM018\x01\x70\x68\x60\xa4\x60";

/// Return (Add (Arg0, One, Local0))
const STORED: &[u8] = b"\x14\x0bM016\x01\xa4\x72\x68\x01\x60";

/// Methods of one argument that are given none, which the program refuses.
#[test]
fn arguments_that_are_not_given(rt: HostRuntime) -> Result<(), Fail> {
    let rows: &[(&[u8], u64, Ended)] = &[
        (STORE, 2, error(AmlCause::Unset, 44)),
        (STORED, 5, error(AmlCause::Unset, 45)),
    ];
    for (module, fuel, outcome) in rows {
        let table = table_of(rt.alloc(), *b"DSDT", 2, module)?;
        let found = outcome_of(&rt, rt.alloc(), &table, &[], *fuel)?;
        assert_eq!(rt; found, *outcome);
    }
    Ok(())
}

/// Also for a run in which an allocation fails: the evaluation is then refused for want of memory,
/// and the next one has its outcome.
#[test]
fn want_of_memory(rt: HostRuntime) -> Result<(), Fail> {
    let outcome = match outcome_of(&rt, rt.alloc(), &DSDT, &[41], 1000) {
        Err(LoadFault::NoMemory) => outcome_of(&rt, rt.alloc(), &DSDT, &[41], 1000),
        told => told,
    };
    assert_eq!(rt; outcome, Ok(Ended::Done(Some(42))));
    Ok(())
}
