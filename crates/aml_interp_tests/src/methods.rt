// A method of a table, verified and evaluated.

ghost use Rattle.aml_interp.specs.Answers.{WereChecked};

use acpi_samples::{HOST, table_of};
use aml_contents::Names;
use aml_interp::evaluate;
use aml_namespace::{LoadFault, Namespace};
use aml_paths::{NoMemory, ObjectId};
use aml_regions::{Access, Event, RegisterFile, RegistersFault, World};
use aml_signatures::Signatures;
use aml_values::Value;
use aml_verify::{Checked, verify};
use std::alloc::{AllocError, Global};
use std::process::Abort;

/// What is wanted of an evaluation.
#[derive(Clone, Copy, Debug)]
pub(crate) enum Wanted {
    Nothing,
    Int(u64),
    Buf(&'static [u8]),
    Str(&'static [u8]),
}

/// One call on a world; reads and writes are of units of 8 bits of SystemIO.
#[derive(Clone, Copy, Debug, PartialEq, Eq)]
pub(crate) enum Call {
    Read(u64, u64),
    Written(u64, u64),
    Notified(usize, u64),
    Slept(u64),
    Stalled(u64),
    Other,
}

/// A method in a table.
#[derive(Clone, Copy, Debug)]
pub(crate) struct Method {
    /// The table's revision: below 2 integers have 32 bits.
    pub revision: u8,
    /// The table's bytes behind its header.
    pub module: &'static [u8],
    /// The number of its object.
    pub number: usize,
    pub arguments: &'static [u64],
    /// Registers, as a text sets them.
    pub registers: &'static [u8],
}

/// Whether a value is the wanted one.
pub(crate) fn gives(value: &Option<Value>, wanted: Wanted) -> bool {
    match (value, wanted) {
        (None, Wanted::Nothing) => true,
        (Some(Value::Int(number)), Wanted::Int(right)) => *number == right,
        (Some(Value::Buf(bytes)), Wanted::Buf(right)) => bytes.as_slice() == right,
        (Some(Value::Str(bytes)), Wanted::Str(right)) => bytes.as_slice() == right,
        _ => false,
    }
}

/// The unit's place, where it is one of 8 bits of SystemIO.
fn port(access: Access) -> Option<u64> {
    match access {
        Access {
            space: 1,
            address,
            width: 8,
        } => Some(address),
        _ => None,
    }
}

/// What an event tells.
fn call_of(event: &Event) -> Call {
    match event {
        Event::Read(access, value) => match port(*access) {
            Some(address) => Call::Read(address, *value),
            None => Call::Other,
        },
        Event::Written(access, value) => match port(*access) {
            Some(address) => Call::Written(address, *value),
            None => Call::Other,
        },
        Event::Notified(object, value) => Call::Notified(object.0, *value),
        Event::Slept(milliseconds, _) => Call::Slept(*milliseconds),
        Event::Stalled(microseconds) => Call::Stalled(*microseconds),
    }
}

/// Whether events are the wanted calls.
pub(crate) fn are_calls(events: &[Event], wanted: &[Call]) -> bool {
    if events.len() != wanted.len() {
        return false;
    }
    for (event, call) in events.iter().zip(wanted.iter()) {
        if call_of(event) != *call {
            return false;
        }
    }
    true
}

/// The registers that a text sets.
pub(crate) fn registers(alloc: Global, text: &[u8]) -> Result<RegisterFile, LoadFault> {
    match RegisterFile::read_text(alloc, text) {
        Ok(file) => Ok(file),
        Err(RegistersFault::NoMemory) => Err(LoadFault::NoMemory),
        Err(_) => Ok(RegisterFile::new(alloc)),
    }
}

/// Integers as arguments.
fn integers(alloc: Global, numbers: &[u64]) -> Result<Vec<Value>, AllocError> {
    let mut values = Vec::new(alloc);
    for number in numbers {
        values.push(Value::Int(*number))?;
    }
    Ok(values)
}

/// What the names of a namespace hold first.
pub(crate) fn first_names(alloc: Global, namespace: &Namespace<'_>) -> Result<Names, LoadFault> {
    match Names::initial(alloc, namespace) {
        Ok(names) => Ok(names),
        Err(NoMemory) => Err(LoadFault::NoMemory),
    }
}

/// What the evaluation of an accepted method answers over a world.
pub(crate) fn evaluated<W: World>(
    rt: &impl Abort,
    alloc: Global,
    method: Method,
    world: &mut W,
) -> Result<Result<Option<Value>, NoMemory>, LoadFault> {
    let table = table_of(alloc, *b"DSDT", method.revision, method.module)?;
    let namespace = Namespace::load(alloc, &[&table], HOST)?;
    evaluated_in(rt, alloc, &namespace, method, world)
}

/// The same in the namespace of its table.
fn evaluated_in<W: World>(
    rt: &impl Abort,
    alloc: Global,
    namespace: &Namespace<'_>,
    method: Method,
    world: &mut W,
) -> Result<Result<Option<Value>, NoMemory>, LoadFault> {
    let signatures = Signatures::new(alloc);
    match verify(alloc, namespace, &signatures) {
        Ok(checked) => evaluated_by(rt, alloc, &checked, method, world),
        Err(NoMemory) => Err(LoadFault::NoMemory),
    }
}

/// The same by the verdicts on its methods.
fn evaluated_by<W: World>(
    rt: &impl Abort,
    alloc: Global,
    checked: &Checked<'_>,
    method: Method,
    world: &mut W,
) -> Result<Result<Option<Value>, NoMemory>, LoadFault>
    requires { WereChecked checked.now }
{
    let mut names = first_names(alloc, checked.namespace())?;
    let arguments = integers(alloc, method.arguments)?;
    let id = ObjectId(method.number);
    assert!(rt; checked.accepts(id, &arguments), "{method:?}");
    assert!(rt; checked.names_fit(&names));
    let answer = evaluate(alloc, checked, &mut names, id, arguments, world);
    assert!(rt; checked.names_fit(&names));
    Ok(answer)
}
