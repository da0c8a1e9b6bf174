// A body of its own bytes, in the namespace of a table with some methods.

ghost use Rattle.aml_namespace.specs.Shows.{shown};
ghost use Rattle.aml_quick.specs.Keeps.{AreSound};

use acpi_samples::{HOST, table_of};
use aml_bodies::Links;
use aml_contents::Names;
use aml_machine::{Arguments, Frame, Machine, Mutexes};
use aml_namespace::{LoadFault, Namespace, Width};
use aml_own_names::OwnNames;
use aml_paths::{NoMemory, ObjectId};
use aml_quick::{Here, Made, integer_statement, integer_term, put_integer, written_byte};
use aml_scene::scene::Scene;
use aml_signatures::Signatures;
use aml_values::{Element, Package, Value};
use aml_verify::{Checked, verify};
use std::alloc::{AllocError, Global};

/// What is asked of the bytes of a body.
#[derive(Clone, Copy, Debug)]
pub(crate) enum Asked {
    /// The integer of the term that begins them.
    Term,
    /// What the statement that begins them stores last.
    Statement,
    /// To store 7 into the target that begins them, and then the integer of the term behind it.
    Put,
    /// The integer of the term, in the last method that may be active.
    Deepest,
    /// The number of the byte of the Index as a target whose parts begin them.
    Written,
}

/// What the table has.
const METHODS: &[u8] = &[
    // Name (INT0, 7)
    0x08, b'I', b'N', b'T', b'0', 0x0A, 0x07, //
    // Method (ONE1, 1) { Return (Add (Arg0, One)) }
    0x14, 0x0B, b'O', b'N', b'E', b'1', 0x01, 0xA4, 0x72, 0x68, 0x01, 0x00, //
    // Method (TWO2, 2) { Return (Subtract (Arg0, Arg1)) }
    0x14, 0x0B, b'T', b'W', b'O', b'2', 0x02, 0xA4, 0x74, 0x68, 0x69, 0x00, //
    // Method (NEST, 1) { Return (ONE1 (ONE1 (Arg0))) }
    0x14, 0x10, b'N', b'E', b'S', b'T', 0x01, 0xA4, b'O', b'N', b'E', b'1', b'O', b'N', b'E', b'1',
    0x68, //
    // Method (HELD) { Return (INT0) }
    0x14, 0x0B, b'H', b'E', b'L', b'D', 0x00, 0xA4, b'I', b'N', b'T', b'0', //
    // Method (LATE) { Noop Return (One) }
    0x14, 0x09, b'L', b'A', b'T', b'E', 0x00, 0xA3, 0xA4, 0x01, //
    // Method (FREE) { Return (Local0) }
    0x14, 0x08, b'F', b'R', b'E', b'E', 0x00, 0xA4, 0x60,
];

/// A package of elements, which are not nested too deep.
fn package(elements: Vec<Element>) -> Value {
    match Package::new(elements) {
        Ok(package) => Value::Pkg(package),
        Err(_) => Value::Int(0),
    }
}

/// A package of the integer 5 and a package of the integers 8 and 9.
fn nested(alloc: Global) -> Result<Value, AllocError> {
    let mut inner = Vec::new(alloc);
    inner.push(Element::Value(Value::Int(8)))?;
    inner.push(Element::Value(Value::Int(9)))?;
    let mut outer = Vec::new(alloc);
    outer.push(Element::Value(Value::Int(5)))?;
    outer.push(Element::Value(package(inner)))?;
    Ok(package(outer))
}

/// A method's machine with so many steps: the first argument is 41, the second a package, the third
/// zero.
fn machine(alloc: Global, names: Names, steps: u64) -> Result<Machine, AllocError> {
    let mut arguments = Vec::new(alloc);
    arguments.push(Value::Int(41))?;
    arguments.push(nested(alloc)?)?;
    arguments.push(Value::Int(0))?;
    Ok(Machine {
        frame: Frame::new(alloc, Mutexes::watched(alloc), Arguments::of(arguments)),
        names,
        steps,
    })
}

/// What is answered, where integers have 64 bits.
pub(crate) fn answer(
    alloc: Global,
    bytes: &[u8],
    asked: Asked,
    steps: u64,
) -> Result<Option<Made>, LoadFault> {
    let table = table_of(alloc, *b"DSDT", 2, METHODS)?;
    let namespace = Namespace::load(alloc, &[&table], HOST)?;
    match answer_among(alloc, &namespace, bytes, asked, steps) {
        Ok(made) => Ok(made),
        Err(NoMemory) => Err(LoadFault::NoMemory),
    }
}

/// The same in a namespace, whose methods are judged.
fn answer_among(
    alloc: Global,
    namespace: &Namespace<'_>,
    bytes: &[u8],
    asked: Asked,
    steps: u64,
) -> Result<Option<Made>, NoMemory> {
    let signatures = Signatures::new(alloc);
    let checked = verify(alloc, namespace, &signatures)?;
    let names = Names::initial(alloc, namespace)?;
    let Ok(mut machine) = machine(alloc, names, steps) else {
        return Err(NoMemory);
    };
    answer_in(alloc, &checked, bytes, asked, &mut machine)
}

/// The same of a machine.
fn answer_in(
    alloc: Global,
    checked: &Checked<'_>,
    bytes: &[u8],
    asked: Asked,
    machine: &mut Machine,
) -> Result<Option<Made>, NoMemory>
    requires { AreSound (shown checked.now.namespace.now) checked.now.kept.items }
{
    let method = ObjectId(0);
    let namespace = checked.namespace();
    let owns = OwnNames::of(alloc, bytes, &[])?;
    let links = Links::of(alloc, namespace, method, bytes, &owns, &[])?;
    let scene = Scene {
        table: 0,
        opcode: 0,
        width: Width::Bits64,
        namespace,
        method,
        bytes,
        owns: &owns,
        links: &links,
    };
    let here = Here {
        scene: &scene,
        kept: checked.kept_bodies(),
        depth: match asked {
            Asked::Deepest => 0,
            _ => 63,
        },
        asks_calls: true,
    };
    Ok(answer_at(&here, bytes, asked, machine))
}

/// The same where a body stands.
fn answer_at(here: &Here<'_>, bytes: &[u8], asked: Asked, machine: &mut Machine) -> Option<Made> {
    match asked {
        Asked::Term | Asked::Deepest => integer_term(here, bytes, 0, machine, machine.steps),
        Asked::Statement => integer_statement(here, bytes, 0, machine),
        Asked::Put => {
            let next = put_integer(bytes, 0, 7, machine)?;
            integer_term(here, bytes, next, machine, machine.steps)
        }
        Asked::Written => {
            let written = written_byte(here, bytes, 0, machine)?;
            Some(Made {
                number: written.index,
                next: written.next,
                steps: written.steps,
            })
        }
    }
}
