// What operators make of values, each at its term's place.

ghost use Rattle.std.specs.Prelude.{◌≡◌, Result};
ghost use Rattle.aml_values.specs.Values.{Int};
ghost use Rattle.aml_values.specs.Views.{view};
ghost use Rattle.aml_meaning.specs.Rules.{Place, combined, compared, divided, integer, negated, second, transformed};
ghost use Rattle.aml_meaning.specs.Runs.{ruled};
ghost use Rattle.aml_objects.specs.Widths.{bits_of};
ghost use Rattle.aml_meaning.specs.Buffers.{concatenated, size_of};
ghost use Rattle.aml_meaning.specs.Elements.{byte_stored, element_at};
ghost use Rattle.aml_meaning.specs.Conversions.{converted};
ghost use Rattle.aml_meaning.specs.declared.action.Conversion.TheVariants as converts;
ghost use Rattle.aml_meaning.specs.declared.error.AmlError.{AmlError};
ghost use Rattle.aml_rules.specs.Tells.{Obeys, place_of, division_of};
ghost use Rattle.aml_rules.specs.Tells as rules;
ghost use Rattle.aml_scene.specs.Tells.{IsOrNoMemory, itself, place_in, told};

use crate::halt::{Halt, Scene};
use aml_meaning::{AmlError, Arithmetic, Bitwise, Comparison};
use aml_rules::{ByteStore, Division, Place, RuleFault};
use aml_values::Value;
use std::alloc::Global;

/// The number that a rule gives.
fn number(answer: Result<u64, AmlError>) -> Result<u64, Halt>
    ensures as_number { told itself result ≡ ruled answer }
    ensures as_integer { told Int result ≡ ruled (rules.told Int answer) }
{
    match answer {
        Ok(number) => Ok(number),
        Err(error) => Err(Halt::Error(error)),
    }
}

/// The division that a rule gives.
fn given_division(answer: Result<Division, AmlError>) -> Result<Division, Halt>
    ensures { told division_of result ≡ ruled (rules.told division_of answer) }
{
    match answer {
        Ok(division) => Ok(division),
        Err(error) => Err(Halt::Error(error)),
    }
}

/// An integer. A2 at the place of what is none.
pub fn integer(scene: &Scene<'_>, at: usize, value: &Value) -> Result<u64, Halt>
    ensures { told itself result ≡ ruled (integer (place_in scene.now at) (view value.now)) }
{
    number(aml_rules::integer(place(scene, at), value))
}

/// Two integers joined, modulo 2 to the width.
pub fn combined(
    scene: &Scene<'_>,
    arithmetic: Arithmetic,
    x_at: usize,
    x: &Value,
    y_at: usize,
    y: &Value,
) -> Result<u64, Halt>
    ensures { told Int result ≡ ruled (combined (bits_of scene.now.width) arithmetic
        (place_in scene.now x_at) (view x.now) (place_in scene.now y_at) (view y.now)) }
{
    let first = place(scene, x_at);
    let second = place(scene, y_at);
    let width = scene.width;
    number(aml_rules::combined(width, arithmetic, first, x, second, y))
}

/// An integer divided by another.
pub fn divided(
    scene: &Scene<'_>,
    x_at: usize,
    x: &Value,
    y_at: usize,
    y: &Value,
) -> Result<Division, Halt>
    ensures { told division_of result ≡ ruled (divided
        (place_in scene.now x_at) (view x.now) (place_in scene.now y_at) (view y.now)) }
{
    let first = place(scene, x_at);
    let second = place(scene, y_at);
    given_division(aml_rules::divided(first, x, second, y))
}

/// What one integer gives, modulo 2 to the width.
pub fn transformed(
    scene: &Scene<'_>,
    operation: Bitwise,
    x_at: usize,
    x: &Value,
) -> Result<u64, Halt>
    ensures { told Int result ≡ ruled (transformed (bits_of scene.now.width) operation
        (place_in scene.now x_at) (view x.now)) }
{
    number(aml_rules::transformed(scene.width, operation, place(scene, x_at), x))
}

/// What is said of two values: LEqual takes two of one kind, every other two integers.
pub fn compared(
    scene: &Scene<'_>,
    comparison: Comparison,
    x_at: usize,
    x: &Value,
    y_at: usize,
    y: &Value,
) -> Result<u64, Halt>
    ensures { told Int result ≡ ruled (compared (bits_of scene.now.width) comparison
        (place_in scene.now x_at) (view x.now) (place_in scene.now y_at) (view y.now)) }
{
    let first = place(scene, x_at);
    let second = place(scene, y_at);
    let width = scene.width;
    number(aml_rules::compared(width, comparison, first, x, second, y))
}

/// Whether an integer is zero.
pub fn negated(scene: &Scene<'_>, x_at: usize, x: &Value) -> Result<u64, Halt>
    ensures { told Int result ≡ ruled (negated (bits_of scene.now.width)
        (place_in scene.now x_at) (view x.now)) }
{
    number(aml_rules::negated(scene.width, place(scene, x_at), x))
}

/// A place in the body's table.
pub fn place(scene: &Scene<'_>, at: usize) -> Place
    ensures { place_of result ≡ place_in scene.now at }
{
    Place {
        table: scene.table,
        at,
    }
}

/// What a rule gives that may want memory.
fn obeyed(answer: Result<Value, RuleFault>) -> Result<Value, Halt>
    ensures { (rule : Result _ AmlError) → Obeys view answer rule →
        IsOrNoMemory (told view result) (ruled rule) }
{
    match answer {
        Ok(given) => Ok(given),
        Err(RuleFault::Error(error)) => Err(Halt::Error(error)),
        Err(RuleFault::NoMemory) => Err(Halt::NoMemory),
    }
}

/// The integer that a rule gives.
fn given_integer(answer: Result<u64, AmlError>) -> Result<Value, Halt>
    ensures { told view result ≡ ruled (rules.told Int answer) }
{
    match answer {
        Ok(number) => Ok(Value::Int(number)),
        Err(error) => Err(Halt::Error(error)),
    }
}

/// The byte that a rule gives, and where it is written.
fn given_store(answer: Result<ByteStore, AmlError>) -> Result<ByteStore, Halt>
    ensures { told rules.store_of result ≡ ruled (rules.told rules.store_of answer) }
{
    match answer {
        Ok(written) => Ok(written),
        Err(error) => Err(Halt::Error(error)),
    }
}

/// A value as an integer.
pub fn to_integer(scene: &Scene<'_>, at: usize, x_at: usize, x: &Value) -> Result<Value, Halt>
    ensures { told view result ≡ ruled
        (converted (bits_of scene.now.width) converts.ToInteger
        (place_in scene.now at) (place_in scene.now x_at) (view x.now)) }
{
    let operator = place(scene, at);
    let operand = place(scene, x_at);
    given_integer(aml_rules::to_integer(scene.width, operator, operand, x))
}

/// A value as a buffer.
pub fn to_buffer(
    alloc: Global,
    scene: &Scene<'_>,
    at: usize,
    x_at: usize,
    x: Value,
) -> Result<Value, Halt>
    ensures { IsOrNoMemory (told view result) (ruled (converted (bits_of scene.now.width)
        converts.ToBuffer (place_in scene.now at) (place_in scene.now x_at) (view x))) }
{
    obeyed(aml_rules::to_buffer(alloc, scene.width, place(scene, x_at), x))
}

/// Two buffers or two strings, the second behind the first.
pub fn concatenated(
    scene: &Scene<'_>,
    at: usize,
    x_at: usize,
    x: Value,
    y_at: usize,
    y: &Value,
) -> Result<Value, Halt>
    ensures { IsOrNoMemory (told view result) (ruled (concatenated (place_in scene.now at)
        (place_in scene.now x_at) (view x) (place_in scene.now y_at) (view y.now))) }
{
    let operator = place(scene, at);
    let first = place(scene, x_at);
    let second = place(scene, y_at);
    obeyed(aml_rules::concatenated(operator, first, x, second, y))
}

/// A byte or a copy of an element of a value.
pub fn element_at(
    alloc: Global,
    scene: &Scene<'_>,
    at: usize,
    x_at: usize,
    x: &Value,
    i_at: usize,
    i: &Value,
) -> Result<Value, Halt>
    ensures { IsOrNoMemory (told view result) (ruled (element_at (place_in scene.now at)
        (place_in scene.now x_at) (view x.now) (place_in scene.now i_at) (view i.now))) }
{
    let operator = place(scene, at);
    let first = place(scene, x_at);
    let second = place(scene, i_at);
    obeyed(aml_rules::element_at(alloc, operator, first, x, second, i))
}

/// The byte that a store into an Index writes, and where.
pub fn byte_stored(
    scene: &Scene<'_>,
    at: usize,
    x_at: usize,
    x: &Value,
    i_at: usize,
    i: &Value,
    y: &Value,
) -> Result<ByteStore, Halt>
    ensures { told rules.store_of result ≡ ruled (byte_stored (place_in scene.now at)
        (place_in scene.now x_at) (view x.now) (place_in scene.now i_at) (view i.now)
        (view y.now)) }
{
    let operator = place(scene, at);
    let first = place(scene, x_at);
    let second = place(scene, i_at);
    given_store(aml_rules::byte_stored(operator, first, x, second, i, y))
}

/// How large a value is.
pub fn sized(scene: &Scene<'_>, at: usize, x: &Value) -> Result<Value, Halt>
    ensures { told view result
        ≡ ruled (size_of (bits_of scene.now.width)
        (place_in scene.now at) (view x.now)) }
{
    given_integer(aml_rules::size_of(scene.width, place(scene, at), x))
}
