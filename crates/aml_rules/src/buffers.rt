// Buffers and strings joined, and how large values are.

ghost use Rattle.std.specs.Prelude.{◌≡◌, ◌+◌, ◌++◌, nat_le};
ghost use Rattle.aml_values.specs.Values.{Int};
ghost use Rattle.aml_values.specs.Views.{view};
ghost use Rattle.aml_meaning.specs.Buffers as rule;
ghost use Rattle.aml_objects.specs.Widths.{bits_of};
ghost use Rattle.aml_rules.specs.Tells.{GrowsBy, Obeys, place_of, told};

use crate::place::{Place, RuleFault, error_at};
use aml_meaning::{AmlCause, AmlError};
use aml_namespace::Width;
use aml_values::{Bytes, MOST_BYTES, Value};
use std::alloc::Global;
use std::mem;

/// Two buffers or two strings, the second behind the first (ACPI 6.5, 19.6, Concatenate). A2 at the
/// first operand that is neither, else at a second of another kind; A6 at the operator where there
/// would be more than 65,536 bytes.
pub fn concatenated(
    operator: Place,
    first_operand: Place,
    first: Value,
    second_operand: Place,
    second: &Value,
) -> Result<Value, RuleFault>
    ensures { Obeys view result (rule.concatenated (place_of operator)
        (place_of first_operand) (view first) (place_of second_operand) (view second.now)) }
{
    match (first, second) {
        (Value::Buf(front), Value::Buf(back)) => {
            let bytes = joined(operator, front, back.as_slice())?;
            Ok(Value::Buf(bytes))
        }
        (Value::Str(front), Value::Str(back)) => {
            let bytes = joined(operator, front, back.as_slice())?;
            Ok(Value::Str(bytes))
        }
        (Value::Buf(_) | Value::Str(_), _) => {
            Err(RuleFault::Error(error_at(AmlCause::Kind, second_operand)))
        }
        _ => Err(RuleFault::Error(error_at(AmlCause::Kind, first_operand))),
    }
}

/// The same, made of the first where it stands. It stays as it was where there is an error, and
/// where memory is wanted.
pub fn append(
    alloc: Global,
    operator: Place,
    first_operand: Place,
    first: &mut Value,
    second_operand: Place,
    second: &Value,
) -> Result<(), RuleFault>
    ensures { GrowsBy result (rule.concatenated (place_of operator)
        (place_of first_operand) (view first.old) (place_of second_operand) (view second.now))
        (view first.old) (view first.new) }
{
    let of_another_kind = RuleFault::Error(error_at(AmlCause::Kind, second_operand));
    match first {
        Value::Buf(front) => match second {
            Value::Buf(back) => grow(alloc, operator, front, back.as_slice()),
            _ => Err(of_another_kind),
        },
        Value::Str(front) => match second {
            Value::Str(back) => grow(alloc, operator, front, back.as_slice()),
            _ => Err(of_another_kind),
        },
        _ => Err(RuleFault::Error(error_at(AmlCause::Kind, first_operand))),
    }
}

/// Bytes behind others, no more than a buffer may have.
fn joined(operator: Place, front: Bytes, back: &[u8]) -> Result<Bytes, RuleFault>
    ensures { Obeys (λ b. b) result (rule.limited (place_of operator) (front ++ back.now)) }
{
    if !fits(front.len(), back.len()) {
        return Err(RuleFault::Error(error_at(AmlCause::Outside, operator)));
    }
    let mut bytes = front.into_vec();
    bytes.extend_from_slice(back)?;
    Ok(Bytes::new(bytes))
}

/// The same, put behind the first where they stand.
fn grow(alloc: Global, operator: Place, front: &mut Bytes, back: &[u8]) -> Result<(), RuleFault>
    ensures { GrowsBy result (rule.limited (place_of operator) (front.old ++ back.now))
        front.old front.new }
{
    if !fits(front.len(), back.len()) {
        return Err(RuleFault::Error(error_at(AmlCause::Outside, operator)));
    }
    let mut bytes = mem::replace(front, Bytes::new(Vec::new(alloc))).into_vec();
    let grown = bytes.extend_from_slice(back);
    *front = Bytes::new(bytes);
    grown?;
    Ok(())
}

/// Whether so many bytes and so many are no more than a buffer may have.
fn fits(front: usize, back: usize) -> bool
    ensures { result ≡ nat_le (front + back) rule.most_bytes }
{
    front <= MOST_BYTES && back <= MOST_BYTES - front
}

/// How many bytes a buffer or a string has, or how many elements a package, modulo 2 to the width
/// (ACPI 6.5, 19.6, SizeOf). A2 at the operand that is an integer.
pub fn size_of(width: Width, operand: Place, value: &Value) -> Result<u64, AmlError>
    ensures { told Int result ≡
        rule.size_of (bits_of width) (place_of operand) (view value.now) }
{
    match value {
        Value::Buf(bytes) => Ok(width.wrapped(bytes.len() as u64)),
        Value::Str(characters) => Ok(width.wrapped(characters.len() as u64)),
        Value::Pkg(elements) => Ok(width.wrapped(elements.len() as u64)),
        Value::Int(_) => Err(error_at(AmlCause::Kind, operand)),
    }
}
