// Arithmetic and comparisons (ACPI 6.5, 19.6): what operators make of integers.

ghost use Rattle.std.specs.Prelude.{◌≡◌};
ghost use Rattle.aml_values.specs.Values.{Int};
ghost use Rattle.aml_values.specs.Views.{view};
ghost use Rattle.aml_meaning.specs.Rules as rule;
ghost use Rattle.aml_objects.specs.Widths.{bits_of};
ghost use Rattle.aml_rules.specs.Tells.{division_of, place_of, told};

use crate::equality::equal;
use crate::integers::{holds, joined, transformed_bits, truth};
use crate::place::{Place, error_at};
use aml_meaning::{AmlCause, AmlError, Arithmetic, Bitwise, Comparison};
use aml_namespace::Width;
use aml_values::Value;

/// An integer is wanted of an operand. A2 at the operand that is none.
pub fn integer(operand: Place, value: &Value) -> Result<u64, AmlError>
    ensures { result ≡ rule.integer (place_of operand) (view value.now) }
{
    match value {
        Value::Int(number) => Ok(*number),
        _ => Err(error_at(AmlCause::Kind, operand)),
    }
}

/// An integer that is not zero. A2 at the operand that is no integer, A3 at the one that is zero.
fn divisor(operand: Place, value: &Value) -> Result<u64, AmlError>
    ensures { result ≡ rule.divisor (place_of operand) (view value.now) }
{
    let number = integer(operand, value)?;
    if number == 0 {
        return Err(error_at(AmlCause::Divisor, operand));
    }
    Ok(number)
}

/// The second of two operands: of Mod a divisor, else an integer.
fn second(arithmetic: Arithmetic, operand: Place, value: &Value) -> Result<u64, AmlError>
    ensures { result ≡ rule.second arithmetic (place_of operand) (view value.now) }
{
    match arithmetic {
        Arithmetic::Mod => divisor(operand, value),
        _ => integer(operand, value),
    }
}

/// Two integers joined, modulo 2 to the width (ACPI 6.5, 19.6, Add and its kin). A2 at the first
/// operand that is no integer, A3 at a divisor of zero.
pub fn combined(
    width: Width,
    arithmetic: Arithmetic,
    first_operand: Place,
    first: &Value,
    second_operand: Place,
    second_value: &Value,
) -> Result<u64, AmlError>
    ensures { told Int result ≡ rule.combined (bits_of width) arithmetic
        (place_of first_operand) (view first.now)
        (place_of second_operand) (view second_value.now) }
{
    let x = integer(first_operand, first)?;
    let y = second(arithmetic, second_operand, second_value)?;
    Ok(joined(width, arithmetic, x, y))
}

/// How often a divisor goes into an integer, and what is left.
#[derive(Clone, Copy, Debug)]
pub struct Division {
    pub quotient: u64,
    pub remainder: u64,
}

/// An integer divided by another (ACPI 6.5, 19.6, Divide). A2 at the first operand that is no
/// integer, A3 at a divisor of zero.
pub fn divided(
    first_operand: Place,
    first: &Value,
    second_operand: Place,
    second: &Value,
) -> Result<Division, AmlError>
    ensures { told division_of result ≡ rule.divided
        (place_of first_operand) (view first.now) (place_of second_operand) (view second.now) }
{
    let x = integer(first_operand, first)?;
    let y = divisor(second_operand, second)?;
    Ok(Division {
        quotient: x / y,
        remainder: x % y,
    })
}

/// What one integer gives, modulo 2 to the width (ACPI 6.5, 19.6, Not, FindSetLeftBit,
/// FindSetRightBit). A2 at the operand that is no integer.
pub fn transformed(
    width: Width,
    operation: Bitwise,
    operand: Place,
    value: &Value,
) -> Result<u64, AmlError>
    ensures { told Int result ≡ rule.transformed (bits_of width) operation
        (place_of operand) (view value.now) }
{
    let number = integer(operand, value)?;
    Ok(transformed_bits(width, operation, number))
}

/// What is said of two values, Ones or Zero (ACPI 6.5, 19.6, LEqual and its kin): LEqual takes two
/// of one kind, every other two integers. A2 at the first operand that is of no kind that it takes.
pub fn compared(
    width: Width,
    comparison: Comparison,
    first_operand: Place,
    first: &Value,
    second_operand: Place,
    second: &Value,
) -> Result<u64, AmlError>
    ensures { told Int result ≡ rule.compared (bits_of width) comparison
        (place_of first_operand) (view first.now) (place_of second_operand) (view second.now) }
{
    match comparison {
        Comparison::LEqual => {
            let same = equal(first_operand, first, second_operand, second)?;
            Ok(truth(width, same))
        }
        _ => {
            let x = integer(first_operand, first)?;
            let y = integer(second_operand, second)?;
            Ok(truth(width, holds(comparison, x, y)))
        }
    }
}

/// Whether an integer is zero, Ones or Zero (ACPI 6.5, 19.6, LNot). A2 at the operand that is none.
pub fn negated(width: Width, operand: Place, value: &Value) -> Result<u64, AmlError>
    ensures { told Int result ≡ rule.negated (bits_of width) (place_of operand) (view value.now) }
{
    let number = integer(operand, value)?;
    Ok(truth(width, number == 0))
}
