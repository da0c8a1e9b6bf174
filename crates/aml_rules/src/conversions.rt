// Integers as buffers, and buffers as integers.

ghost use Rattle.std.specs.Prelude.{◌≡◌, ◌≤◌, ◌<◌, ◌/◌, ◌^◌, IfOk, length, take};
ghost use Rattle.std.specs.Int.{bytes_low_first};
ghost use Rattle.aml_values.specs.Values.{Int};
ghost use Rattle.aml_values.specs.Views.{view};
ghost use Rattle.aml_meaning.specs.Conversions as rule;
ghost use Rattle.aml_objects.specs.Widths.{bits_of};
ghost use Rattle.aml_rules.specs.Tells.{Obeys, place_of, told};

use crate::place::{Place, RuleFault, error_at};
use aml_meaning::{AmlCause, AmlError};
use aml_namespace::Width;
use aml_values::{Bytes, Value};
use std::alloc::{AllocError, Global};

/// A value as a buffer: of an integer its bytes, 4 or 8, the lowest first; a buffer stays (ACPI
/// 6.5, 19.6, ToBuffer). A2 at the operand that is neither.
pub fn to_buffer(
    alloc: Global,
    width: Width,
    operand: Place,
    value: Value,
) -> Result<Value, RuleFault>
    ensures { Obeys view result (rule.to_buffer (bits_of width) (place_of operand) (view value)) }
{
    match value {
        Value::Int(number) => {
            let bytes = integer_bytes(alloc, width, number)?;
            Ok(Value::Buf(Bytes::new(bytes)))
        }
        Value::Buf(bytes) => Ok(Value::Buf(bytes)),
        _ => Err(RuleFault::Error(error_at(AmlCause::Kind, operand))),
    }
}

/// The bytes of an integer, as many as the width tells, the lowest first.
fn integer_bytes(alloc: Global, width: Width, number: u64) -> Result<Vec<u8>, AllocError>
    ensures { IfOk result (λ bytes. bytes.items ≡ bytes_low_first 0 (bits_of width / 8) number) }
{
    let bytes = number.to_le_bytes();
    match width {
        Width::Bits32 => Vec::from_slice(alloc, &bytes[..4]),
        Width::Bits64 => Vec::from_slice(alloc, &bytes),
    }
}

/// A value as an integer: an integer stays, and of a buffer it is that of the first 4 or 8 bytes,
/// the lowest first, with zeros behind a shorter one (ACPI 6.5, 19.6, ToInteger). A4 at the
/// operator where the buffer is empty; A2 at the operand that is neither.
pub fn to_integer(
    width: Width,
    operator: Place,
    operand: Place,
    value: &Value,
) -> Result<u64, AmlError>
    ensures { told Int result ≡
        rule.to_integer (bits_of width) (place_of operator) (place_of operand) (view value.now) }
{
    match value {
        Value::Int(number) => Ok(*number),
        Value::Buf(bytes) => first_integer(width, operator, bytes.as_slice()),
        _ => Err(error_at(AmlCause::Kind, operand)),
    }
}

/// The integer of a buffer's first bytes.
fn first_integer(width: Width, operator: Place, bytes: &[u8]) -> Result<u64, AmlError>
    ensures { told Int result ≡ rule.first_integer (bits_of width) (place_of operator) bytes.now }
{
    if bytes.is_empty() {
        return Err(error_at(AmlCause::Index, operator));
    }
    let count = usize::from(width.bits() / 8);
    Ok(bytes_integer(front(bytes, count)))
}

/// So many bytes at the front, or all.
fn front(bytes: &[u8], count: usize) -> &[u8]
    ensures { result.now ≡ take count bytes.now }
{
    match bytes.get(..count) {
        Some(front) => front,
        None => bytes,
    }
}

/// The integer that bytes are, the lowest first.
fn bytes_integer(bytes: &[u8]) -> u64
    requires { length bytes.now ≤ 8 }
    ensures is { result ≡ rule.bytes_integer bytes.now }
    ensures fits { result < 256 ^ length bytes.now }
{
    match bytes {
        [] => 0,
        [lowest, rest @ ..] => u64::from(*lowest) + 256 * bytes_integer(rest),
    }
}
