// What stands at an index of a buffer, a string or a package.

ghost use Rattle.std.specs.Prelude.{◌≡◌, slice_get};
ghost use Rattle.std.specs.Option.{option_map};
ghost use Rattle.aml_values.specs.Values.{Int};
ghost use Rattle.aml_values.specs.Views.{element, view};
ghost use Rattle.aml_meaning.specs.Elements as rule;
ghost use Rattle.aml_meaning.specs.Rules.{integer};
ghost use Rattle.aml_rules.specs.Tells.{Obeys, place_of, store_of, told};

use crate::arithmetic::integer;
use crate::place::{Place, RuleFault, error_at};
use aml_meaning::{AmlCause, AmlError};
use aml_values::{Element, Package, Value, copy};
use std::alloc::Global;

/// A byte, and where in a buffer it is written.
#[derive(Clone, Copy, Debug, PartialEq, Eq)]
pub struct ByteStore {
    pub place: usize,
    pub byte: u8,
}

/// What an Index of two operands leads to: a byte of a buffer or a string, or a copy of an element
/// of a package (ACPI 6.5, 19.6, DerefOf, Index).
///
/// A2 at the first operand that is an integer, else at a second that is none. At the operator A4
/// past the end, A2 where the element is a name, A1 where it is unset.
pub fn element_at(
    alloc: Global,
    operator: Place,
    first_operand: Place,
    source: &Value,
    second_operand: Place,
    index: &Value,
) -> Result<Value, RuleFault>
    ensures { Obeys view result (rule.element_at (place_of operator)
        (place_of first_operand) (view source.now) (place_of second_operand) (view index.now)) }
{
    match source {
        Value::Buf(bytes) | Value::Str(bytes) => {
            let i = integer(second_operand, index)?;
            Ok(Value::Int(byte_at(operator, bytes.as_slice(), i as usize)?))
        }
        Value::Pkg(elements) => {
            let i = integer(second_operand, index)?;
            element_numbered(alloc, operator, elements, i as usize)
        }
        Value::Int(_) => Err(RuleFault::Error(error_at(AmlCause::Kind, first_operand))),
    }
}

/// A byte. A4 past the end.
fn byte_at(operator: Place, bytes: &[u8], i: usize) -> Result<u64, AmlError>
    ensures { told Int result ≡ rule.byte_read (place_of operator) (slice_get bytes.now i) }
{
    match bytes.get(i) {
        Some(byte) => Ok(u64::from(*byte)),
        None => Err(error_at(AmlCause::Index, operator)),
    }
}

/// A copy of a package's element. A4 past the end, A2 where it is a name, A1 where it is unset.
fn element_numbered(
    alloc: Global,
    operator: Place,
    source: &Package,
    i: usize,
) -> Result<Value, RuleFault>
    ensures { Obeys view result (rule.element_read (place_of operator)
        (rule.element_numbered source.now i)) }
{
    element_there(alloc, operator, source.elements(), i)
}

/// The same of elements that lie in a row.
fn element_there(
    alloc: Global,
    operator: Place,
    elements: &[Element],
    i: usize,
) -> Result<Value, RuleFault>
    ensures { Obeys view result (rule.element_read (place_of operator)
        (option_map element (slice_get elements.now i))) }
{
    match elements.get(i) {
        Some(each) => element_value(alloc, operator, each),
        None => Err(RuleFault::Error(error_at(AmlCause::Index, operator))),
    }
}

/// A copy of an element's value. A2 where it is a name, A1 where it is unset.
fn element_value(alloc: Global, operator: Place, each: &Element) -> Result<Value, RuleFault>
    ensures { Obeys view result (rule.element_value (place_of operator) (element each.now)) }
{
    match each {
        Element::Value(value) => Ok(copy(alloc, value)?),
        Element::Name(_) => Err(RuleFault::Error(error_at(AmlCause::Kind, operator))),
        Element::Unset => Err(RuleFault::Error(error_at(AmlCause::Unset, operator))),
    }
}

/// What a store into an Index of a buffer's name writes: the lowest eight bits of an integer, at
/// the index (ACPI 6.5, 19.6, Index).
///
/// In this order: A2 at the name whose content is no buffer, A2 at an index that is no integer, A4
/// at the operator past the end, A2 at the operator where what is stored is no integer.
pub fn byte_stored(
    operator: Place,
    name: Place,
    content: &Value,
    operand: Place,
    index: &Value,
    stored: &Value,
) -> Result<ByteStore, AmlError>
    ensures { told store_of result ≡ rule.byte_stored (place_of operator)
        (place_of name) (view content.now) (place_of operand) (view index.now) (view stored.now) }
{
    let Value::Buf(bytes) = content else {
        return Err(error_at(AmlCause::Kind, name));
    };
    let i = integer(operand, index)?;
    if i >= bytes.len() as u64 {
        return Err(error_at(AmlCause::Index, operator));
    }
    let number = integer(operator, stored)?;
    Ok(ByteStore {
        place: i as usize,
        byte: (number % 256) as u8,
    })
}
