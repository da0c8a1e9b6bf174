// Whether two values are equal.

ghost use Rattle.std.specs.Prelude.{◌≡◌};
ghost use Rattle.aml_values.specs.Views.{view};
ghost use Rattle.aml_meaning.specs.Rules as rule;
ghost use Rattle.aml_rules.specs.Tells.{place_of};

use crate::place::{Place, error_at};
use aml_meaning::{AmlCause, AmlError};
use aml_values::Value;

/// Whether two integers, two buffers or two strings are equal (ACPI 6.5, 19.6, LEqual). A2 at the
/// first operand that is a package, else at a second of another kind.
pub fn equal(
    first_operand: Place,
    first: &Value,
    second_operand: Place,
    second: &Value,
) -> Result<bool, AmlError>
    ensures { result ≡ rule.equal
        (place_of first_operand) (view first.now) (place_of second_operand) (view second.now) }
{
    match (first, second) {
        (Value::Int(m), Value::Int(n)) => Ok(m == n),
        (Value::Buf(a), Value::Buf(b)) => Ok(a.as_slice() == b.as_slice()),
        (Value::Str(a), Value::Str(b)) => Ok(a.as_slice() == b.as_slice()),
        (Value::Pkg(_), _) => Err(error_at(AmlCause::Kind, first_operand)),
        _ => Err(error_at(AmlCause::Kind, second_operand)),
    }
}
