// Kinds of what is converted or put together, and of what has a size (ACPI 6.5, 19.6).

ghost use Rattle.std.specs.Prelude.{◌≡◌, ◌+◌, ℕ};
ghost use Rattle.aml_kinds.specs.Kinds.{Kind, Shape};
ghost use Rattle.aml_judged.specs.KindRules as rule;
ghost use Rattle.aml_known.specs.Views.{kind_of};
ghost use Rattle.aml_objects.specs.Widths.{bits_of};
ghost use Rattle.aml_rules.specs.Tells.{place_of};
ghost use Rattle.aml_kind_rules.specs.Tells.{Obeys, told};

use crate::numbers::buffer_most;
use crate::refused::refused;
use aml_causes::{Cause, Refusal};
use aml_known::{Known, Shapes, Stop};
use aml_meaning::Conversion;
use aml_namespace::Width;
use aml_rules::Place;
use aml_values::{MOST_BYTES, MOST_ELEMENTS};

/// The kind of the integer that a buffer of so many bytes becomes. V7 at the operator where it is
/// empty.
fn buffer_integer(width: Width, operator: Place, size: u64) -> Result<Known, Refusal>
    ensures { (shapes : ℕ → Shape) → told (kind_of shapes) result
        ≡ rule.buffer_integer (bits_of width) (place_of operator) size }
{
    if size == 0 {
        return Err(refused(Cause::Index, operator));
    }
    Ok(Known::Int(buffer_most(width, size)))
}

/// The kind of what ToBuffer or ToInteger gives of an integer or a buffer. V3 at the operand that
/// is neither, V7 at the operator where the buffer is empty.
pub fn converted_kind(
    width: Width,
    conversion: Conversion,
    operator: Place,
    operand: Place,
    kind: Known,
) -> Result<Known, Refusal>
    ensures { (shapes : ℕ → Shape) → told (kind_of shapes) result
        ≡ rule.converted_kind (bits_of width) conversion (place_of operator)
        (place_of operand) (kind_of shapes kind) }
{
    match (conversion, kind) {
        (Conversion::ToBuffer, Known::Int(_)) => Ok(Known::Buf(u64::from(width.bits() / 8))),
        (Conversion::ToBuffer, Known::Buf(size)) => Ok(Known::Buf(size)),
        (Conversion::ToInteger, Known::Int(greatest)) => Ok(Known::Int(greatest)),
        (Conversion::ToInteger, Known::Buf(size)) => buffer_integer(width, operator, size),
        _ => Err(refused(Cause::WrongKind, operand)),
    }
}

/// The size of two that are put together. V2 at the operator where it is more than a buffer may
/// have.
fn joined_size(operator: Place, a: u64, b: u64) -> Result<u64, Refusal>
    ensures { (sized : ℕ → Kind) → told sized result
        ≡ rule.limited_kind (place_of operator) (a + b) (sized (a + b)) }
{
    match a.checked_add(b) {
        Some(size) if size <= MOST_BYTES as u64 => Ok(size),
        _ => Err(refused(Cause::OutsideProfile, operator)),
    }
}

/// The kind of two buffers or two strings put together. V3 at the first operand that is neither,
/// else at a second of another kind; V2 at the operator where there are more bytes than a buffer
/// may have.
pub fn concatenated_kind(
    operator: Place,
    first_operand: Place,
    first: Known,
    second_operand: Place,
    second: Known,
) -> Result<Known, Refusal>
    ensures { (shapes : ℕ → Shape) → told (kind_of shapes) result
        ≡ rule.concatenated_kind (place_of operator) (place_of first_operand)
        (kind_of shapes first) (place_of second_operand) (kind_of shapes second) }
{
    match (first, second) {
        (Known::Buf(a), Known::Buf(b)) => Ok(Known::Buf(joined_size(operator, a, b)?)),
        (Known::Str(a), Known::Str(b)) => Ok(Known::Str(joined_size(operator, a, b)?)),
        (Known::Buf(_) | Known::Str(_), _) => Err(refused(Cause::WrongKind, second_operand)),
        _ => Err(refused(Cause::WrongKind, first_operand)),
    }
}

/// The kind of what SizeOf gives of a buffer, a string or a package. V3 at the operand that is
/// none.
pub fn size_kind<S: Shapes>(
    width: Width,
    shapes: &S,
    operand: Place,
    kind: Known,
) -> Result<Known, Stop>
    ensures { Obeys (kind_of (S.numbered shapes.now)) result
        (rule.size_kind (bits_of width) (place_of operand)
        (kind_of (S.numbered shapes.now) kind)) }
{
    match kind {
        Known::Buf(size) | Known::Str(size) => Ok(Known::Int(width.wrapped(size))),
        Known::Pkg(shape) => Ok(Known::Int(width.wrapped(shapes.places(shape)?))),
        Known::AnyPkg => Ok(Known::Int(MOST_ELEMENTS as u64)),
        Known::Int(_) | Known::Mixed => { Err(Stop::Refused(refused(Cause::WrongKind, operand))) }
    }
}

/// The kind of what `_OSI` answers to a string (ACPI 6.5, 5.7.2). V3 at the operand that is none.
pub fn interface_kind(width: Width, operand: Place, kind: Known) -> Result<Known, Refusal>
    ensures { (shapes : ℕ → Shape) → told (kind_of shapes) result
        ≡ rule.interface_kind (bits_of width) (place_of operand) (kind_of shapes kind) }
{
    match kind {
        Known::Str(_) => Ok(Known::Int(width.greatest())),
        _ => Err(refused(Cause::WrongKind, operand)),
    }
}
