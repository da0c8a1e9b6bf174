// What stands at an index (ACPI 6.5, 19.6, DerefOf, Index).

ghost use Rattle.std.specs.Prelude.{◌≡◌, ℕ, IfOk, Ok};
ghost use Rattle.std.specs.Option.{option_map};
ghost use Rattle.aml_kinds.specs.Kinds.{IntUpTo, Shape, places};
ghost use Rattle.aml_judged.specs.Judged.{then_rule};
ghost use Rattle.aml_judged.specs.KindRules as rule;
ghost use Rattle.aml_known.specs.Views.{element_kind_of, kind_of};
ghost use Rattle.aml_rules.specs.Tells.{place_of};
ghost use Rattle.aml_kind_rules.specs.Tells.{Obeys, told};

use crate::integers::integer_kind;
use crate::refused::{or_stop, refused};
use aml_causes::{Cause, Refusal};
use aml_known::{ElementKnown, Known, ShapeNumber, Shapes, Stop};
use aml_paths::NoMemory;
use aml_rules::Place;

/// The kind of an element's value. At the operator V3 where it is a name, V4 where it may be unset,
/// V7 where there is none.
fn element_read_kind(operator: Place, element: Option<ElementKnown>) -> Result<Known, Refusal>
    ensures { (shapes : ℕ → Shape) → told (kind_of shapes) result
        ≡ rule.element_read_kind (place_of operator)
        (option_map (element_kind_of shapes) element) }
{
    match element {
        Some(ElementKnown::Value(kind)) => Ok(kind),
        Some(ElementKnown::Name) => Err(refused(Cause::WrongKind, operator)),
        Some(ElementKnown::Unset) => Err(refused(Cause::Unset, operator)),
        None => Err(refused(Cause::Index, operator)),
    }
}

/// The kind of a byte that an Index leads to, of so many. V3 at the index that has no integer kind,
/// V7 at the operator where it need not be below the length.
fn byte_led_kind(operator: Place, size: u64, operand: Place, index: Known) -> Result<Known, Refusal>
    ensures { (shapes : ℕ → Shape) → told (kind_of shapes) result
        ≡ then_rule (rule.integer_kind (place_of operand) (kind_of shapes index))
        (λ a. rule.inside (place_of operator) a size (Ok (IntUpTo 255))) }
{
    let greatest = integer_kind(operand, index)?;
    if greatest < size {
        Ok(Known::Int(255))
    } else {
        Err(refused(Cause::Index, operator))
    }
}

/// What stands in a shape at an index, which may be a literal with a number: at that place, else at
/// one of all.
fn place_led<S: Shapes>(
    shapes: &S,
    shape: ShapeNumber,
    number: Option<u64>,
) -> Result<Option<ElementKnown>, NoMemory>
    ensures { IfOk result (λ place. option_map (element_kind_of (S.numbered shapes.now)) place
        ≡ rule.place_led (S.numbered shapes.now shape.0) number) }
{
    match number {
        Some(number) => shapes.place(shape, number),
        None => shapes.joined(shape),
    }
}

/// The kind of what stands in a shape at an index. At the operator V7 where it need not be below
/// the number of places, and what `element_read_kind` says.
fn place_read_kind<S: Shapes>(
    shapes: &S,
    operator: Place,
    shape: ShapeNumber,
    greatest: u64,
    number: Option<u64>,
) -> Result<Known, Stop>
    ensures { Obeys (kind_of (S.numbered shapes.now)) result
        (rule.inside (place_of operator) greatest (places (S.numbered shapes.now shape.0))
        (rule.element_read_kind (place_of operator)
        (rule.place_led (S.numbered shapes.now shape.0) number))) }
{
    if greatest >= shapes.places(shape)? {
        return Err(Stop::Refused(refused(Cause::Index, operator)));
    }
    let element = place_led(shapes, shape, number)?;
    or_stop(element_read_kind(operator, element))
}

/// What an Index leads to, whose second operand may be a literal with a number: a byte of a buffer
/// or a string, or an element of a package.
///
/// V3 at the first operand that is none of these, else at a second that has no integer kind. At the
/// operator V7 where the index need not be below the length, V3 where the element is a name, V4
/// where it may be unset.
pub fn led_kind<S: Shapes>(
    shapes: &S,
    operator: Place,
    first: Place,
    j: Known,
    second: Place,
    k: Known,
    number: Option<u64>,
) -> Result<Known, Stop>
    ensures { Obeys (kind_of (S.numbered shapes.now)) result (rule.led_kind (place_of operator)
        (place_of first) (kind_of (S.numbered shapes.now) j) (place_of second)
        (kind_of (S.numbered shapes.now) k) number) }
{
    match j {
        Known::Buf(size) => or_stop(byte_led_kind(operator, size, second, k)),
        Known::Str(size) => or_stop(byte_led_kind(operator, size, second, k)),
        Known::Pkg(shape) => {
            let greatest = integer_kind(second, k)?;
            place_read_kind(shapes, operator, shape, greatest, number)
        }
        Known::AnyPkg => {
            integer_kind(second, k)?;
            Err(Stop::Refused(refused(Cause::Index, operator)))
        }
        Known::Int(_) | Known::Mixed => Err(Stop::Refused(refused(Cause::WrongKind, first))),
    }
}

/// Whether a byte may be stored at an index of a name, of which the kind is known of what it holds.
///
/// In this order: V3 at the name that holds no buffer, V3 at an index that has no integer kind, V7
/// at the operator where it need not be below the length, V3 at the operator where what is stored
/// has no integer kind.
pub fn byte_written_kind(
    operator: Place,
    name: Place,
    content: Option<Known>,
    operand: Place,
    index: Known,
    stored: Known,
) -> Result<(), Refusal>
    ensures { (shapes : ℕ → Shape) →
        told (λ u. u) result ≡ rule.byte_written_kind (place_of operator)
        (place_of name) (option_map (kind_of shapes) content)
        (place_of operand) (kind_of shapes index) (kind_of shapes stored) }
{
    let Some(Known::Buf(size)) = content else {
        return Err(refused(Cause::WrongKind, name));
    };
    let greatest = integer_kind(operand, index)?;
    if greatest >= size {
        return Err(refused(Cause::Index, operator));
    }
    integer_kind(operator, stored)?;
    Ok(())
}
