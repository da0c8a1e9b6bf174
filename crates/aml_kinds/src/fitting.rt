// Whether values are of a kind.

ghost use Rattle.std.specs.Prelude.{◌≡◌};
ghost use Rattle.aml_values.specs.Views.{view, element, elements_of};
ghost use Rattle.aml_kinds.specs.Fits as spec;
ghost use Rattle.aml_kinds.specs.Fits.{fits_shape, fits_place};
ghost use Rattle.aml_kinds.specs.KindViews.{kind_of, element_kind, shape_of};

use crate::kind::{ElementKind, Kind};
use aml_values::{Element, MOST_ELEMENTS, Value};

/// Whether a value is of a kind.
#[cycle(fits)]
pub fn fits(value: &Value, kind: &Kind) -> bool
    ensures { result ≡ spec.fits (view value.now) (kind_of kind.now) }
{
    match (value, kind) {
        (_, Kind::Mixed) => true,
        (Value::Int(number), Kind::Int(greatest)) => number <= greatest,
        (Value::Buf(bytes), Kind::Buf(size)) => bytes.len() as u64 == *size,
        (Value::Str(characters), Kind::Str(size)) => characters.len() as u64 == *size,
        (Value::Pkg(elements), Kind::Pkg(shape)) => fit(elements.elements(), &shape.places),
        (Value::Pkg(elements), Kind::AnyPkg) => elements.len() <= MOST_ELEMENTS,
        _ => false,
    }
}

/// Whether there are as many elements as places, each of its kind.
#[cycle(fits)]
#[tactic(auto, using(aml_values::proofs::Depths::element_item))]
fn fit(elements: &[Element], places: &[ElementKind]) -> bool
    ensures { result ≡ fits_shape (elements_of elements.now) (shape_of places.now) }
{
    if elements.len() != places.len() {
        return false;
    }
    for i in 0..elements.len() {
        if !fits_in_place(&elements[i], &places[i]) {
            return false;
        }
    }
    true
}

/// Whether an element is of its kind.
#[cycle(fits)]
fn fits_in_place(each: &Element, place: &ElementKind) -> bool
    ensures { result ≡ fits_place (element each.now) (element_kind place.now) }
{
    match (each, place) {
        (_, ElementKind::Unset) => true,
        (Element::Value(value), ElementKind::Value(kind)) => fits(value, kind),
        (Element::Name(_), ElementKind::Name) => true,
        _ => false,
    }
}
