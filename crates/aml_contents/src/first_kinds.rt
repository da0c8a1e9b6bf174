// The kinds that names have by their first contents.

ghost use Rattle.std.specs.Prelude.{◌≡◌, IfOk, map};
ghost use Rattle.aml_contents.specs.FirstKinds.{first_kind, held_first, kind_by, name_kind, place_by, shape_by, within_width};
ghost use Rattle.aml_values.specs.Views.{element, elements_of, view};
ghost use Rattle.aml_kinds.specs.KindViews.{element_kind, kind_of, shape_of};
ghost use Rattle.aml_contents.specs.ContentViews.{content, content_kind};

use aml_kinds::{ElementKind, Kind, Shape};
use aml_namespace::Width;
use aml_paths::NoMemory;
use aml_values::{Element, Value};
use std::alloc::Global;

/// The kind of a name that has this content first, if it is a data name.
pub(crate) fn first_kind(
    alloc: Global,
    greatest: u64,
    held: &Option<Value>,
) -> Result<Option<Kind>, NoMemory>
    ensures { IfOk result (λ k. content_kind k ≡ first_kind greatest (content held.now)) }
{
    match held {
        Some(value) => Ok(Some(name_kind(alloc, greatest, value)?)),
        None => Ok(None),
    }
}

/// The kind of a name that holds this value first.
fn name_kind(alloc: Global, greatest: u64, value: &Value) -> Result<Kind, NoMemory>
    ensures { IfOk result (λ k. kind_of k ≡ name_kind greatest (view value.now)) }
{
    match value {
        Value::Int(_) => Ok(Kind::Int(greatest)),
        _ => kind_by(alloc, value),
    }
}

/// The narrowest kind of a value.
#[cycle(first_kind)]
fn kind_by(alloc: Global, value: &Value) -> Result<Kind, NoMemory>
    ensures { IfOk result (λ k. kind_of k ≡ kind_by (view value.now)) }
{
    match value {
        Value::Int(number) => Ok(Kind::Int(*number)),
        Value::Buf(bytes) => Ok(Kind::Buf(bytes.len() as u64)),
        Value::Str(characters) => Ok(Kind::Str(characters.len() as u64)),
        Value::Pkg(package) => Ok(Kind::Pkg(shape_by(alloc, package.elements())?)),
    }
}

/// The shape of the elements of a package.
#[cycle(first_kind)]
#[tactic(auto, using(crate::proofs::KindsBy::shape_made))]
fn shape_by(alloc: Global, elements: &[Element]) -> Result<Shape, NoMemory>
    ensures { IfOk result (λ shape. shape ≡ shape_by (elements_of elements.now)) }
{
    let places = places_by(alloc, elements)?;
    shape_with(places)
}

/// The kinds of the elements of a package.
#[cycle(first_kind)]
#[tactic(auto, using(aml_values::proofs::Depths::element_item))]
fn places_by(alloc: Global, elements: &[Element]) -> Result<Vec<ElementKind>, NoMemory>
    ensures { IfOk result (λ places.
        map element_kind places.items ≡ map (λ e. place_by (element e)) elements.now) }
{
    let mut places = Vec::new(alloc);
    for each in elements {
        let place = place_by(alloc, each)?;
        places.push(place)?;
    }
    Ok(places)
}

/// The kind of an element.
#[cycle(first_kind)]
fn place_by(alloc: Global, each: &Element) -> Result<ElementKind, NoMemory>
    ensures { IfOk result (λ place. element_kind place ≡ place_by (element each.now)) }
{
    match each {
        Element::Value(value) => Ok(ElementKind::Value(kind_by(alloc, value)?)),
        Element::Name(_) => Ok(ElementKind::Name),
        Element::Unset => Ok(ElementKind::Unset),
    }
}

/// The shape of these places.
fn shape_with(places: Vec<ElementKind>) -> Result<Shape, NoMemory>
    ensures { IfOk result (λ shape. shape ≡ shape_of places.items) }
{
    match Shape::new(places) {
        Ok(shape) => Ok(shape),
        Err(_) => Err(NoMemory),
    }
}

/// What a name holds first.
pub(crate) fn held_first(width: Width, held: Option<Value>) -> Option<Value>
    ensures { content result ≡ held_first width (content held) }
{
    match held {
        Some(value) => Some(within_width(width, value)),
        None => None,
    }
}

/// A value, of integers that of the width.
fn within_width(width: Width, value: Value) -> Value
    ensures { view result ≡ within_width width (view value) }
{
    match value {
        Value::Int(number) => Value::Int(width.wrapped(number)),
        Value::Buf(bytes) => Value::Buf(bytes),
        Value::Str(characters) => Value::Str(characters),
        Value::Pkg(package) => Value::Pkg(package),
    }
}
