// Whether values are the same.

ghost use Rattle.std.specs.Prelude.{◌≡◌, ◌↔◌, IsTrue};
ghost use Rattle.aml_values.specs.SameValues.{same_value, same_elements, same_element, same_object};
ghost use Rattle.aml_values.specs.Views.{view, element, elements_of};

use crate::value::{Element, Value};
use aml_paths::ObjectId;

/// Whether two values are the same.
pub fn is_same_value(v: &Value, w: &Value) -> bool
    ensures { IsTrue result ↔ (view v.now ≡ view w.now) }
{
    values_match(v, w)
}

/// Whether two values are the same.
#[cycle(same_value)]
fn values_match(v: &Value, w: &Value) -> bool
    ensures { result ≡ same_value (view v.now) (view w.now) }
{
    match (v, w) {
        (Value::Int(m), Value::Int(n)) => m == n,
        (Value::Buf(a), Value::Buf(b)) => a.as_slice() == b.as_slice(),
        (Value::Str(a), Value::Str(b)) => a.as_slice() == b.as_slice(),
        (Value::Pkg(a), Value::Pkg(b)) => all_match(&a.elements, &b.elements),
        _ => false,
    }
}

/// Whether the elements of two packages are the same.
#[cycle(same_value)]
fn all_match(ds: &[Element], es: &[Element]) -> bool
    ensures { result ≡ same_elements (elements_of ds.now) (elements_of es.now) }
{
    if ds.len() != es.len() {
        return false;
    }
    for i in 0..ds.len() {
        if !elements_match(&ds[i], &es[i]) {
            return false;
        }
    }
    true
}

/// Whether two elements are the same.
#[cycle(same_value)]
fn elements_match(d: &Element, e: &Element) -> bool
    ensures { result ≡ same_element (element d.now) (element e.now) }
{
    match (d, e) {
        (Element::Value(v), Element::Value(w)) => values_match(v, w),
        (Element::Name(a), Element::Name(b)) => objects_match(*a, *b),
        (Element::Unset, Element::Unset) => true,
        _ => false,
    }
}

/// Whether two names name the same object, or both none.
fn objects_match(a: Option<ObjectId>, b: Option<ObjectId>) -> bool
    ensures { result ≡ same_object a b }
{
    match (a, b) {
        (Some(ObjectId(m)), Some(ObjectId(n))) => m == n,
        (None, None) => true,
        _ => false,
    }
}
