// Whether kinds are the same.

ghost use Rattle.std.specs.Prelude.{◌≡◌, ◌↔◌, IsTrue};
ghost use Rattle.aml_kinds.specs.SameKinds.{same_kind, same_shape, same_element_kind};
ghost use Rattle.aml_kinds.specs.KindViews.{kind_of, element_kind, shape_of};

use crate::kind::{ElementKind, Kind};

/// Whether two kinds are the same.
pub fn is_same_kind(j: &Kind, k: &Kind) -> bool
    ensures { IsTrue result ↔ (kind_of j.now ≡ kind_of k.now) }
{
    kinds_match(j, k)
}

/// Whether two kinds are the same.
#[cycle(same_kind)]
fn kinds_match(j: &Kind, k: &Kind) -> bool
    ensures { result ≡ same_kind (kind_of j.now) (kind_of k.now) }
{
    match (j, k) {
        (Kind::Int(m), Kind::Int(n)) => m == n,
        (Kind::Buf(m), Kind::Buf(n)) => m == n,
        (Kind::Str(m), Kind::Str(n)) => m == n,
        (Kind::Pkg(s), Kind::Pkg(t)) => shapes_match(&s.places, &t.places),
        (Kind::AnyPkg, Kind::AnyPkg) => true,
        (Kind::Mixed, Kind::Mixed) => true,
        _ => false,
    }
}

/// Whether the kinds of two packages' elements are the same.
#[cycle(same_kind)]
pub(crate) fn shapes_match(s: &[ElementKind], t: &[ElementKind]) -> bool
    ensures { result ≡ same_shape (shape_of s.now) (shape_of t.now) }
{
    if s.len() != t.len() {
        return false;
    }
    for i in 0..s.len() {
        if !element_kinds_match(&s[i], &t[i]) {
            return false;
        }
    }
    true
}

/// Whether the kinds of two elements are the same.
#[cycle(same_kind)]
pub fn element_kinds_match(d: &ElementKind, e: &ElementKind) -> bool
    ensures { result ≡ same_element_kind (element_kind d.now) (element_kind e.now) }
{
    match (d, e) {
        (ElementKind::Value(j), ElementKind::Value(k)) => kinds_match(j, k),
        (ElementKind::Name, ElementKind::Name) => true,
        (ElementKind::Unset, ElementKind::Unset) => true,
        _ => false,
    }
}
