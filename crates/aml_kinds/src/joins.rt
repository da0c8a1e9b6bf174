// Joins of kinds, and kinds within others.

ghost use Rattle.std.specs.Prelude.{◌≡◌, ◌↔◌, IsTrue, IfOk};
ghost use Rattle.aml_kinds.specs.Joins as spec;
ghost use Rattle.aml_kinds.specs.Joins.{IsWithin};
ghost use Rattle.aml_kinds.specs.KindViews.{kind_of, element_kind};

use crate::kind::{ElementKind, Kind};
use crate::same_kinds::shapes_match;
use aml_paths::NoMemory;
use std::alloc::Global;

/// What is known of a value that is of the one kind or of the other.
pub fn join(alloc: Global, j: &Kind, k: &Kind) -> Result<Kind, NoMemory>
    ensures { IfOk result (λ joined. kind_of joined ≡ spec.join (kind_of j.now) (kind_of k.now)) }
{
    match (j, k) {
        (Kind::Int(m), Kind::Int(n)) => Ok(Kind::Int(if m < n { *n } else { *m })),
        (Kind::Buf(m), Kind::Buf(n)) => Ok(if m == n { Kind::Buf(*m) } else { Kind::Mixed }),
        (Kind::Str(m), Kind::Str(n)) => Ok(if m == n { Kind::Str(*m) } else { Kind::Mixed }),
        (Kind::Pkg(s), Kind::Pkg(t)) => {
            if shapes_match(&s.places, &t.places) {
                Ok(Kind::Pkg(s.copied(alloc)?))
            } else {
                Ok(Kind::AnyPkg)
            }
        }
        (Kind::Pkg(_) | Kind::AnyPkg, Kind::Pkg(_) | Kind::AnyPkg) => Ok(Kind::AnyPkg),
        _ => Ok(Kind::Mixed),
    }
}

/// What is known of an element that is of the one kind or of the other.
pub fn join_elements(
    alloc: Global,
    d: &ElementKind,
    e: &ElementKind,
) -> Result<ElementKind, NoMemory>
    ensures { IfOk result (λ made.
        element_kind made ≡ spec.join_elements (element_kind d.now) (element_kind e.now)) }
{
    match (d, e) {
        (ElementKind::Unset, _) | (_, ElementKind::Unset) => Ok(ElementKind::Unset),
        (ElementKind::Value(j), ElementKind::Value(k)) => {
            Ok(ElementKind::Value(join(alloc, j, k)?))
        }
        _ => Ok(ElementKind::Name),
    }
}

/// Whether a kind lies within another: joined to it, it adds nothing.
pub fn is_within(j: &Kind, k: &Kind) -> bool
    ensures { IsTrue result ↔ IsWithin (kind_of j.now) (kind_of k.now) }
{
    match (j, k) {
        (_, Kind::Mixed) => true,
        (Kind::Int(m), Kind::Int(n)) => m <= n,
        (Kind::Buf(m), Kind::Buf(n)) => m == n,
        (Kind::Str(m), Kind::Str(n)) => m == n,
        (Kind::Pkg(s), Kind::Pkg(t)) => shapes_match(&s.places, &t.places),
        (Kind::Pkg(_) | Kind::AnyPkg, Kind::AnyPkg) => true,
        _ => false,
    }
}
