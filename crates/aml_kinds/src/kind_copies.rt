// Copies of kinds.

ghost use Rattle.std.specs.Prelude.{◌≡◌, IfOk, map};
ghost use Rattle.aml_kinds.specs.KindViews.{kind_of, element_kind};

use crate::kind::{ElementKind, Kind};
use aml_paths::NoMemory;
use std::alloc::Global;

/// A copy of a kind.
#[cycle(copy_kind)]
pub fn copy_kind(alloc: Global, kind: &Kind) -> Result<Kind, NoMemory>
    ensures { IfOk result (λ k. kind_of k ≡ kind_of kind.now) }
{
    match kind {
        Kind::Int(most) => Ok(Kind::Int(*most)),
        Kind::Buf(size) => Ok(Kind::Buf(*size)),
        Kind::Str(size) => Ok(Kind::Str(*size)),
        Kind::Pkg(shape) => Ok(Kind::Pkg(shape.copied(alloc)?)),
        Kind::AnyPkg => Ok(Kind::AnyPkg),
        Kind::Mixed => Ok(Kind::Mixed),
    }
}

/// A copy of the kinds of a package's elements.
#[cycle(copy_kind)]
pub(crate) fn copied_places(
    alloc: Global,
    places: &[ElementKind],
) -> Result<Vec<ElementKind>, NoMemory>
    ensures { IfOk result (λ made. map element_kind made.items ≡ map element_kind places.now) }
{
    let mut made = Vec::new(alloc);
    for each in places {
        let copy = copied_place(alloc, each)?;
        made.push(copy)?;
    }
    Ok(made)
}

/// A copy of the kind of an element.
#[cycle(copy_kind)]
fn copied_place(alloc: Global, each: &ElementKind) -> Result<ElementKind, NoMemory>
    ensures { IfOk result (λ e. element_kind e ≡ element_kind each.now) }
{
    match each {
        ElementKind::Value(kind) => Ok(ElementKind::Value(copy_kind(alloc, kind)?)),
        ElementKind::Name => Ok(ElementKind::Name),
        ElementKind::Unset => Ok(ElementKind::Unset),
    }
}
