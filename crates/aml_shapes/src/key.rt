// What shapes of data are found by.

ghost use Rattle.std.specs.Prelude.{◌≡◌, IfOk, ℕ};
ghost use Rattle.std.specs.Option.{option_map};
ghost use Rattle.aml_kinds.specs.Kinds.{Shape};
ghost use Rattle.aml_known.specs.Views.{element_kind_of};
ghost use Rattle.aml_judged.specs.KindRules.{place_numbered};
ghost use Rattle.aml_shapes.specs.Keys.{HasRoom, IsSameKey, key_shape, part_kind};

use aml_known::{ElementKnown, Known, ShapeNumber};
use aml_paths::NoMemory;
use std::alloc::Global;

/// What an element of data is.
#[derive(Clone, Copy, Debug, PartialEq, Eq, PartialOrd, Ord)]
pub(crate) enum Part {
    /// A name.
    Name,
    /// An integer up to this one.
    Int(u64),
    /// A buffer of so many bytes.
    Buf(u64),
    /// A string of so many characters.
    Str(u64),
    /// A package of the shape with this number.
    Pkg(usize),
}

/// A shape, by how many places it has, and what stands at the first of them. Those behind are
/// unset: they take no memory, since a package may count far more places than it has bytes.
#[derive(PartialEq, Eq, PartialOrd, Ord, Drop)]
pub(crate) struct ShapeKey {
    pub places: u64,
    pub parts: Vec<Part>,
}

impl Part {
    /// What is known of such an element.
    pub(crate) fn known(self) -> ElementKnown
        ensures { (shapes : ℕ → Shape) → element_kind_of shapes result ≡ part_kind shapes self }
    {
        match self {
            Part::Name => ElementKnown::Name,
            Part::Int(greatest) => ElementKnown::Value(Known::Int(greatest)),
            Part::Buf(size) => ElementKnown::Value(Known::Buf(size)),
            Part::Str(size) => ElementKnown::Value(Known::Str(size)),
            Part::Pkg(number) => ElementKnown::Value(Known::Pkg(ShapeNumber(number))),
        }
    }
}

impl ShapeKey {
    /// What is known of the element with a number; none where there is no such place.
    pub(crate) fn place(&self, number: u64) -> Option<ElementKnown>
        requires { HasRoom self.now }
        ensures { (shapes : ℕ → Shape) → option_map (element_kind_of shapes) result
            ≡ place_numbered (key_shape shapes self.now) number }
    {
        if number >= self.places {
            return None;
        }
        match self.parts.get(number as usize) {
            Some(part) => Some(part.known()),
            None => Some(ElementKnown::Unset),
        }
    }

    /// The same key.
    pub(crate) fn copied(&self, alloc: Global) -> Result<ShapeKey, NoMemory>
        ensures { IfOk result (λ made. IsSameKey made self.now) }
    {
        Ok(ShapeKey {
            places: self.places,
            parts: Vec::from_slice(alloc, &self.parts)?,
        })
    }
}
