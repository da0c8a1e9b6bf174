// Shapes of packages, no deeper than packages are.

ghost use Rattle.std.specs.Prelude.{◌≡◌, ◌≤◌, ◌↔◌, IfOk, IfErr, IsOk};
ghost use Rattle.aml_values.specs.Values.{most_nested};
ghost use Rattle.aml_kinds.specs.Kinds.{places, shape_depth, inner_depth, element_kind_depth};
ghost use Rattle.aml_kinds.specs.KindViews.{element_kind, shape_of};

use crate::kind::{ElementKind, Kind};
use crate::kind_copies::copied_places;
use aml_paths::NoMemory;
use aml_values::MOST_NESTED;
use std::alloc::Global;
use std::marker::Model;

/// The kinds of a package's elements, in order. As packages, no more than 64 stand in one another.
#[cycle(kind)]
#[derive(Drop)]
pub struct Shape {
    pub(crate) places: Vec<ElementKind>,
    /// How many shapes stand in one another here, this one counted.
    depth: u8,
}

impl Model for Shape {
    ghost use Rattle.aml_kinds.specs.Kinds as kinds;
    ghost use Rattle.aml_kinds.specs.Kinds.{shape_depth, IsNestedShape};

    ghost Value = { kinds.Shape };

    ghost use Rattle.aml_kinds.specs.StoredKinds.{shape_code};

    ghost coded = { shape_code };

    ghost use Rattle.aml_kinds.specs.KindViews.{shape_of};

    ghost view = { λ a. shape_of a.places.items };

    ghost invariant = { λ a. IsNestedShape a.depth (shape_of a.places.items) };

    ghost size = { shape_depth };

    ghost use Rattle.aml_kinds.specs.KindFalls.{most_le-shape_depth};

    ghost size_decreases = { λ a h. most_le-shape_depth a.places.items };
}

impl Shape {
    /// The shape with elements of these kinds, which are handed back where shapes would stand too
    /// deep in one another.
    pub fn new(places: Vec<ElementKind>) -> Result<Shape, Vec<ElementKind>>
        ensures made { IfOk result (λ made. made ≡ shape_of places.items) }
        ensures refused { IfErr result (λ back. back ≡ places) }
        ensures shallow { IsOk result ↔ (shape_depth (shape_of places.items) ≤ most_nested) }
    {
        let depth = 1 + deepest(&places);
        if depth <= MOST_NESTED {
            Ok(Shape { places, depth })
        } else {
            Err(places)
        }
    }

    /// The number of elements.
    pub fn len(&self) -> usize
        ensures { result ≡ places self.now }
    {
        self.places.len()
    }

    /// How many shapes stand in one another, this one counted.
    pub fn depth(&self) -> usize
        ensures depth { result ≡ shape_depth self.now }
        ensures shallow { result ≤ most_nested }
    {
        self.depth as usize
    }

    /// The kinds of the elements, to be read.
    pub fn places(&self) -> &[ElementKind]
        ensures { shape_of result.now ≡ self.now }
    {
        self.places.as_slice()
    }

    /// The kinds of the elements given back.
    pub fn into_places(self) -> Vec<ElementKind>
        ensures { shape_of result.items ≡ self }
    {
        let Shape { places, depth: _ } = self;
        places
    }

    /// A copy.
    #[cycle(copy_kind)]
    pub(crate) fn copied(&self, alloc: Global) -> Result<Shape, NoMemory>
        ensures { IfOk result (λ made. made ≡ self.now) }
    {
        let places = copied_places(alloc, &self.places)?;
        Ok(Shape {
            places,
            depth: self.depth,
        })
    }
}

/// The depth of the deepest of these.
fn deepest(places: &[ElementKind]) -> u8
    ensures depth { result ≡ inner_depth (shape_of places.now) }
    ensures shallow { result ≤ most_nested }
{
    let mut deepest = 0;
    for each in places {
        let depth = depth_of(each);
        if deepest < depth {
            deepest = depth;
        }
    }
    deepest
}

/// How many shapes stand in one another in the kind of an element.
fn depth_of(each: &ElementKind) -> u8
    ensures depth { result ≡ element_kind_depth (element_kind each.now) }
    ensures shallow { result ≤ most_nested }
{
    match each {
        ElementKind::Value(Kind::Pkg(shape)) => shape.depth,
        _ => 0,
    }
}
