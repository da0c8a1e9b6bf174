// Packages, no deeper than terms may be.

ghost use Rattle.std.specs.Prelude.{◌≡◌, ◌≤◌, ◌↔◌, IfOk, IfErr, IsOk};
ghost use Rattle.aml_values.specs.Values.{package_depth, element_depth, greatest_depth};
ghost use Rattle.aml_values.specs.Values.{most_nested, count};
ghost use Rattle.aml_values.specs.Views.{element, elements_of};

use crate::copies::copied_elements;
use crate::value::{Element, Value};
use aml_paths::NoMemory;
use std::alloc::Global;
use std::marker::Model;

/// How many packages may stand in one another: as many as a term may have levels.
pub const MOST_NESTED: u8 = 64;

/// As many elements as a package may have.
pub const MOST_ELEMENTS: usize = 65_535;

/// The elements of a package. No more than 64 packages stand in one another, so that whatever goes
/// through a value, as its drop does, goes no deeper.
#[cycle(value)]
#[derive(Drop)]
pub struct Package {
    pub(crate) elements: Vec<Element>,
    /// How many packages stand in one another here, this one counted.
    depth: u8,
}

impl Model for Package {
    ghost use Rattle.aml_values.specs.Values.{Elements, package_depth, IsNested};

    ghost Value = { Elements };

    ghost use Rattle.aml_values.specs.StoredValues.{elements_code};

    ghost coded = { elements_code };

    ghost use Rattle.aml_values.specs.Views.{elements_of};

    ghost view = { λ a. elements_of a.elements.items };

    ghost invariant = { λ a. IsNested a.depth (elements_of a.elements.items) };

    ghost size = { package_depth };

    ghost use Rattle.aml_values.specs.Falls.{most_le-package_depth};

    ghost size_decreases = { λ a h. most_le-package_depth a.elements.items };
}

impl Package {
    /// A package of these elements, which are handed back where packages would stand too deep in
    /// one another.
    pub fn new(elements: Vec<Element>) -> Result<Package, Vec<Element>>
        ensures made { IfOk result (λ made. made ≡ elements_of elements.items) }
        ensures refused { IfErr result (λ back. back ≡ elements) }
        ensures shallow { IsOk result ↔ (package_depth (elements_of elements.items) ≤ most_nested) }
    {
        let depth = 1 + deepest(&elements);
        if depth <= MOST_NESTED {
            Ok(Package { elements, depth })
        } else {
            Err(elements)
        }
    }

    /// The number of elements.
    pub fn len(&self) -> usize
        ensures { result ≡ count self.now }
    {
        self.elements.len()
    }

    /// How many packages stand in one another, this one counted.
    pub fn depth(&self) -> usize
        ensures depth { result ≡ package_depth self.now }
        ensures shallow { result ≤ most_nested }
    {
        self.depth as usize
    }

    /// The elements, to be read.
    pub fn elements(&self) -> &[Element]
        ensures { elements_of result.now ≡ self.now }
    {
        self.elements.as_slice()
    }

    /// The elements given back.
    pub fn into_elements(self) -> Vec<Element>
        ensures { elements_of result.items ≡ self }
    {
        let Package { elements, depth: _ } = self;
        elements
    }

    /// A copy.
    #[cycle(copy)]
    pub(crate) fn copied(&self, alloc: Global) -> Result<Package, NoMemory>
        ensures { IfOk result (λ made. made ≡ self.now) }
    {
        let elements = copied_elements(alloc, &self.elements)?;
        Ok(Package {
            elements,
            depth: self.depth,
        })
    }
}

/// The depth of the deepest of these elements.
fn deepest(elements: &[Element]) -> u8
    ensures depth { result ≡ greatest_depth (elements_of elements.now) }
    ensures shallow { result ≤ most_nested }
{
    let mut deepest = 0;
    for each in elements {
        let depth = depth_of(each);
        if deepest < depth {
            deepest = depth;
        }
    }
    deepest
}

/// How many packages stand in one another in an element.
fn depth_of(each: &Element) -> u8
    ensures depth { result ≡ element_depth (element each.now) }
    ensures shallow { result ≤ most_nested }
{
    match each {
        Element::Value(Value::Pkg(package)) => package.depth,
        _ => 0,
    }
}
