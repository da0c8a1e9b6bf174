// The shapes of packages, by their numbers.

ghost use Rattle.std.specs.Prelude.{◌≡◌, ℕ, IfOk};
ghost use Rattle.std.specs.Option.{option_map};
ghost use Rattle.aml_kinds.specs.Kinds as kinds;
ghost use Rattle.aml_judged.specs.KindRules as rules;
ghost use Rattle.aml_known.specs.Views.{element_kind_of};

use crate::known::{ElementKnown, ShapeNumber};
use aml_paths::NoMemory;

/// Shapes of packages, each under a number of its own. Of a number that is no shape's, which what
/// these answer never leads to, memory is said to be wanted.
pub trait Shapes {
    /// What each number stands for.
    ghost numbered: { Self → (ℕ → kinds.Shape) };

    /// How many places a shape has.
    fn places(&self, shape: ShapeNumber) -> Result<u64, NoMemory>
        ensures { IfOk result (λ count. count ≡ kinds.places (numbered self.now shape.0)) };

    /// What stands at a place of a shape; none where it has no such place.
    fn place(&self, shape: ShapeNumber, number: u64) -> Result<Option<ElementKnown>, NoMemory>
        ensures { IfOk result (λ place. option_map (element_kind_of (numbered self.now)) place
            ≡ rules.place_numbered (numbered self.now shape.0) number) };

    /// What stands at one of all places of a shape; none where it has none.
    fn joined(&self, shape: ShapeNumber) -> Result<Option<ElementKnown>, NoMemory>
        ensures { IfOk result (λ place. option_map (element_kind_of (numbered self.now)) place
            ≡ rules.joined_places (numbered self.now shape.0)) };
}
