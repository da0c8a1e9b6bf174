// What is known of an element of a shape whose number is not known.

ghost use Rattle.std.specs.Prelude.{◌≡◌, ℕ};
ghost use Rattle.std.specs.Option.{option_map};
ghost use Rattle.aml_kinds.specs.Kinds.{Shape};
ghost use Rattle.aml_known.specs.Views.{AreApart, element_kind_of};
ghost use Rattle.aml_judged.specs.KindRules.{joined_with};
ghost use Rattle.aml_shapes.specs.Keys.{HasRoom, JoinsPlaces};

use crate::key::ShapeKey;
use aml_known::ElementKnown;

/// An element, or one of some others, if there are any.
fn joined_with(first: ElementKnown, others: Option<ElementKnown>) -> ElementKnown
    ensures { (shapes : ℕ → Shape) → AreApart shapes → element_kind_of shapes result
        ≡ joined_with (element_kind_of shapes first) (option_map (element_kind_of shapes) others) }
{
    match others {
        Some(other) => first.join(other),
        None => first,
    }
}

/// What is known of one of all elements of a shape.
pub(crate) fn joined_places(key: &ShapeKey) -> Option<ElementKnown>
    requires { HasRoom key.now }
    ensures { JoinsPlaces result key.now }
{
    let mut left = key.parts.len();
    let mut joined = if left as u64 == key.places {
        None
    } else {
        Some(ElementKnown::Unset)
    };
    while 0 < left {
        left -= 1;
        joined = Some(joined_with(key.parts[left].known(), joined));
    }
    joined
}
