// Elements of packages, and of packages in them, where they stand.

ghost use Rattle.std.specs.Prelude.{◌≡◌, Some, slice_get};
ghost use Rattle.std.specs.Option.{option_map};
ghost use Rattle.aml_values.specs.Views.{element, view};
ghost use Rattle.aml_machine.specs.Elements.{element_held, element_in, inner};

use aml_values::{Element, Value};

/// The value that one of some elements holds, by its number.
fn element_there(elements: &[Element], i: usize) -> Option<&Value>
    ensures { option_map (λ v. view v.now) result
        ≡ element_held (option_map element (slice_get elements.now i)) }
{
    match elements.get(i) {
        Some(Element::Value(value)) => Some(value),
        _ => None,
    }
}

/// The value that an element of a package holds, by its number.
pub fn element_in(value: &Value, i: usize) -> Option<&Value>
    ensures { option_map (λ v. view v.now) result ≡ element_in (view value.now) i }
{
    match value {
        Value::Pkg(package) => element_there(package.elements(), i),
        _ => None,
    }
}

/// The value that stands in packages in a value, by the numbers of their elements, the outermost
/// package's first.
pub fn inner<'a>(value: &'a Value, path: &[usize]) -> Option<&'a Value>
    ensures { option_map (λ v. view v.now) result ≡ inner (Some (view value.now)) path.now }
{
    match path {
        [] => Some(value),
        [i, rest @ ..] => inner(element_in(value, *i)?, rest),
    }
}
