// Whether values are of the kinds that a verdict has for arguments.

ghost use Rattle.std.specs.Prelude.{◌≡◌, ◌+◌, ◌≤◌, length, map};
ghost use Rattle.aml_values.specs.Views.{view};
ghost use Rattle.aml_verify.specs.Accepts.{are_of, is_of, misfit_from};

use aml_known::Known;
use aml_values::{MOST_ELEMENTS, Value};

/// Whether there is a value for each of some kinds, and is of it.
pub(crate) fn are_of(kinds: &[Known], values: &[Value]) -> bool
    ensures { result ≡ are_of kinds.now (map view values.now) }
{
    match kinds {
        [] => values.is_empty(),
        [kind, other_kinds @ ..] => match values {
            [] => false,
            [value, others @ ..] => is_of(*kind, value) && are_of(other_kinds, others),
        },
    }
}

/// An argument that is not of the kind that a method takes there.
#[derive(Clone, Copy, Debug, PartialEq, Eq)]
pub struct Misfit {
    /// Its number, from 0.
    pub number: usize,
    pub kind: Known,
}

/// The first value that is not of the kind at its place, where the first kind has this number.
pub(crate) fn misfit_from(number: usize, kinds: &[Known], values: &[Value]) -> Option<Misfit>
    requires { number + length kinds.now ≤ usize.MAX }
    ensures { result ≡ misfit_from number kinds.now (map view values.now) }
{
    match kinds {
        [] => None,
        [kind, other_kinds @ ..] => match values {
            [] => None,
            [value, others @ ..] => {
                if is_of(*kind, value) {
                    misfit_from(number + 1, other_kinds, others)
                } else {
                    Some(Misfit {
                        number,
                        kind: *kind,
                    })
                }
            }
        },
    }
}

/// Whether a value is of a kind. Which packages are of a shape no signature tells.
fn is_of(kind: Known, value: &Value) -> bool
    ensures { result ≡ is_of kind (view value.now) }
{
    match (kind, value) {
        (Known::Mixed, _) => true,
        (Known::Int(most), Value::Int(number)) => *number <= most,
        (Known::Buf(size), Value::Buf(octets)) => octets.len() as u64 == size,
        (Known::Str(size), Value::Str(characters)) => characters.len() as u64 == size,
        (Known::AnyPkg, Value::Pkg(elements)) => elements.len() <= MOST_ELEMENTS,
        _ => false,
    }
}
