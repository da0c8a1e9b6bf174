// The limits of sizes that are integer literals.

ghost use Rattle.std.specs.Prelude.{◌≡◌};
ghost use Rattle.aml_tree.specs.Reading.{is_above};

use aml_operators::Limit;

/// The most bytes that a buffer has.
const MOST_BYTES: usize = 65_536;

/// The most elements that a package has.
const MOST_ELEMENTS: u64 = 65_535;

/// Whether a literal size is above its limit, where so many bytes are left behind it.
pub(crate) fn is_too_large(limit: Limit, literal: Option<u64>, left: usize) -> bool
    ensures { result ≡ is_above limit literal left }
{
    match (limit, literal) {
        (_, None) => false,
        (Limit::Buffer, Some(size)) => size > MOST_BYTES as u64 || left > MOST_BYTES,
        (Limit::Package, Some(count)) => count > MOST_ELEMENTS,
    }
}
