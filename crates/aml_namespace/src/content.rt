// What the data of a term is told to be, by its operator and its parts (ACPI 6.5, 19.6, Buffer and
// Package).

ghost use Rattle.std.specs.Prelude.{◌≡◌};
ghost use Rattle.aml_operators.specs.Tree.{view, views};
ghost use Rattle.aml_namespace.specs.Made.{buffer_content, content_in, literal, package_content, sized_package_content, string_content};

use aml_objects::Content;
use aml_operators::{Op, Term, literal_of, number_in, size_in};

/// An integer literal, which a module's sizes and counts are; 0 of any other term.
pub(crate) fn literal(term: &Term) -> u64
    ensures { result ≡ literal (view term.now) }
{
    literal_of(term).unwrap_or(0)
}

/// What a buffer is, by its parts.
#[tactic(auto, using(crate::proofs::Contents::no_buffer))]
fn buffer_content(parts: &[Term]) -> Content
    ensures { result ≡ buffer_content (views parts.now) }
{
    match parts {
        [size, initialiser] => Content::Buffer(literal(size).max(size_in(initialiser))),
        _ => Content::Buffer(0),
    }
}

/// What a string is, by its parts.
fn string_content(parts: &[Term]) -> Content
    ensures { result ≡ string_content (views parts.now) }
{
    match parts {
        [text, ..] => Content::String(size_in(text).saturating_sub(1)),
        [] => Content::String(0),
    }
}

/// What a package is, by its parts.
fn package_content(parts: &[Term]) -> Content
    ensures { result ≡ package_content (views parts.now) }
{
    match parts {
        [size, ..] => Content::Package(number_in(size)),
        [] => Content::Package(0),
    }
}

/// What a package with a term as its count is, by its parts.
fn sized_package_content(parts: &[Term]) -> Content
    ensures { result ≡ sized_package_content (views parts.now) }
{
    match parts {
        [size, ..] => Content::Package(literal(size)),
        [] => Content::Package(0),
    }
}

/// What a term of data is, by its operator and its parts (ACPI 6.5, 19.6, Buffer and Package).
pub fn content_in(op: Op, parts: &[Term]) -> Content
    ensures { result ≡ content_in op (views parts.now) }
{
    match op {
        Op::Buffer => buffer_content(parts),
        Op::String => string_content(parts),
        Op::Package => package_content(parts),
        Op::VarPackage => sized_package_content(parts),
        _ => Content::Integer,
    }
}
