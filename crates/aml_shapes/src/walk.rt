// The kinds of data by its terms: no value is made, and of packages only the numbers of their
// shapes.

ghost use Rattle.std.specs.Prelude.{◌≡◌, IfOk, map, take};
ghost use Rattle.aml_operators.specs.Tree.{view, views};
ghost use Rattle.aml_kinds.specs.Kinds.{ValueOf};
ghost use Rattle.aml_contents.specs.DataKinds.{counted_places, shape_behind, tree_place};
ghost use Rattle.aml_contents.specs.FirstContents as first;
ghost use Rattle.aml_shapes.specs.PartsKnown.{TellParts, TellsPart};
ghost use Rattle.aml_shapes.specs.Numbers.{IsNumber, Keeps, Tells};
ghost use Rattle.aml_shapes.specs.Literals.{literal_kind};

use crate::key::{Part, ShapeKey};
use crate::numbering::Numbering;
use aml_known::{Known, ShapeNumber};
use aml_namespace::{Content, Width, content_in};
use aml_operators::{Op, Term, behind_first, literal_in};
use aml_paths::NoMemory;
use std::alloc::Global;

/// The number of an integer literal, and 0 of any other term.
pub(crate) fn number_of(op: Op, parts: &[Term]) -> u64
    ensures { result ≡ first.number_of op (views parts.now) }
{
    literal_in(op, parts).unwrap_or(0)
}

/// So many terms, or all where there are fewer.
fn first_terms(terms: &[Term], count: u64) -> &[Term]
    ensures { result.now ≡ take count terms.now }
{
    &terms[..terms.len().min(count as usize)]
}

/// The number of the shape with so many places that a package's parts tell.
#[cycle(walk)]
#[tactic(auto, using(aml_contents::proofs::FirstValues::lighter_kept))]
pub(crate) fn package<N: Numbering>(
    alloc: Global,
    numbers: &mut N,
    width: Width,
    count: u64,
    parts: &[Term],
) -> Result<usize, NoMemory>
    ensures number { IfOk result (λ n. IsNumber (N.shapes numbers.new) n
        (counted_places count (shape_behind width (views parts.now)))) }
    ensures keeps { Keeps (N.shapes numbers.old) (N.shapes numbers.new) }
    ensures stays { N.stays → N.shapes numbers.new ≡ N.shapes numbers.old }
{
    let terms = behind_first(parts);
    let kept = first_terms(terms, count);
    let told = parts_in(alloc, numbers, width, kept)?;
    numbers.number_of(
        alloc,
        ShapeKey {
            places: count,
            parts: told,
        },
    )
}

/// What the elements are that terms tell.
#[cycle(walk)]
#[tactic(auto, using(aml_namespace::proofs::Weights::lighter_item))]
fn parts_in<N: Numbering>(
    alloc: Global,
    numbers: &mut N,
    width: Width,
    terms: &[Term],
) -> Result<Vec<Part>, NoMemory>
    ensures parts { IfOk result (λ ps.
        TellParts (N.shapes numbers.new) ps.items
        (map (λ t. tree_place width (view t)) terms.now)) }
    ensures keeps { Keeps (N.shapes numbers.old) (N.shapes numbers.new) }
    ensures stays { N.stays → N.shapes numbers.new ≡ N.shapes numbers.old }
{
    let mut parts = Vec::with_capacity(alloc, terms.len())?;
    for term in terms {
        let part = part_of(alloc, numbers, width, term)?;
        parts.push(part)?;
    }
    Ok(parts)
}

/// What the element is that a term tells.
#[cycle(walk)]
#[tactic(auto, using(crate::proofs::PartsTold::place_of_term))]
fn part_of<N: Numbering>(
    alloc: Global,
    numbers: &mut N,
    width: Width,
    term: &Term,
) -> Result<Part, NoMemory>
    ensures part { IfOk result (λ p.
        TellsPart (N.shapes numbers.new) p (tree_place width (view term.now))) }
    ensures keeps { Keeps (N.shapes numbers.old) (N.shapes numbers.new) }
    ensures stays { N.stays → N.shapes numbers.new ≡ N.shapes numbers.old }
{
    match term.op {
        Op::NameString => Ok(Part::Name),
        _ => value_part(alloc, numbers, width, term.op, &term.parts),
    }
}

/// What the element is that a term tells which is no name, by its operator and its parts.
#[cycle(walk)]
fn value_part<N: Numbering>(
    alloc: Global,
    numbers: &mut N,
    width: Width,
    op: Op,
    parts: &[Term],
) -> Result<Part, NoMemory>
    ensures part { IfOk result (λ p.
        TellsPart (N.shapes numbers.new) p (ValueOf (literal_kind width op (views parts.now)))) }
    ensures keeps { Keeps (N.shapes numbers.old) (N.shapes numbers.new) }
    ensures stays { N.stays → N.shapes numbers.new ≡ N.shapes numbers.old }
{
    match content_in(op, parts) {
        Content::Integer => Ok(Part::Int(width.wrapped(number_of(op, parts)))),
        Content::Buffer(size) => Ok(Part::Buf(size)),
        Content::String(size) => Ok(Part::Str(size)),
        Content::Package(count) => {
            let number = package(alloc, numbers, width, count, parts)?;
            Ok(Part::Pkg(number))
        }
    }
}

/// The kind of data by its operator and its parts.
pub(crate) fn kind<N: Numbering>(
    alloc: Global,
    numbers: &mut N,
    width: Width,
    op: Op,
    parts: &[Term],
) -> Result<Known, NoMemory>
    ensures known { IfOk result (λ k.
        Tells (N.shapes numbers.new) k (literal_kind width op (views parts.now))) }
    ensures keeps { Keeps (N.shapes numbers.old) (N.shapes numbers.new) }
    ensures stays { N.stays → N.shapes numbers.new ≡ N.shapes numbers.old }
{
    match content_in(op, parts) {
        Content::Integer => Ok(Known::Int(width.wrapped(number_of(op, parts)))),
        Content::Buffer(size) => Ok(Known::Buf(size)),
        Content::String(size) => Ok(Known::Str(size)),
        Content::Package(count) => {
            let number = package(alloc, numbers, width, count, parts)?;
            Ok(Known::Pkg(ShapeNumber(number)))
        }
    }
}
