// What literals of data in a method's body hold (ACPI 6.5, 19.6, Buffer, Package and String).

ghost use Rattle.std.specs.Prelude.{◌≡◌, IfOk};
ghost use Rattle.aml_operators.specs.Tree.{views};
ghost use Rattle.aml_namespace.specs.Shows.{shown};
ghost use Rattle.aml_values.specs.Views.{view};
ghost use Rattle.aml_contents.specs.BodyData.{begins_computed, body_data, computed_size, first_computed, is_computed};

use crate::first_data::{Site, value_of};
use aml_namespace::{Namespace, content_in};
use aml_operators::{Op, Term, literal_of};
use aml_paths::{NoMemory, ObjectId, Scope};
use aml_values::Value;
use std::alloc::Global;

/// The value of a literal of data in a method's body, in a table, by its operator and its parts: a
/// string's characters; a buffer as long as the greater of its size and its initialiser, with zeros
/// behind; a package of as many elements as it counts, further ones dropped and missing ones unset.
/// Integers in it are taken modulo 2 to the width, and its names are looked up from the method.
pub fn body_data(
    alloc: Global,
    namespace: &Namespace<'_>,
    table: usize,
    method: ObjectId,
    op: Op,
    parts: &[Term],
) -> Result<Value, NoMemory>
    ensures { IfOk result (λ v. view v ≡
        body_data (shown namespace.now) table method.0 op (views parts.now)) }
{
    let scope = Scope::At(method);
    let told = content_in(op, parts);
    value_of(alloc, namespace, Site { table, scope }, told, op, parts)
}

/// Whether the first of some parts is no integer literal.
fn begins_computed(parts: &[Term]) -> bool
    ensures { result ≡ begins_computed (views parts.now) }
{
    match parts {
        [size, ..] => literal_of(size).is_none(),
        [] => false,
    }
}

/// Whether a buffer's size is computed, or a package's count where that is a term.
fn is_computed(op: Op, parts: &[Term]) -> bool
    ensures { result ≡ is_computed op (views parts.now) }
{
    match op {
        Op::Buffer | Op::VarPackage => begins_computed(parts),
        _ => false,
    }
}

/// Where in a literal of data the first buffer or package of computed size begins, in the order of
/// the bytes, by the literal's operator, its place and its parts. None where each size is an
/// integer literal.
#[cycle(computed)]
pub fn computed_size(op: Op, at: usize, parts: &[Term]) -> Option<usize>
    ensures { result ≡ computed_size op at (views parts.now) }
{
    if is_computed(op, parts) {
        Some(at)
    } else {
        first_computed(parts)
    }
}

/// The same in some terms.
#[cycle(computed)]
fn first_computed(terms: &[Term]) -> Option<usize>
    ensures { result ≡ first_computed (views terms.now) }
{
    'terms: for term in terms {
        let from = computed_size(term.op, term.at, &term.parts);
        if from.is_some() {
            return from;
        }
    }
    None
}
