// What stands first among parts, and which statements an If has.

ghost use Rattle.std.specs.Prelude.{◌≡◌, ◌<◌, length, unwrap_or, IsSome, Some};
ghost use Rattle.aml_operators.specs.declared.row.Code.TheVariants as code;
ghost use Rattle.aml_operators.specs.Literal.{literal_in};
ghost use Rattle.aml_operators.specs.Shape.{AreShaped};
ghost use Rattle.aml_operators.specs.Tree.{first_at, views};
ghost use Rattle.aml_meaning.specs.Meaning.{is_else};
ghost use Rattle.aml_plain.specs.Shapes.{IsBranch, IsSplit};

use aml_operators::{Op, Term, literal_in};

/// The place of the first of one or more.
#[tactic(auto, using(aml_operators::proofs::Views::view_out))]
pub fn first_place(parts: &[Term]) -> usize
    requires { 0 < length parts.now }
    ensures { first_at (views parts.now) ≡ Some result }
{
    match parts {
        [first, ..] => first.at,
        [] => unreachable!(),
    }
}

/// The place of the first, if there is any.
#[tactic(auto, using(aml_operators::proofs::Views::view_out))]
pub fn first_place_if_any(parts: &[Term]) -> Option<usize>
    ensures { result ≡ first_at (views parts.now) }
{
    match parts {
        [first, ..] => Some(first.at),
        [] => None,
    }
}

/// Whether the other block of an If begins here.
fn is_else(op: Op) -> bool
    ensures { result ≡ is_else op }
{
    match op {
        Op::Else => true,
        _ => false,
    }
}

/// An If's own statements, and those of its Else.
pub fn branches(parts: &[Term]) -> (&[Term], &[Term])
    requires { IsBranch (views parts.now) }
    ensures split { IsSplit (views parts.now) (views result.0.now) (views result.1.now) }
    ensures shaped { AreShaped code.Body (views parts.now) →
        AreShaped code.Body (views result.0.now) × AreShaped code.Body (views result.1.now) }
{
    match parts {
        [block @ .., last] => {
            if is_else(last.op) {
                (block, &last.parts)
            } else {
                (parts, &[])
            }
        }
        [] => (parts, &[]),
    }
}

/// The number of an integer literal.
pub fn number_of_literal(op: Op, parts: &[Term]) -> u64
    requires { IsSome (literal_in op (views parts.now)) }
    ensures { literal_in op (views parts.now) ≡ Some result }
{
    match literal_in(op, parts) {
        Some(n) => n,
        None => unreachable!(),
    }
}

/// The place of the first of some arguments, or this one where there is none.
#[tactic(auto, using(aml_operators::proofs::Views::view_out))]
pub fn first_or(arguments: &[Term], at: usize) -> usize
    ensures { result ≡ unwrap_or (first_at (views arguments.now)) at }
{
    match arguments {
        [first, ..] => first.at,
        [] => at,
    }
}
