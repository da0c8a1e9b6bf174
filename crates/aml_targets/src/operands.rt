// Which parts of an operator are targets.

ghost use Rattle.std.specs.Prelude.{◌≡◌, [], Bool, drop, length};
ghost use Rattle.aml_operators.specs.Tree.{views};
ghost use Rattle.aml_meaning.specs.declared.action.Action.{Action};
ghost use Rattle.aml_meaning.specs.Actions.{action};
ghost use Rattle.aml_bounds.specs.Shapes.{is_target, targets};
ghost use Rattle.aml_targets.specs.Marks.{acts_in};

use aml_meaning::{Action, action_of};
use aml_operators::{Letter, Op, Piece, Spot, Term};

/// Of just so many parts those from a place on.
fn parts_from(parts: &[Term], count: usize, first: usize) -> &[Term]
    ensures some { length parts.now ≡ count → result.now ≡ drop first parts.now }
    ensures others { (length parts.now ≡ count → ⊥) → result.now ≡ [] }
{
    if parts.len() != count {
        return &[];
    }
    match parts.get(first..) {
        Some(others) => others,
        None => &[],
    }
}

/// The targets of an operator that has a meaning.
pub fn written_parts(op: Op, parts: &[Term]) -> &[Term]
    ensures { (is : Action → Bool) →
        targets is (action op) (views parts.now) ≡ acts_in is (views result.now) }
{
    match action_of(op) {
        Action::Binary(_) => parts_from(parts, 3, 2),
        Action::Concatenate => parts_from(parts, 3, 2),
        Action::Index => parts_from(parts, 3, 2),
        Action::Unary(_) => parts_from(parts, 2, 1),
        Action::Convert(_) => parts_from(parts, 2, 1),
        Action::Store => parts_from(parts, 2, 1),
        Action::CondRefOf => parts_from(parts, 2, 1),
        Action::ByOne(_) => parts_from(parts, 1, 0),
        Action::Divide => parts_from(parts, 4, 2),
        _ => &[],
    }
}

/// Whether a letter is that of a target.
pub fn is_target(letter: Letter) -> bool
    ensures { result ≡ is_target letter }
{
    match letter {
        Letter::One(Piece::Term(Spot::Target)) => true,
        _ => false,
    }
}
