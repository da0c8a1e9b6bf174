// What stands in terms: the locals that they assign, the Continues of a loop, the last statement.

ghost use Rattle.std.specs.Prelude.{◌≡◌, ◌||◌};
ghost use Rattle.aml_operators.specs.declared.row.Letter.TheVariants as letters;
ghost use Rattle.aml_operators.specs.Tree.{view, views};
ghost use Rattle.aml_meaning.specs.declared.action.Action.TheVariants as does;
ghost use Rattle.aml_meaning.specs.Actions.{action};
ghost use Rattle.aml_bounds.specs.Shapes.{acts, assigns, assigns_in, continues, continues_by, continues_in, is_leave, is_local, is_target, leaves, lettered, only, outside_targets, second, targets, third, third_or_fourth};

use aml_meaning::{Action, action_of};
use aml_operators::{Letter, Op, Piece, Spot, Term, row_of};

/// Whether an operator is just a local.
fn is_local_by(op: Op, local: u8) -> bool
    ensures { result ≡ is_local local (action op) }
{
    match action_of(op) {
        Action::Local(k) => k == local,
        _ => false,
    }
}

/// Whether a term is just a local.
#[tactic(auto, using(aml_operators::proofs::Views::view_out))]
pub fn is_local(term: &Term, local: u8) -> bool
    ensures { result ≡ acts (is_local local) (view term.now) }
{
    is_local_by(term.op, local)
}

/// Whether the only part is just a local.
pub fn is_only(parts: &[Term], local: u8) -> bool
    ensures { result ≡ only (acts (is_local local)) (views parts.now) }
{
    match parts {
        [part] => is_local(part, local),
        [] | [_, _, ..] => false,
    }
}

/// Whether the second of two parts is.
fn is_second(parts: &[Term], local: u8) -> bool
    ensures { result ≡ second (acts (is_local local)) (views parts.now) }
{
    match parts {
        [_, target] => is_local(target, local),
        [] | [_] | [_, _, _, ..] => false,
    }
}

/// Whether the third of three parts is.
fn is_third(parts: &[Term], local: u8) -> bool
    ensures { result ≡ third (acts (is_local local)) (views parts.now) }
{
    match parts {
        [_, _, target] => is_local(target, local),
        [] | [_] | [_, _] | [_, _, _, _, ..] => false,
    }
}

/// Whether one of the last two of four parts is.
fn is_third_or_fourth(parts: &[Term], local: u8) -> bool
    ensures { result ≡ third_or_fourth (acts (is_local local)) (views parts.now) }
{
    match parts {
        [_, _, remainder, quotient] => is_local(remainder, local) || is_local(quotient, local),
        [] | [_] | [_, _] | [_, _, _] | [_, _, _, _, _, ..] => false,
    }
}

/// Whether a local is a target of an operator that has a meaning.
fn is_written(op: Op, parts: &[Term], local: u8) -> bool
    ensures { result ≡ targets (is_local local) (action op) (views parts.now) }
{
    match action_of(op) {
        Action::Binary(_) => is_third(parts, local),
        Action::Concatenate => is_third(parts, local),
        Action::Index => is_third(parts, local),
        Action::Unary(_) => is_second(parts, local),
        Action::Convert(_) => is_second(parts, local),
        Action::Store => is_second(parts, local),
        Action::CondRefOf => is_second(parts, local),
        Action::ByOne(_) => is_only(parts, local),
        Action::Divide => is_third_or_fourth(parts, local),
        _ => false,
    }
}

/// Whether a letter is that of a target.
fn is_target(letter: Letter) -> bool
    ensures { result ≡ is_target letter }
{
    match letter {
        Letter::One(piece) => is_target_piece(piece),
        _ => false,
    }
}

/// Whether an operand is a target.
fn is_target_piece(piece: Piece) -> bool
    ensures { result ≡ is_target (letters.One piece) }
{
    match piece {
        Piece::Term(Spot::Target) => true,
        _ => false,
    }
}

/// Whether a local is one of the parts that have a target's letter.
fn is_lettered(letters: &[Letter], parts: &[Term], local: u8) -> bool
    ensures { result ≡ lettered (is_local local) letters.now (views parts.now) }
{
    match parts {
        [] => false,
        [part, others @ ..] => match letters {
            [] => false,
            [letter, behind @ ..] => {
                (is_target(*letter) && is_local(part, local)) || is_lettered(behind, others, local)
            }
        },
    }
}

/// Whether a local is a target of an operator that has no meaning.
fn is_outside(op: Op, parts: &[Term], local: u8) -> bool
    ensures { result ≡ outside_targets (is_local local) (action op) op (views parts.now) }
{
    match action_of(op) {
        Action::Unwritten => is_lettered(row_of(op).letters, parts, local),
        _ => false,
    }
}

/// Whether a local is a target of an operator.
fn is_assigned(op: Op, parts: &[Term], local: u8) -> bool
    ensures { result ≡ (targets (is_local local) (action op) (views parts.now)
        || outside_targets (is_local local) (action op) op (views parts.now)) }
{
    is_written(op, parts, local) || is_outside(op, parts, local)
}

/// Whether a local is a target anywhere in a term.
#[cycle(assigns)]
#[tactic(auto, using(aml_operators::proofs::Views::view_out))]
pub fn assigns(term: &Term, local: u8) -> bool
    ensures { result ≡ assigns (is_local local) (view term.now) }
{
    let parts = term.parts.as_slice();
    if is_assigned(term.op, parts, local) {
        return true;
    }
    assigns_in(parts, local)
}

/// Whether a local is a target anywhere in some terms.
#[cycle(assigns)]
pub fn assigns_in(terms: &[Term], local: u8) -> bool
    ensures { result ≡ assigns_in (is_local local) (views terms.now) }
{
    'terms: for term in terms {
        if assigns(term, local) {
            return true;
        }
    }
    false
}

/// Whether a Continue of the loop around a term stands in it.
#[cycle(continues)]
#[tactic(auto, using(aml_operators::proofs::Views::view_out))]
pub fn continues(term: &Term) -> bool
    ensures { result ≡ continues (view term.now) }
{
    let parts = term.parts.as_slice();
    match action_of(term.op) {
        Action::Continue => true,
        Action::While => continues_first(parts),
        _ => continues_in(parts),
    }
}

/// Whether one stands in the first of some terms, as in a loop's test.
#[cycle(continues)]
fn continues_first(terms: &[Term]) -> bool
    ensures { result ≡ continues_by does.While (views terms.now) }
{
    match terms {
        [test, ..] => continues(test),
        [] => false,
    }
}

/// Whether one stands in some terms.
#[cycle(continues)]
pub fn continues_in(terms: &[Term]) -> bool
    ensures { result ≡ continues_in (views terms.now) }
{
    'terms: for term in terms {
        if continues(term) {
            return true;
        }
    }
    false
}

/// Whether an operator is Break or Return.
fn is_leave(op: Op) -> bool
    ensures { result ≡ is_leave (action op) }
{
    match action_of(op) {
        Action::Break => true,
        Action::Return => true,
        _ => false,
    }
}

/// Whether the last of some statements is a Break or a Return.
pub fn leaves(body: &[Term]) -> bool
    ensures { result ≡ leaves (views body.now) }
{
    match body {
        [.., last] => is_leave(last.op),
        [] => false,
    }
}
