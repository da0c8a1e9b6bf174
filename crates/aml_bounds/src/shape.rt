// How often a loop turns, by the form of its test and its body.

ghost use Rattle.std.specs.Prelude.{◌≡◌, ◌||◌, Some};
ghost use Rattle.aml_operators.specs.Tree.{view, views};
ghost use Rattle.aml_objects.specs.Widths.{bits_of};
ghost use Rattle.aml_meaning.specs.Actions.{action};
ghost use Rattle.aml_meaning.specs.declared.action.Action.TheVariants as does;
ghost use Rattle.aml_meaning.specs.declared.action.Arithmetic.TheVariants as arithmetic;
ghost use Rattle.aml_meaning.specs.declared.action.Comparison.TheVariants as comparison;
ghost use Rattle.aml_bounds.specs.Loops.{against, against_tree, compared, counted, falls, is_one, loop_turns, moves_of, number_of, rises, shape_by, shape_by_test, shape_for, shape_of, spelled, steps, turns_in, turns_of};
ghost use Rattle.aml_bounds.specs.Shapes.{assigns, continues, is_local};

use crate::stands::{assigns, assigns_in, continues, continues_in, is_local, is_only, leaves};
use aml_meaning::{Action, Arithmetic, Comparison, action_of};
use aml_namespace::Width;
use aml_operators::{Op, Term, literal_in};

/// How often a loop turns.
#[derive(Clone, Copy, Debug, PartialEq, Eq)]
pub enum Turns {
    /// Once: its body ends with Break or Return, and no Continue leads around that.
    Once,
    /// As often as a local, by its number below 8, rises by one before it reaches the limit: at
    /// most `limit` times.
    Up { local: u8, limit: u64 },
    /// As often as a local falls by one before it reaches the limit: as many times at most as its
    /// greatest value before the loop is above the limit.
    Down { local: u8, limit: u64 },
}

/// Which way a local goes.
#[derive(Clone, Copy, Debug, PartialEq, Eq)]
enum Step {
    Rises,
    Falls,
}

/// The number of an integer literal, taken modulo 2 to the width.
#[tactic(auto, using(aml_operators::proofs::Views::view_out))]
pub fn number_of(term: &Term, width: Width) -> Option<u64>
    ensures { result ≡ number_of (bits_of width) (view term.now) }
{
    match action_of(term.op) {
        Action::Literal(op) => spelled(literal_in(op, &term.parts), width),
        _ => None,
    }
}

/// A literal's number taken so.
fn spelled(number: Option<u64>, width: Width) -> Option<u64>
    ensures { result ≡ spelled (bits_of width) number }
{
    match number {
        Some(n) => Some(width.wrapped(n)),
        None => None,
    }
}

/// Whether a term is the integer literal 1.
fn is_one(term: &Term, width: Width) -> bool
    ensures { result ≡ is_one (bits_of width) (view term.now) }
{
    match number_of(term, width) {
        Some(n) => n == 1,
        None => false,
    }
}

/// Whether three parts are a local and 1, or 1 and the local, and the local as the target.
fn is_sum(parts: &[Term], local: u8, width: Width) -> bool
    ensures { result ≡ rises (bits_of width) local (does.Binary arithmetic.Add) (views parts.now) }
{
    match parts {
        [a, b, target] => {
            is_local(target, local)
                && (is_local(a, local) && is_one(b, width)
                    || is_one(a, width) && is_local(b, local))
        }
        [] | [_] | [_, _] | [_, _, _, _, ..] => false,
    }
}

/// Whether three parts are a local, 1 and the local as the target.
fn is_difference(parts: &[Term], local: u8, width: Width) -> bool
    ensures { result ≡
        falls (bits_of width) local (does.Binary arithmetic.Subtract) (views parts.now) }
{
    match parts {
        [a, b, target] => is_local(target, local) && (is_local(a, local) && is_one(b, width)),
        [] | [_] | [_, _] | [_, _, _, _, ..] => false,
    }
}

/// Whether a statement makes a local one more.
fn rises(op: Op, parts: &[Term], local: u8, width: Width) -> bool
    ensures { result ≡ rises (bits_of width) local (action op) (views parts.now) }
{
    match action_of(op) {
        Action::ByOne(Arithmetic::Add) => is_only(parts, local),
        Action::Binary(Arithmetic::Add) => is_sum(parts, local, width),
        _ => false,
    }
}

/// Whether a statement makes a local one less.
fn falls(op: Op, parts: &[Term], local: u8, width: Width) -> bool
    ensures { result ≡ falls (bits_of width) local (action op) (views parts.now) }
{
    match action_of(op) {
        Action::ByOne(Arithmetic::Subtract) => is_only(parts, local),
        Action::Binary(Arithmetic::Subtract) => is_difference(parts, local, width),
        _ => false,
    }
}

/// Whether a statement moves a local this way.
fn moves(step: Step, op: Op, parts: &[Term], local: u8, width: Width) -> bool
    ensures { result ≡ moves_of (bits_of width) step local (action op) (views parts.now) }
{
    match step {
        Step::Rises => rises(op, parts, local, width),
        Step::Falls => falls(op, parts, local, width),
    }
}

/// Whether a local is a target in a statement, or a Continue stands in it.
fn touches(statement: &Term, local: u8) -> bool
    ensures { result ≡ (assigns (is_local local) (view statement.now)
        || continues (view statement.now)) }
{
    assigns(statement, local) || continues(statement)
}

/// Whether just one statement moves a local this way, it is no target beside that, and no Continue
/// stands before.
fn steps(step: Step, body: &[Term], local: u8, width: Width) -> bool
    ensures { result ≡ steps (moves_of (bits_of width) step) local (views body.now) }
{
    'statements: for i in 0..body.len() {
        let statement = &body[i];
        if moves(step, statement.op, &statement.parts, local, width) {
            return !assigns_in(&body[i + 1..], local);
        }
        if touches(statement, local) {
            return false;
        }
    }
    false
}

/// The turns of a loop that moves a local to a limit, where its body does.
fn counted(step: Step, local: u8, limit: Option<u64>, body: &[Term], width: Width) -> Option<Turns>
    ensures { result ≡ turns_of (counted (shape_for step)
        (moves_of (bits_of width) step) local limit (views body.now)) }
{
    match limit {
        Some(limit) => {
            if steps(step, body, local, width) {
                Some(turns_to(step, local, limit))
            } else {
                None
            }
        }
        None => None,
    }
}

/// The turns of a loop that moves a local to a limit.
fn turns_to(step: Step, local: u8, limit: u64) -> Turns
    ensures { Some result ≡ turns_of (shape_for step local limit) }
{
    match step {
        Step::Rises => Turns::Up { local, limit },
        Step::Falls => Turns::Down { local, limit },
    }
}

/// The turns of a loop that compares a local, with nothing behind it, with a limit.
fn against_local(
    step: Step,
    local: u8,
    parts: &[Term],
    limit: &Term,
    body: &[Term],
    width: Width,
) -> Option<Turns>
    ensures { result ≡ turns_of (against (bits_of width) (shape_for step)
        (moves_of (bits_of width) step) (does.Local local) (views parts.now) (view limit.now)
        (views body.now)) }
{
    match parts {
        [] => counted(step, local, number_of(limit, width), body, width),
        [_, ..] => None,
    }
}

/// The turns of a loop that compares a term with a limit.
#[tactic(auto, using(aml_operators::proofs::Views::view_out))]
fn against(step: Step, test: &Term, limit: &Term, body: &[Term], width: Width) -> Option<Turns>
    ensures { result ≡ turns_of (against_tree (bits_of width) (shape_for step)
        (moves_of (bits_of width) step) (view test.now) (view limit.now) (views body.now)) }
{
    match action_of(test.op) {
        Action::Local(local) => against_local(step, local, &test.parts, limit, body, width),
        _ => None,
    }
}

/// The turns of a loop by both parts of its comparison.
fn compared(step: Step, parts: &[Term], body: &[Term], width: Width) -> Option<Turns>
    ensures { result ≡ turns_of (compared (bits_of width) (shape_for step)
        (moves_of (bits_of width) step) (views parts.now) (views body.now)) }
{
    match parts {
        [test, limit] => against(step, test, limit, body, width),
        [] | [_] | [_, _, _, ..] => None,
    }
}

/// The turns of a loop that goes down to nothing, by a test that is a local.
fn down_to_zero(local: u8, parts: &[Term], body: &[Term], width: Width) -> Option<Turns>
    ensures { result ≡ turns_of
        (shape_by (bits_of width) (does.Local local) (views parts.now) (views body.now)) }
{
    match parts {
        [] => counted(Step::Falls, local, Some(0), body, width),
        [_, ..] => None,
    }
}

/// The turns of a loop by its test.
#[tactic(auto, using(aml_operators::proofs::Views::view_out))]
fn turns_by(test: &Term, body: &[Term], width: Width) -> Option<Turns>
    ensures { result ≡ turns_of
        (shape_by_test (bits_of width) (view test.now) (views body.now)) }
{
    match action_of(test.op) {
        Action::Compare(Comparison::LLess) => compared(Step::Rises, &test.parts, body, width),
        Action::Compare(Comparison::LGreater) => compared(Step::Falls, &test.parts, body, width),
        Action::Local(local) => down_to_zero(local, &test.parts, body, width),
        _ => None,
    }
}

/// The turns of a loop by its test and its body.
pub fn turns_of(test: &Term, body: &[Term], width: Width) -> Option<Turns>
    ensures { result ≡ turns_of
        (shape_of (bits_of width) (view test.now) (views body.now)) }
{
    if leaves(body) && !continues_in(body) {
        Some(Turns::Once)
    } else {
        turns_by(test, body, width)
    }
}

/// The turns of a loop by its parts, the first of which is its test.
fn turns_in(parts: &[Term], width: Width) -> Option<Turns>
    ensures { result ≡ loop_turns (bits_of width) does.While (views parts.now) }
{
    match parts {
        [test, body @ ..] => turns_of(test, body, width),
        [] => None,
    }
}

/// How often a While turns (ACPI 6.5, 19.6): once, or as a local rises or falls by one; the shapes
/// are tried in this order. None where it has none of these shapes, and for any other term. Integer
/// literals count modulo 2 to the width.
#[tactic(auto, using(aml_operators::proofs::Views::view_out))]
pub fn loop_shape(term: &Term, width: Width) -> Option<Turns>
    ensures { result ≡ turns_in (bits_of width) (view term.now) }
{
    match action_of(term.op) {
        Action::While => turns_in(&term.parts, width),
        _ => None,
    }
}
