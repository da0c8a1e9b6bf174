// What a term is, by its operator.

ghost use Rattle.aml_operators.specs.Tree.{view, views};
ghost use Rattle.aml_meaning.specs.Actions.{action};
ghost use Rattle.aml_judged.specs.Judge.{judged, judged_act, judged_value};
ghost use Rattle.aml_known.specs.Views.{kind_of, yield_of};
ghost use Rattle.aml_judging.specs.Follows.{Judges};

use crate::reached::reached_with;
use crate::terms::blocks::{branch, looped};
use crate::terms::calls::{invoked, notifies, pauses, returned};
use crate::terms::operators::{
    binary, by_one, compared, concatenated, converted, divided, negated, unary,
};
use crate::terms::stores::{dereferenced, stored};
use aml_causes::Cause;
use aml_findings::Around;
use aml_judging::leaves::{
    acquires, asked, breaks, continues, data, is_operand, literal, name_read, releases, sized,
    slot, stop, wanted,
};
use aml_judging::progress::Progress;
use aml_known::{Known, Stop, Yield};
use aml_meaning::{Action, Definition, action_of, definition_of};
use aml_operators::{Op, Term};
use std::alloc::Global;

/// The statement that a term is. V13 at a definition: those stand at the top of a body alone.
#[cycle(terms)]
pub fn statement<A: Around>(
    alloc: Global,
    here: &A,
    term: &Term,
    progress: &mut Progress,
) -> Result<Yield, Stop>
    ensures { Judges (A.numbered here.now) (λ lists y. yield_of (A.numbered here.now) y)
        (judged (A.around here.now) (view term.now)) progress.old progress.new result }
{
    let was = here.reached();
    let before = progress.cost;
    progress.step();
    match definition_of(term.op) {
        Definition::Nothing => {
            let given = act(alloc, here, false, term.op, term.at, &term.parts, progress);
            let inner = here.reached();
            here.reaches(reached_with(was, inner, term.at, before, progress.cost));
            given
        }
        _ => Err(stop(here, Cause::LocalName, term.at)),
    }
}

/// A term's value, where one is wanted. V2 at what gives none as an operand, V10 where it need not
/// give one.
#[cycle(terms)]
pub(super) fn value<A: Around>(
    alloc: Global,
    here: &A,
    term: &Term,
    progress: &mut Progress,
) -> Result<Known, Stop>
    ensures { Judges (A.numbered here.now) (λ lists k. kind_of (A.numbered here.now) k)
        (judged_value (A.around here.now) (view term.now)) progress.old progress.new result }
{
    progress.step();
    if !is_operand(term.op, &term.parts) {
        return Err(stop(here, Cause::OutsideProfile, term.at));
    }
    let given = act(alloc, here, true, term.op, term.at, &term.parts, progress)?;
    let kind = wanted(here, term.at, given)?;
    Ok(kind)
}

/// What a term is behind its step, by its operator and its parts; whether its value is wanted
/// matters to a call alone.
#[cycle(terms)]
fn act<A: Around>(
    alloc: Global,
    here: &A,
    wanted: bool,
    op: Op,
    at: usize,
    parts: &[Term],
    progress: &mut Progress,
) -> Result<Yield, Stop>
    ensures { Judges (A.numbered here.now) (λ lists y. yield_of (A.numbered here.now) y)
        (judged_act (A.around here.now) wanted (action op) at (views parts.now))
        progress.old progress.new result }
{
    match action_of(op) {
        Action::Literal(op) => Ok(Yield::Always(literal(here, op, parts))),
        Action::Data(op) => Ok(Yield::Always(data(here, op, at, parts)?)),
        Action::Local(number) => {
            Ok(Yield::Always(slot(here, &progress.env.locals, number, at)?))
        }
        Action::Argument(number) => {
            Ok(Yield::Always(slot(here, &progress.env.args, number, at)?))
        }
        Action::Name => name_read(here, at, progress),
        Action::Binary(f) => binary(alloc, here, f, at, parts, progress),
        Action::Unary(f) => unary(alloc, here, f, at, parts, progress),
        Action::ByOne(f) => by_one(alloc, here, f, at, parts, progress),
        Action::Compare(f) => compared(alloc, here, f, at, parts, progress),
        Action::LNot => negated(alloc, here, at, parts, progress),
        Action::Divide => divided(alloc, here, at, parts, progress),
        Action::Convert(f) => converted(alloc, here, f, at, parts, progress),
        Action::Concatenate => concatenated(alloc, here, at, parts, progress),
        Action::SizeOf => sized(here, at, parts, progress),
        Action::Dereference => dereferenced(alloc, here, at, parts, progress),
        Action::CondRefOf => asked(here, at, parts),
        Action::Store => stored(alloc, here, at, parts, progress),
        Action::Return => returned(alloc, here, at, parts, progress),
        Action::If => branch(alloc, here, at, parts, progress),
        Action::While => looped(alloc, here, at, parts, progress),
        Action::Break => breaks(here, at, progress),
        Action::Continue => continues(here, at, progress),
        Action::Nothing => Ok(Yield::Never),
        Action::Invoke => invoked(alloc, here, wanted, at, parts, progress),
        Action::Notify => notifies(alloc, here, at, parts, progress),
        Action::Pause(f) => pauses(alloc, here, f, at, parts, progress),
        Action::Acquire => acquires(here, at, parts, progress),
        Action::Release => releases(here, at, parts, progress),
        Action::Index | Action::Debug | Action::NoTarget | Action::Unwritten => {
            Err(stop(here, Cause::OutsideProfile, at))
        }
    }
}
