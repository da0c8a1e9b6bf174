// Statements one after the other, choices and loops.

ghost use Rattle.std.specs.Prelude.{Bool};
ghost use Rattle.aml_operators.specs.Tree.{view, views};
ghost use Rattle.aml_meaning.specs.declared.action.Action.TheVariants as does;
ghost use Rattle.aml_judged.specs.Judge.{judged_all, judged_block, judged_otherwise, judged_test, judged_value};
ghost use Rattle.aml_known.specs.Views.{env_of};
ghost use Rattle.aml_judging.specs.Follows.{Acts, Judges};
ghost use Rattle.aml_judging.specs.Turns.{Turned, falling_rule, often_rule, once_rule};

use crate::terms::acts::{statement, value};
use aml_bounds::{Turns, turns_of};
use aml_causes::Cause;
use aml_findings::lacks::shapeless;
use aml_findings::{Around, finds};
use aml_judging::leaves::{is_else, stop, stop_for};
use aml_judging::names::place;
use aml_judging::progress::{Progress, product, sum};
use aml_judging::turns::{Turn, begun, comes_back, exit_holds, holds_back, narrowed, past};
use aml_kind_rules::integer_kind;
use aml_known::{Env, Exits, Known, Stop, Yield, kind_at};
use aml_operators::Term;
use std::alloc::Global;
use std::mem;

/// Statements, one after the other.
#[cycle(terms)]
fn all<A: Around>(
    alloc: Global,
    here: &A,
    statements: &[Term],
    progress: &mut Progress,
) -> Result<(), Stop>
    ensures { Judges (A.numbered here.now) (λ lists u. u)
        (judged_all (A.around here.now) (views statements.now)) progress.old progress.new result }
{
    for term in statements {
        statement(alloc, here, term, progress)?;
    }
    Ok(())
}

/// The statements of an If's block, up to its Else.
#[cycle(terms)]
fn block<A: Around>(
    alloc: Global,
    here: &A,
    statements: &[Term],
    progress: &mut Progress,
) -> Result<(), Stop>
    ensures { Judges (A.numbered here.now) (λ lists u. u)
        (judged_block (A.around here.now) (views statements.now)) progress.old progress.new result }
{
    for term in statements {
        if is_else(term.op) {
            return Ok(());
        }
        statement(alloc, here, term, progress)?;
    }
    Ok(())
}

/// The statements of its Else, if it has one.
#[cycle(terms)]
fn otherwise<A: Around>(
    alloc: Global,
    here: &A,
    statements: &[Term],
    progress: &mut Progress,
) -> Result<(), Stop>
    ensures { Judges (A.numbered here.now) (λ lists u. u)
        (judged_otherwise (A.around here.now) (views statements.now)) progress.old progress.new
        result }
{
    for term in statements {
        if is_else(term.op) {
            return all(alloc, here, &term.parts, progress);
        }
    }
    Ok(())
}

/// A test, of which an integer is wanted, with what is known where it held.
#[cycle(terms)]
fn test<A: Around>(
    alloc: Global,
    here: &A,
    term: &Term,
    progress: &mut Progress,
) -> Result<Env, Stop>
    ensures { Judges (A.numbered here.now) (env_of (A.numbered here.now))
        (judged_test (A.around here.now) (view term.now)
        (judged_value (A.around here.now) (view term.now)))
        progress.old progress.new result }
{
    let kind = value(alloc, here, term, progress)?;
    here.finds(finds::integer(kind));
    integer_kind(place(here, term.at), kind)?;
    Ok(narrowed(here, term, progress.env))
}

/// Statements under a test, and those of an Else (19.6, If). V18 at the operator where both ends
/// count and hold different mutexes.
#[cycle(terms)]
pub(super) fn branch<A: Around>(
    alloc: Global,
    here: &A,
    at: usize,
    parts: &[Term],
    progress: &mut Progress,
) -> Result<Yield, Stop>
    ensures { (w : Bool) → Acts (A.numbered here.now) (A.around here.now) w does.If at
        (views parts.now) progress.old progress.new result }
{
    let [condition, statements @ ..] = parts else {
        return Err(stop(here, Cause::OutsideProfile, at));
    };
    let held = test(alloc, here, condition, progress)?;
    let failed = mem::replace(&mut progress.env, held);
    let before = mem::replace(&mut progress.cost, 0);
    block(alloc, here, statements, progress)?;
    let end = mem::replace(&mut progress.env, failed);
    let cost = mem::replace(&mut progress.cost, 0);
    otherwise(alloc, here, statements, progress)?;
    if !end.agrees(&progress.env, &progress.locks)? {
        return Err(stop(here, Cause::HeldDiffers, at));
    }
    progress.env = end.join(progress.env, &progress.locks)?;
    progress.cost = sum(before, cost.max(progress.cost));
    Ok(Yield::Never)
}

/// A loop (19.6, While). V6 at one that has no shape.
#[cycle(terms)]
pub(super) fn looped<A: Around>(
    alloc: Global,
    here: &A,
    at: usize,
    parts: &[Term],
    progress: &mut Progress,
) -> Result<Yield, Stop>
    ensures { (w : Bool) → Acts (A.numbered here.now) (A.around here.now) w does.While at
        (views parts.now) progress.old progress.new result }
{
    let [condition, body @ ..] = parts else {
        return Err(stop(here, Cause::OutsideProfile, at));
    };
    match turns_of(condition, body, here.width()) {
        Some(Turns::Once) => once(alloc, here, at, condition, body, progress)?,
        Some(Turns::Up { local: _, limit }) => {
            often(alloc, here, limit, at, condition, body, progress)?;
        }
        Some(Turns::Down { local, limit }) => {
            falling(alloc, here, local, limit, at, condition, body, progress)?;
        }
        None => return Err(stop_for(here, Cause::LoopShape, at, shapeless(here, condition, body))),
    }
    Ok(Yield::Never)
}

/// One turn of a loop's body, from where its test held.
#[cycle(terms)]
fn turn<A: Around>(
    alloc: Global,
    here: &A,
    body: &[Term],
    held: Env,
    progress: &mut Progress,
) -> Result<Turn, Stop>
    ensures { Turned (A.numbered here.now) (A.around here.now) (views body.now) held
        progress.old progress.new result }
{
    let env = mem::replace(&mut progress.env, held);
    let exits = mem::replace(&mut progress.exits, Exits::new());
    let cost = mem::replace(&mut progress.cost, 0);
    all(alloc, here, body, progress)?;
    Ok(Turn {
        end: mem::replace(&mut progress.env, env),
        exits: mem::replace(&mut progress.exits, exits),
        cost: mem::replace(&mut progress.cost, cost),
    })
}

/// A loop that ends in its first turn, from its test. V18 where a Break holds other mutexes than
/// the test leaves.
#[cycle(terms)]
fn once<A: Around>(
    alloc: Global,
    here: &A,
    at: usize,
    condition: &Term,
    body: &[Term],
    progress: &mut Progress,
) -> Result<(), Stop>
    ensures { Judges (A.numbered here.now) (λ lists u. u) (once_rule (A.around here.now) at
        (view condition.now) (views body.now)) progress.old progress.new result }
{
    let outer = mem::replace(&mut progress.env.looped, true);
    let held = test(alloc, here, condition, progress)?;
    let turn = turn(alloc, here, body, held, progress)?;
    let tested = progress.env;
    if !exit_holds(&turn.exits.broke, &tested, &progress.locks)? {
        return Err(stop(here, Cause::HeldDiffers, at));
    }
    past(outer, tested, &turn.exits, turn.cost, progress)?;
    Ok(())
}

/// A loop that makes so many turns at most. V3 at one whose end or a Continue need not be within
/// what it began with, and then V18 where they hold other mutexes.
#[cycle(terms)]
fn often<A: Around>(
    alloc: Global,
    here: &A,
    turns: u64,
    at: usize,
    condition: &Term,
    body: &[Term],
    progress: &mut Progress,
) -> Result<(), Stop>
    ensures { Judges (A.numbered here.now) (λ lists u. u) (often_rule (A.around here.now) turns at
        (view condition.now) (views body.now)) progress.old progress.new result }
{
    let outer = progress.env.looped;
    let start = begun(here, body, progress.env);
    progress.env = start;
    let before = mem::replace(&mut progress.cost, 0);
    let held = test(alloc, here, condition, progress)?;
    let turn = turn(alloc, here, body, held, progress)?;
    let tested = progress.env;
    if !comes_back(&turn.end, &turn.exits.continued, &start) {
        let finding = finds::turned(&turn.end, &turn.exits.continued, &start);
        return Err(stop_for(here, Cause::WrongKind, at, finding));
    }
    if !holds_back(&turn.end, &turn.exits, &start, &tested, &progress.locks)? {
        return Err(stop(here, Cause::HeldDiffers, at));
    }
    let cost = product(turns, sum(progress.cost, turn.cost));
    progress.cost = sum(before, progress.cost);
    past(outer, tested, &turn.exits, cost, progress)?;
    Ok(())
}

/// A loop that turns as often as a local falls from its greatest. Where that is no integer's, the
/// test tells.
#[cycle(terms)]
fn falling<A: Around>(
    alloc: Global,
    here: &A,
    local: u8,
    limit: u64,
    at: usize,
    condition: &Term,
    body: &[Term],
    progress: &mut Progress,
) -> Result<(), Stop>
    ensures { Judges (A.numbered here.now) (λ lists u. u)
        (falling_rule (A.around here.now) local limit at
        (view condition.now) (views body.now)) progress.old progress.new result }
{
    if let Some(Known::Int(greatest)) = kind_at(&progress.env.locals, local) {
        let turns = greatest.saturating_sub(limit);
        return often(alloc, here, turns, at, condition, body, progress);
    }
    progress.env = begun(here, body, progress.env);
    test(alloc, here, condition, progress)?;
    Err(stop(here, Cause::LoopShape, at))
}
