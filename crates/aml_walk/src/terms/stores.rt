// What is stored, and bytes and elements at an index.

ghost use Rattle.std.specs.Prelude.{Bool};
ghost use Rattle.aml_operators.specs.Tree.{view, views};
ghost use Rattle.aml_meaning.specs.declared.action.Action.TheVariants as does;
ghost use Rattle.aml_judged.specs.Judge.{judged_led, judged_store, judged_stored};
ghost use Rattle.aml_known.specs.Views.{kind_of, yield_of};
ghost use Rattle.aml_judging.specs.Follows.{Acts, Judges};

use crate::terms::acts::value;
use aml_bounds::number_of;
use aml_causes::Cause;
use aml_findings::{Around, finds};
use aml_judging::leaves::stop;
use aml_judging::names::{held_kind, place};
use aml_judging::progress::Progress;
use aml_judging::seen::untargeted;
use aml_judging::targets::{indexed, put};
use aml_kind_rules::{byte_written_kind, led_kind};
use aml_known::{Known, Stop, Yield};
use aml_meaning::{Action, action_of};
use aml_operators::Term;
use std::alloc::Global;

/// A value that is stored, and given (19.6, Store).
#[cycle(terms)]
pub(super) fn stored<A: Around>(
    alloc: Global,
    here: &A,
    at: usize,
    parts: &[Term],
    progress: &mut Progress,
) -> Result<Yield, Stop>
    ensures { (w : Bool) → Acts (A.numbered here.now) (A.around here.now) w does.Store at
        (views parts.now) progress.old progress.new result }
{
    let [a, target] = parts else {
        return Err(stop(here, Cause::OutsideProfile, at));
    };
    let given = value(alloc, here, a, progress)?;
    store(alloc, here, target, given, progress)?;
    Ok(Yield::Always(given))
}

/// What is of a kind is stored into a target, whose own operands come first; a byte of a name's
/// buffer is written behind its index (19.6, Index).
#[cycle(terms)]
pub(super) fn store<A: Around>(
    alloc: Global,
    here: &A,
    target: &Term,
    kind: Known,
    progress: &mut Progress,
) -> Result<(), Stop>
    ensures { Judges (A.numbered here.now) (λ lists u. u) (judged_store (A.around here.now)
        (view target.now) (kind_of (A.numbered here.now) kind)) progress.old progress.new result }
{
    match action_of(target.op) {
        Action::Index => store_byte(alloc, here, target.at, &target.parts, kind, progress),
        action => put(here, action, target.at, kind, progress),
    }
}

/// A byte of a name's buffer is written. V2 at an Index that has a target of its own or is of what
/// is no name; V3, V4, V7 as its rule says.
#[cycle(terms)]
fn store_byte<A: Around>(
    alloc: Global,
    here: &A,
    at: usize,
    parts: &[Term],
    kind: Known,
    progress: &mut Progress,
) -> Result<(), Stop>
    ensures { Judges (A.numbered here.now) (λ lists u. u)
        (judged_stored (A.around here.now) does.Index
        at (views parts.now)
        (kind_of (A.numbered here.now) kind)) progress.old progress.new result }
{
    let [of, index, own] = parts else {
        return Err(stop(here, Cause::OutsideProfile, at));
    };
    let from = indexed(here, at, own.op, of)?;
    let j = value(alloc, here, index, progress)?;
    let old = held_kind(here, here.link(from));
    here.finds(finds::byte_written(here, from, old, j, kind));
    byte_written_kind(
        place(here, at),
        place(here, from),
        old,
        place(here, index.at),
        j,
        kind,
    )?;
    progress.step();
    Ok(())
}

/// What an Index leads to (19.6, DerefOf). V2 at a DerefOf of anything else.
#[cycle(terms)]
pub(super) fn dereferenced<A: Around>(
    alloc: Global,
    here: &A,
    at: usize,
    parts: &[Term],
    progress: &mut Progress,
) -> Result<Yield, Stop>
    ensures { (w : Bool) → Acts (A.numbered here.now) (A.around here.now) w does.Dereference at
        (views parts.now) progress.old progress.new result }
{
    let [of] = parts else {
        return Err(stop(here, Cause::OutsideProfile, at));
    };
    match action_of(of.op) {
        Action::Index => led(alloc, here, at, of.at, &of.parts, progress),
        _ => Err(stop(here, Cause::OutsideProfile, at)),
    }
}

/// The byte or the element at an index. V2 at an Index that has a target of its own; V3, V4, V7 as
/// its rule says.
#[cycle(terms)]
fn led<A: Around>(
    alloc: Global,
    here: &A,
    at: usize,
    from: usize,
    parts: &[Term],
    progress: &mut Progress,
) -> Result<Yield, Stop>
    ensures { Judges (A.numbered here.now) (λ lists. yield_of (A.numbered here.now))
        (judged_led (A.around here.now) does.Index at from (views parts.now))
        progress.old progress.new result }
{
    let [a, index, own] = parts else {
        return Err(stop(here, Cause::OutsideProfile, at));
    };
    progress.step();
    untargeted(here, from, own.op)?;
    let j = value(alloc, here, a, progress)?;
    let k = value(alloc, here, index, progress)?;
    let number = number_of(index, here.width());
    let operator = place(here, from);
    here.finds(finds::led(here, j, k));
    let given = led_kind(
        here,
        operator,
        place(here, a.at),
        j,
        place(here, index.at),
        k,
        number,
    )?;
    Ok(Yield::Always(given))
}
