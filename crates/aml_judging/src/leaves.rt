// Terms that stand on no other term's value, and what is asked of a term's.

ghost use Rattle.std.specs.Prelude.{◌≡◌, ◌++◌, ◌∷◌, [], Bool, Ok, OnOk, slice_get};
ghost use Rattle.aml_operators.specs.Tree.{views};
ghost use Rattle.aml_meaning.specs.Actions.{action};
ghost use Rattle.aml_meaning.specs.Meaning.{is_else, takes_operand};
ghost use Rattle.aml_meaning.specs.declared.action.Action.TheVariants as does;
ghost use Rattle.aml_judged.specs.Judge.{breaking, continuing, judged_act, judged_slot, refusal, returning, wanted};
ghost use Rattle.aml_judged.specs.Judged.{Always};
ghost use Rattle.aml_bounds.specs.Shapes.{is_operand};
ghost use Rattle.aml_known.specs.declared.accepted.Yield.TheVariants as yields;
ghost use Rattle.aml_known.specs.declared.stop.Stop.TheVariants as stops;
ghost use Rattle.aml_known.specs.Views.{kind_of, slots_of, yield_of};
ghost use Rattle.aml_judging.specs.Follows.{Acts, Gives, GivesOrMemory, Judges, Paid};

use crate::mutexes::{mutex, released, taken};
use crate::names::{Read, name, refusal, refusal_for};
use crate::progress::Progress;
use crate::seen::{condition, size};
use aml_causes::{Cause, Refusal};
use aml_contents::computed_size;
use aml_findings::{Around, Finding};
use aml_known::{Known, Slot, Stop, Yield, kind_at};
use aml_meaning::{Action, action_of};
use aml_operators::{Op, Term, literal_in};
use aml_paths::NoMemory;

/// Whether the other block of an If begins here.
pub fn is_else(op: Op) -> bool
    ensures { result ≡ is_else op }
{
    matches!(op, Op::Else)
}

/// Whether a value may be stored by an operand into a target of this kind.
fn takes_operand(action: Action) -> bool
    ensures { result ≡ takes_operand action }
{
    match action {
        Action::Local(_) | Action::Argument(_) | Action::NoTarget | Action::Debug => true,
        _ => false,
    }
}

/// Whether a Store of these parts may be an operand.
#[tactic(auto, using(aml_operators::proofs::Views::view_out))]
fn is_stored(parts: &[Term]) -> bool
    ensures { result ≡ is_operand does.Store (views parts.now) }
{
    match parts {
        [_, target] => takes_operand(action_of(target.op)),
        [] | [_] | [_, _, _, ..] => true,
    }
}

/// Whether a term may be an operand, by its operator and its parts: a Store into a name or an Index
/// is none.
pub fn is_operand(op: Op, parts: &[Term]) -> bool
    ensures { result ≡ is_operand (action op) (views parts.now) }
{
    match action_of(op) {
        Action::Store => is_stored(parts),
        _ => true,
    }
}

/// The value of a term that always gives one. V10 at a term that need not.
pub fn wanted<A: Around>(here: &A, at: usize, given: Yield) -> Result<Known, Refusal>
    ensures { Gives (kind_of (A.numbered here.now))
        (wanted (A.around here.now) at (yield_of (A.numbered here.now) given)) result }
{
    match given {
        Yield::Always(kind) => Ok(kind),
        Yield::Sometimes(_) | Yield::Never => {
            let finding = Finding::Given(given);
            Err(refusal_for(here, Cause::NoResult, at, finding))
        }
    }
}

/// A cause at a place in the body's table, where a judgement stops.
pub fn stop<A: Around>(here: &A, why: Cause, at: usize) -> Stop
    ensures { result ≡ stops.Refused (refusal (A.around here.now) why at) }
{
    Stop::Refused(refusal(here, why, at))
}

/// The same, with what was found there.
pub fn stop_for<A: Around>(here: &A, why: Cause, at: usize, finding: Finding) -> Stop
    ensures { result ≡ stops.Refused (refusal (A.around here.now) why at) }
{
    Stop::Refused(refusal_for(here, why, at, finding))
}

/// A kind behind others.
pub fn push(kinds: &mut Vec<Known>, kind: Known) -> Result<(), NoMemory>
    ensures { OnOk result (kinds.new.items ≡ kinds.old.items ++ kind ∷ []) }
{
    kinds.push(kind)?;
    Ok(())
}

/// An integer literal.
pub fn literal<A: Around>(here: &A, op: Op, parts: &[Term]) -> Known
    ensures { (w : Bool) (at : _) → Gives (λ k. Always (kind_of (A.numbered here.now) k))
        (judged_act (A.around here.now) w (does.Literal op) at (views parts.now)) (Ok result) }
{
    let number = literal_in(op, parts).unwrap_or(0);
    Known::Int(here.width().wrapped(number))
}

/// A literal of data. V2 at the first buffer or package in it whose size is computed.
pub fn data<A: Around>(here: &A, op: Op, at: usize, parts: &[Term]) -> Result<Known, Stop>
    ensures { (w : Bool) → GivesOrMemory (λ k. Always (kind_of (A.numbered here.now) k))
        (judged_act (A.around here.now) w (does.Data op) at (views parts.now)) result }
{
    if let Some(from) = computed_size(op, at, parts) {
        return Err(stop(here, Cause::OutsideProfile, from));
    }
    let kind = here.literal(op, parts)?;
    Ok(kind)
}

/// A local or an argument. V4 at one that may be unset.
pub fn slot<A: Around>(here: &A, slots: &[Slot], number: u8, at: usize) -> Result<Known, Refusal>
    ensures { Gives (λ k. Always (kind_of (A.numbered here.now) k)) (judged_slot (A.around here.now)
        at (slice_get (slots_of (A.numbered here.now) slots.now) number)) result }
{
    match kind_at(slots, number) {
        Some(kind) => Ok(kind),
        None => Err(refusal(here, Cause::Unset, at)),
    }
}

/// What is read of a name: its events are paid.
pub fn read(read: Read, progress: &mut Progress) -> Yield
    ensures given { result ≡ yields.Always read.kind }
    ensures paid { Paid read.events progress.old progress.new }
{
    progress.pay(read.events);
    Yield::Always(read.kind)
}

/// A name alone, read.
pub fn name_read<A: Around>(here: &A, at: usize, progress: &mut Progress) -> Result<Yield, Stop>
    ensures { (w : Bool) (parts : _) → Acts (A.numbered here.now) (A.around here.now) w does.Name at
        parts progress.old progress.new result }
{
    let given = name(here, here.link(at), at)?;
    Ok(read(given, progress))
}

/// How large something is (ACPI 6.5, 19.6, SizeOf).
pub fn sized<A: Around>(
    here: &A,
    at: usize,
    parts: &[Term],
    progress: &mut Progress,
) -> Result<Yield, Stop>
    ensures { (w : Bool) → Acts (A.numbered here.now) (A.around here.now) w does.SizeOf at
        (views parts.now) progress.old progress.new result }
{
    let [of] = parts else {
        return Err(stop(here, Cause::OutsideProfile, at));
    };
    let kind = size(here, of, &progress.env)?;
    Ok(Yield::Always(kind))
}

/// Whether something has a name (19.6, CondRefOf).
pub fn asked<A: Around>(here: &A, at: usize, parts: &[Term]) -> Result<Yield, Stop>
    ensures { (w : Bool) (p : _) →
        Acts (A.numbered here.now) (A.around here.now) w does.CondRefOf at
        (views parts.now) p p result }
{
    let [what, target] = parts else {
        return Err(stop(here, Cause::OutsideProfile, at));
    };
    let given = condition(here, at, what, target)?;
    Ok(Yield::Always(given.kind))
}

/// A mutex is taken (19.6, Acquire); it is always had.
pub fn acquires<A: Around>(
    here: &A,
    at: usize,
    parts: &[Term],
    progress: &mut Progress,
) -> Result<Yield, Stop>
    ensures { (w : Bool) → Acts (A.numbered here.now) (A.around here.now) w does.Acquire at
        (views parts.now) progress.old progress.new result }
{
    let [object, _] = parts else {
        return Err(stop(here, Cause::OutsideProfile, at));
    };
    let mutex = mutex(here, at, object.op, object.at)?;
    taken(here, at, mutex, progress)?;
    Ok(Yield::Always(Known::Int(0)))
}

/// A mutex is released (19.6, Release).
pub fn releases<A: Around>(
    here: &A,
    at: usize,
    parts: &[Term],
    progress: &mut Progress,
) -> Result<Yield, Stop>
    ensures { (w : Bool) → Acts (A.numbered here.now) (A.around here.now) w does.Release at
        (views parts.now) progress.old progress.new result }
{
    let [object] = parts else {
        return Err(stop(here, Cause::OutsideProfile, at));
    };
    let mutex = mutex(here, at, object.op, object.at)?;
    released(here, at, mutex, progress)?;
    Ok(Yield::Never)
}

/// A Return of what is of a kind: the method ends.
pub fn returns<A: Around>(here: &A, kind: Known, progress: &mut Progress)
    ensures { Judges (A.numbered here.now) (λ lists. yield_of (A.numbered here.now))
        (returning (A.around here.now) (kind_of (A.numbered here.now) kind))
        progress.old progress.new (Ok yields.Never) }
{
    if !progress.env.counts {
        return;
    }
    progress.exits.returns(kind);
    progress.env.counts = false;
}

/// A Break: the loop around ends. V2 at one that stands in none.
pub fn breaks<A: Around>(here: &A, at: usize, progress: &mut Progress) -> Result<Yield, Stop>
    ensures { Judges (A.numbered here.now) (λ lists. yield_of (A.numbered here.now))
        (breaking (A.around here.now) at) progress.old progress.new result }
{
    if !progress.env.looped {
        return Err(stop(here, Cause::OutsideProfile, at));
    }
    if !progress.env.counts {
        return Ok(Yield::Never);
    }
    progress.exits.breaks(progress.env, &progress.locks)?;
    progress.env.counts = false;
    Ok(Yield::Never)
}

/// A Continue: the turn of the loop around ends. V2 at one that stands in none.
pub fn continues<A: Around>(here: &A, at: usize, progress: &mut Progress) -> Result<Yield, Stop>
    ensures { Judges (A.numbered here.now) (λ lists. yield_of (A.numbered here.now))
        (continuing (A.around here.now) at) progress.old progress.new result }
{
    if !progress.env.looped {
        return Err(stop(here, Cause::OutsideProfile, at));
    }
    if !progress.env.counts {
        return Ok(Yield::Never);
    }
    progress.exits.continues(progress.env, &progress.locks)?;
    progress.env.counts = false;
    Ok(Yield::Never)
}
