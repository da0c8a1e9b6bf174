// Operators over values.

ghost use Rattle.std.specs.Prelude.{Bool};
ghost use Rattle.aml_operators.specs.Tree.{views};
ghost use Rattle.aml_meaning.specs.declared.action.Action.TheVariants as does;
ghost use Rattle.aml_judging.specs.Follows.{Acts};

use crate::terms::acts::value;
use crate::terms::stores::store;
use aml_bounds::number_of;
use aml_causes::Cause;
use aml_findings::{Around, finds};
use aml_judging::leaves::stop;
use aml_judging::names::place;
use aml_judging::progress::Progress;
use aml_judging::targets::placed;
use aml_kind_rules::{
    combined_kind, compared_kind, concatenated_kind, converted_kind, divided_kind, negated_kind,
    transformed_kind,
};
use aml_known::{Known, Stop, Yield};
use aml_meaning::{Arithmetic, Bitwise, Comparison, Conversion};
use aml_operators::Term;
use std::alloc::Global;

/// Two integers and a target (ACPI 6.5, 19.6).
#[cycle(terms)]
pub(super) fn binary<A: Around>(
    alloc: Global,
    here: &A,
    f: Arithmetic,
    at: usize,
    parts: &[Term],
    progress: &mut Progress,
) -> Result<Yield, Stop>
    ensures { (w : Bool) → Acts (A.numbered here.now) (A.around here.now) w (does.Binary f) at
        (views parts.now) progress.old progress.new result }
{
    let [a, b, target] = parts else {
        return Err(stop(here, Cause::OutsideProfile, at));
    };
    let j = value(alloc, here, a, progress)?;
    let k = value(alloc, here, b, progress)?;
    let number = number_of(b, here.width());
    here.finds(finds::combined(j, k));
    let given = combined_kind(
        here.width(),
        f,
        place(here, a.at),
        j,
        place(here, b.at),
        k,
        number,
    )?;
    store(alloc, here, target, given, progress)?;
    Ok(Yield::Always(given))
}

/// An integer and a target (19.6, Not, FindSetLeftBit, FindSetRightBit).
#[cycle(terms)]
pub(super) fn unary<A: Around>(
    alloc: Global,
    here: &A,
    f: Bitwise,
    at: usize,
    parts: &[Term],
    progress: &mut Progress,
) -> Result<Yield, Stop>
    ensures { (w : Bool) → Acts (A.numbered here.now) (A.around here.now) w (does.Unary f) at
        (views parts.now) progress.old progress.new result }
{
    let [a, target] = parts else {
        return Err(stop(here, Cause::OutsideProfile, at));
    };
    let k = value(alloc, here, a, progress)?;
    here.finds(finds::integer(k));
    let given = transformed_kind(here.width(), f, place(here, a.at), k)?;
    store(alloc, here, target, given, progress)?;
    Ok(Yield::Always(given))
}

/// What is changed by one where it stands (19.6, Increment, Decrement).
#[cycle(terms)]
pub(super) fn by_one<A: Around>(
    alloc: Global,
    here: &A,
    f: Arithmetic,
    at: usize,
    parts: &[Term],
    progress: &mut Progress,
) -> Result<Yield, Stop>
    ensures { (w : Bool) → Acts (A.numbered here.now) (A.around here.now) w (does.ByOne f) at
        (views parts.now) progress.old progress.new result }
{
    let [a] = parts else {
        return Err(stop(here, Cause::OutsideProfile, at));
    };
    placed(here, a)?;
    let k = value(alloc, here, a, progress)?;
    let from = place(here, a.at);
    here.finds(finds::integer(k));
    let given = combined_kind(here.width(), f, from, k, from, Known::Int(1), Some(1))?;
    store(alloc, here, a, given, progress)?;
    Ok(Yield::Always(given))
}

/// Two values that are asked whether something holds (19.6, LAnd, LOr, LEqual, LGreater, LLess).
#[cycle(terms)]
pub(super) fn compared<A: Around>(
    alloc: Global,
    here: &A,
    f: Comparison,
    at: usize,
    parts: &[Term],
    progress: &mut Progress,
) -> Result<Yield, Stop>
    ensures { (w : Bool) → Acts (A.numbered here.now) (A.around here.now) w (does.Compare f) at
        (views parts.now) progress.old progress.new result }
{
    let [a, b] = parts else {
        return Err(stop(here, Cause::OutsideProfile, at));
    };
    let j = value(alloc, here, a, progress)?;
    let k = value(alloc, here, b, progress)?;
    here.finds(finds::compared(f, j, k));
    let given = compared_kind(here.width(), f, place(here, a.at), j, place(here, b.at), k)?;
    Ok(Yield::Always(given))
}

/// An integer that is asked whether it is zero (19.6, LNot).
#[cycle(terms)]
pub(super) fn negated<A: Around>(
    alloc: Global,
    here: &A,
    at: usize,
    parts: &[Term],
    progress: &mut Progress,
) -> Result<Yield, Stop>
    ensures { (w : Bool) → Acts (A.numbered here.now) (A.around here.now) w does.LNot at
        (views parts.now) progress.old progress.new result }
{
    let [a] = parts else {
        return Err(stop(here, Cause::OutsideProfile, at));
    };
    let k = value(alloc, here, a, progress)?;
    here.finds(finds::integer(k));
    let given = negated_kind(here.width(), place(here, a.at), k)?;
    Ok(Yield::Always(given))
}

/// An integer divided by a literal: the remainder is stored first (19.6, Divide).
#[cycle(terms)]
pub(super) fn divided<A: Around>(
    alloc: Global,
    here: &A,
    at: usize,
    parts: &[Term],
    progress: &mut Progress,
) -> Result<Yield, Stop>
    ensures { (w : Bool) → Acts (A.numbered here.now) (A.around here.now) w does.Divide at
        (views parts.now) progress.old progress.new result }
{
    let [a, b, remainder, quotient] = parts else {
        return Err(stop(here, Cause::OutsideProfile, at));
    };
    let j = value(alloc, here, a, progress)?;
    let k = value(alloc, here, b, progress)?;
    let number = number_of(b, here.width());
    here.finds(finds::combined(j, k));
    let given = divided_kind(
        here.width(),
        place(here, a.at),
        j,
        place(here, b.at),
        k,
        number,
    )?;
    store(alloc, here, remainder, given.remainder, progress)?;
    store(alloc, here, quotient, given.quotient, progress)?;
    Ok(Yield::Always(given.quotient))
}

/// A value as one of another kind (19.6, ToBuffer, ToInteger).
#[cycle(terms)]
pub(super) fn converted<A: Around>(
    alloc: Global,
    here: &A,
    f: Conversion,
    at: usize,
    parts: &[Term],
    progress: &mut Progress,
) -> Result<Yield, Stop>
    ensures { (w : Bool) → Acts (A.numbered here.now) (A.around here.now) w (does.Convert f) at
        (views parts.now) progress.old progress.new result }
{
    let [a, target] = parts else {
        return Err(stop(here, Cause::OutsideProfile, at));
    };
    let k = value(alloc, here, a, progress)?;
    here.finds(finds::converted(k));
    let given = converted_kind(here.width(), f, place(here, at), place(here, a.at), k)?;
    store(alloc, here, target, given, progress)?;
    Ok(Yield::Always(given))
}

/// Two buffers or two strings (19.6, Concatenate).
#[cycle(terms)]
pub(super) fn concatenated<A: Around>(
    alloc: Global,
    here: &A,
    at: usize,
    parts: &[Term],
    progress: &mut Progress,
) -> Result<Yield, Stop>
    ensures { (w : Bool) → Acts (A.numbered here.now) (A.around here.now) w does.Concatenate at
        (views parts.now) progress.old progress.new result }
{
    let [a, b, target] = parts else {
        return Err(stop(here, Cause::OutsideProfile, at));
    };
    let j = value(alloc, here, a, progress)?;
    let k = value(alloc, here, b, progress)?;
    here.finds(finds::concatenated(j, k));
    let given = concatenated_kind(place(here, at), place(here, a.at), j, place(here, b.at), k)?;
    store(alloc, here, target, given, progress)?;
    Ok(Yield::Always(given))
}
