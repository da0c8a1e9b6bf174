// Calls, and what is told to those around: notices, pauses and Returns.

ghost use Rattle.std.specs.Prelude.{Bool};
ghost use Rattle.aml_operators.specs.Tree.{views};
ghost use Rattle.aml_meaning.specs.declared.action.Action.TheVariants as does;
ghost use Rattle.aml_judged.specs.Judge.{judged_values};
ghost use Rattle.aml_known.specs.Views.{kinds_of};
ghost use Rattle.aml_judging.specs.Follows.{Acts, Judges};

use crate::terms::acts::value;
use aml_causes::Cause;
use aml_findings::{Around, Wanted, finds};
use aml_judging::calls::{called, interface, not_reaching};
use aml_judging::leaves::{push, read, returns, stop, stop_for};
use aml_judging::mutexes::none_held;
use aml_judging::names::{name, place};
use aml_judging::progress::Progress;
use aml_judging::seen::notified;
use aml_kind_rules::{integer_kind, notice_kind};
use aml_known::{Known, Stop, Yield};
use aml_meaning::Pause;
use aml_namespace::Link;
use aml_operators::Term;
use std::alloc::Global;

/// A name with its arguments (20.2.5, MethodInvocation): a method is called behind them; what takes
/// none is read.
#[cycle(terms)]
pub(super) fn invoked<A: Around>(
    alloc: Global,
    here: &A,
    wanted: bool,
    at: usize,
    parts: &[Term],
    progress: &mut Progress,
) -> Result<Yield, Stop>
    ensures { Acts (A.numbered here.now) (A.around here.now) wanted does.Invoke at
        (views parts.now) progress.old progress.new result }
{
    let [called_name, arguments @ ..] = parts else {
        return Err(stop(here, Cause::OutsideProfile, at));
    };
    match here.link(called_name.at) {
        Link::Method(id) => {
            let method = here.callee(id);
            not_reaching(here, called_name.at, method.reaches)?;
            let kinds = values(alloc, here, arguments, progress)?;
            called(
                here,
                wanted,
                called_name.at,
                method,
                arguments,
                &kinds,
                progress,
            )
        }
        Link::OsInterfaces => {
            let kinds = values(alloc, here, arguments, progress)?;
            let given = interface(here, called_name.at, arguments, &kinds)?;
            Ok(read(given, progress))
        }
        Link::Object(id) => {
            let finding = finds::named(here, Link::Object(id), Wanted::Value);
            Err(stop_for(here, Cause::WrongKind, called_name.at, finding))
        }
        link => {
            let given = name(here, link, called_name.at)?;
            Ok(read(given, progress))
        }
    }
}

/// The kinds of some terms, each of which gives a value.
#[cycle(terms)]
fn values<A: Around>(
    alloc: Global,
    here: &A,
    terms: &[Term],
    progress: &mut Progress,
) -> Result<Vec<Known>, Stop>
    ensures { Judges (A.numbered here.now) (λ lists ks. kinds_of (A.numbered here.now) ks.items)
        (judged_values (A.around here.now) (views terms.now)) progress.old progress.new result }
{
    let mut kinds = Vec::new(alloc);
    for term in terms {
        let kind = value(alloc, here, term, progress)?;
        push(&mut kinds, kind)?;
    }
    Ok(kinds)
}

/// An object notified with an integer (19.6, Notify). V3 at what may not be notified, and at what
/// is no integer.
#[cycle(terms)]
pub(super) fn notifies<A: Around>(
    alloc: Global,
    here: &A,
    at: usize,
    parts: &[Term],
    progress: &mut Progress,
) -> Result<Yield, Stop>
    ensures { (w : Bool) → Acts (A.numbered here.now) (A.around here.now) w does.Notify at
        (views parts.now) progress.old progress.new result }
{
    let [object, number] = parts else {
        return Err(stop(here, Cause::OutsideProfile, at));
    };
    let may = notified(here, object.op, object.at)?;
    let kind = value(alloc, here, number, progress)?;
    here.finds(finds::notified(here, object.op, object.at));
    notice_kind(place(here, object.at), may)?;
    here.finds(finds::integer(kind));
    integer_kind(place(here, number.at), kind)?;
    progress.step();
    Ok(Yield::Never)
}

/// A pause of so many units of time (19.6, Sleep, Stall). V3 at what is no integer.
#[cycle(terms)]
pub(super) fn pauses<A: Around>(
    alloc: Global,
    here: &A,
    f: Pause,
    at: usize,
    parts: &[Term],
    progress: &mut Progress,
) -> Result<Yield, Stop>
    ensures { (w : Bool) → Acts (A.numbered here.now) (A.around here.now) w (does.Pause f) at
        (views parts.now) progress.old progress.new result }
{
    let [number] = parts else {
        return Err(stop(here, Cause::OutsideProfile, at));
    };
    let kind = value(alloc, here, number, progress)?;
    here.finds(finds::integer(kind));
    integer_kind(place(here, number.at), kind)?;
    progress.step();
    Ok(Yield::Never)
}

/// A Return (19.6): no mutex is held there. V17 at the operator of one that is.
#[cycle(terms)]
pub(super) fn returned<A: Around>(
    alloc: Global,
    here: &A,
    at: usize,
    parts: &[Term],
    progress: &mut Progress,
) -> Result<Yield, Stop>
    ensures { (w : Bool) → Acts (A.numbered here.now) (A.around here.now) w does.Return at
        (views parts.now) progress.old progress.new result }
{
    let [given] = parts else {
        return Err(stop(here, Cause::OutsideProfile, at));
    };
    let kind = value(alloc, here, given, progress)?;
    none_held(here, at, progress)?;
    returns(here, kind, progress);
    Ok(Yield::Never)
}
