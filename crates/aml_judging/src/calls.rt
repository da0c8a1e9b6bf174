// Calls of methods, behind their arguments.

ghost use Rattle.std.specs.Prelude.{◌≡◌, Option};
ghost use Rattle.aml_operators.specs.Tree.{views};
ghost use Rattle.aml_judged.specs.Judge.{are_within, judged_call, judged_interface, judged_levels, not_reaching, with_result};
ghost use Rattle.aml_known.specs.Views.{AreApart, accepted_of, kinds_of, yield_of};
ghost use Rattle.std.specs.Option.{option_map};
ghost use Rattle.aml_judging.specs.Follows.{Costs, Gives, Judges};
ghost use Rattle.aml_findings.specs.Views.{seen_of};
ghost use Rattle.aml_judging.specs.Views.{read_of};

use crate::names::{Read, place, refusal, refusal_for};
use crate::progress::Progress;
use aml_causes::{Cause, Refusal};
use aml_findings::{Around, Finding, Seen, Wanted, finds};
use aml_kind_rules::interface_kind;
use aml_known::{Accepted, Held, Known, Stop, Yield};
use aml_operators::Term;

/// The method that is called does not reach the caller. V5 at the name of one that does.
pub fn not_reaching<A: Around>(here: &A, at: usize, reaches: bool) -> Result<(), Refusal>
    ensures { Gives (λ u. u) (not_reaching (A.around here.now) at reaches) result }
{
    if reaches {
        return Err(refusal(here, Cause::Cycle, at));
    }
    Ok(())
}

/// Where a value is wanted of a call, an accepted method gives one always. V10 at the name of one
/// that need not.
fn with_result<A: Around>(
    here: &A,
    wanted: bool,
    at: usize,
    method: Option<&Accepted>,
) -> Result<(), Refusal>
    ensures { Gives (λ u. u) (with_result (A.around here.now) wanted at
        (option_map (λ a. accepted_of (A.numbered here.now) a.now) method.entry)) result }
{
    match method {
        Some(method) if wanted && !matches!(method.result, Yield::Always(_)) => {
            let finding = Finding::Given(method.result);
            Err(refusal_for(here, Cause::NoResult, at, finding))
        }
        _ => Ok(()),
    }
}

/// The arguments of a call are within the kinds that its method takes. V3 at the first that is not;
/// V2 at the table's beginning where they are not as many, which does not come.
fn are_within<A: Around>(
    here: &A,
    given: &[Known],
    taken: &[Known],
    arguments: &[Term],
) -> Result<(), Refusal>
    ensures { AreApart (A.numbered here.now) → Gives (λ u. u) (are_within (A.around here.now)
        (kinds_of (A.numbered here.now) given.now) (kinds_of (A.numbered here.now) taken.now)
        (views arguments.now)) result }
{
    match (given, taken, arguments) {
        ([], [], []) => Ok(()),
        ([kind, given @ ..], [wanted, taken @ ..], [argument, arguments @ ..]) => {
            if kind.is_within(*wanted) {
                are_within(here, given, taken, arguments)
            } else {
                let finding = finds::other_kind(*kind, Wanted::Within(*wanted));
                Err(refusal_for(here, Cause::WrongKind, argument.at, finding))
            }
        }
        ([], [], [_, ..]) | ([], [_, ..], _) | ([_, ..], [], _) | ([_, ..], [_, ..], []) => {
            Err(refusal(here, Cause::OutsideProfile, 0))
        }
    }
}

/// The least level that a method takes is at least each that its caller holds. V15 at the name of
/// one that takes a lower one, V18 where ways hold different mutexes.
fn levels<A: Around>(
    here: &A,
    at: usize,
    least: Option<u8>,
    progress: &mut Progress,
) -> Result<(), Stop>
    ensures { Judges (A.numbered here.now) (λ lists u. u)
        (judged_levels (A.around here.now) at least) progress.old progress.new result }
{
    let held = progress.env.held;
    if let Held::Different = held {
        return Err(Stop::Refused(refusal(here, Cause::HeldDiffers, at)));
    }
    if progress.locks.takes_level(least, held)? {
        Ok(())
    } else {
        let finding = finds::level(least, progress.locks.greatest(held).ok());
        Err(Stop::Refused(refusal_for(here, Cause::Level, at, finding)))
    }
}

/// A call behind its arguments, which are of these kinds. The causes in their order: V10, V12, V14,
/// V3 of an argument, V15.
pub fn called<A: Around>(
    here: &A,
    wanted: bool,
    at: usize,
    method: Seen<'_>,
    arguments: &[Term],
    kinds: &[Known],
    progress: &mut Progress,
) -> Result<Yield, Stop>
    ensures { Judges (A.numbered here.now) (λ lists y. yield_of (A.numbered here.now) y)
        (judged_call (A.around here.now) wanted at (seen_of (A.numbered here.now) method.entry)
        (views arguments.now) (kinds_of (A.numbered here.now) kinds.now))
        progress.old progress.new result }
{
    with_result(here, wanted, at, method.accepted)?;
    let Some(accepted) = method.accepted else {
        return Err(Stop::Refused(refusal(here, Cause::CalleeRefused, at)));
    };
    if method.deep {
        return Err(Stop::Refused(refusal(here, Cause::Depth, at)));
    }
    are_within(here, kinds, &accepted.args, arguments)?;
    levels(here, at, accepted.least, progress)?;
    progress.exits.takes(accepted.least);
    progress.pay(accepted.bound);
    Ok(accepted.result)
}

/// `_OSI` of its one argument (ACPI 6.5, 5.7.2). V3 at one that is no string.
pub fn interface<A: Around>(
    here: &A,
    at: usize,
    arguments: &[Term],
    kinds: &[Known],
) -> Result<Read, Refusal>
    ensures { Costs (read_of (A.numbered here.now)) (λ r. r.events)
        (judged_interface (A.around here.now) at (views arguments.now)
        (kinds_of (A.numbered here.now) kinds.now)) result }
{
    match (arguments, kinds) {
        ([argument], [kind]) => {
            here.finds(finds::other_kind(*kind, Wanted::Text));
            Ok(Read {
                kind: interface_kind(here.width(), place(here, argument.at), *kind)?,
                events: 0,
            })
        }
        ([] | [_, _, ..], _) | ([_], [] | [_, _, ..]) => {
            Err(refusal(here, Cause::OutsideProfile, at))
        }
    }
}
