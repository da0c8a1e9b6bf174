// An accepted method's evaluation.

ghost use Rattle.std.specs.Prelude.{◌≡◌, IfOk, OnErr, map, true};
ghost use Rattle.std.specs.Option.{option_map};
ghost use Rattle.aml_contents.specs.Belongs.{Belong};
ghost use Rattle.aml_contents.specs.Held.{content_kinds};
ghost use Rattle.aml_interp.specs.Answers.{IsCutShort, IsDone, IsReady, WereChecked, bound_of, value_answered};
ghost use Rattle.aml_interp.specs.Headline.{IsRefused};
ghost use Rattle.aml_machine.specs.Views.{names_of};
ghost use Rattle.aml_namespace.specs.Shows.{shown};
ghost use Rattle.aml_values.specs.Views.{view};
ghost use Rattle.aml_verify.specs.Accepts.{takes};
ghost use Rattle.aml_verify.specs.Said.{verdict_at};

use aml_contents::Names;
use aml_direct::evaluate_direct;
use aml_meaning::Outcome;
use aml_paths::{NoMemory, ObjectId};
use aml_regions::World;
use aml_values::Value;
use aml_verify::{Checked, Verdict};
use std::alloc::Global;

/// Evaluates a method that the verifier accepted, straight from the bytes of its table, with
/// arguments that it takes, over names of the namespace and a world: with as many steps as its
/// verdict says.
///
/// Its value or none is the definition's, and so are what names hold afterwards and the events that
/// the world gained, unless the definition broke a rule of mutexes (A10 to A12). No AML error has
/// an answer here, nor has want of steps: none is met, of mutexes or other, where values are what
/// values of their kinds may be, as `accepted_methods_are_done` says. So which mutexes are held is
/// not asked, and no list of them is kept.
///
/// # Errors
///
/// `NoMemory`, where memory is wanted: names and events are then those of the definition with some
/// of those steps, and the names may be used again. In a method that evaluates integers alone it
/// comes only where the world refused a call, or its count of refusals stands at its last value.
pub fn evaluate<W: World>(
    alloc: Global,
    checked: &Checked<'_>,
    names: &mut Names,
    method: ObjectId,
    arguments: Vec<Value>,
    world: &mut W,
) -> Result<Option<Value>, NoMemory>
    requires checked { WereChecked checked.now }
    requires accepted { takes (verdict_at checked.now.verdicts.items method.0)
        (map view arguments.items) ≡ true }
    requires names { Belong (shown checked.now.namespace.now) (content_kinds names.old) }
    ensures done { IfOk result (λ value. IsDone checked.now method.0 (map view arguments.items)
        (names_of names.old) (W.log world.old) value (names_of names.new) (W.log world.new)) }
    ensures memory { OnErr result (IsCutShort checked.now method.0 (map view arguments.items)
        (names_of names.old) (W.log world.old) (names_of names.new) (W.log world.new)) }
    ensures refused { OnErr result (IsRefused checked.now method.0 (map view arguments.items)
        (names_of names.old) (W.log world.old) (W.log world.new)) }
    ensures names { Belong (shown checked.now.namespace.now) (content_kinds names.new) }
{
    evaluate_ready(alloc, checked, names, method, arguments, world)
}

/// The same, by what it needs of the verdicts.
pub(crate) fn evaluate_ready<W: World>(
    alloc: Global,
    checked: &Checked<'_>,
    names: &mut Names,
    method: ObjectId,
    arguments: Vec<Value>,
    world: &mut W,
) -> Result<Option<Value>, NoMemory>
    requires ready { IsReady checked.now }
    requires accepted { takes (verdict_at checked.now.verdicts.items method.0)
        (map view arguments.items) ≡ true }
    requires names { Belong (shown checked.now.namespace.now) (content_kinds names.old) }
    ensures done { IfOk result (λ value. IsDone checked.now method.0 (map view arguments.items)
        (names_of names.old) (W.log world.old) value (names_of names.new) (W.log world.new)) }
    ensures memory { OnErr result (IsCutShort checked.now method.0 (map view arguments.items)
        (names_of names.old) (W.log world.old) (names_of names.new) (W.log world.new)) }
    ensures refused { OnErr result (IsRefused checked.now method.0 (map view arguments.items)
        (names_of names.old) (W.log world.old) (W.log world.new)) }
    ensures names { Belong (shown checked.now.namespace.now) (content_kinds names.new) }
{
    let Some(steps) = bound_of(checked.verdict(method)) else {
        unreachable!()
    };
    let (namespace, kept) = (checked.namespace(), checked.kept_bodies());
    let answer = evaluate_direct(
        alloc, namespace, kept, names, method, arguments, world, steps,
    );
    value_of(answer)
}

/// As many steps as a method takes at most, where it is accepted.
fn bound_of(verdict: Option<&Verdict>) -> Option<u64>
    ensures { result ≡ bound_of (option_map (λ v. v.now) verdict.entry) }
{
    match verdict {
        Some(Verdict::Accepted(accepted)) => Some(accepted.bound),
        _ => None,
    }
}

/// The value of an evaluation that is done. It does not end otherwise, but for want of memory.
fn value_of(answer: Result<Outcome, NoMemory>) -> Result<Option<Value>, NoMemory>
    ensures { result ≡ value_answered answer }
{
    match answer {
        Ok(Outcome::Done(value)) => Ok(value),
        Ok(Outcome::AmlError(_) | Outcome::OutOfSteps) | Err(NoMemory) => Err(NoMemory),
    }
}
