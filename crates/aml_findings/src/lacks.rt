// What loops lack that have no shape: for people alone.

ghost use Rattle.std.specs.Prelude.{◌≡◌};
ghost use Rattle.aml_operators.specs.Tree.{view, views};
ghost use Rattle.aml_objects.specs.Widths.{bits_of};
ghost use Rattle.aml_targets.specs.Marks.{is_marked};
ghost use Rattle.aml_findings.specs.Lacks as spec;
ghost use Rattle.aml_findings.specs.Lacks.{FindsLack};

use crate::around::Around;
use crate::finding::{Change, Finding, LoopLack};
use aml_bounds::number_of;
use aml_meaning::{Action, Comparison, action_of};
use aml_namespace::Width;
use aml_operators::Term;
use aml_targets::{Targets, targets_in};

/// What a loop that has no shape lacks, by its test and by which locals its body stores into.
pub fn shapeless<A: Around>(here: &A, test: &Term, body: &[Term]) -> Finding
    ensures { FindsLack (A.around here.now) (view test.now) (views body.now) result }
{
    Finding::Lack(tested(test, &targets_in(body), here.width()))
}

/// What a loop lacks by its test.
#[tactic(auto, using(aml_operators::proofs::Views::view_out))]
fn tested(test: &Term, targets: &Targets, width: Width) -> LoopLack
    ensures { result ≡
        spec.tested_lack (bits_of width) (is_marked targets.now.locals) (view test.now) }
{
    match action_of(test.op) {
        Action::Compare(Comparison::LLess) => {
            compared(Change::OneMore, &test.parts, targets, width)
        }
        Action::Compare(Comparison::LGreater) => {
            compared(Change::OneLess, &test.parts, targets, width)
        }
        Action::Local(local) => alone(local, &test.parts, targets),
        _ => LoopLack::Test,
    }
}

/// What a loop lacks whose test is a local.
fn alone(local: u8, parts: &[Term], targets: &Targets) -> LoopLack
    ensures { result ≡ spec.alone_lack (is_marked targets.now.locals) local (views parts.now) }
{
    match parts {
        [] => changed(Change::OneLess, local, targets),
        [_, ..] => LoopLack::Test,
    }
}

/// What a loop lacks by both parts of its comparison.
fn compared(wanted: Change, parts: &[Term], targets: &Targets, width: Width) -> LoopLack
    ensures { result ≡ spec.compared_lack (bits_of width) (is_marked targets.now.locals) wanted
        (views parts.now) }
{
    match parts {
        [what, limit] => against(wanted, what, limit, targets, width),
        [] | [_] | [_, _, _, ..] => LoopLack::Test,
    }
}

/// What a loop lacks that compares a term with a limit.
#[tactic(auto, using(aml_operators::proofs::Views::view_out))]
fn against(wanted: Change, what: &Term, limit: &Term, targets: &Targets, width: Width) -> LoopLack
    ensures { result ≡ spec.against_lack (bits_of width) (is_marked targets.now.locals) wanted
        (view what.now) (view limit.now) }
{
    match action_of(what.op) {
        Action::Local(local) => {
            limited(wanted, local, &what.parts, number_of(limit, width), targets)
        }
        _ => LoopLack::Test,
    }
}

/// What a loop lacks that compares a local, with nothing behind it, with a limit, if that is a
/// literal.
fn limited(
    wanted: Change,
    local: u8,
    parts: &[Term],
    limit: Option<u64>,
    targets: &Targets,
) -> LoopLack
    ensures { result ≡ spec.limited_lack (is_marked targets.now.locals) wanted local
        (views parts.now) limit }
{
    match (parts, limit) {
        ([], Some(_)) => changed(wanted, local, targets),
        ([], None) => LoopLack::Limit { local },
        ([_, ..], _) => LoopLack::Test,
    }
}

/// What a loop lacks whose body does not change a local as is wanted.
fn changed(wanted: Change, local: u8, targets: &Targets) -> LoopLack
    ensures { result ≡ spec.changed_lack (is_marked targets.now.locals) wanted local }
{
    if is_stored(targets, local) {
        LoopLack::Otherwise { local, wanted }
    } else {
        LoopLack::Unchanged { local, wanted }
    }
}

/// Whether a local is stored into.
fn is_stored(targets: &Targets, local: u8) -> bool
    ensures { result ≡ is_marked targets.now.locals local }
{
    match targets.locals.get(usize::from(local)) {
        Some(mark) => *mark,
        None => false,
    }
}
