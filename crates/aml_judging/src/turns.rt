// What stands round a loop, and under a test.

ghost use Rattle.std.specs.Prelude.{◌≡◌, ℕ, IfOk, List, Ok, Option};
ghost use Rattle.std.specs.Option.{option_map};
ghost use Rattle.aml_kinds.specs.Kinds.{Shape};
ghost use Rattle.aml_operators.specs.Tree.{more, none, view, views};
ghost use Rattle.aml_meaning.specs.declared.action.Action.TheVariants as does;
ghost use Rattle.aml_meaning.specs.declared.action.Comparison.TheVariants as comparison;
ghost use Rattle.aml_objects.specs.Widths.{bits_of};
ghost use Rattle.aml_meaning.specs.declared.mutex.TakenMutex.{TakenMutex};
ghost use Rattle.aml_judged.specs.Judge.{begun, comes_back, exit_holds, exit_within, holds_back, narrowed, narrowed_act, narrowed_by};
ghost use Rattle.aml_known.specs.Views.{AreApart, Says, env_of, exits_of};
ghost use Rattle.aml_judging.specs.Turns.{IsPast};

use crate::progress::Progress;
use aml_bounds::number_of;
use aml_findings::Around;
use aml_known::{Env, Exits, Locks, lower, widen};
use aml_meaning::{Action, Comparison, action_of};
use aml_namespace::Width;
use aml_operators::Term;
use aml_paths::NoMemory;
use aml_targets::targets_in;

/// A loop's body, judged apart from what is known where the loop stands.
#[derive(Clone, Copy, Debug)]
pub struct Turn {
    pub end: Env,
    pub exits: Exits,
    pub cost: u64,
}

/// What is known where a loop begins, each time: integers that are targets in its body may be any.
pub fn begun<A: Around>(here: &A, body: &[Term], mut env: Env) -> Env
    ensures { (lists : ℕ → List TakenMutex) → env_of (A.numbered here.now) lists result
        ≡ begun (A.around here.now) (views body.now) (env_of (A.numbered here.now) lists env) }
{
    let targets = targets_in(body);
    widen(&mut env.locals, &targets.locals, here.width());
    widen(&mut env.args, &targets.args, here.width());
    env.looped = true;
    env
}

/// What is known where a local or an argument was below a literal that is not zero.
fn narrowed_by(action: Action, limit: Option<u64>, mut env: Env) -> Env
    ensures { (around : _) (shapes : ℕ → Shape) (lists : ℕ → List TakenMutex) →
        env_of shapes lists result ≡ narrowed_by around action limit (env_of shapes lists env) }
{
    let Some(limit) = limit else {
        return env;
    };
    if limit == 0 {
        return env;
    }
    match action {
        Action::Local(number) => lower(&mut env.locals, number, limit - 1),
        Action::Argument(number) => lower(&mut env.args, number, limit - 1),
        _ => {}
    }
    env
}

/// What is known where the first of two terms was below the second.
#[tactic(auto, using(aml_operators::proofs::Views::view_out))]
fn narrowed_below<A: Around>(here: &A, what: &Term, limit: &Term, env: Env) -> Env
    ensures { (lists : ℕ → List TakenMutex) → env_of (A.numbered here.now) lists result
        ≡ narrowed_act (A.around here.now) (does.Compare comparison.LLess)
        (more (view what.now) (more (view limit.now) none))
        (env_of (A.numbered here.now) lists env) }
{
    if what.parts.is_empty() {
        narrowed_by(action_of(what.op), number_of(limit, here.width()), env)
    } else {
        env
    }
}

/// What is known where terms are two, and the first was below the second.
fn narrowed_less<A: Around>(here: &A, parts: &[Term], env: Env) -> Env
    ensures { (lists : ℕ → List TakenMutex) → env_of (A.numbered here.now) lists result
        ≡ narrowed_act (A.around here.now) (does.Compare comparison.LLess) (views parts.now)
        (env_of (A.numbered here.now) lists env) }
{
    match parts {
        [what, limit] => narrowed_below(here, what, limit, env),
        _ => env,
    }
}

/// What is known where a comparison of terms held.
fn narrowed_compared<A: Around>(here: &A, comparison: Comparison, parts: &[Term], env: Env) -> Env
    ensures { (lists : ℕ → List TakenMutex) → env_of (A.numbered here.now) lists result
        ≡ narrowed_act (A.around here.now) (does.Compare comparison) (views parts.now)
        (env_of (A.numbered here.now) lists env) }
{
    match comparison {
        Comparison::LLess => narrowed_less(here, parts, env),
        _ => env,
    }
}

/// What is known where a test held.
#[tactic(auto, using(aml_operators::proofs::Views::view_out))]
pub fn narrowed<A: Around>(here: &A, test: &Term, env: Env) -> Env
    ensures { (lists : ℕ → List TakenMutex) → env_of (A.numbered here.now) lists result
        ≡ narrowed (A.around here.now) (view test.now) (env_of (A.numbered here.now) lists env) }
{
    match action_of(test.op) {
        Action::Compare(comparison) => narrowed_compared(here, comparison, &test.parts, env),
        _ => env,
    }
}

/// Whether an exit, if there is one, is within what a loop began with.
fn is_exit_within(exit: &Option<Env>, start: &Env) -> bool
    ensures { (around : _) (shapes : ℕ → Shape) (lists : ℕ → List TakenMutex) → AreApart shapes →
        result ≡ exit_within around (option_map (env_of shapes lists) exit.now)
        (env_of shapes lists start.now) }
{
    match exit {
        Some(env) => env.is_end_within(start),
        None => true,
    }
}

/// Whether the end of a loop's body and its Continues are within what it began with.
pub fn comes_back(end: &Env, continued: &Option<Env>, start: &Env) -> bool
    ensures { (around : _) (shapes : ℕ → Shape) (lists : ℕ → List TakenMutex) → AreApart shapes →
        result ≡ comes_back around (env_of shapes lists end.now)
        (option_map (env_of shapes lists) continued.now) (env_of shapes lists start.now) }
{
    end.is_end_within(start) && is_exit_within(continued, start)
}

/// Whether an exit, if there is one, holds what is held at another place.
pub fn exit_holds(exit: &Option<Env>, other: &Env, locks: &Locks) -> Result<bool, NoMemory>
    ensures { (around : _) (shapes : ℕ → Shape) (lists : ℕ → List TakenMutex) →
        Says lists locks.now.takings.items → IfOk result (λ same. same
        ≡ exit_holds around (option_map (env_of shapes lists) exit.now)
        (env_of shapes lists other.now)) }
{
    match exit {
        Some(env) => env.holds_as(other, locks),
        None => Ok(true),
    }
}

/// Whether what goes back to the test holds what the loop began with, and what breaks what is held
/// behind the test.
pub fn holds_back(
    end: &Env,
    exits: &Exits,
    start: &Env,
    tested: &Env,
    locks: &Locks,
) -> Result<bool, NoMemory>
    ensures { (around : _) (shapes : ℕ → Shape) (lists : ℕ → List TakenMutex) →
        Says lists locks.now.takings.items → IfOk result (λ same. same
        ≡ holds_back around (env_of shapes lists end.now) (exits_of shapes lists exits.now)
        (env_of shapes lists start.now) (env_of shapes lists tested.now)) }
{
    Ok(
        end.holds_as(start, locks)?
            && exit_holds(&exits.continued, start, locks)?
            && exit_holds(&exits.broke, tested, locks)?,
    )
}

/// What stands behind a loop: what stood behind its failed test and at its Breaks, the exits of its
/// body that leave the method, and its cost.
pub fn past(
    outer: bool,
    tested: Env,
    exits: &Exits,
    cost: u64,
    progress: &mut Progress,
) -> Result<(), NoMemory>
    ensures { (around : _) (shapes : ℕ → Shape) → IsPast around shapes outer tested exits.now cost
        progress.old progress.new result }
{
    let mut env = tested;
    if let Some(broke) = exits.broke {
        env = env.join(broke, &progress.locks)?;
    }
    env.looped = outer;
    progress.env = env;
    if let Some(kind) = exits.returned {
        progress.exits.returns(kind);
    }
    progress.exits.takes(exits.least);
    progress.pay(cost);
    Ok(())
}
