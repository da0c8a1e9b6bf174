// A method's body: its own names, its statements one by one, and what they make of it.

ghost use Rattle.std.specs.Prelude.{◌≡◌, ◌||◌, ℕ, OnOk, is_some};
ghost use Rattle.std.specs.Option.{option_map};
ghost use Rattle.aml_kinds.specs.Kinds.{Shape};
ghost use Rattle.aml_operators.specs.Tree.{view, views};
ghost use Rattle.aml_judged.specs.Bodies.{entry, judged_body, judged_method, judged_statement};
ghost use Rattle.aml_judged.specs.Causes as cause;
ghost use Rattle.aml_judged.specs.Verdicts.{result_of, verdict_of};
ghost use Rattle.aml_known.specs.Views.{AreApart, kind_of, kinds_of, yield_of};
ghost use Rattle.aml_judging.specs.Follows.{IsVerdict, Judges};
ghost use Rattle.aml_findings.specs.Views.{made_of};
ghost use Rattle.aml_walk.specs.Begins.{Begins};

use crate::terms::acts::statement;
use aml_causes::Cause;
use aml_findings::{Around, Made};
use aml_judging::definitions::made;
use aml_judging::mutexes::none_held;
use aml_judging::names::refusal;
use aml_judging::progress::{MOST_STEPS, Progress};
use aml_known::{Accepted, Env, Exits, Known, Locks, Stop, Yield};
use aml_meaning::{Definition, definition_of};
use aml_operators::Term;
use std::alloc::Global;

/// A statement at the top of a body, and what it makes.
#[tactic(auto, using(aml_operators::proofs::Views::view_out))]
fn top_statement<A: Around>(
    alloc: Global,
    here: &A,
    term: &Term,
    progress: &mut Progress,
) -> Result<Made, Stop>
    ensures { Judges (A.numbered here.now) (λ lists m. made_of (A.numbered here.now) m)
        (judged_statement (A.around here.now) (view term.now)) progress.old progress.new result }
{
    match definition_of(term.op) {
        Definition::Nothing => {
            statement(alloc, here, term, progress)?;
            Ok(Made::Nothing)
        }
        definition => {
            progress.step();
            made(here, definition, term.at, &term.parts, progress)
        }
    }
}

/// The statements at the top of a body, one by one.
fn statements<A: Around>(
    alloc: Global,
    here: &mut A,
    body: &[Term],
    progress: &mut Progress,
) -> Result<(), Stop>
    ensures judges { Judges (A.numbered here.old) (λ lists u. u)
        (judged_body (A.around here.old) (views body.now)) progress.old progress.new result }
    ensures table { OnOk result ((A.around here.new).table ≡ (A.around here.old).table) }
    ensures shapes { A.numbered here.new ≡ A.numbered here.old }
{
    for term in body {
        let made = top_statement(alloc, here, term, progress)?;
        here.make(made)?;
    }
    Ok(())
}

/// The statements of a method's body, and its end.
fn method<A: Around>(
    alloc: Global,
    here: &mut A,
    opcode: usize,
    body: &[Term],
    progress: &mut Progress,
) -> Result<(), Stop>
    ensures judges { Judges (A.numbered here.old) (λ lists u. u)
        (judged_method (A.around here.old) opcode (views body.now))
        progress.old progress.new result }
    ensures table { OnOk result ((A.around here.new).table ≡ (A.around here.old).table) }
    ensures shapes { A.numbered here.new ≡ A.numbered here.old }
{
    statements(alloc, here, body, progress)?;
    none_held(here, opcode, progress)
}

/// Where a method begins, whose arguments are of these kinds.
fn beginning(alloc: Global, args: &[Known]) -> Progress
    ensures { (shapes : ℕ → Shape) → Begins shapes args.now result }
{
    Progress {
        env: Env::new(args),
        exits: Exits::new(),
        cost: 0,
        locks: Locks::new(alloc),
    }
}

/// Whether a body is left by a Break or a Continue.
fn is_left(exits: &Exits) -> bool
    ensures { result ≡ (is_some exits.now.broke || is_some exits.now.continued) }
{
    exits.broke.is_some() || exits.continued.is_some()
}

/// What a method gives, by whether its end is reached and by its Returns.
fn result_of(counts: bool, returned: Option<Known>) -> Yield
    ensures { (shapes : ℕ → Shape) → yield_of shapes result
        ≡ result_of counts (option_map (kind_of shapes) returned) }
{
    match returned {
        None => Yield::Never,
        Some(kind) if counts => Yield::Sometimes(kind),
        Some(kind) => Yield::Always(kind),
    }
}

/// Judges a method's body, whose arguments are of these kinds: what it is, where it is accepted, or
/// the first cause with its place. Whether each chain of calls from it is short, of at most 64
/// methods, and where its opcode stands is told. V11, at the opcode, comes last.
pub fn judge<A: Around>(
    alloc: Global,
    here: &mut A,
    short: bool,
    opcode: usize,
    args: Vec<Known>,
    body: &[Term],
) -> Result<Accepted, Stop>
    ensures { AreApart (A.numbered here.old) → IsVerdict (A.numbered here.old) (verdict_of short
        (record { table = (A.around here.old).table; at = opcode; why = cause.BoundTooLarge })
        (kinds_of (A.numbered here.old) args.items)
        (judged_method (A.around here.old) opcode (views body.now)
        (entry (kinds_of (A.numbered here.old) args.items)))) result }
{
    let mut progress = beginning(alloc, &args);
    method(alloc, here, opcode, body, &mut progress)?;
    let exits = progress.exits;
    if !short || is_left(&exits) || progress.cost >= MOST_STEPS {
        return Err(Stop::Refused(refusal(here, Cause::BoundTooLarge, opcode)));
    }
    Ok(Accepted {
        args,
        result: result_of(progress.env.counts, exits.returned),
        bound: progress.cost,
        least: exits.least,
    })
}
