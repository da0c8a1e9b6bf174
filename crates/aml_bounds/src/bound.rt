// How many steps a body takes at most.

ghost use Rattle.std.specs.Prelude.{◌≡◌, ◌+◌, ◌*◌, max};
ghost use Rattle.aml_operators.specs.Tree.{view, views};
ghost use Rattle.aml_meaning.specs.declared.action.Action.TheVariants as does;
ghost use Rattle.aml_meaning.specs.Actions.{action};
ghost use Rattle.aml_meaning.specs.Meaning.{is_else};
ghost use Rattle.aml_bounds.specs.declared.role.Role.TheVariants as roles;
ghost use Rattle.aml_bounds.specs.declared.turn_count.TurnCount.TheVariants.{AtMost};
ghost use Rattle.aml_bounds.specs.Steps.{bounded, extra_steps, first_steps, held, index_steps, place_of_first, role, roles_of, steps_as, steps_by, steps_from, steps_of, steps_of_all, steps_of_block, steps_of_else, target_steps, turned};

use crate::costs::Costs;
use crate::role::{Role, Roles, role_in};
use crate::turn_count::TurnCount;
use aml_meaning::{Action, action_of};
use aml_operators::{Op, Term};

/// As many steps no method may take. Sums are held here, since they only grow.
const LIMIT: u64 = 0x8000_0000_0000_0000;

/// So many steps, held at the limit.
fn hold(steps: u64) -> u64
    ensures { result ≡ held steps }
{
    steps.min(LIMIT)
}

/// Both together.
fn sum(a: u64, b: u64) -> u64
    ensures { result ≡ held (a + b) }
{
    hold(a.saturating_add(b))
}

/// So many times as many.
fn times(count: u64, steps: u64) -> u64
    ensures { result ≡ held (count * steps) }
{
    hold(count.saturating_mul(steps))
}

/// The steps of a loop that turns so often, with a test behind the last turn.
fn turned_steps(turns: u64, test: u64, body: u64) -> u64
    ensures { result ≡ held (turned (AtMost turns) test body) }
{
    let turn = sum(test, body);
    let turning = times(turns, turn);
    sum(test, turning)
}

/// The steps of a loop by those of its test and its body.
fn loop_steps(count: TurnCount, test: u64, body: u64) -> u64
    ensures { result ≡ held (turned count test body) }
{
    match count {
        TurnCount::Once => sum(test, body),
        TurnCount::AtMost(turns) => turned_steps(turns, test, body),
    }
}

/// What a term takes first.
fn first_steps(op: Op) -> u64
    ensures { result ≡ first_steps op }
{
    match op {
        Op::Name => 2,
        _ => 1,
    }
}

/// The place of the first of some parts.
#[tactic(auto, using(aml_operators::proofs::Views::view_out))]
fn place_of_first(parts: &[Term]) -> usize
    ensures { result ≡ place_of_first (views parts.now) }
{
    match parts {
        [first, ..] => first.at,
        [] => 0,
    }
}

/// What a term takes beside its first step and its parts.
fn extra_steps<C: Costs>(costs: &C, action: Action, at: usize, parts: &[Term]) -> u64
    ensures { result ≡ held (extra_steps (C.knows costs.now) action at (views parts.now)) }
{
    match action {
        Action::Name => hold(costs.named(at)),
        Action::Invoke => hold(costs.named(place_of_first(parts))),
        Action::Notify => 1,
        Action::Pause(_) => 1,
        _ => 0,
    }
}

/// What a target takes beside its parts.
fn target_steps<C: Costs>(costs: &C, action: Action, at: usize) -> u64
    ensures { result ≡ held (target_steps (C.knows costs.now) action at) }
{
    match action {
        Action::Local(_) => 1,
        Action::Argument(_) => 1,
        Action::Debug => 1,
        Action::Name => sum(1, costs.stored(at)),
        Action::Index => 1,
        _ => 0,
    }
}

/// What an Index takes that is read.
fn index_steps(action: Action) -> u64
    ensures { result ≡ index_steps action }
{
    match action {
        Action::Index => 1,
        _ => 0,
    }
}

/// Whether the other block of an If begins here.
fn is_else(op: Op) -> bool
    ensures { result ≡ is_else op }
{
    match op {
        Op::Else => true,
        _ => false,
    }
}

/// The steps of a part in its role.
#[cycle(steps)]
#[tactic(auto, using(aml_operators::proofs::Views::view_out))]
fn part_steps<C: Costs>(costs: &C, role: Role, term: &Term) -> u64
    ensures { result ≡ held (steps_as (C.knows costs.now) role (view term.now)) }
{
    match role {
        Role::Skipped => 0,
        Role::Operand => operand_steps(costs, term),
        Role::Target => written_steps(costs, term),
        Role::Changed => sum(operand_steps(costs, term), written_steps(costs, term)),
        Role::Indexed => read_steps(costs, term),
    }
}

/// Those of an operand or a statement.
#[cycle(steps)]
#[tactic(auto, using(aml_operators::proofs::Views::view_out))]
fn operand_steps<C: Costs>(costs: &C, term: &Term) -> u64
    ensures { result ≡ held (steps_as (C.knows costs.now) roles.Operand (view term.now)) }
{
    let parts = term.parts.as_slice();
    let behind = steps_by(costs, action_of(term.op), term.at, parts);
    sum(first_steps(term.op), behind)
}

/// Those of a target.
#[cycle(steps)]
#[tactic(auto, using(aml_operators::proofs::Views::view_out))]
fn written_steps<C: Costs>(costs: &C, term: &Term) -> u64
    ensures { result ≡ held (steps_as (C.knows costs.now) roles.Target (view term.now)) }
{
    let parts = term.parts.as_slice();
    let action = action_of(term.op);
    let behind = parts_steps(costs, Roles::Written(action), parts);
    sum(target_steps(costs, action, term.at), behind)
}

/// Those of what a DerefOf reads.
#[cycle(steps)]
#[tactic(auto, using(aml_operators::proofs::Views::view_out))]
fn read_steps<C: Costs>(costs: &C, term: &Term) -> u64
    ensures { result ≡ held (steps_as (C.knows costs.now) roles.Indexed (view term.now)) }
{
    let parts = term.parts.as_slice();
    let action = action_of(term.op);
    let behind = parts_steps(costs, Roles::Read(action), parts);
    sum(index_steps(action), behind)
}

/// Those of a term behind its first.
#[cycle(steps)]
fn steps_by<C: Costs>(costs: &C, action: Action, at: usize, parts: &[Term]) -> u64
    ensures { result ≡ held (steps_by (C.knows costs.now) action at (views parts.now)) }
{
    match action {
        Action::If => branch_steps(costs, parts),
        Action::While => turn_steps(costs, at, parts),
        _ => plain_steps(costs, action, at, parts),
    }
}

/// Those of any other operator behind its first.
#[cycle(steps)]
fn plain_steps<C: Costs>(costs: &C, action: Action, at: usize, parts: &[Term]) -> u64
    ensures { result ≡ held (extra_steps (C.knows costs.now) action at (views parts.now)
        + steps_from (C.knows costs.now) (role action) 0 (views parts.now)) }
{
    let behind = parts_steps(costs, Roles::Evaluated(action), parts);
    sum(extra_steps(costs, action, at, parts), behind)
}

/// Those of a While's test and body.
#[cycle(steps)]
fn turn_steps<C: Costs>(costs: &C, at: usize, parts: &[Term]) -> u64
    ensures { result ≡ held (steps_by (C.knows costs.now) does.While at (views parts.now)) }
{
    match parts {
        [test, body @ ..] => {
            let asked = operand_steps(costs, test);
            let turned = parts_steps(costs, Roles::All, body);
            loop_steps(costs.turns(at), asked, turned)
        }
        [] => 0,
    }
}

/// Those of an If's test, and of its blocks.
#[cycle(steps)]
fn branch_steps<C: Costs>(costs: &C, parts: &[Term]) -> u64
    ensures { (at : _) → result ≡ held (steps_by (C.knows costs.now) does.If at (views parts.now)) }
{
    match parts {
        [test, body @ ..] => {
            let asked = operand_steps(costs, test);
            let own = block_steps(costs, body);
            let others = else_steps(costs, body);
            sum(asked, own.max(others))
        }
        [] => 0,
    }
}

/// Those of parts in their roles.
#[cycle(steps)]
fn parts_steps<C: Costs>(costs: &C, roles: Roles, parts: &[Term]) -> u64
    ensures { result ≡ held (steps_from (C.knows costs.now) (roles_of roles) 0 (views parts.now)) }
{
    let mut total = 0u64;
    'parts: for i in 0..parts.len() {
        let part = part_steps(costs, role_in(roles, i), &parts[i]);
        total = sum(total, part);
    }
    total
}

/// Those of an If's own block.
#[cycle(steps)]
fn block_steps<C: Costs>(costs: &C, statements: &[Term]) -> u64
    ensures { result ≡ held (steps_of_block (C.knows costs.now) (views statements.now)) }
{
    let mut total = 0u64;
    'statements: for statement in statements {
        if is_else(statement.op) {
            return total;
        }
        let steps = operand_steps(costs, statement);
        total = sum(total, steps);
    }
    total
}

/// Those of an If's Else.
#[cycle(steps)]
fn else_steps<C: Costs>(costs: &C, statements: &[Term]) -> u64
    ensures { result ≡ held (steps_of_else (C.knows costs.now) (views statements.now)) }
{
    'statements: for statement in statements {
        if is_else(statement.op) {
            return parts_steps(costs, Roles::All, statement.parts.as_slice());
        }
    }
    0
}

/// So many steps, where a method may take them.
fn within_limit(steps: u64) -> Option<u64>
    ensures { (n : _) → steps ≡ held n → result ≡ bounded n }
{
    if steps < LIMIT { Some(steps) } else { None }
}

/// How many steps a term takes at most, by how often its loops turn and what its names cost. None
/// from 2 to the power 63 on, which no method may take.
pub fn steps<C: Costs>(term: &Term, costs: &C) -> Option<u64>
    ensures { result ≡ bounded (steps_of (C.knows costs.now) (view term.now)) }
{
    within_limit(operand_steps(costs, term))
}

/// The same of statements one by one, as those of a method's body.
pub fn body_steps<C: Costs>(body: &[Term], costs: &C) -> Option<u64>
    ensures { result ≡ bounded (steps_of_all (C.knows costs.now) (views body.now)) }
{
    within_limit(parts_steps(costs, Roles::All, body))
}
