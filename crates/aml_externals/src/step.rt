// What stands first in a list of definitions.

ghost use Rattle.std.specs.Prelude.{◌≡◌, ◌≤◌, ◌<◌, ◌-◌, length, drop};
ghost use Rattle.aml_externals.specs.Steps.{letters_step, operator_step, step_of};
ghost use Rattle.aml_tree.specs.OperatorAt.{op_there};
ghost use Rattle.aml_externals.specs.Lengths.{IsAhead};

use crate::dead_if::dead_end;
use crate::extent::{letters_end, list_at, package};
use aml_operators::{Class, Letter, row_of};
use aml_tree::op_at;

/// What the bytes of a list begin with, and how many bytes it has.
#[derive(Clone, Copy, Debug, PartialEq, Eq)]
pub(crate) enum Step {
    /// An If that is made a Scope.
    Dead(usize),
    /// A definition that holds a list from such a place on.
    Enter(usize, usize),
    /// Any other definition.
    Over(usize),
    /// What is no definition.
    Stop,
}

fn letters_step(letters: &[Letter], bytes: &[u8], at: usize, depth: u8) -> Step
    requires after { 0 < at }
    requires within { at ≤ length bytes.now }
    requires short { length letters.now ≤ 8 }
    ensures gives { result ≡ letters_step depth letters.now bytes.now at }
    ensures ahead { IsAhead (length bytes.now) result }
{
    match letters {
        [Letter::Package, rest @ ..] => match package(bytes, at) {
            None => Step::Stop,
            Some((stop, next)) => match list_at(rest, &bytes[..stop], next, depth) {
                None => Step::Over(stop),
                Some(from) => Step::Enter(from, stop),
            },
        },
        _ => match letters_end(letters, bytes, at, depth) {
            None => Step::Stop,
            Some(stop) => Step::Over(stop),
        },
    }
}

fn operator_step(bytes: &[u8], depth: u8) -> Step
    ensures gives { result ≡ operator_step depth bytes.now (op_there bytes.now 0) }
    ensures ahead { IsAhead (length bytes.now) result }
{
    match op_at(bytes, 0) {
        None => Step::Stop,
        Some((op, next)) => match row_of(op).class {
            Class::Definition => letters_step(row_of(op).letters, bytes, next, depth),
            _ => Step::Stop,
        },
    }
}

/// What the bytes of a list begin with. In a definition stand at most so many terms one in another.
#[tactic(auto, unfolding(crate::specs::Steps::step_of))]
fn step_of(bytes: &[u8], depth: u8) -> Step
    ensures gives { result ≡ step_of depth bytes.now }
    ensures ahead { IsAhead (length bytes.now) result }
{
    match dead_end(bytes) {
        Some(size) => Step::Dead(size),
        None => operator_step(bytes, depth),
    }
}

/// What stands at a place of a list.
#[tactic(auto, using(crate::proofs::Turns::part_is))]
pub(crate) fn step_at(list: &[u8], at: usize, depth: u8) -> Step
    requires { at ≤ length list.now }
    ensures gives { result ≡ step_of depth (drop at list.now) }
    ensures ahead { IsAhead (length list.now - at) result }
{
    step_of(&list[at..], depth)
}
