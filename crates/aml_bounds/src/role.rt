// What an operator does with its parts, as far as steps go.

ghost use Rattle.std.specs.Prelude.{◌≡◌};
ghost use Rattle.aml_bounds.specs.Steps.{name_first, operands_first, read_role, role, roles_of, written_role};

use aml_meaning::Action;

/// What an operator does with a part.
#[derive(Clone, Copy, Debug, PartialEq, Eq)]
pub enum Role {
    /// It is not evaluated.
    Skipped,
    /// Its value is wanted, or it is a statement.
    Operand,
    /// A value is stored into it.
    Target,
    /// Both: Increment and Decrement.
    Changed,
    /// What an Index leads to is read: DerefOf.
    Indexed,
}

/// So many operands, and then targets.
fn operands_first(count: usize, i: usize) -> Role
    ensures { result ≡ operands_first count i }
{
    if i < count {
        Role::Operand
    } else {
        Role::Target
    }
}

/// A name that is not evaluated, and then operands.
fn name_first(i: usize) -> Role
    ensures { result ≡ name_first i }
{
    if i == 0 { Role::Skipped } else { Role::Operand }
}

/// What an operator does with its part of a number, from 0.
fn evaluated_role(action: Action, i: usize) -> Role
    ensures { result ≡ role action i }
{
    match action {
        Action::Binary(_) => operands_first(2, i),
        Action::Compare(_) => operands_first(2, i),
        Action::Divide => operands_first(2, i),
        Action::Concatenate => operands_first(2, i),
        Action::Unary(_) => operands_first(1, i),
        Action::Convert(_) => operands_first(1, i),
        Action::LNot => operands_first(1, i),
        Action::Store => operands_first(1, i),
        Action::Return => operands_first(1, i),
        Action::Pause(_) => operands_first(1, i),
        Action::ByOne(_) => Role::Changed,
        Action::Dereference => Role::Indexed,
        Action::Invoke => name_first(i),
        Action::Notify => name_first(i),
        _ => Role::Skipped,
    }
}

/// What a DerefOf does with a part of the Index that it reads.
fn read_role(action: Action, i: usize) -> Role
    ensures { result ≡ read_role action i }
{
    match action {
        Action::Index => operands_first(2, i),
        _ => Role::Skipped,
    }
}

/// What a store does with a part of the Index that it writes.
fn written_role(action: Action, i: usize) -> Role
    ensures { result ≡ written_role action i }
{
    match action {
        Action::Index => { if i == 1 { Role::Operand } else { Role::Skipped } }
        _ => Role::Skipped,
    }
}

/// Whose parts some terms are.
#[derive(Clone, Copy, Debug, PartialEq, Eq)]
pub enum Roles {
    /// Statements, or arguments.
    All,
    /// An evaluated operator's.
    Evaluated(Action),
    /// Those of what a DerefOf reads.
    Read(Action),
    /// Those of what is written.
    Written(Action),
}

/// What is done with the part of a number, from 0.
pub fn role_in(roles: Roles, i: usize) -> Role
    ensures { result ≡ roles_of roles i }
{
    match roles {
        Roles::All => Role::Operand,
        Roles::Evaluated(action) => evaluated_role(action, i),
        Roles::Read(action) => read_role(action, i),
        Roles::Written(action) => written_role(action, i),
    }
}
