// The operator at a place.

ghost use Rattle.std.specs.Prelude.{◌≡◌, ◌<◌, ◌≤◌, length, IfSome};
ghost use Rattle.aml_operators.specs.Table.{op_of};
ghost use Rattle.aml_tree.specs.OperatorAt.{CountsWithinDecide, OpcodesDecide, OthersAreNames, ended_at, op_there};

use aml_operators::{Op, op_of_code};

/// The operator with an opcode, and the place behind it.
fn op_with(opcode: u16, next: usize) -> Option<(Op, usize)>
    ensures is { result ≡ ended_at next (op_of opcode) }
    ensures next { IfSome result (λ p. p.1 ≡ next) }
{
    match op_of_code(opcode) {
        Some(op) => Some((op, next)),
        None => None,
    }
}

/// The operator whose opcode stands at a place of a body, and the place behind that opcode (ACPI
/// 6.5, 20.3); none where a name stands, where the bytes end, and where no operator has such an
/// opcode. It takes no memory.
pub fn op_at(bytes: &[u8], at: usize) -> Option<(Op, usize)>
    ensures is { result ≡ op_there bytes.now at }
    ensures within { IfSome result (λ p. (at < p.1) × (p.1 ≤ length bytes.now)) }
{
    match bytes.get(at) {
        None => None,
        Some(0x5B) => match bytes.get(at + 1) {
            None => None,
            Some(second) => op_with(0x5B00 + u16::from(*second), at + 2),
        },
        Some(first) => op_with(u16::from(*first), at + 1),
    }
}

/// What stands at a place decides the form of the term there: the operator's, with its parts behind
/// the opcode by the letters of its row, or a name's.
pub fn opcodes_decide()
    ensures operators { OpcodesDecide }
    ensures names { OthersAreNames }
{}

/// A term is one by each count of names' terms that agrees with the reader's within it.
pub fn counts_within_decide()
    ensures { CountsWithinDecide }
{}
