// Integer literals, and numbers beside opcodes.

ghost use Rattle.std.specs.Prelude.{◌≡◌};
ghost use Rattle.aml_operators.specs.Tree.{view, views};
ghost use Rattle.aml_operators.specs.Literal.{first_number, literal_in, literal_of, number_in};

use crate::op::Op;
use crate::term::Term;

/// The number that is the first part.
#[tactic(auto, using(crate::proofs::Views::view_out))]
fn first_number(parts: &[Term]) -> Option<u64>
    ensures { result ≡ first_number (views parts.now) }
{
    match parts {
        [first, ..] => match first.op {
            Op::Number(n) => Some(n),
            _ => None,
        },
        [] => None,
    }
}

/// The number of an integer literal, by its operator and its parts; None where it is no such
/// literal.
pub fn literal_in(op: Op, parts: &[Term]) -> Option<u64>
    ensures { result ≡ literal_in op (views parts.now) }
{
    match op {
        Op::Zero => Some(0),
        Op::One => Some(1),
        Op::Ones => Some(u64::MAX),
        Op::ByteConst | Op::WordConst | Op::DWordConst | Op::QWordConst => first_number(parts),
        _ => None,
    }
}

/// The number of a term that is an integer literal; None where it is no such literal.
#[tactic(auto, using(crate::proofs::Views::view_out))]
pub fn literal_of(term: &Term) -> Option<u64>
    ensures { result ≡ literal_of (view term.now) }
{
    literal_in(term.op, &term.parts)
}

/// The number that stands beside an opcode, as flags, levels and counts do; 0 for any other part.
#[tactic(auto, using(crate::proofs::Views::view_out))]
pub fn number_in(term: &Term) -> u64
    ensures { result ≡ number_in (view term.now) }
{
    match term.op {
        Op::Number(number) => number,
        _ => 0,
    }
}
