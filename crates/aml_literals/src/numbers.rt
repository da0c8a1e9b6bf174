// Integer literals (ACPI 6.5, 20.2.3).

ghost use Rattle.std.specs.Prelude.{◌≡◌, ◌≤◌, ◌<◌, ◌+◌, Some, drop, length};
ghost use Rattle.byteorder.specs.Endian.{little_number};
ghost use Rattle.aml_operators.specs.Literal.{literal_in, literal_of};
ghost use Rattle.aml_operators.specs.Tree.{stop_of, trees};
ghost use Rattle.aml_meaning.specs.Actions.{action};
ghost use Rattle.aml_meaning.specs.declared.action.Action.TheVariants as does;
ghost use Rattle.aml_literals.specs.There.{PartsThere, SizeThere};

use aml_operators::Op;
use aml_tree::op_at;
use byteorder::{ByteOrder, LittleEndian};

/// A little endian number of so many bytes, and the place behind it.
pub(crate) fn number(count: usize, bytes: &[u8], at: usize) -> (u64, usize)
    requires some { 1 ≤ count }
    requires few { count ≤ 8 }
    requires within { at + count ≤ length bytes.now }
    ensures number { result.0 ≡ little_number count (drop at bytes.now) }
    ensures place { result.1 ≡ at + count }
{
    (LittleEndian::read_uint(&bytes[at..], count), at + count)
}

/// The number of an integer literal whose parts stand behind its opcode, and the place behind them.
/// It takes no memory.
pub fn literal_number(op: Op, bytes: &[u8], at: usize) -> (u64, usize)
    requires literal { action op ≡ does.Literal op }
    requires there { PartsThere op bytes.now at }
    ensures number { (p : PartsThere op bytes.now at) →
        literal_in op (trees p.parts) ≡ Some result.0 }
    ensures place { (p : PartsThere op bytes.now at) → p.stop ≡ result.1 }
{
    match op {
        Op::Zero => (0, at),
        Op::One => (1, at),
        Op::Ones => (u64::MAX, at),
        Op::ByteConst => number(1, bytes, at),
        Op::WordConst => number(2, bytes, at),
        Op::DWordConst => number(4, bytes, at),
        Op::QWordConst => number(8, bytes, at),
        _ => unreachable!(),
    }
}

/// The number of the integer literal that stands at a place as a size, and the place behind it. It
/// takes no memory.
pub fn literal_at(bytes: &[u8], at: usize) -> (u64, usize)
    requires { SizeThere bytes.now at }
    ensures number { (s : SizeThere bytes.now at) → literal_of s.tree ≡ Some result.0 }
    ensures place { (s : SizeThere bytes.now at) → stop_of s.tree ≡ result.1 }
    ensures ahead { at < result.1 }
    ensures within { result.1 ≤ length bytes.now }
{
    let Some((op, next)) = op_at(bytes, at) else {
        unreachable!()
    };
    literal_number(op, bytes, next)
}
