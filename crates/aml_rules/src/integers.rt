// Integers modulo 2 to the width.

ghost use Rattle.std.specs.Prelude.{◌≡◌, ◌<◌, ◌*◌, ◌/◌, ◌%◌, ◌^◌};
ghost use Rattle.aml_values.specs.Values.{Int};
ghost use Rattle.aml_meaning.specs.declared.action.Arithmetic.TheVariants as operation;
ghost use Rattle.aml_meaning.specs.Rules.{apply, holds, transform, truth};
ghost use Rattle.aml_objects.specs.Widths.{bits_of};

use aml_meaning::{Arithmetic, Bitwise, Comparison};
use aml_namespace::Width;

/// An integer's bits, so many places up.
fn shifted_left(n: u64, count: u64) -> u64
    ensures { result ≡ n * 2 ^ count % 2 ^ 64 }
{
    if count < 64 { n << count } else { 0 }
}

/// Its bits, so many places down.
fn shifted_right(n: u64, count: u64) -> u64
    ensures { result ≡ n / 2 ^ count }
{
    if count < 64 { n >> count } else { 0 }
}

/// Two integers joined, modulo 2 to the width; a divisor is not zero.
pub fn joined(width: Width, arithmetic: Arithmetic, x: u64, y: u64) -> u64
    requires { arithmetic ≡ operation.Mod → 0 < y }
    ensures { result ≡ apply arithmetic x y % 2 ^ bits_of width }
{
    let joined = match arithmetic {
        Arithmetic::Add => x.wrapping_add(y),
        Arithmetic::Subtract => x.wrapping_sub(y),
        Arithmetic::Multiply => x.wrapping_mul(y),
        Arithmetic::And => x & y,
        Arithmetic::Nand => !(x & y),
        Arithmetic::Or => x | y,
        Arithmetic::Nor => !(x | y),
        Arithmetic::Xor => x ^ y,
        Arithmetic::ShiftLeft => shifted_left(x, y),
        Arithmetic::ShiftRight => shifted_right(x, y),
        Arithmetic::Mod => x % y,
    };
    width.wrapped(joined)
}

/// What one integer gives, modulo 2 to the width.
pub fn transformed_bits(width: Width, operation: Bitwise, n: u64) -> u64
    ensures { result ≡ transform operation n % 2 ^ bits_of width }
{
    let bits = match operation {
        Bitwise::Not => !n,
        Bitwise::FindSetLeftBit => u64::from(64 - n.leading_zeros()),
        Bitwise::FindSetRightBit => {
            if n == 0 {
                0
            } else {
                u64::from(n.trailing_zeros() + 1)
            }
        }
    };
    width.wrapped(bits)
}

/// What is said of two integers.
pub fn holds(comparison: Comparison, x: u64, y: u64) -> bool
    ensures { result ≡ holds comparison x y }
{
    match comparison {
        Comparison::LAnd => x != 0 && y != 0,
        Comparison::LOr => x != 0 || y != 0,
        Comparison::LEqual => x == y,
        Comparison::LGreater => x > y,
        Comparison::LLess => x < y,
    }
}

/// Ones where something holds, else Zero.
pub fn truth(width: Width, holds: bool) -> u64
    ensures { Int result ≡ truth (bits_of width) holds }
{
    if holds { width.wrapped(u64::MAX) } else { 0 }
}
