// How great integers can become.

ghost use Rattle.std.specs.Prelude.{◌≡◌, ◌≤◌, ◌+◌, ◌-◌, ◌*◌, ◌/◌, ◌^◌, ℕ, max};
ghost use Rattle.aml_judged.specs.KindRules as rule;
ghost use Rattle.aml_meaning.specs.declared.action.Arithmetic.TheVariants as operation;
ghost use Rattle.aml_objects.specs.Widths.{bits_of};

use aml_meaning::{Arithmetic, Bitwise};
use aml_namespace::Width;

/// A number, where it is an integer of the width; else the greatest integer.
fn capped(width: Width, number: u64) -> u64
    ensures { result ≡ rule.capped (bits_of width) number }
{
    number.min(width.greatest())
}

/// A sum, where it is an integer of the width; else the greatest integer.
fn sum(width: Width, a: u64, b: u64) -> u64
    ensures { result ≡ rule.capped (bits_of width) (a + b) }
{
    match a.checked_add(b) {
        Some(number) => capped(width, number),
        None => width.greatest(),
    }
}

/// A product, where it is an integer of the width; else the greatest integer.
fn product(width: Width, a: u64, b: u64) -> u64
    ensures { result ≡ rule.capped (bits_of width) (a * b) }
{
    match a.checked_mul(b) {
        Some(number) => capped(width, number),
        None => width.greatest(),
    }
}

/// A number whose bits go so many places up, where it is an integer of the width; else the greatest
/// integer.
fn raised(width: Width, a: u64, count: u64) -> u64
    ensures { result ≡ rule.capped (bits_of width) (a * 2 ^ count) }
{
    if count < 64 {
        product(width, a, 1 << count)
    } else if a == 0 {
        0
    } else {
        width.greatest()
    }
}

/// A number whose bits go so many places down.
fn dropped(a: u64, count: u64) -> u64
    ensures { result ≡ a / 2 ^ count }
{
    if count < 64 { a >> count } else { 0 }
}

/// So many bits that are set.
pub fn ones(count: u64) -> u64
    requires { count ≤ 64 }
    ensures { result ≡ 2 ^ count - 1 }
{
    ((1_u128 << count) - 1) as u64
}

/// As many bits that are set as the greater of two numbers has, where it is an integer of the
/// width; else the greatest integer.
fn ones_over(width: Width, a: u64, b: u64) -> u64
    ensures { result ≡ rule.ones_over (bits_of width) (max a b) }
{
    let greater = a.max(b);
    if greater <= width.greatest() {
        ones(u64::from(64 - greater.leading_zeros()))
    } else {
        width.greatest()
    }
}

/// The greatest of what two integers give, by the greatest of each, where the second may be a
/// literal with a number.
pub fn applied(width: Width, arithmetic: Arithmetic, a: u64, b: u64, number: Option<u64>) -> u64
    ensures { result ≡ rule.applied (bits_of width) arithmetic a b number }
{
    match arithmetic {
        Arithmetic::Add => sum(width, a, b),
        Arithmetic::Multiply => product(width, a, b),
        Arithmetic::And => a.min(b),
        Arithmetic::Or | Arithmetic::Xor => ones_over(width, a, b),
        Arithmetic::ShiftLeft => raised_by(width, a, number),
        Arithmetic::ShiftRight => dropped_by(a, number),
        Arithmetic::Mod => left_by(width, a, number),
        Arithmetic::Subtract | Arithmetic::Nand | Arithmetic::Nor => width.greatest(),
    }
}

/// The greatest of what is shifted to the left.
fn raised_by(width: Width, a: u64, number: Option<u64>) -> u64
    ensures { (b : ℕ) → result ≡ rule.applied (bits_of width) operation.ShiftLeft a b number }
{
    match number {
        Some(count) => raised(width, a, count),
        None => width.greatest(),
    }
}

/// The greatest of what is shifted to the right.
fn dropped_by(a: u64, number: Option<u64>) -> u64
    ensures { (width b : ℕ) → result ≡ rule.applied width operation.ShiftRight a b number }
{
    match number {
        Some(count) => dropped(a, count),
        None => a,
    }
}

/// The greatest of what Mod leaves.
pub fn left_by(width: Width, a: u64, number: Option<u64>) -> u64
    ensures { (b : ℕ) → result ≡ rule.applied (bits_of width) operation.Mod a b number }
{
    match number {
        Some(divisor) if divisor > 0 => a.min(divisor - 1),
        _ => width.greatest(),
    }
}

/// The greatest of what Divide gives.
pub fn quotient_most(a: u64, number: Option<u64>) -> u64
    ensures { result ≡ rule.quotient_most a number }
{
    match number {
        Some(divisor) if divisor > 0 => a / divisor,
        _ => a,
    }
}

/// The greatest of what one integer gives.
pub fn transformed_most(width: Width, operation: Bitwise) -> u64
    ensures { result ≡ rule.transformed_most (bits_of width) operation }
{
    match operation {
        Bitwise::Not => width.greatest(),
        Bitwise::FindSetLeftBit | Bitwise::FindSetRightBit => u64::from(width.bits()),
    }
}

/// The greatest of what a buffer of so many bytes becomes.
pub fn buffer_most(width: Width, size: u64) -> u64
    ensures { result ≡ rule.buffer_most (bits_of width) size }
{
    if size < u64::from(width.bits() / 8) {
        ones(8 * size)
    } else {
        width.greatest()
    }
}
