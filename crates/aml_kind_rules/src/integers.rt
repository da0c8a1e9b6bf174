// What integers give (ACPI 6.5, 19.6).

ghost use Rattle.std.specs.Prelude.{◌≡◌, ℕ};
ghost use Rattle.aml_kinds.specs.Kinds.{Shape};
ghost use Rattle.aml_judged.specs.KindRules as rule;
ghost use Rattle.aml_known.specs.Views.{kind_of};
ghost use Rattle.aml_objects.specs.Widths.{bits_of};
ghost use Rattle.aml_rules.specs.Tells.{place_of};
ghost use Rattle.aml_kind_rules.specs.Tells.{are_alike, division_of, may_be_equal, told};

use crate::numbers::{applied, left_by, quotient_most, transformed_most};
use crate::refused::refused;
use aml_causes::{Cause, Refusal};
use aml_known::Known;
use aml_meaning::{Arithmetic, Bitwise, Comparison};
use aml_namespace::Width;
use aml_rules::Place;

/// The greatest of an integer's kind. V3 at the operand that has another kind.
pub fn integer_kind(operand: Place, kind: Known) -> Result<u64, Refusal>
    ensures { (shapes : ℕ → Shape) →
        told (λ n. n) result ≡ rule.integer_kind (place_of operand) (kind_of shapes kind) }
{
    match kind {
        Known::Int(greatest) => Ok(greatest),
        _ => Err(refused(Cause::WrongKind, operand)),
    }
}

/// The greatest of a divisor's kind, where the divisor is a literal that is not zero. V8 at any
/// other.
fn divisor_kind(operand: Place, number: Option<u64>, greatest: u64) -> Result<u64, Refusal>
    ensures { told (λ n. n) result ≡ rule.divisor_kind (place_of operand) number greatest }
{
    match number {
        Some(divisor) if divisor != 0 => Ok(greatest),
        _ => Err(refused(Cause::Divisor, operand)),
    }
}

/// The greatest of the kind of a second operand, which of Mod is a divisor. V3 at one that is no
/// integer, V8 at a divisor that is no literal other than zero.
fn second_kind(
    f: Arithmetic,
    operand: Place,
    kind: Known,
    number: Option<u64>,
) -> Result<u64, Refusal>
    ensures { (shapes : ℕ → Shape) → told (λ n. n) result
        ≡ rule.second_kind f (place_of operand) (kind_of shapes kind) number }
{
    let greatest = integer_kind(operand, kind)?;
    match f {
        Arithmetic::Mod => divisor_kind(operand, number, greatest),
        _ => Ok(greatest),
    }
}

/// What two integers give (ACPI 6.5, 19.6). V3 at an operand that is none, V8 at a divisor that is
/// no literal other than zero.
pub fn combined_kind(
    width: Width,
    f: Arithmetic,
    first: Place,
    j: Known,
    second: Place,
    k: Known,
    number: Option<u64>,
) -> Result<Known, Refusal>
    ensures { (shapes : ℕ → Shape) → told (kind_of shapes) result ≡ rule.combined_kind
        (bits_of width) f (place_of first) (kind_of shapes j) (place_of second) (kind_of shapes k)
        number }
{
    let a = integer_kind(first, j)?;
    let b = second_kind(f, second, k, number)?;
    Ok(Known::Int(applied(width, f, a, b, number)))
}

/// What one integer gives (19.6, Not, FindSetLeftBit, FindSetRightBit). V3 at the operand that is
/// none.
pub fn transformed_kind(
    width: Width,
    f: Bitwise,
    operand: Place,
    kind: Known,
) -> Result<Known, Refusal>
    ensures { (shapes : ℕ → Shape) → told (kind_of shapes) result
        ≡ rule.transformed_kind (bits_of width) f (place_of operand) (kind_of shapes kind) }
{
    integer_kind(operand, kind)?;
    Ok(Known::Int(transformed_most(width, f)))
}

/// What Divide gives.
#[derive(Clone, Copy, Debug, PartialEq, Eq)]
pub struct DivisionKinds {
    pub quotient: Known,
    pub remainder: Known,
}

/// What an integer divided by another gives (19.6, Divide). V3 at an operand that is none, V8 at a
/// divisor that is no literal other than zero.
pub fn divided_kind(
    width: Width,
    first: Place,
    j: Known,
    second: Place,
    k: Known,
    number: Option<u64>,
) -> Result<DivisionKinds, Refusal>
    ensures { (shapes : ℕ → Shape) → told (division_of shapes) result ≡ rule.divided_kind
        (bits_of width) (place_of first) (kind_of shapes j) (place_of second) (kind_of shapes k)
        number }
{
    let a = integer_kind(first, j)?;
    second_kind(Arithmetic::Mod, second, k, number)?;
    Ok(DivisionKinds {
        quotient: Known::Int(quotient_most(a, number)),
        remainder: Known::Int(left_by(width, a, number)),
    })
}

/// Whether values of two kinds may be equal: two integers, two buffers or two strings.
fn are_alike(j: Known, k: Known) -> bool
    ensures { (shapes : ℕ → Shape) → result ≡ are_alike (kind_of shapes j) (kind_of shapes k) }
{
    match (j, k) {
        (Known::Int(_), Known::Int(_)) => true,
        (Known::Buf(_), Known::Buf(_)) => true,
        (Known::Str(_), Known::Str(_)) => true,
        _ => false,
    }
}

/// Whether a value of a kind may be equal to any.
fn may_be_equal(kind: Known) -> bool
    ensures { (shapes : ℕ → Shape) → result ≡ may_be_equal (kind_of shapes kind) }
{
    match kind {
        Known::Int(_) | Known::Buf(_) | Known::Str(_) => true,
        Known::Pkg(_) | Known::AnyPkg | Known::Mixed => false,
    }
}

/// Two of one kind are wanted. V3 at the first where no second could fit it, else at the second.
fn equal_kind(first: Place, j: Known, second: Place, k: Known) -> Result<(), Refusal>
    ensures { (shapes : ℕ → Shape) → told (λ u. u) result ≡ rule.equal_kind
        (place_of first) (kind_of shapes j) (place_of second) (kind_of shapes k) }
{
    if are_alike(j, k) {
        Ok(())
    } else if may_be_equal(j) {
        Err(refused(Cause::WrongKind, second))
    } else {
        Err(refused(Cause::WrongKind, first))
    }
}

/// What a comparison of two values gives (19.6, LAnd, LOr, LEqual, LGreater, LLess). V3 at an
/// operand of a wrong kind.
pub fn compared_kind(
    width: Width,
    f: Comparison,
    first: Place,
    j: Known,
    second: Place,
    k: Known,
) -> Result<Known, Refusal>
    ensures { (shapes : ℕ → Shape) → told (kind_of shapes) result ≡ rule.compared_kind
        (bits_of width) f (place_of first) (kind_of shapes j) (place_of second) (kind_of shapes k) }
{
    match f {
        Comparison::LEqual => {
            equal_kind(first, j, second, k)?;
            Ok(Known::Int(width.greatest()))
        }
        _ => {
            integer_kind(first, j)?;
            integer_kind(second, k)?;
            Ok(Known::Int(width.greatest()))
        }
    }
}

/// What LNot gives (19.6). V3 at the operand that is no integer.
pub fn negated_kind(width: Width, operand: Place, kind: Known) -> Result<Known, Refusal>
    ensures { (shapes : ℕ → Shape) → told (kind_of shapes) result
        ≡ rule.negated_kind (bits_of width) (place_of operand) (kind_of shapes kind) }
{
    integer_kind(operand, kind)?;
    Ok(Known::Int(width.greatest()))
}
