// Values by their bits.

ghost use Rattle.std.specs.Prelude.{◌≡◌, ℕ, ◌+◌, ◌^◌, ◌<◌, ◌≤◌};
ghost use Rattle.std.proofs.lemmas.Nat.Bits.{bit_at-lt};
ghost use Rattle.std.specs.Int.{bit_at};
ghost use Rattle.aml_regions.specs.Bits.{number};

use crate::kernel::run;

/// What has bits.
pub trait Bits {
    ghost bit: { Self → ℕ → ℕ };

    /// The k bits from one on.
    fn part(&self, from: u64, k: u32) -> u64
        requires k { k ≤ 64 }
        requires from { from + k < 2 ^ 64 }
        ensures is { result ≡ number k (λ i. bit self.now (from + i)) }
        ensures fits { result < 2 ^ k };

    ghost binary: { (x : Self) (i : ℕ) → bit x i < 2 };
}

/// The k bits of a number from one on.
fn part_of(value: u64, from: u64, k: u32) -> u64
    requires { k ≤ 64 }
    ensures is { result ≡ number k (λ i. bit_at value (from + i)) }
    ensures fits { result < 2 ^ k }
{
    if from < 64 {
        run(value, from as u32, k)
    } else {
        0
    }
}

impl Bits for u64 {
    ghost bit = { bit_at };

    ghost binary = { bit_at-lt };

    fn part(&self, from: u64, k: u32) -> u64 {
        part_of(*self, from, k)
    }
}
