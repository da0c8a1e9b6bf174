// Bytes by their bits.

ghost use Rattle.std.proofs.lemmas.Nat.Bits.{bit_at-lt};
ghost use Rattle.std.specs.Prelude.{◌≡◌, ℕ, ◌+◌, ◌^◌, ◌<◌, ◌≤◌, slice_index};
ghost use Rattle.aml_regions.specs.Bits.{byte_bit, number};

use crate::kernel::{above, run};
use crate::source::Bits;

/// A buffer's bytes, the lowest of which stands first, as what a field is given.
#[derive(Clone, Copy)]
pub struct BitBytes<'a> {
    pub bytes: &'a [u8],
}

/// The items of a list of bytes are bytes.
pub(crate) fn are_bytes(bytes: &[u8])
    ensures { (i : ℕ) → slice_index bytes.now i < 2 ^ 8 }
{}

/// A byte, and zero past the end.
fn byte_at(bytes: &[u8], place: u64) -> u64
    ensures { result ≡ slice_index bytes.now place }
{
    match bytes.get(place as usize) {
        Some(byte) => u64::from(*byte),
        None => 0,
    }
}

/// k bits of a list of bytes from one on; past its end there are zeros.
pub(crate) fn part_of_bytes(bytes: &[u8], from: u64, k: u32) -> u64
    requires k { k ≤ 64 }
    requires from { from + k < 2 ^ 64 }
    ensures is { result ≡ number k (λ i. byte_bit bytes.now (from + i)) }
    ensures fits { result < 2 ^ k }
{
    let mut value = 0;
    let mut done = 0;
    while done < k {
        let place = from + done as u64;
        let byte = byte_at(bytes, place / 8);
        let skip = (place % 8) as u32;
        let take = (8 - skip).min(k - done);
        value = above(run(byte, skip, take), done, value);
        done += take;
    }
    value
}

impl<'a> Bits for BitBytes<'a> {
    ghost bit = { λ b. byte_bit b.bytes.now };

    ghost binary = { λ b i. bit_at-lt _ _ };

    fn part(&self, from: u64, k: u32) -> u64 {
        part_of_bytes(self.bytes, from, k)
    }
}
