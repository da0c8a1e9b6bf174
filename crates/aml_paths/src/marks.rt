// Which segments stand below a chain at all, as far as one bit for many of them tells. Most chains
// that a search passes have nothing of its segment below them, and so need no look-up. Whoever
// chooses segments that share a bit has searches look up what they would look up without it.

ghost use Rattle.std.specs.Prelude.{◌≡◌, ◌<◌, ℕ, false, slice_index, OnOk};
ghost use Rattle.std.specs.Int.{bit_at};
ghost use Rattle.aml_paths.specs.Marks.{group_of};

use aml_lex::NameSeg;
use std::alloc::AllocError;

/// A prime near 2^32 over the golden ratio: its multiples by near numbers lie far apart.
const SPREAD: u32 = 0x9E37_79B1;

/// Which of 64 groups a segment is of. It is the product's highest bits, since each character
/// counts in these.
pub(crate) fn group_of(segment: NameSeg) -> u32
    ensures is { result ≡ group_of segment }
    ensures small { result < 64 }
{
    u32::from_be_bytes(segment.bytes).wrapping_mul(SPREAD) >> 26
}

/// Whether a segment of this group may stand below the chain with this top.
pub(crate) fn may_stand(marks: &[u64], top: usize, group: u32) -> bool
    requires { group < 64 }
    ensures { result ≡ false → bit_at (slice_index marks.now top) group ≡ 0 }
{
    match marks.get(top) {
        Some(mark) => (*mark >> group) & 1 == 1,
        None => false,
    }
}

/// Marks that a segment of this group stands below the chain with this top. No other mark is lost,
/// also where this wants memory.
pub(crate) fn mark_below(marks: &mut Vec<u64>, top: usize, group: u32) -> Result<(), AllocError>
    requires { group < 64 }
    ensures kept { (t g : ℕ) → bit_at (slice_index marks.new.items t) g ≡ 0
        → bit_at (slice_index marks.old.items t) g ≡ 0 }
    ensures marked { OnOk result (bit_at (slice_index marks.new.items top) group ≡ 1) }
{
    'reach: while marks.len() <= top {
        marks.push(0)?;
    }
    marks[top] |= 1 << group;
    Ok(())
}
