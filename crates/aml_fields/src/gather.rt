// What a field's bits are gathered in: an integer, or bytes.

ghost use Rattle.std.specs.Prelude.{◌≡◌, ℕ, List, ◌+◌, ◌*◌, ◌^◌, ◌<◌, ◌≤◌, length};
ghost use Rattle.aml_regions.specs.Bits.{number};
ghost use Rattle.aml_regions.specs.BufferFields.{bytes_of};
ghost use Rattle.aml_fields.specs.Gathered.{GoesOn, HasBits};

use crate::buffer::write_buffer_field;
use crate::kernel::above;

/// What gathers bits, a run of them behind another.
pub(crate) trait Gathers {
    /// What bits make.
    ghost Value: { Type 0 };

    /// What the bits that it has make.
    ghost value: { Self → Value };

    /// The reference behind which that stands, if there is one.
    ghost name: { Self → ℕ };

    /// How many bytes it has room for.
    ghost size: { Self → ℕ };

    /// What the first so many bits make in so many bytes.
    ghost made: { ℕ → ℕ → (ℕ → ℕ) → Value };

    /// Drops what it has.
    fn clear(&mut self)
        ensures none { (bit : ℕ → ℕ) → value self.new ≡ made (size self.old) 0 bit }
        ensures same_reference { name self.new ≡ name self.old }
        ensures size { size self.new ≡ size self.old };

    /// Puts a run of bits behind the first so many.
    fn put(&mut self, done: u64, take: u64, part: u64)
        requires some { 0 < take }
        requires part { part < 2 ^ take }
        requires room { done + take ≤ 8 * size self.old }
        requires fits { done + take < 2 ^ 64 }
        requires before { HasBits (made (size self.old)) done (value self.old) }
        ensures more { (before bit : ℕ → ℕ) → GoesOn before bit done take part →
            value self.old ≡ made (size self.old) done before →
            value self.new ≡ made (size self.old) (done + take) bit }
        ensures same_reference { name self.new ≡ name self.old }
        ensures size { size self.new ≡ size self.old };
}

impl Gathers for u64 {
    ghost Value = { ℕ };

    ghost value = { λ number. number };

    ghost name = { λ number. 0 };

    ghost size = { λ number. 8 };

    ghost made = { λ size. number };

    fn clear(&mut self) {
        *self = 0;
    }

    fn put(&mut self, done: u64, _take: u64, part: u64) {
        *self = above(part, done as u32, *self);
    }
}

/// Bytes that bits are gathered in, the lowest of them in the first.
#[derive(Drop)]
pub(crate) struct GatheredBytes<'a> {
    pub(crate) bytes: &'a mut [u8],
}

impl Gathers for GatheredBytes<'_> {
    ghost Value = { List ℕ };

    ghost value = { λ gathered. gathered.bytes.now };

    ghost name = { λ gathered. gathered.bytes.ghost_name };

    ghost size = { λ gathered. length gathered.bytes.now };

    ghost made = { bytes_of };

    fn clear(&mut self) {
        self.bytes.fill(0);
    }

    fn put(&mut self, done: u64, take: u64, part: u64) {
        write_buffer_field(self.bytes, done, take, &part);
    }
}
