// The bytes of a buffer, or the characters of a string.

ghost use Rattle.std.specs.Prelude.{◌≡◌, IfOk, length, nat_lt, slice_set};

use std::alloc::AllocError;
use std::marker::Model;

/// As many bytes as a buffer or a string may have.
pub const MOST_BYTES: usize = 65_536;

/// Bytes, which contracts see as a list.
#[derive(Drop)]
pub struct Bytes {
    items: Vec<u8>,
}

impl Model for Bytes {
    ghost use Rattle.std.specs.Prelude.{ℕ, List};

    ghost Value = { List ℕ };

    ghost view = { λ b. b.items.items };
}

impl Bytes {
    /// These bytes.
    pub fn new(items: Vec<u8>) -> Bytes
        ensures { result ≡ items.items }
    {
        Bytes { items }
    }

    /// The number of bytes.
    pub fn len(&self) -> usize
        ensures { result ≡ length self.now }
    {
        self.items.len()
    }

    /// The bytes, to be read.
    pub fn as_slice(&self) -> &[u8]
        ensures { result.now ≡ self.now }
    {
        &self.items
    }

    /// Sets the byte at a place. There may be none; then nothing changes, and false is answered.
    pub fn set(&mut self, at: usize, byte: u8) -> bool
        ensures there { result ≡ nat_lt at (length self.old) }
        ensures set { self.new ≡ slice_set self.old at byte }
    {
        let is_there = at < self.len();
        if is_there {
            self.items[at] = byte;
        }
        is_there
    }

    /// The bytes given back.
    pub fn into_vec(self) -> Vec<u8>
        ensures { result.items ≡ self }
    {
        let Self { items } = self;
        items
    }

    /// A copy.
    pub(crate) fn copy(&self) -> Result<Bytes, AllocError>
        ensures { IfOk result (λ b. b ≡ self.now) }
    {
        Ok(Bytes::new(self.items.clone()?))
    }
}
