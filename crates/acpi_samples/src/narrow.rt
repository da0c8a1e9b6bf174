// A writer that fails.

ghost use Rattle.std.specs.Prelude.{◌≡◌, ◌+◌, ◌≤◌, [], Some, IfOk};
ghost use Rattle.std.specs.Io.KnownBytes.{Keeps, WriteAppends};
ghost use Rattle.std.specs.Io.{WritesAtMost};

use std::alloc::{AllocError, Global};
use std::io;
use std::io::Write;

/// Takes at most so many bytes at a time, and so many in all.
#[derive(Drop)]
pub struct Narrow {
    /// What it took.
    pub text: Vec<u8>,
    width: usize,
    room: usize,
}

impl Narrow {
    /// With memory for all that it takes.
    pub fn new(alloc: Global, width: usize, room: usize) -> Result<Narrow, AllocError>
        ensures text { IfOk result (λ writer. writer.text.items ≡ []) }
        ensures width { IfOk result (λ writer. writer.width ≡ width) }
        ensures room { IfOk result (λ writer. writer.room ≡ room) }
    {
        Ok(Narrow {
            text: Vec::with_capacity(alloc, room)?,
            width,
            room,
        })
    }
}

impl Write for Narrow {
    ghost contents = { λ writer. Some writer.text.items };

    fn write(&mut self, bytes: &[u8]) -> io::Result<usize>
        ensures bound { WritesAtMost result bytes.now }
        ensures bytes { WriteAppends (Some self.old.text.items) (Some self.new.text.items)
            result bytes.now }
        ensures width { IfOk result (λ n. n ≤ self.old.width) }
        ensures room { IfOk result (λ n. self.new.room + n ≡ self.old.room) }
    {
        let n = bytes.len().min(self.width).min(self.room);
        self.text.extend_from_slice(&bytes[..n])?;
        self.room -= n;
        Ok(n)
    }

    fn flush(&mut self) -> io::Result<()>
        ensures bytes { Keeps (Some self.old.text.items) (Some self.new.text.items) }
    {
        Ok(())
    }
}
