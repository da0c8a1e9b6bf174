// Reading a stream to its end, up to a limit.

ghost use Rattle.std.specs.Prelude.{◌≡◌, IfOk};
ghost use Rattle.acpi_sources.specs.Input.{IsRead, is_whole};

use std::alloc::{AllocError, Global};
use std::io;
use std::io::Read;

/// The most bytes of standard input, and of one file: 16 MiB.
pub const INPUT_LIMIT: usize = 16_777_216;

/// How reading a stream ended.
#[derive(Debug, Drop)]
pub enum End {
    /// The bytes are all that it had, no more than [`INPUT_LIMIT`].
    Whole,
    /// A read failed behind them.
    Failed(io::Error),
    /// They are more than [`INPUT_LIMIT`].
    TooLarge,
}

/// What was read of a stream.
#[derive(Debug, Drop)]
pub struct Input {
    pub bytes: Vec<u8>,
    pub end: End,
}

impl Input {
    /// Whether the bytes are all that the stream had.
    #[tactic(auto, unfolding(crate::specs::Input::is_whole))]
    pub fn is_whole(&self) -> bool
        ensures { result ≡ is_whole self.now.end }
    {
        matches!(self.end, End::Whole)
    }
}

/// Reads a stream to its end, or until a read fails or the bytes are more than [`INPUT_LIMIT`].
pub fn read_input<R: Read>(alloc: Global, input: &mut R) -> Result<Input, AllocError>
    ensures { IfOk result (λ read. IsRead (R.remaining input.old) (R.remaining input.new) read) }
{
    let mut bytes = Vec::new(alloc);
    let mut chunk = [0u8; 4096];
    while bytes.len() <= INPUT_LIMIT {
        match input.read(&mut chunk) {
            Ok(0) => {
                return Ok(Input {
                    bytes,
                    end: End::Whole,
                });
            }
            Ok(n) => bytes.extend_from_slice(&chunk[..n])?,
            Err(error) => {
                return Ok(Input {
                    bytes,
                    end: End::Failed(error),
                });
            }
        }
    }
    Ok(Input {
        bytes,
        end: End::TooLarge,
    })
}
