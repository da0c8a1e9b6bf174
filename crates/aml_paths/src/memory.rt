// Want of memory.

ghost use Rattle.std.specs.Prelude.{◌≡◌};

use std::alloc::{AllocError, AllocFailed};
use thiserror::Error;

/// Want of memory (E524): the answer of a call that took some and got none. It may be made again.
#[derive(Clone, Copy, Debug, PartialEq, Eq, Error)]
#[error("E524 NoMemory")]
pub struct NoMemory;

impl From<AllocError> for NoMemory {
    ghost from_gives = { λ _ given. given ≡ given };

    fn from(_error: AllocError) -> NoMemory {
        NoMemory
    }
}

impl<T: Drop> From<AllocFailed<T>> for NoMemory {
    ghost from_gives = { λ _ given. given ≡ given };

    fn from(_error: AllocFailed<T>) -> NoMemory {
        NoMemory
    }
}
