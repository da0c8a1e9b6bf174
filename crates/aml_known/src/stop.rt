// Why a judgement stops.

ghost use Rattle.std.specs.Prelude.{◌≡◌};
ghost use Rattle.aml_known.specs.declared.stop.Stop.TheVariants as stop;

use aml_causes::Refusal;
use aml_paths::NoMemory;

/// Why a judgement stops.
#[derive(Clone, Copy, Debug, PartialEq, Eq)]
pub enum Stop {
    /// The first cause.
    Refused(Refusal),
    /// Memory was wanted, and there was none.
    NoMemory,
}

impl From<Refusal> for Stop {
    ghost from_gives = { λ refusal given. given ≡ stop.Refused refusal };

    fn from(refusal: Refusal) -> Stop {
        Stop::Refused(refusal)
    }
}

impl From<NoMemory> for Stop {
    ghost from_gives = { λ _ given. given ≡ stop.NoMemory };

    fn from(_: NoMemory) -> Stop {
        Stop::NoMemory
    }
}
