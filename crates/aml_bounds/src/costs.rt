// What the steps of a body hang on.

ghost use Rattle.std.specs.Prelude.{◌≡◌};
ghost use Rattle.aml_bounds.specs.Steps.{Knows};

use crate::turn_count::TurnCount;

/// What the steps of a body hang on, by places in its table.
pub trait Costs {
    ghost knows: { Self → Knows };

    /// How often the While at a place turns.
    fn turns(&self, at: usize) -> TurnCount
        ensures { result ≡ (knows self.now).turns at };

    /// How many steps more the name at a place takes where it is read or called: the events of a
    /// field's read, the bound of a method, and else none.
    fn named(&self, at: usize) -> u64
        ensures { result ≡ (knows self.now).named at };

    /// How many steps more it takes where it is stored into: the events of a field's write.
    fn stored(&self, at: usize) -> u64
        ensures { result ≡ (knows self.now).stored at };
}
