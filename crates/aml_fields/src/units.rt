// The units that a field touches, and what is read and written unit by unit.

ghost use Rattle.std.specs.Prelude.{◌≡◌, ◌<◌, ◌≤◌, ◌+◌, ◌-◌, ◌^◌, IfOk, IfSome, IfNone, Ok, false};
ghost use Rattle.aml_regions.specs.Fields.{IsLaidOut, bits_of, end, first, unit_place};
ghost use Rattle.aml_regions.specs.Worlds.{CountsRefusal};
ghost use Rattle.aml_meaning.specs.Fields.{Takes, UnitPlan, told, went};
ghost use Rattle.aml_meaning.specs.Runs.{Runs, state};

use aml_paths::NoMemory;
use aml_regions::{FieldLayout, World};

/// The first unit that a field touches.
#[tactic(auto, unfolding(aml_regions::specs::Fields::first))]
pub(crate) fn first_of(layout: &FieldLayout) -> u64
    ensures { result ≡ first layout.now }
{
    layout.at / u64::from(layout.width.bits())
}

/// The unit behind the last.
#[tactic(auto, unfolding(aml_regions::specs::Fields::end))]
pub(crate) fn end_of(layout: &FieldLayout) -> u64
    requires { IsLaidOut layout.now }
    ensures { result ≡ end layout.now }
{
    (layout.at + layout.bits - 1) / u64::from(layout.width.bits()) + 1
}

/// The byte at which a unit begins.
#[tactic(auto, unfolding(aml_regions::specs::Fields::end))]
pub(crate) fn place_of(layout: &FieldLayout, unit: u64) -> u64
    requires laid_out { IsLaidOut layout.now }
    requires unit { unit ≤ end layout.now }
    ensures { result ≡ unit_place layout.now unit }
{
    unit * u64::from(layout.width.bits() / 8)
}

/// What is read and written unit by unit. Each call is given how many events are left, and takes
/// those that it makes from them.
pub(crate) trait Units<W: World> {
    /// Its units, as the meaning has them.
    ghost plan: { Self → UnitPlan };

    /// Whether its units can be reached.
    ghost ready: { Self → Type 0 };

    /// Where its bits stand.
    fn layout(&self) -> FieldLayout
        requires { ready self.now }
        ensures is { result ≡ (plan self.now).layout }
        ensures laid_out { IsLaidOut result };

    /// What one unit has, None where more events are wanted than are left.
    fn read_unit(&self, world: &mut W, unit: u64, left: &mut u64) -> Result<Option<u64>, NoMemory>
        requires ready { ready self.now }
        requires unit { unit < end (plan self.now).layout }
        ensures means { (frame : _) (names : _) → Runs (told result) ((plan self.now).read unit)
            (state frame names left.old (W.log world.old))
            (state frame names left.new (W.log world.new)) }
        ensures takes { Takes result (plan self.now).read_events left.old left.new }
        ensures none { IfOk result (λ answer. IfNone answer (left.new ≡ 0)) }
        ensures fits { IfOk result
            (λ answer. IfSome answer (λ n. n < 2 ^ bits_of (plan self.now).layout.width)) }
        ensures refusal { CountsRefusal result
            (W.log world.old).refusals (W.log world.new).refusals };

    /// Gives one unit a value, false where more events are wanted than are left.
    fn write_unit(
        &self,
        world: &mut W,
        unit: u64,
        value: u64,
        left: &mut u64,
    ) -> Result<bool, NoMemory>
        requires ready { ready self.now }
        requires unit { unit < end (plan self.now).layout }
        requires fits { value < 2 ^ bits_of (plan self.now).layout.width }
        ensures means { (frame : _) (names : _) →
            Runs (went result) ((plan self.now).write unit value)
            (state frame names left.old (W.log world.old))
            (state frame names left.new (W.log world.new)) }
        ensures takes { Takes result (plan self.now).write_events left.old left.new }
        ensures none { result ≡ Ok false → left.new ≡ 0 }
        ensures refusal { CountsRefusal result
            (W.log world.old).refusals (W.log world.new).refusals };
}
