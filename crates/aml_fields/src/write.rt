// Writes of fields.

ghost use Rattle.std.specs.Prelude.{◌≡◌, ◌<◌, ◌-◌, ◌^◌, IfOk, IfSome, IfNone, Ok, false};
ghost use Rattle.aml_regions.specs.Fields.{IsSoundField, bits_of, end};
ghost use Rattle.aml_regions.specs.Worlds.{CountsRefusal};
ghost use Rattle.aml_meaning.specs.Fields.{Takes, bits_written, others_cost, others_of, plan_writes, told, went, write_bits, write_count};
ghost use Rattle.aml_meaning.specs.Runs.{Runs, state};

use crate::kernel::replaced;
use crate::source::Bits;
use crate::units::{Units, end_of, first_of};
use aml_paths::NoMemory;
use aml_regions::{AnyField, OtherBits, World};

// What the bits of a unit that are not the field's are given; none are there where the unit is
// wholly the field's. None where more events are wanted than are left.
fn others<W: World, U: Units<W>>(
    world: &mut W,
    units: &U,
    unit: u64,
    whole: bool,
    left: &mut u64,
) -> Result<Option<u64>, NoMemory>
    requires ready { U.ready units.now }
    requires unit { unit < end (U.plan units.now).layout }
    ensures means { (frame : _) (names : _) → Runs (told result)
        (others_of whole (U.plan units.now).layout.others
        (bits_of (U.plan units.now).layout.width) ((U.plan units.now).read unit))
        (state frame names left.old (W.log world.old))
        (state frame names left.new (W.log world.new)) }
    ensures takes { Takes result
        (others_cost whole (U.plan units.now).layout.others (U.plan units.now).read_events)
        left.old left.new }
    ensures none { IfOk result (λ answer. IfNone answer (left.new ≡ 0)) }
    ensures fits { IfOk result
        (λ answer. IfSome answer (λ n. n < 2 ^ bits_of (U.plan units.now).layout.width)) }
    ensures refusal { CountsRefusal result (W.log world.old).refusals (W.log world.new).refusals }
{
    if whole {
        return Ok(Some(0));
    }
    let layout = units.layout();
    match layout.others {
        OtherBits::Preserve => units.read_unit(world, unit, left),
        OtherBits::Ones => Ok(Some(layout.width.ones())),
        OtherBits::Zeros => Ok(Some(0)),
    }
}

/// Gives bits to what is written unit by unit, in rising order: the lowest bits that it has room
/// for, with zeros behind them. False where more events are wanted than are left.
pub(crate) fn write_units<W: World, U: Units<W>, B: Bits>(
    world: &mut W,
    units: &U,
    value: &B,
    left: &mut u64,
) -> Result<bool, NoMemory>
    requires { U.ready units.now }
    ensures means { (frame : _) (names : _) →
        Runs (went result) (bits_written (U.plan units.now) (B.bit value.now))
        (state frame names left.old (W.log world.old))
        (state frame names left.new (W.log world.new)) }
    ensures takes { Takes result (plan_writes (U.plan units.now)) left.old left.new }
    ensures none { result ≡ Ok false → left.new ≡ 0 }
    ensures refusal { CountsRefusal result (W.log world.old).refusals (W.log world.new).refusals }
{
    let layout = units.layout();
    let width = u64::from(layout.width.bits());
    let mut done = 0;
    for unit in first_of(&layout)..end_of(&layout) {
        let skip = (layout.at + done) % width;
        let take = (width - skip).min(layout.bits - done);
        let Some(other) = others(world, units, unit, take == width, left)? else {
            return Ok(false);
        };
        let part = value.part(done, take as u32);
        let mixed = replaced(other, skip as u32, take as u32, part);
        if !units.write_unit(world, unit, mixed, left)? {
            return Ok(false);
        }
        done += take;
    }
    Ok(true)
}

/// Gives a field bits, those of an integer or of bytes, by at most `limit` events: the lowest bits
/// that it has room for, with zeros behind them. False where more events are wanted: the first
/// `limit` were made. It takes no memory of its own.
pub fn write_field<W: World, B: Bits>(
    world: &mut W,
    field: &AnyField,
    value: &B,
    limit: u64,
) -> Result<bool, NoMemory>
    requires { IsSoundField field.now }
    ensures means { (frame : _) (names : _) →
        Runs (went result) (write_bits field.now (B.bit value.now))
        (state frame names limit (W.log world.old))
        (state frame names (limit - write_count field.now) (W.log world.new)) }
    ensures refusal { CountsRefusal result (W.log world.old).refusals (W.log world.new).refusals }
{
    let mut left = limit;
    write_units(world, field, value, &mut left)
}
