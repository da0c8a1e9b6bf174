// Reads of fields as integers.

ghost use Rattle.std.specs.Prelude.{◌≡◌, ◌<◌, ◌≤◌, ◌-◌, ◌*◌, ◌^◌, IfOk, IfSome, IfNone, Ok, false, true};
ghost use Rattle.aml_regions.specs.Fields.{IsSoundField, layout_of};
ghost use Rattle.aml_regions.specs.Worlds.{CountsRefusal};
ghost use Rattle.aml_meaning.specs.Fields.{Takes, integer_read, plan_reads, read_count, read_integer, told};
ghost use Rattle.aml_meaning.specs.Runs.{Runs, state};
ghost use Rattle.aml_fields.specs.Gathered.{HasBits, bits_read, told_gathered};

use crate::gather::Gathers;
use crate::kernel::run;
use crate::units::{Units, end_of, first_of};
use aml_paths::NoMemory;
use aml_regions::{AnyField, World};

/// Gathers the bits of what is read unit by unit, in rising order. False where more events are
/// wanted than are left.
pub(crate) fn read_units<W: World, U: Units<W>, G: Gathers>(
    world: &mut W,
    units: &U,
    gathered: &mut G,
    left: &mut u64,
) -> Result<bool, NoMemory>
    requires ready { U.ready units.now }
    requires room { (U.plan units.now).layout.bits ≤ 8 * G.size gathered.old }
    ensures means { (frame : _) (names : _) →
        Runs (told_gathered result (G.value gathered.new))
        (bits_read (U.plan units.now) (G.made (G.size gathered.old)))
        (state frame names left.old (W.log world.old))
        (state frame names left.new (W.log world.new)) }
    ensures bits { result ≡ Ok true →
        HasBits (G.made (G.size gathered.old)) (U.plan units.now).layout.bits
        (G.value gathered.new) }
    ensures same_reference { G.name gathered.new ≡ G.name gathered.old }
    ensures takes { Takes result (plan_reads (U.plan units.now)) left.old left.new }
    ensures none { result ≡ Ok false → left.new ≡ 0 }
    ensures refusal { CountsRefusal result (W.log world.old).refusals (W.log world.new).refusals }
{
    let layout = units.layout();
    let width = u64::from(layout.width.bits());
    gathered.clear();
    let mut done = 0;
    for unit in first_of(&layout)..end_of(&layout) {
        let Some(answer) = units.read_unit(world, unit, left)? else {
            return Ok(false);
        };
        let skip = (layout.at + done) % width;
        let take = (width - skip).min(layout.bits - done);
        let part = run(answer, skip as u32, take as u32);
        gathered.put(done, take, part);
        done += take;
    }
    Ok(true)
}

/// The integer of what has at most 64 bits, read unit by unit in rising order. None where more
/// events are wanted than are left.
pub(crate) fn read_integer<W: World, U: Units<W>>(
    world: &mut W,
    units: &U,
    left: &mut u64,
) -> Result<Option<u64>, NoMemory>
    requires ready { U.ready units.now }
    requires short { (U.plan units.now).layout.bits ≤ 64 }
    ensures means { (frame : _) (names : _) → Runs (told result) (integer_read (U.plan units.now))
        (state frame names left.old (W.log world.old))
        (state frame names left.new (W.log world.new)) }
    ensures takes { Takes result (plan_reads (U.plan units.now)) left.old left.new }
    ensures none { IfOk result (λ answer. IfNone answer (left.new ≡ 0)) }
    ensures fits { IfOk result
        (λ answer. IfSome answer (λ n. n < 2 ^ (U.plan units.now).layout.bits)) }
    ensures refusal { CountsRefusal result (W.log world.old).refusals (W.log world.new).refusals }
{
    let mut value = 0u64;
    if !read_units(world, units, &mut value, left)? {
        return Ok(None);
    }
    Ok(Some(value))
}

/// The integer of a field of at most 64 bits, by at most `limit` events. None where more are
/// wanted: the first `limit` were made. It takes no memory of its own.
pub fn read_integer_field<W: World>(
    world: &mut W,
    field: &AnyField,
    limit: u64,
) -> Result<Option<u64>, NoMemory>
    requires sound { IsSoundField field.now }
    requires short { (layout_of field.now).bits ≤ 64 }
    ensures means { (frame : _) (names : _) → Runs (told result) (read_integer field.now)
        (state frame names limit (W.log world.old))
        (state frame names (limit - read_count field.now) (W.log world.new)) }
    ensures refusal { CountsRefusal result (W.log world.old).refusals (W.log world.new).refusals }
{
    let mut left = limit;
    read_integer(world, field, &mut left)
}
