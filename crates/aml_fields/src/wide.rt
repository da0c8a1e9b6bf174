// Reads of fields as bytes.

ghost use Rattle.std.specs.Prelude.{◌≡◌, ◌+◌, ◌-◌, ◌/◌, length};
ghost use Rattle.aml_regions.specs.Fields.{IsSoundField, layout_of};
ghost use Rattle.aml_regions.specs.Worlds.{CountsRefusal};
ghost use Rattle.aml_meaning.specs.Fields.{read_bytes, read_count, told_bytes};
ghost use Rattle.aml_meaning.specs.Runs.{Runs, state};

use crate::gather::GatheredBytes;
use crate::read::read_units;
use aml_paths::NoMemory;
use aml_regions::{AnyField, World};

/// The bytes of a field, as many as its bits want, by at most `limit` events: zeros stand behind
/// its last bit. False where more events are wanted: the first `limit` were made, and the bytes are
/// not the field's. It takes no memory of its own.
pub fn read_wide_field<W: World>(
    world: &mut W,
    field: &AnyField,
    bytes: &mut [u8],
    limit: u64,
) -> Result<bool, NoMemory>
    requires sound { IsSoundField field.now }
    requires size { length bytes.old ≡ ((layout_of field.now).bits + 7) / 8 }
    ensures means { (frame : _) (names : _) →
        Runs (told_bytes result bytes.new) (read_bytes field.now)
        (state frame names limit (W.log world.old))
        (state frame names (limit - read_count field.now) (W.log world.new)) }
    ensures refusal { CountsRefusal result (W.log world.old).refusals (W.log world.new).refusals }
{
    let mut left = limit;
    let mut gathered = GatheredBytes { bytes };
    read_units(world, field, &mut gathered, &mut left)
}
