// Reads of fields as values.

ghost use Rattle.std.specs.Prelude.{◌≡◌, ◌⊎◌, ◌-◌, ◌≤◌, IfOk, OnErr};
ghost use Rattle.aml_objects.specs.Widths.{bits_of};
ghost use Rattle.aml_regions.specs.Fields.{IsSoundField, layout_of};
ghost use Rattle.aml_regions.specs.Worlds.{CountsRefusal};
ghost use Rattle.aml_meaning.specs.Fields.{read_count, read_value};
ghost use Rattle.aml_meaning.specs.Runs.{Runs, state};
ghost use Rattle.aml_fields.specs.Told.{told_value};

use crate::read::read_integer_field;
use crate::wide::read_wide_field;
use aml_namespace::Width;
use aml_paths::NoMemory;
use aml_regions::{AnyField, World};
use aml_values::{Bytes, Value};
use std::alloc::Global;

/// A field's value, by at most `limit` events: an integer, where the field has no more bits than
/// integers of this width, and else a buffer of as many bytes as its bits want, with zeros behind
/// the last one. None where more events are wanted: the first `limit` were made. It takes memory
/// for a buffer alone, before its first event.
pub fn read_field<W: World>(
    alloc: Global,
    world: &mut W,
    field: &AnyField,
    width: Width,
    limit: u64,
) -> Result<Option<Value>, NoMemory>
    requires { IsSoundField field.now }
    ensures means { (frame : _) (names : _) →
        Runs (told_value result) (read_value (bits_of width) field.now)
        (state frame names limit (W.log world.old))
        (state frame names (limit - read_count field.now) (W.log world.new)) }
    ensures narrow { (layout_of field.now).bits ≤ bits_of width →
        CountsRefusal result (W.log world.old).refusals (W.log world.new).refusals }
    ensures answered { IfOk result (λ _. (W.log world.new).refusals ≡ (W.log world.old).refusals) }
    ensures before { OnErr result ((W.log world.new ≡ W.log world.old)
        ⊎ CountsRefusal result (W.log world.old).refusals (W.log world.new).refusals) }
{
    let bits = field.layout().bits;
    if bits <= u64::from(width.bits()) {
        return match read_integer_field(world, field, limit)? {
            Some(number) => Ok(Some(Value::Int(number))),
            None => Ok(None),
        };
    }
    let Ok(mut bytes) = vec![in alloc; 0u8; ((bits + 7) / 8) as usize] else {
        return Err(NoMemory);
    };
    if !read_wide_field(world, field, &mut bytes, limit)? {
        return Ok(None);
    }
    Ok(Some(Value::Buf(Bytes::new(bytes))))
}
