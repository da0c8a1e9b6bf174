// A field of 8 bits in the midst of a unit, read and written again and again.

use crate::one_field::Unit;
use aml_fields::{read_integer_field, sound, write_field};
use aml_regions::{AnyField, FieldLayout, OtherBits, RegionField, UnitWidth};

/// Bits 4 to 11 of the unit at 0x10; where the optimiser cannot see them.
#[inline(never)]
fn field(at: u64) -> AnyField {
    AnyField::Plain(RegionField {
        space: 0,
        place: 0x10,
        length: 2,
        layout: FieldLayout {
            at,
            bits: 8,
            width: UnitWidth::Word,
            others: OtherBits::Preserve,
        },
    })
}

/// The field's integer, once a turn, summed up.
pub(crate) fn read_again(turns: u64) -> Option<u64> {
    let mut world = Unit::<false>::new(0);
    let field = field(4);
    if !sound(&field) || field.layout().bits > 64 {
        return None;
    }
    let mut sum = 0u64;
    for _ in 0..turns {
        match read_integer_field(&mut world, &field, 1) {
            Ok(Some(value)) => sum = sum.wrapping_add(value),
            _ => return None,
        }
    }
    Some(sum)
}

/// The field is given an integer, once a turn; how many turns the world took.
pub(crate) fn write_again(turns: u64) -> Option<u64> {
    let mut world = Unit::<true>::new(0xac3a);
    let field = field(4);
    if !sound(&field) {
        return None;
    }
    for _ in 0..turns {
        match write_field(&mut world, &field, &0xc3, 2) {
            Ok(true) => {}
            _ => return None,
        }
    }
    Some(world.turns)
}
