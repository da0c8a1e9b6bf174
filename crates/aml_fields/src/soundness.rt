// Which fields can be read and written.

ghost use Rattle.std.specs.Prelude.{◌≡◌, ◌<◌, ◌≤◌, ◌+◌, ◌^◌, ◌↔◌, IsTrue};
ghost use Rattle.aml_regions.specs.Fields.{IsLaidOut, IsSound, IsSoundField, IsSoundIndexed, is_known_space};

use crate::units::{end_of, place_of};
use aml_regions::{AnyField, FieldLayout, IndexedField, RegionField};

/// Whether a field can be read and written. A field of a region: it has between 1 and 2,048 bits,
/// its last bit lies below 2^64, its units lie in the region, each as a whole, the region lies
/// below 2^64, and its space is known. Behind a bank field: that is so of both. Behind an index
/// field and a data field: its bits are as many, its last bit lies below 2^64, index and data field
/// are such fields of regions, and the data field has just as many bits as a unit.
pub fn sound(field: &AnyField) -> bool
    ensures { IsTrue result ↔ IsSoundField field.now }
{
    match field {
        AnyField::Plain(field) => is_sound(field),
        AnyField::Banked(field) => is_sound(&field.field) && is_sound(&field.bank),
        AnyField::Indexed(field) => is_sound_indexed(field),
    }
}

// Whether a field of a region is sound.
fn is_sound(field: &RegionField) -> bool
    ensures { IsTrue result ↔ IsSound field.now }
{
    if !is_laid_out(&field.layout) {
        return false;
    }
    is_known(u64::from(field.space))
        && place_of(&field.layout, end_of(&field.layout)) <= field.length
        && is_region(field.place, field.length)
}

// Whether an index field and a data field reach a field's units.
fn is_sound_indexed(field: &IndexedField) -> bool
    ensures { IsTrue result ↔ IsSoundIndexed field.now }
{
    is_laid_out(&field.layout)
        && is_sound(&field.index_field)
        && is_sound(&field.data_field)
        && field.data_field.layout.bits == u64::from(field.layout.width.bits())
}

// Whether a field has a bit, no more than 2,048, and none past 2^64.
fn is_laid_out(layout: &FieldLayout) -> bool
    ensures { IsTrue result ↔ IsLaidOut layout.now }
{
    0 < layout.bits && layout.bits <= 2048 && is_below(layout.at, layout.bits)
}

fn is_below(at: u64, bits: u64) -> bool
    ensures { IsTrue result ↔ (at + bits < 2 ^ 64) }
{
    bits <= u64::MAX - at
}

/// Whether the regions of a space can be accessed.
pub(crate) fn is_known(space: u64) -> bool
    ensures { result ≡ is_known_space space }
{
    space <= 3 || space == 5
}

// Whether no address of a region passes the last one.
fn is_region(place: u64, length: u64) -> bool
    ensures { IsTrue result ↔ (place + length ≤ 2 ^ 64) }
{
    length == 0 || length - 1 <= u64::MAX - place
}
