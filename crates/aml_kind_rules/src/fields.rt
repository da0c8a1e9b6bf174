// Fields, and fields of buffers.

ghost use Rattle.std.specs.Prelude.{◌≡◌, ◌+◌, ◌*◌, ◌/◌, ℕ, nat_le};
ghost use Rattle.std.specs.Option.{option_map};
ghost use Rattle.aml_kinds.specs.Kinds.{Shape};
ghost use Rattle.aml_judged.specs.KindRules as rule;
ghost use Rattle.aml_meaning.specs.BufferFields.{first_bit};
ghost use Rattle.aml_known.specs.Views.{kind_of};
ghost use Rattle.aml_objects.specs.Widths.{bits_of};
ghost use Rattle.aml_rules.specs.Tells.{place_of};
ghost use Rattle.aml_kind_rules.specs.Tells.{told};

use crate::numbers::ones;
use crate::refused::refused;
use aml_causes::{Cause, Refusal};
use aml_known::Known;
use aml_meaning::BufferField;
use aml_namespace::Width;
use aml_rules::Place;

/// As many bytes as so many bits fill.
fn bytes_of(bits: u64) -> u64
    ensures { result ≡ (bits + 7) / 8 }
{
    let whole = bits / 8;
    if bits % 8 == 0 { whole } else { whole + 1 }
}

/// A field of so many bits: an integer where integers have as many, else a buffer (ACPI 6.5,
/// 5.5.2.4; 19.6, Field).
pub fn field_kind(width: Width, bits: u64) -> Known
    ensures { (shapes : ℕ → Shape) → kind_of shapes result ≡ rule.field_kind (bits_of width) bits }
{
    if bits > u64::from(width.bits()) {
        Known::Buf(bytes_of(bits))
    } else {
        Known::Int(ones(bits))
    }
}

/// What a field of so many bits takes: integers, and a wide one a buffer of just its bytes. V3 at
/// the field of anything else.
pub fn given_kind(width: Width, field: Place, bits: u64, kind: Known) -> Result<(), Refusal>
    ensures { (shapes : ℕ → Shape) → told (λ u. u) result
        ≡ rule.given_kind (bits_of width) (place_of field) bits (kind_of shapes kind) }
{
    match kind {
        Known::Int(_) => Ok(()),
        Known::Buf(size) if bits > u64::from(width.bits()) && size == bytes_of(bits) => Ok(()),
        _ => Err(refused(Cause::WrongKind, field)),
    }
}

/// Whether a field lies in a buffer of so many bytes.
pub fn lies_inside(field: BufferField, size: u64) -> bool
    ensures { result ≡ nat_le (first_bit field + field.bits) (8 * size) }
{
    let first = u128::from(field.byte) * 8 + u128::from(field.bit);
    first + u128::from(field.bits) <= u128::from(size) * 8
}

/// A field of a buffer, by the kind of its source (19.6, CreateField). V3 at the field of what is
/// no buffer, V7 of one that does not lie inside.
pub fn source_kind(at: Place, field: BufferField, source: Option<Known>) -> Result<(), Refusal>
    ensures { (shapes : ℕ → Shape) → told (λ u. u) result
        ≡ rule.source_kind (place_of at) field (option_map (kind_of shapes) source) }
{
    match source {
        Some(Known::Buf(size)) if lies_inside(field, size) => Ok(()),
        Some(Known::Buf(_)) => Err(refused(Cause::Index, at)),
        _ => Err(refused(Cause::WrongKind, at)),
    }
}

/// What is stored into a field of a buffer: its source is asked first.
pub fn buffer_field_stored_kind(
    width: Width,
    at: Place,
    field: BufferField,
    source: Option<Known>,
    kind: Known,
) -> Result<(), Refusal>
    ensures { (shapes : ℕ → Shape) → told (λ u. u) result
        ≡ rule.buffer_field_stored_kind (bits_of width) (place_of at) field
        (option_map (kind_of shapes) source) (kind_of shapes kind) }
{
    source_kind(at, field, source)?;
    given_kind(width, at, field.bits, kind)
}
