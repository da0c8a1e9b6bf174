// Fields of buffers that are read and stored into where they stand (ACPI 6.5, 19.6, CreateField and
// its kin).

ghost use Rattle.std.specs.Prelude.{◌≡◌, ℕ, ◌<◌, ◌≤◌, ◌+◌, ◌*◌, ◌/◌, ◌^◌, nat_le, slice_index, List, Some};
ghost use Rattle.std.specs.Option.{option_map};
ghost use Rattle.aml_values.specs.Values.{Buf};
ghost use Rattle.aml_values.specs.Views.{view};
ghost use Rattle.aml_contents.specs.Contents.{content_at, with_content};
ghost use Rattle.aml_contents.specs.Held.{contents, content_kinds};
ghost use Rattle.aml_regions.specs.BufferFields.{stored};
ghost use Rattle.aml_regions.specs.Events.{Log};
ghost use Rattle.aml_meaning.specs.BufferFields.{IsLaidOut, first_bit};
ghost use Rattle.aml_meaning.specs.Changes.{held_by};
ghost use Rattle.aml_machine.specs.Views.{buffer_of, now};

use crate::machine::Machine;
use aml_contents::Names;
use aml_fields::{Bits, stored_byte};
use aml_meaning::BufferField;
use aml_namespace::Link;
use aml_paths::ObjectId;
use aml_values::Value;

/// What the source of a field holds.
pub fn held_by(machine: &Machine, source: Link) -> Option<&Value>
    ensures { (log : Log) → option_map (λ v. view v.now) result
        ≡ held_by source (now machine.now log) }
{
    match source {
        Link::Data(id) => machine.names.get(id),
        Link::Own(number) => machine.frame.owns.get(ObjectId(number)),
        _ => None,
    }
}

/// In how many bytes a field has a bit, from the one on from which its first bit is counted.
fn bytes_from(field: BufferField) -> u64
    requires { IsLaidOut field }
    ensures { result ≡ (field.bit + field.bits + 7) / 8 }
{
    (u64::from(field.bit) + field.bits + 7) / 8
}

/// Whether all bits of a field lie in a buffer of so many bytes.
pub fn lies_in(field: BufferField, size: usize) -> bool
    requires { IsLaidOut field }
    ensures { result ≡ nat_le (first_bit field + field.bits) (8 * size) }
{
    field.byte <= size as u64 && bytes_from(field) <= size as u64 - field.byte
}

/// The bytes of a buffer; none of anything else.
fn bytes_of<'a>(held: Option<&'a Value>) -> &'a [u8]
    ensures { result.now ≡ buffer_of (option_map (λ v. view v.now) held.entry) }
{
    match held {
        Some(Value::Buf(bytes)) => bytes.as_slice(),
        _ => &[],
    }
}

/// The byte that stands there; zero past the end.
fn byte_at(bytes: &[u8], place: usize) -> u8
    ensures { result ≡ slice_index bytes.now place }
{
    match bytes.get(place) {
        Some(byte) => *byte,
        None => 0,
    }
}

/// The items of a list of bytes are bytes.
fn are_bytes(bytes: &[u8])
    ensures { (i : ℕ) → slice_index bytes.now i < 2 ^ 8 }
{}

/// Stores bits into a field of the buffer of so many bytes that the name with a number holds, a
/// byte at a time and in place. It takes no memory.
pub fn put_bits<B: Bits>(
    field: BufferField,
    size: usize,
    value: &B,
    names: &mut Names,
    id: ObjectId,
)
    requires laid_out { IsLaidOut field }
    requires inside { first_bit field + field.bits ≤ 8 * size }
    ensures put { (bytes : List ℕ) → content_at (contents names.old) id.0 ≡ Some (Buf bytes) →
        contents names.new ≡ with_content (contents names.old) id.0
        (Buf (stored (first_bit field) field.bits (B.bit value.now) bytes)) }
    ensures kinds { content_kinds names.new ≡ content_kinds names.old }
{
    are_bytes(bytes_of(names.get(id)));
    let first = field.byte as usize;
    for place in first..first + bytes_from(field) as usize {
        let old = byte_at(bytes_of(names.get(id)), place);
        let byte = stored_byte(field, place as u64, old, value);
        names.set_byte(id, place, byte);
    }
}
