// The fields of buffers of a namespace (ACPI 6.5, 19.6, CreateField and its kin).

ghost use Rattle.std.specs.Prelude.{◌≡◌, ◌<◌, ◌≤◌, ◌+◌, ◌*◌, ◌^◌, length, IfOk, IfSome, IsOk, IsTrue};
ghost use Rattle.aml_values.specs.Views.{view};
ghost use Rattle.aml_namespace.specs.Shows.{shown};
ghost use Rattle.aml_objects.specs.Widths.{bits_of};
ghost use Rattle.aml_regions.specs.BufferFields.{in_bytes};
ghost use Rattle.aml_regions.specs.Fields.{mixed};
ghost use Rattle.aml_meaning.specs.BufferFields.{IsLaidOut, bit_in_byte, buffer_field_numbered, buffer_field_of, buffer_field_value, byte_at, first_bit, is_laid_out, made_buffer_field, source_link, usable_buffer_field};

use crate::buffer::{read_buffer_field, read_wide_buffer_field};
use crate::kernel::byte_replaced;
use crate::source::Bits;
use aml_meaning::BufferField;
use aml_namespace::{CreatedField, CreatedFieldSize, Link, Namespace, Object, Width};
use aml_paths::{NoMemory, ObjectId};
use aml_values::{Bytes, Value};
use std::alloc::Global;

// The byte at an index, which counts bits of a bit field and of one of so many bits, and else
// bytes.
fn byte_at(size: CreatedFieldSize, index: u64) -> u64
    ensures { result ≡ byte_at size index }
{
    match size {
        CreatedFieldSize::Bit | CreatedFieldSize::Bits(_) => index / 8,
        _ => index,
    }
}

// The bit there.
fn bit_in_byte(size: CreatedFieldSize, index: u64) -> u8
    ensures { result ≡ bit_in_byte size index }
{
    match size {
        CreatedFieldSize::Bit | CreatedFieldSize::Bits(_) => (index % 8) as u8,
        _ => 0,
    }
}

/// The field of a source with this size, at an index that counts bits for CreateBitField and
/// CreateField and else bytes (ACPI 6.5, 19.6). Integers are taken modulo 2 to the width. Its first
/// bit may lie past 2^64.
pub fn made_buffer_field(
    width: Width,
    source: Link,
    size: CreatedFieldSize,
    index: u64,
) -> BufferField
    ensures { result ≡ made_buffer_field (bits_of width) source size index }
{
    let index = width.wrapped(index);
    BufferField {
        source,
        byte: byte_at(size, index),
        bit: bit_in_byte(size, index),
        bits: size.bits(width),
    }
}

// A source, where it is a data name.
fn source_link(namespace: &Namespace<'_>, source: Option<ObjectId>) -> Link
    ensures { result ≡ source_link (shown namespace.now) source }
{
    let Some(id) = source else {
        return Link::Missing;
    };
    match namespace.object(id) {
        Some(Object::Data(_)) => Link::Data(id),
        _ => Link::Missing,
    }
}

// Whether a field has a bit, and no more than 2,048.
fn is_laid_out(field: BufferField) -> bool
    ensures is { result ≡ is_laid_out field }
    ensures laid_out { IsTrue result → IsLaidOut field }
{
    0 < field.bits && field.bits <= 2048
}

/// A field, where it can be read and written. None where it has no bit or more than 2,048.
pub fn usable_buffer_field(field: BufferField) -> Option<BufferField>
    ensures is { result ≡ usable_buffer_field field }
    ensures laid_out { IfSome result IsLaidOut }
{
    if is_laid_out(field) {
        Some(field)
    } else {
        None
    }
}

// The field that a buffer field of a namespace is, where it can be read and written.
fn buffer_field_in(namespace: &Namespace<'_>, field: &CreatedField) -> Option<BufferField>
    ensures is { result ≡ usable_buffer_field (buffer_field_of (shown namespace.now) field.now) }
    ensures laid_out { IfSome result IsLaidOut }
{
    let source = source_link(namespace, field.source.object);
    usable_buffer_field(made_buffer_field(namespace.width(), source, field.size, field.index))
}

/// The field of a buffer that the object with a number is. None where it is none, or has no bit or
/// more than 2,048.
pub fn buffer_field_numbered(namespace: &Namespace<'_>, id: ObjectId) -> Option<BufferField>
    ensures is { result ≡ buffer_field_numbered (shown namespace.now) id.0 }
    ensures laid_out { IfSome result IsLaidOut }
{
    match namespace.object(id) {
        Some(Object::BufferField(field)) => buffer_field_in(namespace, &field),
        _ => None,
    }
}

/// The value of a field of a buffer: an integer, where it has no more bits than integers of this
/// width, and else a buffer of as many bytes as its bits want. It takes memory for a buffer alone.
pub fn buffer_field_value(
    alloc: Global,
    width: Width,
    field: BufferField,
    bytes: &[u8],
) -> Result<Value, NoMemory>
    requires most { field.bits ≤ 2048 }
    requires inside { first_bit field + field.bits ≤ 8 * length bytes.now }
    ensures value { IfOk result (λ v. view v ≡ buffer_field_value (bits_of width) field bytes.now) }
    ensures narrow { field.bits ≤ bits_of width → IsOk result }
{
    let behind = &bytes[field.byte as usize..];
    let at = u64::from(field.bit);
    if field.bits <= u64::from(width.bits()) {
        let number = read_buffer_field(behind, at, field.bits as u32);
        return Ok(Value::Int(number));
    }
    let Ok(mut read) = vec![in alloc; 0u8; ((field.bits + 7) / 8) as usize] else {
        return Err(NoMemory);
    };
    read_wide_buffer_field(behind, at, field.bits, &mut read);
    Ok(Value::Buf(Bytes::new(read)))
}

/// The byte with a number of a buffer, which was `byte`, behind a store of bits into a field of
/// that buffer: those of an integer or of bytes, the lowest that the field has room for, with zeros
/// behind them.
pub fn stored_byte<B: Bits>(field: BufferField, place: u64, byte: u8, value: &B) -> u8
    requires { IsLaidOut field }
    ensures { result ≡ mixed (in_bytes (first_bit field) field.bits) (B.bit value.now) place byte }
{
    if place < field.byte {
        return byte;
    }
    byte_within(
        place - field.byte,
        byte,
        u64::from(field.bit),
        field.bits,
        value,
    )
}

// The same of the bytes from one on, which a field begins at a bit of.
fn byte_within<B: Bits>(unit: u64, byte: u8, at: u64, bits: u64, value: &B) -> u8
    requires some { 0 < bits }
    requires fits { at + bits < 2 ^ 60 }
    ensures { result ≡ mixed (in_bytes at bits) (B.bit value.now) unit byte }
{
    if unit < at / 8 || (at + bits - 1) / 8 < unit {
        return byte;
    }
    let done = (unit * 8).saturating_sub(at);
    let skip = (at + done) % 8;
    let take = (8 - skip).min(bits - done);
    let part = value.part(done, take as u32);
    byte_replaced(byte, skip as u32, take as u32, part)
}
