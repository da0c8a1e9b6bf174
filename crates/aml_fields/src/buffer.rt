// Fields of buffers (ACPI 6.5, 19.6, CreateField and its kin).

ghost use Rattle.std.specs.Prelude.{◌≡◌, ◌<◌, ◌≤◌, ◌+◌, ◌*◌, ◌/◌, ◌^◌, length};
ghost use Rattle.aml_regions.specs.Bits.{byte_bit, number};
ghost use Rattle.aml_regions.specs.BufferFields.{bytes_of, stored};

use crate::bytes::{are_bytes, part_of_bytes};
use crate::kernel::byte_replaced;
use crate::source::Bits;

/// The integer of a field of a buffer, of at most 64 bits: bit i of the field is bit `(at + i) mod
/// 8` of the buffer's byte `(at + i) div 8`.
pub fn read_buffer_field(buffer: &[u8], at: u64, bits: u32) -> u64
    requires short { bits ≤ 64 }
    requires inside { at + bits ≤ 8 * length buffer.now }
    requires fits { at + bits < 2 ^ 64 }
    ensures { result ≡ number bits (λ i. byte_bit buffer.now (at + i)) }
{
    part_of_bytes(buffer, at, bits)
}

/// The bytes of a field of a buffer, as many as its bits want: zeros stand behind its last bit. It
/// takes no memory.
pub fn read_wide_buffer_field(buffer: &[u8], at: u64, bits: u64, bytes: &mut [u8])
    requires size { length bytes.old ≡ (bits + 7) / 8 }
    requires most { bits < 2 ^ 32 }
    requires fits { at + bits < 2 ^ 64 }
    ensures { bytes.new ≡ bytes_of ((bits + 7) / 8) bits (λ i. byte_bit buffer.now (at + i)) }
{
    let mut done = 0;
    for place in 0..bytes.len() {
        let take = (bits - done).min(8);
        bytes[place] = part_of_bytes(buffer, at + done, take as u32) as u8;
        done += take;
    }
}

/// Gives a field of a buffer bits, those of an integer or of bytes: the lowest that it has room
/// for, with zeros behind them.
pub fn write_buffer_field<B: Bits>(buffer: &mut [u8], at: u64, bits: u64, value: &B)
    requires some { 0 < bits }
    requires inside { at + bits ≤ 8 * length buffer.old }
    requires fits { at + bits < 2 ^ 64 }
    ensures { buffer.new ≡ stored at bits (B.bit value.now) buffer.old }
{
    are_bytes(buffer);
    let end = (at + bits - 1) / 8 + 1;
    let mut done = 0;
    for unit in at / 8..end {
        let skip = (at + done) % 8;
        let take = (8 - skip).min(bits - done);
        let part = value.part(done, take as u32);
        let place = unit as usize;
        buffer[place] = byte_replaced(buffer[place], skip as u32, take as u32, part);
        done += take;
    }
}
