// Integer data (ACPI 6.5, 20.2.3).

ghost use Rattle.std.specs.Prelude.{◌≡◌, ◌≤◌, ◌<◌, length, IfOk, IfSome};
ghost use Rattle.aml_lex.specs.Exact.{ReadsInteger};
ghost use Rattle.aml_lex.specs.Reading.{integer_data_at};

use crate::fault::{LexFault, truncated_fault};
use byteorder::{ByteOrder, LittleEndian};

/// The integer data at a place, and the place behind it; `None` at a byte that begins none.
///
/// The bytes are 00, 01 or FF for 0, 1 and the greatest number, or 0A, 0B, 0C or 0E and a number of
/// 1, 2, 4 or 8 bytes, the lowest first.
///
/// Fault: E201 at the end of the bytes, where they end before or inside it.
pub fn integer_data(bytes: &[u8], at: usize) -> Result<Option<(u64, usize)>, LexFault>
    requires { at ≤ length bytes.now }
    ensures gives { result ≡ integer_data_at bytes.now at }
    ensures spells { ReadsInteger bytes.now at result }
    ensures ahead { IfOk result (λ o. IfSome o (λ r. at < r.1)) }
    ensures within { IfOk result (λ o. IfSome o (λ r. r.1 ≤ length bytes.now)) }
{
    find_integer_data(bytes, at)
}

/// The integer data, by its definition.
#[tactic(auto, unfolding(crate::specs::Reading::integer_data_at))]
fn find_integer_data(bytes: &[u8], at: usize) -> Result<Option<(u64, usize)>, LexFault>
    requires { at ≤ length bytes.now }
    ensures gives { result ≡ integer_data_at bytes.now at }
    ensures ahead { IfOk result (λ o. IfSome o (λ r. at < r.1)) }
    ensures within { IfOk result (λ o. IfSome o (λ r. r.1 ≤ length bytes.now)) }
{
    let Some(first) = bytes.get(at) else {
        return Err(truncated_fault(bytes));
    };
    let size = match *first {
        0x00 => return Ok(Some((0, at + 1))),
        0x01 => return Ok(Some((1, at + 1))),
        0xFF => return Ok(Some((u64::MAX, at + 1))),
        0x0A => 1,
        0x0B => 2,
        0x0C => 4,
        0x0E => 8,
        _ => return Ok(None),
    };
    let number = &bytes[at + 1..];
    if number.len() < size {
        return Err(truncated_fault(bytes));
    }
    Ok(Some((LittleEndian::read_uint(number, size), at + 1 + size)))
}
