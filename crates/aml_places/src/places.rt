// Where parts end that are known to stand at a place (ACPI 6.5, 20.2.2 to 20.2.5).

ghost use Rattle.std.specs.Prelude.{◌≡◌, ◌≤◌, ◌<◌, IfOk, IsOk, Ok, length, slice_get};
ghost use Rattle.aml_lex.specs.Reading.{name_string_at, package_end_at, string_data_at};
ghost use Rattle.aml_operators.specs.declared.row.Spot.TheVariants as spot;
ghost use Rattle.aml_places.specs.Forms.{ElseThere, Form, LiesSome};
ghost use Rattle.aml_places.specs.Lies.{LieElse, LiesTarget, is_else_byte};

use aml_lex::{leads_segment, name_string, package_end, string_data};
use aml_operators::Op;
use aml_tree::op_at;

/// The end of the package whose length stands at a place, and the place behind that length.
pub fn package(bytes: &[u8], at: usize) -> (usize, usize)
    requires { IsOk (package_end_at bytes.now at) }
    ensures is { package_end_at bytes.now at ≡ Ok result }
    ensures ahead { at < result.1 }
    ensures own { result.1 ≤ result.0 }
    ensures within { result.0 ≤ length bytes.now }
{
    match package_end(bytes, at) {
        Ok(read) => read,
        Err(_) => unreachable!(),
    }
}

/// The place behind the 00 of the text at a place.
pub fn text_end(bytes: &[u8], at: usize) -> usize
    requires { IsOk (string_data_at bytes.now at) }
    ensures is { IfOk (string_data_at bytes.now at) (λ r. r.1 ≡ result) }
    ensures ahead { at < result }
    ensures within { result ≤ length bytes.now }
{
    match string_data(bytes, at) {
        Ok((_, end)) => end,
        Err(_) => unreachable!(),
    }
}

/// The place behind the name at a place. One that begins with a segment has no other, so that
/// nothing behind its first byte is looked at.
pub fn name_end(bytes: &[u8], at: usize) -> usize
    requires { IsOk (name_string_at bytes.now at) }
    ensures is { IfOk (name_string_at bytes.now at) (λ r. r.1 ≡ result) }
    ensures ahead { at < result }
    ensures within { result ≤ length bytes.now }
{
    if let Some(byte) = bytes.get(at) {
        if leads_segment(*byte) {
            return at + 4;
        }
    }
    read_end(bytes, at)
}

/// The same, by the whole name.
fn read_end(bytes: &[u8], at: usize) -> usize
    requires { IsOk (name_string_at bytes.now at) }
    ensures is { IfOk (name_string_at bytes.now at) (λ r. r.1 ≡ result) }
    ensures ahead { at < result }
    ensures within { result ≤ length bytes.now }
{
    match name_string(bytes, at) {
        Ok((_, stop)) => stop,
        Err(_) => unreachable!(),
    }
}

/// Whether an Else begins at a place.
pub fn has_else(bytes: &[u8], at: usize) -> bool
    ensures { result ≡ is_else_byte (slice_get bytes.now at) }
{
    match bytes.get(at) {
        Some(byte) => *byte == 0xA1,
        None => false,
    }
}

/// The place behind the Else at a place, or that place where none stands there.
pub fn past_else(bytes: &[u8], at: usize) -> usize
    requires { ElseThere bytes.now at }
    ensures is { (count : _) (stop : _) (parts : _) → LieElse count bytes.now at stop parts →
        result ≡ stop }
    ensures ahead { at ≤ result }
{
    if has_else(bytes, at) {
        package(bytes, at + 1).0
    } else {
        at
    }
}

/// The operator of the term in the place of a target, and the place behind its opcode: NullName
/// where there is no target, and NameString where a name stands, whose place is the one behind it.
pub fn target_at(bytes: &[u8], at: usize) -> (Op, usize)
    requires { LiesSome spot.Target bytes.now at }
    ensures is { (count : _) (t : _) → LiesTarget count bytes.now at t →
        Form count result.0 bytes.now at result.1 t }
    ensures ahead { at < result.1 }
    ensures within { result.1 ≤ length bytes.now }
{
    match op_at(bytes, at) {
        Some((op, next)) => match op {
            Op::Zero => (Op::NullName, at + 1),
            _ => (op, next),
        },
        None => (Op::NameString, name_end(bytes, at)),
    }
}
