// Parts without parts of their own.

ghost use Rattle.std.specs.Prelude.{◌≡◌, ◌≤◌, ◌<◌, ◌+◌, length, IfOk};
ghost use Rattle.aml_lex.specs.Names.{name_of};
ghost use Rattle.aml_operators.specs.Places.{size_of};
ghost use Rattle.aml_tree.specs.Fault.{ReadsAs, TakesNone, same, refusal};
ghost use Rattle.aml_lex.specs.declared.fault.LexCause.TheVariants.{Truncated};
ghost use Rattle.aml_tree.specs.Leaf.{byte_at, end_at, name_at, bits_at, text_at, little_endian_at};

use crate::fault::{Refusal, TreeCause, TreeFault};
use aml_lex::{LexCause, NameRef, name_string, package_end, pkg_length, string_data};
use aml_operators::NumberSize;
use byteorder::{ByteOrder, LittleEndian};

/// The fault of bytes that end too early.
fn truncated(bytes: &[u8]) -> TreeFault
    ensures { result ≡
        TreeFault.Refused (refusal (TreeCause.Lexical Truncated) (length bytes.now)) }
{
    TreeFault::Refused(Refusal {
        cause: TreeCause::Lexical(LexCause::Truncated),
        at: bytes.len(),
    })
}

/// The byte at a place.
#[tactic(auto, unfolding(crate::specs::Leaf::byte_at))]
pub(crate) fn byte(bytes: &[u8], at: usize) -> Result<u8, TreeFault>
    ensures gives { ReadsAs same result (byte_at bytes.now at) }
    ensures spare { TakesNone result }
    ensures within { IfOk result (λ b. at < length bytes.now) }
{
    if at >= bytes.len() {
        return Err(truncated(bytes));
    }
    Ok(bytes[at])
}

/// A package's end, and the place behind its PkgLength.
#[tactic(auto, unfolding(crate::specs::Leaf::end_at))]
pub(crate) fn end(bytes: &[u8], at: usize) -> Result<(usize, usize), TreeFault>
    requires { at ≤ length bytes.now }
    ensures gives { ReadsAs same result (end_at bytes.now at) }
    ensures spare { TakesNone result }
    ensures ahead { IfOk result (λ p. at < p.1) }
    ensures inside { IfOk result (λ p. p.1 ≤ p.0) }
    ensures within { IfOk result (λ p. p.0 ≤ length bytes.now) }
{
    Ok(package_end(bytes, at)?)
}

/// A name string, and the place behind it.
#[tactic(auto, unfolding(crate::specs::Leaf::name_at))]
pub(crate) fn name(bytes: &[u8], at: usize) -> Result<(NameRef<'_>, usize), TreeFault>
    requires { at ≤ length bytes.now }
    ensures gives { ReadsAs (λ r. (name_of r.0, r.1)) result (name_at bytes.now at) }
    ensures spare { TakesNone result }
    ensures ahead { IfOk result (λ r. at < r.1) }
    ensures within { IfOk result (λ r. r.1 ≤ length bytes.now) }
{
    Ok(name_string(bytes, at)?)
}

/// A number of bits, and the place behind it.
#[tactic(auto, unfolding(crate::specs::Leaf::bits_at))]
pub(crate) fn bits(bytes: &[u8], at: usize) -> Result<(u32, usize), TreeFault>
    requires { at ≤ length bytes.now }
    ensures gives { ReadsAs same result (bits_at bytes.now at) }
    ensures spare { TakesNone result }
    ensures ahead { IfOk result (λ r. at < r.1) }
    ensures within { IfOk result (λ r. r.1 ≤ length bytes.now) }
{
    Ok(pkg_length(bytes, at)?)
}

/// The text at a place, and the place behind its 00.
#[tactic(auto, unfolding(crate::specs::Leaf::text_at))]
pub(crate) fn text(bytes: &[u8], at: usize) -> Result<(&[u8], usize), TreeFault>
    requires { at ≤ length bytes.now }
    ensures gives { ReadsAs (λ r. (r.0.now, r.1)) result (text_at bytes.now at) }
    ensures spare { TakesNone result }
    ensures ahead { IfOk result (λ r. at < r.1) }
    ensures within { IfOk result (λ r. r.1 ≤ length bytes.now) }
{
    Ok(string_data(bytes, at)?)
}

/// A little endian number of so many bytes, and the place behind it.
#[tactic(auto, unfolding(crate::specs::Leaf::little_endian_at))]
pub(crate) fn number(size: NumberSize, bytes: &[u8], at: usize) -> Result<(u64, usize), TreeFault>
    requires { at ≤ length bytes.now }
    ensures gives { ReadsAs same result (little_endian_at (size_of size) bytes.now at) }
    ensures spare { TakesNone result }
    ensures ahead { IfOk result (λ r. at < r.1) }
    ensures within { IfOk result (λ r. r.1 ≤ length bytes.now) }
{
    let count = size.size();
    if bytes.len() - at < count {
        return Err(truncated(bytes));
    }
    Ok((LittleEndian::read_uint(&bytes[at..], count), at + count))
}
