// Reading name strings (ACPI 6.5, 20.2.2).

ghost use Rattle.std.specs.Prelude.{◌≡◌, ◌≤◌, ◌<◌, ◌*◌, ◌+◌, ◌↔◌, ℕ, List, [], ◌∷◌, length, take, drop, IfOk, IsTrue};
ghost use Rattle.std.specs.Borrow.{Bor};
ghost use Rattle.aml_lex.specs.Characters.{fits_name, is_lead_name_char};
ghost use Rattle.aml_lex.specs.Names.{name_of};
ghost use Rattle.aml_lex.specs.NameStrings.{segments_of};
ghost use Rattle.aml_lex.specs.Read.{Found, place_behind, placed, tested_read};
ghost use Rattle.aml_lex.specs.Reading.{IsSeenAs, carets, counted_read, is_rooted, name_string_at, path_read, seg_read, segs_read, with_value};
ghost use Rattle.aml_lex.specs.Exact.{Reads};
ghost use Rattle.aml_lex.specs.Spelling.{SpellsName};
ghost use Rattle.aml_lex.specs.declared.fault.LexCause.TheVariants.{BadName};

use crate::fault::{LexCause, LexFault, truncated_fault};
use crate::names::NameRef;

/// Whether a name segment may begin with a byte: `A` to `Z` or `_`.
pub fn leads_segment(byte: u8) -> bool
    ensures { result ≡ is_lead_name_char byte }
{
    matches!(byte, b'A'..=b'Z' | b'_')
}

/// Whether a byte may stand in a name segment: `A` to `Z` or `_`, and behind the segment's first
/// also `0` to `9`.
fn fits_name(leads: bool, byte: u8) -> bool
    ensures { result ≡ fits_name leads byte }
{
    match byte {
        b'0'..=b'9' => !leads,
        _ => leads_segment(byte),
    }
}

/// The place behind one byte of a name segment.
fn name_char(bytes: &[u8], at: usize, leads: bool) -> Result<usize, LexFault>
    requires { at ≤ length bytes.now }
    ensures gives { result ≡ place_behind BadName at (length bytes.now)
        (tested_read (fits_name leads ∷ []) (drop at bytes.now)) }
    ensures size { IfOk result (λ next. next ≡ at + 1) }
    ensures within { IfOk result (λ next. next ≤ length bytes.now) }
{
    match &bytes[at..] {
        [] => Err(truncated_fault(bytes)),
        [byte, ..] => {
            if fits_name(leads, *byte) {
                Ok(at + 1)
            } else {
                Err(LexFault {
                    cause: LexCause::BadName,
                    at,
                })
            }
        }
    }
}

/// Whether bytes begin with a name segment.
fn leads_with_seg(bytes: &[u8]) -> bool
    ensures { IsTrue result ↔ (seg_read bytes.now ≡ Found (take 4 bytes.now) 4) }
{
    match bytes {
        [first, second, third, fourth, ..] => {
            fits_name(true, *first)
                && fits_name(false, *second)
                && fits_name(false, *third)
                && fits_name(false, *fourth)
        }
        _ => false,
    }
}

/// The place behind the name segment at a place.
fn name_seg(bytes: &[u8], at: usize) -> Result<usize, LexFault>
    requires { at ≤ length bytes.now }
    ensures gives { result ≡ place_behind BadName at (length bytes.now)
        (seg_read (drop at bytes.now)) }
    ensures size { IfOk result (λ next. next ≡ at + 4) }
    ensures within { IfOk result (λ next. next ≤ length bytes.now) }
{
    if leads_with_seg(&bytes[at..]) {
        return Ok(at + 4);
    }
    let second = name_char(bytes, at, true)?;
    let third = name_char(bytes, second, false)?;
    let fourth = name_char(bytes, third, false)?;
    name_char(bytes, fourth, false)
}

/// The bytes of so many name segments from a place on, and the place behind them.
fn name_segs(bytes: &[u8], at: usize, count: usize) -> Result<(&[u8], usize), LexFault>
    requires { at ≤ length bytes.now }
    ensures gives { IsSeenAs (λ (segments : Bor (List ℕ)). segments_of segments.now) result
        (placed BadName at (length bytes.now) (segs_read count (drop at bytes.now))) }
    ensures size { IfOk result (λ r. r.1 ≡ at + 4 * count) }
    ensures within { IfOk result (λ r. r.1 ≤ length bytes.now) }
{
    let mut next = at;
    let mut left = count;
    while left > 0 {
        next = name_seg(bytes, next)?;
        left -= 1;
    }
    Ok((&bytes[at..next], next))
}

/// The bytes of the segments behind a count of at least 1, and the place behind them.
#[tactic(auto, using(crate::proofs::Places::placed_behind))]
fn counted_segs(bytes: &[u8], at: usize) -> Result<(&[u8], usize), LexFault>
    requires { at ≤ length bytes.now }
    ensures gives { IsSeenAs (λ (segments : Bor (List ℕ)). segments_of segments.now) result
        (placed BadName at (length bytes.now) (counted_read (drop at bytes.now))) }
    ensures ahead { IfOk result (λ r. at < r.1) }
    ensures within { IfOk result (λ r. r.1 ≤ length bytes.now) }
{
    match bytes.get(at) {
        None => Err(truncated_fault(bytes)),
        Some(0) => Err(LexFault {
            cause: LexCause::BadName,
            at,
        }),
        Some(count) => name_segs(bytes, at + 1, *count as usize),
    }
}

/// The bytes of the segments behind a name string's prefix, and the place behind them.
#[tactic(auto, using(crate::proofs::Places::placed_behind))]
fn name_path(bytes: &[u8], at: usize) -> Result<(&[u8], usize), LexFault>
    requires { at ≤ length bytes.now }
    ensures gives { IsSeenAs (λ (segments : Bor (List ℕ)). segments_of segments.now) result
        (placed BadName at (length bytes.now) (path_read (drop at bytes.now))) }
    ensures ahead { IfOk result (λ r. at < r.1) }
    ensures within { IfOk result (λ r. r.1 ≤ length bytes.now) }
{
    match bytes.get(at) {
        None => Err(truncated_fault(bytes)),
        Some(0x00) => Ok((&bytes[at..at], at + 1)),
        Some(0x2E) => name_segs(bytes, at + 1, 2),
        Some(0x2F) => counted_segs(bytes, at + 1),
        Some(_) => name_segs(bytes, at, 1),
    }
}

/// How many `^` stand from a place on.
fn leading_carets(bytes: &[u8], at: usize) -> usize
    requires { at ≤ length bytes.now }
    ensures gives { result ≡ carets (drop at bytes.now) }
    ensures within { at + result ≤ length bytes.now }
{
    let text = &bytes[at..];
    for (count, byte) in text.iter().enumerate() {
        if *byte != b'^' {
            return count;
        }
    }
    text.len()
}

/// Whether a `\` stands at a place.
fn starts_with_root(bytes: &[u8], at: usize) -> bool
    requires { at ≤ length bytes.now }
    ensures gives { result ≡ is_rooted (drop at bytes.now) }
    ensures within { IsTrue result → at < length bytes.now }
{
    at < bytes.len() && bytes[at] == b'\\'
}

/// The name string at a place, and the place behind it.
///
/// Faults: E201 at the end of the bytes, where they end inside it; E203 at the first byte that no
/// name has there.
pub fn name_string(bytes: &[u8], at: usize) -> Result<(NameRef<'_>, usize), LexFault>
    requires { at ≤ length bytes.now }
    ensures gives { IsSeenAs name_of result (name_string_at bytes.now at) }
    ensures spells { Reads SpellsName BadName bytes.now at (with_value name_of result) }
    ensures ahead { IfOk result (λ r. at < r.1) }
    ensures within { IfOk result (λ r. r.1 ≤ length bytes.now) }
{
    find_name_string(bytes, at)
}

/// The name string, by its definition.
#[tactic(auto, unfolding(crate::specs::Reading::name_string_at))]
pub(crate) fn find_name_string(bytes: &[u8], at: usize) -> Result<(NameRef<'_>, usize), LexFault>
    requires { at ≤ length bytes.now }
    ensures gives { IsSeenAs name_of result (name_string_at bytes.now at) }
    ensures ahead { IfOk result (λ r. at < r.1) }
    ensures within { IfOk result (λ r. r.1 ≤ length bytes.now) }
{
    let is_rooted = starts_with_root(bytes, at);
    if is_rooted {
        let (segments, next) = name_path(bytes, at + 1)?;
        let name = NameRef {
            is_rooted,
            carets: 0,
            segments,
        };
        return Ok((name, next));
    }
    let carets = leading_carets(bytes, at);
    let (segments, next) = name_path(bytes, at + carets)?;
    let name = NameRef {
        is_rooted,
        carets,
        segments,
    };
    Ok((name, next))
}
