// Package lengths (ACPI 6.5, 20.2.4).

ghost use Rattle.std.specs.Prelude.{◌≡◌, ◌≤◌, ◌<◌, length, IfOk};
ghost use Rattle.aml_lex.specs.Exact.{ReadsPackage, ReadsPkgLength};
ghost use Rattle.aml_lex.specs.Reading.{pkg_length_at, package_end_at};

use crate::fault::{LexCause, LexFault, truncated_fault};

/// The package length at a place, and the place behind it.
///
/// Bits 7:6 of the lead byte give the number of further bytes. With none, bits 5:0 are the value;
/// else bits 3:0 are its lowest four bits and each further byte gives the next eight.
///
/// Fault: E201 at the end of the bytes, where they end inside it.
pub fn pkg_length(bytes: &[u8], at: usize) -> Result<(u32, usize), LexFault>
    requires { at ≤ length bytes.now }
    ensures gives { result ≡ pkg_length_at bytes.now at }
    ensures spells { ReadsPkgLength bytes.now at result }
    ensures ahead { IfOk result (λ r. at < r.1) }
    ensures within { IfOk result (λ r. r.1 ≤ length bytes.now) }
{
    find_pkg_length(bytes, at)
}

/// The package length, by its definition.
#[tactic(auto, unfolding(crate::specs::Reading::pkg_length_at))]
fn find_pkg_length(bytes: &[u8], at: usize) -> Result<(u32, usize), LexFault>
    requires { at ≤ length bytes.now }
    ensures gives { result ≡ pkg_length_at bytes.now at }
    ensures ahead { IfOk result (λ r. at < r.1) }
    ensures within { IfOk result (λ r. r.1 ≤ length bytes.now) }
{
    match &bytes[at..] {
        [] => Err(truncated_fault(bytes)),
        [lead, more @ ..] => match (*lead / 64, more) {
            (0, _) => Ok(((*lead % 64) as u32, at + 1)),
            (1, [a, ..]) => Ok((*lead as u32 % 16 + 16 * *a as u32, at + 2)),
            (2, [a, b, ..]) => Ok((
                *lead as u32 % 16 + 16 * *a as u32 + 4096 * *b as u32,
                at + 3,
            )),
            (3, [a, b, c, ..]) => Ok((
                *lead as u32 % 16 + 16 * *a as u32 + 4096 * *b as u32 + 1048576 * *c as u32,
                at + 4,
            )),
            _ => Err(truncated_fault(bytes)),
        },
    }
}

/// The end of the package whose package length stands at a place, and the place behind the package
/// length. The value counts the bytes of the package length itself.
///
/// Faults: that of the package length; E202 at the place where the value is below its own bytes;
/// E207 at the place where the package goes past the end of the bytes.
pub fn package_end(bytes: &[u8], at: usize) -> Result<(usize, usize), LexFault>
    requires { at ≤ length bytes.now }
    ensures gives { result ≡ package_end_at bytes.now at }
    ensures spells { ReadsPackage bytes.now at result }
    ensures ahead { IfOk result (λ r. at < r.1) }
    ensures own { IfOk result (λ r. r.1 ≤ r.0) }
    ensures within { IfOk result (λ r. r.0 ≤ length bytes.now) }
{
    find_package_end(bytes, at)
}

/// The package's end, by its definition.
#[tactic(auto, unfolding(crate::specs::Reading::package_end_at))]
fn find_package_end(bytes: &[u8], at: usize) -> Result<(usize, usize), LexFault>
    requires { at ≤ length bytes.now }
    ensures gives { result ≡ package_end_at bytes.now at }
    ensures ahead { IfOk result (λ r. at < r.1) }
    ensures own { IfOk result (λ r. r.1 ≤ r.0) }
    ensures within { IfOk result (λ r. r.0 ≤ length bytes.now) }
{
    let (value, next) = pkg_length(bytes, at)?;
    let end = at + value as usize;
    if end < next {
        return Err(LexFault {
            cause: LexCause::BadPkgLength,
            at,
        });
    }
    if bytes.len() < end {
        return Err(LexFault {
            cause: LexCause::Overrun,
            at,
        });
    }
    Ok((end, next))
}
