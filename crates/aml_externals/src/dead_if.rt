// An `If (Zero)` that holds Externals alone (ACPI 6.5, 20.2.5.3).

ghost use Rattle.std.specs.Prelude.{◌≡◌, ◌≤◌, ◌<◌, length, IfSome};
ghost use Rattle.aml_externals.specs.DeadIfs.{external_end, externals_until, are_externals, holds_externals, dead_end};

use crate::extent::{bytes_end, name_end, package};
use aml_lex::has_byte;

/// The opcode of an External.
const EXTERNAL: u8 = 0x15;

/// The opcode of an If.
pub(crate) const IF: u8 = 0xA0;

/// The opcode of an Else.
const ELSE: u8 = 0xA1;

/// The literal Zero, and the null name.
const ZERO: u8 = 0x00;

/// The place behind an External: its opcode, a name, its type, and how many arguments it takes.
#[tactic(auto, unfolding(crate::specs::DeadIfs::external_end))]
fn external_end(bytes: &[u8], at: usize) -> Option<usize>
    requires { at < length bytes.now }
    ensures gives { result ≡ external_end bytes.now at }
    ensures ahead { IfSome result (λ next. at < next) }
    ensures within { IfSome result (λ next. next ≤ length bytes.now) }
{
    if !has_byte(EXTERNAL, bytes, at) {
        return None;
    }
    let next = name_end(bytes, at + 1)?;
    bytes_end(2, bytes, next)
}

/// Whether Externals alone stand up to the end of the bytes.
fn externals_until(bytes: &[u8], start: usize) -> bool
    requires { start ≤ length bytes.now }
    ensures { result ≡ externals_until (length bytes.now) bytes.now start }
{
    let mut at = start;
    while at < bytes.len() {
        match external_end(bytes, at) {
            None => return false,
            Some(next) => at = next,
        }
    }
    true
}

/// Whether one External or more stand there, up to the end of the bytes.
#[tactic(auto, unfolding(crate::specs::DeadIfs::are_externals))]
fn are_externals(bytes: &[u8], at: usize) -> bool
    requires { at ≤ length bytes.now }
    ensures { result ≡ are_externals bytes.now at }
{
    at < bytes.len() && externals_until(bytes, at)
}

/// Whether behind the length of an If's package stands Zero, then Externals alone, and no Else
/// follows.
fn holds_externals(bytes: &[u8], stop: usize, next: usize) -> bool
    requires ordered { next ≤ stop }
    requires within { stop ≤ length bytes.now }
    ensures { result ≡ holds_externals bytes.now stop next }
{
    has_byte(ZERO, &bytes[..stop], next)
        && are_externals(&bytes[..stop], next + 1)
        && !has_byte(ELSE, bytes, stop)
}

/// The end of the dead If that the bytes begin with, if they do.
#[tactic(auto, unfolding(crate::specs::DeadIfs::dead_end))]
pub(crate) fn dead_end(bytes: &[u8]) -> Option<usize>
    ensures gives { result ≡ dead_end bytes.now }
    ensures ahead { IfSome result (λ stop. 0 < stop) }
    ensures within { IfSome result (λ stop. stop ≤ length bytes.now) }
{
    if !has_byte(IF, bytes, 0) {
        return None;
    }
    match package(bytes, 1) {
        Some((stop, next)) if holds_externals(bytes, stop, next) => Some(stop),
        _ => None,
    }
}
