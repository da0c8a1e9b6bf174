// String data (ACPI 6.5, 20.2.3).

ghost use Rattle.std.specs.Prelude.{◌≤◌, ◌<◌, ℕ, List, length, IfOk};
ghost use Rattle.std.specs.Borrow.{Bor};
ghost use Rattle.aml_lex.specs.Exact.{Reads};
ghost use Rattle.aml_lex.specs.Reading.{IsSeenAs, string_data_at, with_value};
ghost use Rattle.aml_lex.specs.Spelling.{SpellsString};
ghost use Rattle.aml_lex.specs.declared.fault.LexCause.TheVariants.{BadString};

use crate::fault::{LexCause, LexFault, truncated_fault};

/// The text of the string data at a place without its closing 00, and the place behind that.
///
/// Faults: E201 at the end of the bytes, where no 00 closes the text; E206 at the first byte above
/// 7F.
pub fn string_data(bytes: &[u8], at: usize) -> Result<(&[u8], usize), LexFault>
    requires { at ≤ length bytes.now }
    ensures gives { IsSeenAs (λ (text : Bor (List ℕ)). text.now) result
        (string_data_at bytes.now at) }
    ensures spells { Reads SpellsString BadString bytes.now at
        (with_value (λ (text : Bor (List ℕ)). text.now) result) }
    ensures ahead { IfOk result (λ r. at < r.1) }
    ensures within { IfOk result (λ r. r.1 ≤ length bytes.now) }
{
    find_string_data(bytes, at)
}

/// The string data, by its definition.
#[tactic(auto, unfolding(crate::specs::Reading::string_data_at))]
pub(crate) fn find_string_data(bytes: &[u8], at: usize) -> Result<(&[u8], usize), LexFault>
    requires { at ≤ length bytes.now }
    ensures gives { IsSeenAs (λ (text : Bor (List ℕ)). text.now) result
        (string_data_at bytes.now at) }
    ensures ahead { IfOk result (λ r. at < r.1) }
    ensures within { IfOk result (λ r. r.1 ≤ length bytes.now) }
{
    let text = &bytes[at..];
    for (len, byte) in text.iter().enumerate() {
        if *byte == 0 {
            return Ok((&text[..len], at + len + 1));
        }
        if *byte > 0x7F {
            return Err(LexFault {
                cause: LexCause::BadString,
                at: at + len,
            });
        }
    }
    Err(truncated_fault(bytes))
}
