// Text as it stands between quotes.

ghost use Rattle.std.specs.Prelude.{◌≡◌, ◌++◌, IfOk, OnOk, string_bytes};
ghost use Rattle.acpi_text.specs.Text.{is_plain, escaped_byte, escaped};

use std::alloc::{AllocError, Global};
use std::fmt::Write;

/// The text of some bytes: printable ASCII characters but `"` and `\` stand for themselves, every
/// other byte is `\x` and two hex digits.
#[tactic(auto, unfolding(crate::specs::Text::escaped))]
pub(crate) fn escaped_text(alloc: Global, bytes: &[u8]) -> Result<String, AllocError>
    ensures { IfOk result (λ text. string_bytes text ≡ escaped bytes.now) }
{
    let mut text = String::new(alloc);
    for b in bytes {
        push_escaped(&mut text, *b)?;
    }
    Ok(text)
}

#[tactic(auto, using(std::proofs::lemmas::Fmt::hex_byte))]
fn push_escaped(text: &mut String, b: u8) -> Result<(), AllocError>
    ensures { OnOk result (string_bytes text.new ≡ string_bytes text.old ++ escaped_byte b) }
{
    if stands_for_itself(b) {
        text.push(char::from(b))
    } else {
        write!(text, "\\x{b:02x}")
    }
}

fn stands_for_itself(b: u8) -> bool
    ensures { result ≡ is_plain b }
{
    b >= b' ' && b <= b'~' && b != b'"' && b != b'\\'
}
