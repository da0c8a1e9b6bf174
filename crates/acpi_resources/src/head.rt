// How resource descriptors begin (ACPI 6.5, 6.4.2 and 6.4.3).

ghost use Rattle.std.specs.Prelude.{◌≡◌, ◌≤◌, IfSome, length};
ghost use Rattle.acpi_resources.specs.Items.{head_of};

use crate::form::{Form, large_form, small_form};
use byteorder::{ByteOrder, LittleEndian};

/// How a descriptor begins.
#[derive(Clone, Copy, Debug)]
pub(crate) struct Head {
    pub(crate) form: Form,
    /// How many bytes hold its tag and length.
    pub(crate) lead: u8,
    /// How many stand behind them.
    pub(crate) size: u16,
}

/// How the descriptor at the front of the bytes begins; None where its tag and length are not
/// whole.
pub(crate) fn head_of(bytes: &[u8]) -> Option<Head>
    ensures head { result ≡ head_of bytes.now }
    ensures lead { IfSome result (λ head. 1 ≤ head.lead) }
    ensures within { IfSome result (λ head. head.lead ≤ length bytes.now) }
{
    let [tag, rest @ ..] = bytes else {
        return None;
    };
    if *tag < 0x80 {
        return Some(Head {
            form: small_form(*tag),
            lead: 1,
            size: u16::from(*tag % 8),
        });
    }
    if rest.len() < 2 {
        return None;
    }
    Some(Head {
        form: large_form(*tag),
        lead: 3,
        size: LittleEndian::read_u16(rest),
    })
}
