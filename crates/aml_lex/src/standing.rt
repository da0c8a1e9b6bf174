// What stands at a place, read again.

ghost use Rattle.std.specs.Prelude.{◌≡◌, ◌<◌, IsSome, Some, length, true};
ghost use Rattle.std.specs.Option.{option_map};
ghost use Rattle.aml_lex.specs.Names.{name_of};
ghost use Rattle.aml_lex.specs.Standing.{bytes_between, has_byte, name_there};

use crate::name_reader::{find_name_string, name_string};
use crate::names::NameRef;

/// Whether such a byte stands at a place; false also past the bytes.
pub fn has_byte(byte: u8, bytes: &[u8], at: usize) -> bool
    ensures gives { result ≡ has_byte byte bytes.now at }
    ensures within { result ≡ true → at < length bytes.now }
{
    at < bytes.len() && bytes[at] == byte
}

/// The bytes between two places; none where these are not in order.
pub fn bytes_between(bytes: &[u8], at: usize, stop: usize) -> &[u8]
    ensures { result.now ≡ bytes_between bytes.now at stop }
{
    let front = &bytes[..stop.min(bytes.len())];
    if at < front.len() { &front[at..] } else { &[] }
}

/// The name string that stands at a place, where one does; None also past the bytes.
#[tactic(auto, using(crate::proofs::Fronts::name_there_within))]
pub fn name_there(bytes: &[u8], at: usize) -> Option<NameRef<'_>>
    ensures { option_map name_of result ≡ name_there bytes.now at }
{
    if at > bytes.len() {
        return None;
    }
    match name_string(bytes, at) {
        Ok((name, _)) => Some(name),
        Err(_) => None,
    }
}

/// The name string that is known to stand at a place.
#[tactic(auto, using(crate::proofs::Fronts::name_there_within))]
pub fn standing_name(bytes: &[u8], at: usize) -> NameRef<'_>
    requires { IsSome (name_there bytes.now at) }
    ensures { name_there bytes.now at ≡ Some (name_of result) }
{
    match find_name_string(bytes, at) {
        Ok((name, _)) => name,
        Err(_) => unreachable!(),
    }
}
