// The words and numbers of a register file's text.

ghost use Rattle.std.specs.Prelude.{◌≡◌, ◌<◌, ◌^◌, ◌∷◌, ◌++◌, [], ℕ, List, IfSome, IfNone, MatchOption};
ghost use Rattle.std.specs.Str.Parse.{IsNumeral, digits_value};
ghost use Rattle.aml_regions.specs.Text.{Lacks, space_of, words_of};

use std::str;

/// The front of some bytes up to the first separator, and what stands behind that. None where there
/// is none.
pub(crate) fn split_once(bytes: &[u8], separator: u8) -> Option<(&[u8], &[u8])>
    ensures none { IfNone result (Lacks separator bytes.now) }
    ensures front { IfSome result (λ parts. Lacks separator parts.0.now) }
    ensures whole { IfSome result (λ parts.
        bytes.now ≡ parts.0.now ++ separator ∷ parts.1.now) }
{
    match bytes.iter().position(|b| *b == separator) {
        Some(end) => Some((&bytes[..end], &bytes[end + 1..])),
        None => None,
    }
}

/// The words of a line that has three.
pub(crate) fn three_words(line: &[u8]) -> Option<(&[u8], &[u8], &[u8])>
    ensures { MatchOption result
        ((a b c : List ℕ) → words_of line.now ≡ a ∷ b ∷ c ∷ [] → ⊥)
        (λ words. words_of line.now ≡ words.0.now ∷ words.1.now ∷ words.2.now ∷ []) }
{
    let Some((first, behind)) = split_once(line, b' ') else {
        return None;
    };
    let Some((second, third)) = split_once(behind, b' ') else {
        return None;
    };
    match split_once(third, b' ') {
        Some(_) => None,
        None => Some((first, second, third)),
    }
}

/// The address space that a word names.
pub(crate) fn space_named(word: &[u8]) -> Option<u8>
    ensures { result ≡ space_of word.now }
{
    match word {
        b"mem" => Some(0),
        b"io" => Some(1),
        b"pci" => Some(2),
        b"ec" => Some(3),
        b"cmos" => Some(5),
        _ => None,
    }
}

/// The address that a word spells in hex.
pub(crate) fn read_address(word: &[u8]) -> Option<u64>
    ensures { MatchOption result
        (digits_value 16 word.now < 2 ^ 64 → IsNumeral 16 word.now → ⊥)
        (λ n. (n < 2 ^ 64) × IsNumeral 16 word.now × (n ≡ digits_value 16 word.now)) }
{
    let Ok(text) = str::from_utf8(word) else {
        return None;
    };
    // `from_str_radix` takes a sign too, which no address has.
    if text.starts_with('+') {
        return None;
    }
    u64::from_str_radix(text, 16).ok()
}
