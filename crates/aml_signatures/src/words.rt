// What the words of a line tell.

ghost use Rattle.std.specs.Prelude.{◌≡◌, ℕ, List, IfOk, MatchOption, map, vec_items};
ghost use Rattle.aml_signatures.specs.Text.{AreNames, AreSignature, IsDecimal, IsNumberBehind, Names, Signature, words_of};
ghost use Rattle.aml_signatures.specs.declared.argument_kind.ArgumentKind.{ArgumentKind};

use crate::argument_kind::ArgumentKind;
use std::alloc::{AllocError, Global};
use std::str;

/// The path and the kinds that a line tells, where it has that form.
pub(crate) fn signature_in(
    alloc: Global,
    line: &[u8],
) -> Result<Option<(&[u8], Vec<ArgumentKind>)>, AllocError>
    ensures { IfOk result (λ found. MatchOption found
        ((s : Signature) → AreSignature (words_of line.now) s → ⊥)
        (λ s. AreSignature (words_of line.now)
        (record { path = s.0.now; kinds = vec_items s.1 }))) }
{
    let words = words_in(alloc, line)?;
    match words.as_slice() {
        [path, names @ ..] if !path.is_empty() => match kinds_named(alloc, names)? {
            Some(kinds) => Ok(Some((*path, kinds))),
            None => Ok(None),
        },
        _ => Ok(None),
    }
}

// The words of a line, between single spaces.
fn words_in(alloc: Global, line: &[u8]) -> Result<Vec<&[u8]>, AllocError>
    ensures { IfOk result (λ words. map (λ w. w.now) (vec_items words) ≡ words_of line.now) }
{
    line.split(|b| *b == b' ').collect(alloc)
}

// The kinds that words name, where each names one.
fn kinds_named(alloc: Global, words: &[&[u8]]) -> Result<Option<Vec<ArgumentKind>>, AllocError>
    ensures { IfOk result (λ found. MatchOption found
        ((kinds : List ArgumentKind) → AreNames (map (λ w. w.now) words.now) kinds → ⊥)
        (λ kinds. AreNames (map (λ w. w.now) words.now) (vec_items kinds))) }
{
    let mut kinds = Vec::new(alloc);
    for word in words {
        let Some(kind) = kind_named(word) else {
            return Ok(None);
        };
        kinds.push(kind)?;
    }
    Ok(Some(kinds))
}

// The kind that a word names.
fn kind_named(word: &[u8]) -> Option<ArgumentKind>
    ensures { MatchOption result
        ((kind : ArgumentKind) → Names word.now kind → ⊥)
        (λ kind. Names word.now kind) }
{
    if let Some(greatest) = number_behind(b"int:", word) {
        return Some(ArgumentKind::IntUpTo(greatest));
    }
    if let Some(size) = number_behind(b"buf:", word) {
        return Some(ArgumentKind::Buf(size));
    }
    if let Some(size) = number_behind(b"str:", word) {
        return Some(ArgumentKind::Str(size));
    }
    if word == b"int".as_slice() {
        Some(ArgumentKind::Int)
    } else if word == b"pkg".as_slice() {
        Some(ArgumentKind::Pkg)
    } else {
        None
    }
}

// The number that stands in a word behind its beginning.
fn number_behind(beginning: &[u8], word: &[u8]) -> Option<u64>
    ensures { MatchOption result
        ((n : ℕ) → IsNumberBehind beginning.now word.now n → ⊥)
        (λ n. IsNumberBehind beginning.now word.now n) }
{
    match word.strip_prefix(beginning) {
        Some(digits) => decimal(digits),
        None => None,
    }
}

// The number, below 2^64, that decimal digits spell.
fn decimal(digits: &[u8]) -> Option<u64>
    ensures { MatchOption result
        ((n : ℕ) → IsDecimal digits.now n → ⊥)
        (λ n. IsDecimal digits.now n) }
{
    let Ok(text) = str::from_utf8(digits) else {
        return None;
    };
    // `parse` takes a sign too, which no number has here.
    if text.starts_with('+') {
        return None;
    }
    text.parse::<u64>().ok()
}
