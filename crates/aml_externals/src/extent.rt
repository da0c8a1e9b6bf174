// How far a definition goes (ACPI 6.5, 20.2.5).

ghost use Rattle.std.specs.Prelude.{◌≡◌, ◌≤◌, ◌<◌, ◌+◌, length, IfSome, Some, None, if◌then◌else◌};
ghost use Rattle.aml_lex.specs.Standing.{has_byte};
ghost use Rattle.aml_externals.specs.Extents.{name_end, text_end, package_at, bytes_end, piece_end, letters_end, list_at, term_end};

use aml_lex::{has_byte, name_string, package_end, string_data};
use aml_operators::{Letter, Piece, row_of};
use aml_tree::op_at;

/// What a target place holds for none.
const NO_TARGET: u8 = 0x00;

/// The place behind a name string.
#[tactic(auto, unfolding(crate::specs::Extents::name_end))]
pub(crate) fn name_end(bytes: &[u8], at: usize) -> Option<usize>
    requires { at ≤ length bytes.now }
    ensures gives { result ≡ name_end bytes.now at }
    ensures ahead { IfSome result (λ next. at < next) }
    ensures within { IfSome result (λ next. next ≤ length bytes.now) }
{
    match name_string(bytes, at) {
        Ok((_, next)) => Some(next),
        Err(_) => None,
    }
}

/// The place behind a text.
#[tactic(auto, unfolding(crate::specs::Extents::text_end))]
fn text_end(bytes: &[u8], at: usize) -> Option<usize>
    requires { at ≤ length bytes.now }
    ensures gives { result ≡ text_end bytes.now at }
    ensures ahead { IfSome result (λ next. at < next) }
    ensures within { IfSome result (λ next. next ≤ length bytes.now) }
{
    match string_data(bytes, at) {
        Ok((_, next)) => Some(next),
        Err(_) => None,
    }
}

/// A package's end, and the place behind its length.
#[tactic(auto, unfolding(crate::specs::Extents::package_at))]
pub(crate) fn package(bytes: &[u8], at: usize) -> Option<(usize, usize)>
    requires { at ≤ length bytes.now }
    ensures gives { result ≡ package_at bytes.now at }
    ensures ahead { IfSome result (λ p. at < p.1) }
    ensures own { IfSome result (λ p. p.1 ≤ p.0) }
    ensures within { IfSome result (λ p. p.0 ≤ length bytes.now) }
{
    match package_end(bytes, at) {
        Ok(places) => Some(places),
        Err(_) => None,
    }
}

/// The place behind so many bytes.
#[tactic(auto, unfolding(crate::specs::Extents::bytes_end))]
pub(crate) fn bytes_end(count: usize, bytes: &[u8], at: usize) -> Option<usize>
    requires within { at ≤ length bytes.now }
    requires some { 1 ≤ count }
    ensures gives { result ≡ bytes_end count bytes.now at }
    ensures ahead { IfSome result (λ next. at < next) }
    ensures within { IfSome result (λ next. next ≤ length bytes.now) }
{
    if bytes.len() - at < count {
        return None;
    }
    Some(at + count)
}

/// The place behind one part.
#[cycle(skip)]
#[tactic(auto, unfolding(crate::specs::Extents::piece_end))]
fn piece_end(piece: Piece, bytes: &[u8], at: usize, depth: u8) -> Option<usize>
    requires { at ≤ length bytes.now }
    ensures gives { result ≡ piece_end (term_end depth) piece bytes.now at }
    ensures ahead { IfSome result (λ next. at < next) }
    ensures within { IfSome result (λ next. next ≤ length bytes.now) }
{
    match piece {
        Piece::Term(_) => term_end(bytes, at, depth),
        Piece::NameString => name_end(bytes, at),
        Piece::Number(size) => bytes_end(size.size(), bytes, at),
        Piece::Text => text_end(bytes, at),
        Piece::Bits | Piece::Connection => None,
    }
}

/// The place behind the parts that letters name.
#[cycle(skip)]
#[tactic(auto, unfolding(crate::specs::Extents::letters_end))]
pub(crate) fn letters_end(letters: &[Letter], bytes: &[u8], at: usize, depth: u8) -> Option<usize>
    requires within { at ≤ length bytes.now }
    requires short { length letters.now ≤ 8 }
    ensures gives { result ≡ letters_end (term_end depth) letters.now bytes.now at }
    ensures ahead { IfSome result (λ next. at ≤ next) }
    ensures within { IfSome result (λ next. next ≤ length bytes.now) }
{
    match letters {
        [] => Some(at),
        [Letter::One(piece), rest @ ..] => {
            let next = piece_end(*piece, bytes, at, depth)?;
            letters_end(rest, bytes, next, depth)
        }
        [Letter::Package, ..] => {
            let (stop, _) = package(bytes, at)?;
            Some(stop)
        }
        _ => None,
    }
}

/// The place behind a target that is none.
fn no_target_end(bytes: &[u8], at: usize) -> Option<usize>
    ensures gives { result ≡ (if has_byte 0x00 bytes.now at then Some (at + 1) else None) }
    ensures ahead { IfSome result (λ next. at < next) }
    ensures within { IfSome result (λ next. next ≤ length bytes.now) }
{
    if has_byte(NO_TARGET, bytes, at) {
        Some(at + 1)
    } else {
        None
    }
}

/// The place behind a term, with at most so many terms one in another; a target that is none counts
/// for no term.
#[cycle(skip)]
#[tactic(auto, unfolding(crate::specs::Extents::term_end))]
fn term_end(bytes: &[u8], at: usize, depth: u8) -> Option<usize>
    requires { at ≤ length bytes.now }
    ensures gives { result ≡ term_end depth bytes.now at }
    ensures ahead { IfSome result (λ next. at < next) }
    ensures within { IfSome result (λ next. next ≤ length bytes.now) }
{
    if depth == 0 {
        return no_target_end(bytes, at);
    }
    match op_at(bytes, at) {
        None => name_end(bytes, at),
        Some((op, next)) => letters_end(row_of(op).letters, bytes, next, depth - 1),
    }
}

/// Where the definitions begin that stand behind these parts.
#[tactic(auto, unfolding(crate::specs::Extents::list_at))]
pub(crate) fn list_at(letters: &[Letter], bytes: &[u8], at: usize, depth: u8) -> Option<usize>
    requires { at ≤ length bytes.now }
    ensures gives { result ≡ list_at (term_end depth) letters.now bytes.now at }
    ensures ahead { IfSome result (λ next. at ≤ next) }
    ensures within { IfSome result (λ next. next ≤ length bytes.now) }
{
    match letters {
        [Letter::One(piece), rest @ ..] => {
            let next = piece_end(*piece, bytes, at, depth)?;
            list_at(rest, bytes, next, depth)
        }
        [Letter::Terms(_), ..] => Some(at),
        _ => None,
    }
}
