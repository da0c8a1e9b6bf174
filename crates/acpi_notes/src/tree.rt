// AML that cannot be read (ACPI 6.5, 20.2).

ghost use Rattle.std.specs.Prelude.{◌≡◌, IfOk, string_bytes};
ghost use Rattle.acpi_notes.specs.Table.{byte_at};
ghost use Rattle.acpi_notes.specs.Tree.{else_note, is_known, known_note, lexical_note, module_note, opcode_note, pair_note, second_byte, single_note, tree_note, unknown_note, word_at};

use crate::table::byte_at;
use aml_lex::{LexCause, name_there};
use aml_place_text::operator_name;
use aml_tree::{TreeCause, op_at};
use std::alloc::{AllocError, Global};

/// The opcode of an Else.
const ELSE: u8 = 0xA1;

/// Where AML cannot be read: a byte of a file.
#[derive(Clone, Copy, Debug)]
pub struct TreePlace<'a> {
    pub label: &'a str,
    pub bytes: &'a [u8],
    pub at: usize,
}

/// Of a fault of AML: its place, the byte there, and what is wanted of it.
#[tactic(auto, unfolding(crate::specs::Tree::tree_note))]
pub fn tree_note(
    alloc: Global,
    place: TreePlace<'_>,
    cause: TreeCause,
) -> Result<String, AllocError>
    ensures { IfOk result (λ note. string_bytes note
        ≡ tree_note place.entry.label.now place.entry.bytes.now place.entry.at cause) }
{
    let label = place.label;
    let at = place.at;
    let byte = byte_at(place.bytes, at);
    match cause {
        TreeCause::Lexical(part) => lexical_note(alloc, place, part),
        TreeCause::UnknownOpcode => unknown_note(alloc, place),
        TreeCause::TooDeep => {
            format!(in alloc; "{label}: the term at byte {at} is at depth 65, and 64 is the limit")
        }
        TreeCause::TooLarge => {
            format!(in alloc;
                "{label}: the data at byte {at} has more than 65536 bytes or 65535 elements"
            )
        }
        TreeCause::ModuleCode => {
            let word = word_at(place.bytes, at);
            module_note(alloc, label, at, byte, word)
        }
    }
}

/// Of what may not stand at a place: what stands there, or the opcode that no operator has.
fn unknown_note(alloc: Global, place: TreePlace<'_>) -> Result<String, AllocError>
    ensures { IfOk result (λ note. string_bytes note
        ≡ unknown_note place.entry.label.now place.entry.bytes.now place.entry.at) }
{
    let label = place.label;
    let at = place.at;
    let byte = byte_at(place.bytes, at);
    if is_known(place.bytes, at) {
        return known_note(alloc, label, at, byte, word_at(place.bytes, at));
    }
    match second_byte(place.bytes, at) {
        Some(second) => pair_note(alloc, label, at, second),
        None => single_note(alloc, label, at, byte),
    }
}

// Whether an operator or a name stands at a place.
fn is_known(bytes: &[u8], at: usize) -> bool
    ensures { result ≡ is_known bytes.now at }
{
    op_at(bytes, at).is_some() || name_there(bytes, at).is_some()
}

// The second byte of an opcode of two bytes.
fn second_byte(bytes: &[u8], at: usize) -> Option<u8>
    ensures { result ≡ second_byte bytes.now at }
{
    if at > bytes.len() {
        return None;
    }
    match &bytes[at..] {
        [0x5B, second, ..] => Some(*second),
        _ => None,
    }
}

#[tactic(auto, unfolding(crate::specs::Tree::known_note))]
fn known_note(
    alloc: Global,
    label: &str,
    at: usize,
    byte: u8,
    word: &str,
) -> Result<String, AllocError>
    ensures { IfOk result (λ note. string_bytes note ≡ known_note label.now at byte word.now) }
{
    format!(in alloc; "{label}: at byte {at} stands 0x{byte:x} ({word}), which may not stand there")
}

#[tactic(auto, unfolding(crate::specs::Tree::pair_note))]
fn pair_note(alloc: Global, label: &str, at: usize, second: u8) -> Result<String, AllocError>
    ensures { IfOk result (λ note. string_bytes note ≡ pair_note label.now at second) }
{
    format!(in alloc; "{label}: the opcode at byte {at}, 0x5b 0x{second:x}, is unknown")
}

// Of an opcode of one byte that may stand nowhere alone: an Else, or none that an operator has.
fn single_note(alloc: Global, label: &str, at: usize, byte: u8) -> Result<String, AllocError>
    ensures { IfOk result (λ note. string_bytes note ≡ single_note label.now at byte) }
{
    if byte == ELSE {
        return else_note(alloc, label, at);
    }
    opcode_note(alloc, label, at, byte)
}

#[tactic(auto, unfolding(crate::specs::Tree::else_note))]
fn else_note(alloc: Global, label: &str, at: usize) -> Result<String, AllocError>
    ensures { IfOk result (λ note. string_bytes note ≡ else_note label.now at) }
{
    format!(in alloc; "{label}: at byte {at} stands 0xa1 (Else), and no If before it")
}

#[tactic(auto, unfolding(crate::specs::Tree::opcode_note))]
fn opcode_note(alloc: Global, label: &str, at: usize, byte: u8) -> Result<String, AllocError>
    ensures { IfOk result (λ note. string_bytes note ≡ opcode_note label.now at byte) }
{
    format!(in alloc; "{label}: the opcode at byte {at}, 0x{byte:x}, is unknown")
}

#[tactic(auto, unfolding(crate::specs::Tree::module_note))]
fn module_note(
    alloc: Global,
    label: &str,
    at: usize,
    byte: u8,
    word: &str,
) -> Result<String, AllocError>
    ensures { IfOk result (λ note. string_bytes note ≡ module_note label.now at byte word.now) }
{
    format!(in alloc;
        "{label}: at byte {at} stands 0x{byte:x} ({word}), code outside methods or data that is no literal"
    )
}

// How what stands at a place is called.
fn word_at(bytes: &[u8], at: usize) -> &'static str
    ensures { result.now ≡ word_at bytes.now at }
{
    match op_at(bytes, at) {
        Some((op, _)) => operator_name(op),
        None => "a name",
    }
}

#[tactic(auto, unfolding(crate::specs::Tree::lexical_note))]
fn lexical_note(alloc: Global, place: TreePlace<'_>, part: LexCause) -> Result<String, AllocError>
    ensures { IfOk result (λ note. string_bytes note
        ≡ lexical_note place.entry.label.now place.entry.bytes.now place.entry.at part) }
{
    let label = place.label;
    let at = place.at;
    let byte = byte_at(place.bytes, at);
    match part {
        LexCause::Truncated => {
            format!(in alloc; "{label}: the bytes end at {at} within a term that wants more")
        }
        LexCause::BadPkgLength => {
            format!(in alloc; "{label}: the package length at byte {at} is less than its own bytes")
        }
        LexCause::BadName => {
            format!(in alloc;
                "{label}: byte {at} is 0x{byte:x}, where a name (A to Z or _ first), or an item of a field list, is wanted"
            )
        }
        LexCause::BadString => {
            format!(in alloc; "{label}: byte {at} is 0x{byte:x}, and a string has 0x1 to 0x7f")
        }
        LexCause::Overrun => {
            format!(in alloc;
                "{label}: the package at byte {at} goes past the end of what encloses it"
            )
        }
    }
}
