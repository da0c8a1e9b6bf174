// A file that is no table, or another one than is wanted (ACPI 6.5, 5.2).

ghost use Rattle.std.specs.Prelude.{◌≡◌, ◌+◌, ◌*◌, ◌%◌, ◌≤◌, IfOk, length, min, string_bytes, sum, take};
ghost use Rattle.std.specs.List.{list_all};
ghost use Rattle.acpi_notes.specs.Text.{shown_byte, shown_bytes};
ghost use Rattle.acpi_notes.specs.Table.{byte_at, cause_note, entry_note, extent_note, is_text, is_text_character, least_of, length_note, number_at, short_note, signature_note, stated, sum_note, summed, table_note, text_note, wanted_text};

use acpi_tables::{Header, Madt, Rsdp, TableCause, TableFault};
use std::alloc::{AllocError, Global};

/// The byte at a place, 0 past the end.
pub(crate) fn byte_at(bytes: &[u8], at: usize) -> u8
    ensures { result ≡ byte_at bytes.now at }
{
    bytes.get(at).copied().unwrap_or(0)
}

/// The number of four bytes from a place on, the lowest first; bytes past the end count as 0.
fn number_at(bytes: &[u8], at: usize) -> u64
    requires { at ≤ 20 }
    ensures { result ≡ number_at bytes.now at }
{
    let low = u64::from(byte_at(bytes, at)) + 256 * u64::from(byte_at(bytes, at + 1));
    let high = u64::from(byte_at(bytes, at + 2)) + 256 * u64::from(byte_at(bytes, at + 3));
    low + 65_536 * high
}

/// How many bytes the table says it has: at place 4, of an RSDP at 20.
fn stated(bytes: &[u8], at: usize) -> u64
    ensures { result ≡ stated bytes.now at }
{
    match at {
        20 => number_at(bytes, 20),
        _ => number_at(bytes, 4),
    }
}

/// The fewest bytes that such a table has (5.2.5.3, 5.2.6, 5.2.12).
fn least_of(bytes: &[u8]) -> usize
    ensures { result ≡ least_of bytes.now }
{
    if bytes.starts_with(b"RSD PTR ") {
        return if bytes.len() < Rsdp::FIRST_SIZE {
            Rsdp::FIRST_SIZE
        } else {
            Rsdp::SIZE
        };
    }
    if bytes.starts_with(b"APIC") && bytes.len() >= Header::SIZE {
        return Madt::SIZE;
    }
    Header::SIZE
}

/// The sum modulo 256 of the bytes that a checksum at a place has to make 0.
fn summed(bytes: &[u8], at: usize) -> u8
    ensures { result ≡ summed bytes.now at }
{
    match at {
        8 => byte_sum(front(bytes, 20)),
        32 => byte_sum(front(bytes, number_at(bytes, 20))),
        _ => byte_sum(bytes),
    }
}

/// The first so many bytes, or all.
fn front(bytes: &[u8], count: u64) -> &[u8]
    ensures { result.now ≡ take (min (length bytes.now) count) bytes.now }
{
    let length = bytes.len();
    if count < length as u64 {
        return &bytes[..count as usize];
    }
    bytes
}

fn byte_sum(bytes: &[u8]) -> u8
    ensures { result ≡ sum bytes.now % 256 }
{
    let mut total = 0u8;
    for byte in bytes {
        total = total.wrapping_add(*byte);
    }
    total
}

/// Some bytes as they are shown: printable ASCII characters, and ? for any other.
fn shown_text(alloc: Global, bytes: &[u8]) -> Result<String, AllocError>
    ensures { IfOk result (λ text. string_bytes text ≡ shown_bytes bytes.now) }
{
    let mut text = String::new(alloc);
    for byte in bytes {
        text.push(shown_character(*byte))?;
    }
    Ok(text)
}

fn shown_character(byte: u8) -> char
    ensures { result ≡ shown_byte byte }
{
    if byte >= b' ' && byte <= b'~' {
        return char::from(byte);
    }
    '?'
}

/// Which table a file is to have.
#[derive(Clone, Copy, Debug, PartialEq, Eq)]
pub enum WantedTable {
    /// That of its place among the tables that are loaded.
    Definitions,
    /// A MADT.
    Madt,
}

impl WantedTable {
    /// What is told of it behind another signature.
    fn text(self) -> &'static str
        ensures { result.now ≡ wanted_text self }
    {
        match self {
            WantedTable::Definitions =>
                "the tables are to be one DSDT, in the first file, and SSDTs behind it",
            WantedTable::Madt => "the file of --madt is to be a MADT, of signature APIC",
        }
    }
}

fn is_text_character(byte: u8) -> bool
    ensures { result ≡ is_text_character byte }
{
    matches!(byte, b' '..=b'~' | b'\t' | b'\n' | b'\r')
}

fn are_text_characters(bytes: &[u8]) -> bool
    ensures { result ≡ list_all is_text_character bytes.now }
{
    bytes.iter().all(|byte| is_text_character(*byte))
}

/// Whether text stands where a table's header would, as in a dump that was not taken apart, or in
/// ASL that was not compiled.
fn is_text(bytes: &[u8]) -> bool
    ensures { result ≡ is_text bytes.now }
{
    bytes.len() >= 8 && are_text_characters(front(bytes, Header::SIZE as u64))
}

/// Of the fault of a file's table: that the file is text; or how many bytes it has, and is said or
/// wanted to have; what they sum to; its signature, and which is wanted; how the entry begins that
/// cannot be read.
pub fn table_note(
    alloc: Global,
    label: &str,
    bytes: &[u8],
    fault: TableFault,
    wanted: WantedTable,
) -> Result<String, AllocError>
    ensures { IfOk result (λ note. string_bytes note
        ≡ table_note label.now bytes.now wanted fault.cause fault.at) }
{
    if is_text(bytes) {
        return text_note(alloc, label);
    }
    cause_note(alloc, label, bytes, fault, wanted)
}

/// The same of a file that is no text.
fn cause_note(
    alloc: Global,
    label: &str,
    bytes: &[u8],
    fault: TableFault,
    wanted: WantedTable,
) -> Result<String, AllocError>
    ensures { IfOk result (λ note. string_bytes note
        ≡ cause_note label.now bytes.now wanted fault.cause fault.at) }
{
    let length = bytes.len();
    match fault.cause {
        TableCause::Short => short_note(alloc, label, length, least_of(bytes)),
        TableCause::BadLength if fault.at == 20 => {
            extent_note(alloc, label, length, stated(bytes, fault.at))
        }
        TableCause::BadLength => length_note(alloc, label, length, stated(bytes, fault.at)),
        TableCause::BadSum => sum_note(alloc, label, fault.at, summed(bytes, fault.at)),
        TableCause::BadSignature => {
            let signature = shown_text(alloc, front(bytes, 4))?;
            signature_note(alloc, label, signature.as_str(), wanted.text())
        }
        TableCause::BadEntry => entry_note(alloc, label, fault.at, byte_at(bytes, fault.at)),
    }
}

#[tactic(auto, unfolding(crate::specs::Table::text_note))]
fn text_note(alloc: Global, label: &str) -> Result<String, AllocError>
    ensures { IfOk result (λ note. string_bytes note ≡ text_note label.now) }
{
    format!(in alloc;
        "{label}: it is text, and no table: acpixtract -a makes tables of a dump, iasl of ASL"
    )
}

#[tactic(auto, unfolding(crate::specs::Table::short_note))]
fn short_note(alloc: Global, label: &str, length: usize, least: usize) -> Result<String, AllocError>
    ensures { IfOk result (λ note. string_bytes note ≡ short_note label.now length least) }
{
    format!(in alloc; "{label}: it has {length} bytes, and such a table has {least} or more")
}

#[tactic(auto, unfolding(crate::specs::Table::length_note))]
fn length_note(alloc: Global, label: &str, length: usize, stated: u64) -> Result<String, AllocError>
    ensures { IfOk result (λ note. string_bytes note ≡ length_note label.now length stated) }
{
    format!(in alloc; "{label}: its length says {stated}, and it has {length} bytes")
}

#[tactic(auto, unfolding(crate::specs::Table::extent_note))]
fn extent_note(alloc: Global, label: &str, length: usize, stated: u64) -> Result<String, AllocError>
    ensures { IfOk result (λ note. string_bytes note ≡ extent_note label.now length stated) }
{
    format!(in alloc;
        "{label}: its length says {stated}, wanted 36 or more, and no more than its {length} bytes"
    )
}

#[tactic(auto, unfolding(crate::specs::Table::sum_note))]
fn sum_note(alloc: Global, label: &str, at: usize, sum: u8) -> Result<String, AllocError>
    ensures { IfOk result (λ note. string_bytes note ≡ sum_note label.now at sum) }
{
    format!(in alloc;
        "{label}: the bytes that the checksum at byte {at} is for sum to {sum} modulo 256, and 0 is wanted"
    )
}

#[tactic(auto, unfolding(crate::specs::Table::signature_note))]
fn signature_note(
    alloc: Global,
    label: &str,
    signature: &str,
    wanted: &str,
) -> Result<String, AllocError>
    ensures { IfOk result (λ note. string_bytes note
        ≡ signature_note label.now signature.now wanted.now) }
{
    format!(in alloc; "{label}: its signature is {signature}, and {wanted}")
}

#[tactic(auto, unfolding(crate::specs::Table::entry_note))]
fn entry_note(alloc: Global, label: &str, at: usize, kind: u8) -> Result<String, AllocError>
    ensures { IfOk result (λ note. string_bytes note ≡ entry_note label.now at kind) }
{
    format!(in alloc;
        "{label}: the entry at byte {at}, which begins with {kind}, is cut or too short"
    )
}
