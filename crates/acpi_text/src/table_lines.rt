// The lines of tables, but those of a MADT's structures.

ghost use Rattle.std.specs.Prelude.{◌≡◌, ◌++◌, IfOk, OnOk, codes, decimal, string_bytes};
ghost use Rattle.std.specs.List.{flat_map};
ghost use Rattle.acpi_text.specs.Text.{hex};
ghost use Rattle.acpi_text.specs.Tables.{field_line, header_line, pointer_line, address_line, fixed_lines, interrupt_lines, decimal_or_absent, hex_or_absent, yes_or_no, yes_or_absent};

use crate::escaped::escaped_text;
use acpi_tables::{Fadt, Header, Madt, Rsdp};
use std::alloc::{AllocError, Global};
use std::fmt::Write;

/// `table SIG length N revision N oem "TEXT" "TEXT" 0xREV`.
#[tactic(auto, unfolding(crate::specs::Tables::header_line))]
pub(crate) fn header(alloc: Global, header: &Header<'_>) -> Result<String, AllocError>
    ensures { IfOk result (λ line. string_bytes line ≡ header_line header.now) }
{
    let words = [
        ("table ", escaped_text(alloc, header.signature)?),
        (" length ", decimal_text(alloc, u64::from(header.length))?),
        (
            " revision ",
            decimal_text(alloc, u64::from(header.revision))?,
        ),
        (" oem \"", escaped_text(alloc, header.oem_id)?),
        ("\" \"", escaped_text(alloc, header.oem_table_id)?),
        ("\" 0x", hex_text(alloc, header.oem_revision)?),
    ];
    line_of_words(alloc, &words)
}

fn decimal_text(alloc: Global, n: u64) -> Result<String, AllocError>
    ensures { IfOk result (λ text. string_bytes text ≡ decimal n) }
{
    format!(in alloc; "{n}")
}

fn hex_text(alloc: Global, n: u32) -> Result<String, AllocError>
    ensures { IfOk result (λ text. string_bytes text ≡ hex n) }
{
    format!(in alloc; "{n:x}")
}

// A line of words, each behind what leads to it.
fn line_of_words(alloc: Global, words: &[(&str, String)]) -> Result<String, AllocError>
    ensures { IfOk result (λ line. string_bytes line
        ≡ flat_map (λ word. word.0.now ++ string_bytes word.1) words.now ++ codes "\n") }
{
    let mut line = String::new(alloc);
    for (lead, word) in words {
        push_word(&mut line, lead, word.as_str())?;
    }
    line.push_str("\n")?;
    Ok(line)
}

fn push_word(line: &mut String, lead: &str, word: &str) -> Result<(), AllocError>
    ensures { OnOk result
        (string_bytes line.new ≡ string_bytes line.old ++ (lead.now ++ word.now)) }
{
    write!(line, "{lead}{word}")
}

/// `rsdp revision N rsdt 0xA`, from revision 2 on also ` xsdt 0xA`.
#[tactic(auto, unfolding(crate::specs::Tables::pointer_line))]
pub(crate) fn pointer(alloc: Global, rsdp: &Rsdp<'_>) -> Result<String, AllocError>
    ensures { IfOk result (λ line. string_bytes line ≡ pointer_line rsdp.now) }
{
    let revision = rsdp.revision;
    let rsdt = rsdp.rsdt_address;
    match rsdp.extension {
        None => format!(in alloc; "rsdp revision {revision} rsdt 0x{rsdt:x}\n"),
        Some(extension) => {
            let xsdt = extension.xsdt_address;
            format!(in alloc; "rsdp revision {revision} rsdt 0x{rsdt:x} xsdt 0x{xsdt:x}\n")
        }
    }
}

/// `entry 0xA`, of an XSDT.
#[tactic(auto, unfolding(crate::specs::Tables::address_line))]
pub(crate) fn address(alloc: Global, address: u64) -> Result<String, AllocError>
    ensures { IfOk result (λ line. string_bytes line ≡ address_line address) }
{
    format!(in alloc; "  entry 0x{address:x}\n")
}

/// The lines of a FADT's fields.
#[tactic(auto, unfolding(crate::specs::Tables::fixed_lines))]
pub(crate) fn fixed(alloc: Global, fadt: &Fadt<'_>) -> Result<String, AllocError>
    ensures { IfOk result (λ lines. string_bytes lines ≡ fixed_lines fadt.now) }
{
    let reduced = yes_field(fadt.hardware_reduced());
    let fields = [
        ("dsdt", hex_field(alloc, wide_u32(fadt.dsdt))?),
        (
            "profile",
            decimal_field(alloc, wide_u8(fadt.preferred_profile))?,
        ),
        ("sci", decimal_field(alloc, wide_u16(fadt.sci_interrupt))?),
        ("flags", hex_field(alloc, wide_u32(fadt.flags))?),
        ("hardware-reduced", String::from_str(alloc, reduced)?),
        ("x_dsdt", hex_field(alloc, fadt.x_dsdt)?),
    ];
    lines_of_fields(alloc, &fields)
}

/// The lines of a MADT's own fields.
#[tactic(auto, unfolding(crate::specs::Tables::interrupt_lines))]
pub(crate) fn interrupts(alloc: Global, madt: &Madt<'_>) -> Result<String, AllocError>
    ensures { IfOk result (λ lines. string_bytes lines ≡ interrupt_lines madt.now) }
{
    let pcat = yes(madt.pcat_compatible());
    let fields = [
        (
            "local",
            hex_field(alloc, Some(u64::from(madt.local_address)))?,
        ),
        ("flags", hex_field(alloc, Some(u64::from(madt.flags)))?),
        ("pcat", String::from_str(alloc, pcat)?),
    ];
    lines_of_fields(alloc, &fields)
}

// A line for each field, of its name and its text.
fn lines_of_fields(alloc: Global, fields: &[(&str, String)]) -> Result<String, AllocError>
    ensures { IfOk result (λ lines. string_bytes lines
        ≡ flat_map (λ field. field_line field.0.now (string_bytes field.1)) fields.now) }
{
    let mut lines = String::new(alloc);
    for (name, text) in fields {
        push_field(&mut lines, name, text.as_str())?;
    }
    Ok(lines)
}

#[tactic(auto, unfolding(crate::specs::Tables::field_line))]
fn push_field(lines: &mut String, name: &str, text: &str) -> Result<(), AllocError>
    ensures { OnOk result
        (string_bytes lines.new ≡ string_bytes lines.old ++ field_line name.now text.now) }
{
    write!(lines, "  {name} {text}\n")
}

#[tactic(auto, unfolding(crate::specs::Tables::decimal_or_absent))]
fn decimal_field(alloc: Global, field: Option<u64>) -> Result<String, AllocError>
    ensures { IfOk result (λ text. string_bytes text ≡ decimal_or_absent field) }
{
    match field {
        None => format!(in alloc; "absent"),
        Some(n) => format!(in alloc; "{n}"),
    }
}

#[tactic(auto, unfolding(crate::specs::Tables::hex_or_absent))]
fn hex_field(alloc: Global, field: Option<u64>) -> Result<String, AllocError>
    ensures { IfOk result (λ text. string_bytes text ≡ hex_or_absent field) }
{
    match field {
        None => format!(in alloc; "absent"),
        Some(n) => format!(in alloc; "0x{n:x}"),
    }
}

#[tactic(auto, unfolding(crate::specs::Tables::yes_or_absent))]
fn yes_field(field: Option<bool>) -> &'static str
    ensures { result.now ≡ yes_or_absent field }
{
    match field {
        None => "absent",
        Some(b) => yes(b),
    }
}

#[tactic(auto, unfolding(crate::specs::Tables::yes_or_no))]
fn yes(b: bool) -> &'static str
    ensures { result.now ≡ yes_or_no b }
{
    if b { "yes" } else { "no" }
}

fn wide_u8(field: Option<u8>) -> Option<u64>
    ensures { result ≡ field }
{
    match field {
        None => None,
        Some(n) => Some(u64::from(n)),
    }
}

fn wide_u16(field: Option<u16>) -> Option<u64>
    ensures { result ≡ field }
{
    match field {
        None => None,
        Some(n) => Some(u64::from(n)),
    }
}

fn wide_u32(field: Option<u32>) -> Option<u64>
    ensures { result ≡ field }
{
    match field {
        None => None,
        Some(n) => Some(u64::from(n)),
    }
}
