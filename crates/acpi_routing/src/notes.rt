// What people are told of a `_PRT` that cannot be followed.

ghost use Rattle.std.specs.Prelude.{◌≡◌, ◌++◌, IfErr, IfOk, OnOk, map, string_bytes};
ghost use Rattle.std.specs.Option.{option_map};
ghost use Rattle.acpi_resources.specs.Interrupts.{crs_of_links};
ghost use Rattle.acpi_routing.specs.Notes.{element_note, entry_note, entry_words, is_listed, link_part, link_text, named_text, reason_by, reason_of, reason_text, reason_words, source_part, source_text};
ghost use Rattle.acpi_text.specs.declared.writing.RunFault.TheVariants as told;
ghost use Rattle.acpi_verdicts.specs.Explained.{chain_text};
ghost use Rattle.aml_namespace.specs.Shows.{shown};
ghost use Rattle.aml_values.specs.Views.{view};

use crate::crs::crs_of;
use crate::devices::{device_at, entry_fault_at};
use crate::fault::LinkRefusal;
use acpi_resources::{EntryFault, Item, ResourceRefusal};
use acpi_text::RunFault;
use acpi_verdicts::explain;
use aml_namespace::Namespace;
use aml_path_text::push_path;
use aml_paths::{NoMemory, ObjectId};
use aml_values::Value;
use aml_verify::{Checked, Verdict};
use std::alloc::{AllocError, Global};

/// Why a link has no interrupt.
#[derive(Clone, Copy, Debug, PartialEq, Eq)]
enum Reason {
    /// No `_CRS` that gives a value.
    NoCrs,
    /// A `_CRS` that is a method which is not accepted.
    Refused(ObjectId),
    /// A `_CRS` that gives no buffer.
    NoBuffer,
    /// A `_CRS` whose descriptors list no interrupt.
    NoInterrupt,
}

/// Of an element of a `_PRT` that says nothing, by its number: what keeps it from that.
pub fn entry_note(alloc: Global, prt: &Value, number: usize) -> Result<String, AllocError>
    ensures { IfOk result (λ note. string_bytes note ≡ entry_note (view prt.now) number) }
{
    element_note(alloc, number, entry_words(entry_fault_at(prt, number)))
}

// What is said of the element with a number.
#[tactic(auto, unfolding(crate::specs::Notes::element_note))]
fn element_note(alloc: Global, number: usize, words: &str) -> Result<String, AllocError>
    ensures { IfOk result (λ note. string_bytes note ≡ element_note number words.now) }
{
    format!(in alloc; "element {number} of the _PRT {words}")
}

// What keeps an element of a `_PRT` from saying where an interrupt comes from, in words.
#[tactic(auto, unfolding(crate::specs::Notes::entry_words))]
fn entry_words(fault: EntryFault) -> &'static str
    ensures { result.now ≡ entry_words fault }
{
    match fault {
        EntryFault::Parts => "is no package of four: an address, a pin, a source and an index",
        EntryFault::Address => "has an address that is no integer",
        EntryFault::Pin => "has a pin that is no integer from 0 to 3",
        EntryFault::Source => "has a source that is neither a name nor 0",
        EntryFault::Index => "has an index that is no integer",
        EntryFault::GreatIndex => "has an index that is not below 2^32, behind source 0",
    }
}

/// Of a link whose `_CRS` gives bytes that are no list of resource descriptors, in a line.
pub fn link_text(
    alloc: Global,
    namespace: &Namespace<'_>,
    refused: LinkRefusal,
) -> Result<Vec<u8>, RunFault>
    ensures text { IfOk result (λ text. text.items ≡ link_text (shown namespace.now) refused) }
    ensures fault { IfErr result (λ fault. fault ≡ told.NoMemory) }
{
    let mut text = Vec::new(alloc);
    push_path(alloc, &mut text, namespace, refused.device)?;
    let part = link_part(alloc, refused.refusal)?;
    text.extend_from_slice(part.as_bytes())?;
    Ok(text)
}

// What stands behind the link's path.
#[tactic(auto, unfolding(crate::specs::Notes::link_part))]
fn link_part(alloc: Global, refusal: ResourceRefusal) -> Result<String, AllocError>
    ensures { IfOk result (λ part. string_bytes part ≡ link_part refusal) }
{
    let cause = refusal.cause.text();
    let at = refusal.at;
    format!(in alloc; "._CRS: {cause}: byte {at} of the buffer that it gives\n")
}

/// Of an element of a `_PRT` whose source leads to no interrupt, by its number, in lines: which
/// link it names, and why that has none; behind a `_CRS` that is refused stands why, with the files
/// by their names.
pub fn source_text(
    alloc: Global,
    checked: &Checked<'_>,
    names: &[&str],
    prt: &Value,
    links: &[(ObjectId, Vec<Item>)],
    number: usize,
) -> Result<Vec<u8>, RunFault>
    ensures text { IfOk result (λ text. text.items ≡ source_text (map (λ name. name.now) names.now)
        checked.now (view prt.now) (crs_of_links links.now) number) }
    ensures fault { IfErr result (λ fault. fault ≡ told.NoMemory) }
{
    let mut text = Vec::new(alloc);
    let part = source_part(alloc, number)?;
    text.extend_from_slice(part.as_bytes())?;
    push_source(
        alloc,
        &mut text,
        checked,
        names,
        links,
        device_at(prt, number),
    )?;
    Ok(text)
}

// What stands in front.
#[tactic(auto, unfolding(crate::specs::Notes::source_part))]
fn source_part(alloc: Global, number: usize) -> Result<String, AllocError>
    ensures { IfOk result (λ part. string_bytes part ≡ source_part number) }
{
    format!(in alloc; "element {number} of the _PRT: its source ")
}

// Adds what is told of a source: of the link that it names.
fn push_source(
    alloc: Global,
    text: &mut Vec<u8>,
    checked: &Checked<'_>,
    names: &[&str],
    links: &[(ObjectId, Vec<Item>)],
    named: Option<ObjectId>,
) -> Result<(), RunFault>
    ensures text { OnOk result (text.new.items ≡ text.old.items ++ named_text
        (map (λ name. name.now) names.now) checked.now (crs_of_links links.now) named) }
    ensures fault { IfErr result (λ fault. fault ≡ told.NoMemory) }
{
    let Some(device) = named else {
        text.extend_from_slice(b"names nothing\n")?;
        return Ok(());
    };
    push_path(alloc, text, checked.namespace(), device)?;
    let reason = reason_of(alloc, checked, links, device)?;
    push_reason(alloc, text, checked, names, reason)
}

// Adds why a link has no interrupt.
fn push_reason(
    alloc: Global,
    text: &mut Vec<u8>,
    checked: &Checked<'_>,
    names: &[&str],
    reason: Reason,
) -> Result<(), RunFault>
    ensures text { OnOk result (text.new.items ≡ text.old.items
        ++ reason_text (map (λ name. name.now) names.now) checked.now reason) }
    ensures fault { IfErr result (λ fault. fault ≡ told.NoMemory) }
{
    text.extend_from_slice(reason_words(reason).as_bytes())?;
    match reason {
        Reason::Refused(crs) => push_why(alloc, text, checked, names, crs),
        _ => Ok(()),
    }
}

// Why a link has no interrupt, in words.
#[tactic(auto, unfolding(crate::specs::Notes::reason_words))]
fn reason_words(reason: Reason) -> &'static str
    ensures { result.now ≡ reason_words reason }
{
    match reason {
        Reason::NoCrs => " has no _CRS that is a data name or a method without arguments\n",
        Reason::Refused(_) => " has a _CRS that is refused\n",
        Reason::NoBuffer => " has a _CRS that gives no buffer\n",
        Reason::NoInterrupt => {
            " has a _CRS without a descriptor of interrupts, or whose first one lists none\n"
        }
    }
}

// Adds why a method is refused.
fn push_why(
    alloc: Global,
    text: &mut Vec<u8>,
    checked: &Checked<'_>,
    names: &[&str],
    id: ObjectId,
) -> Result<(), RunFault>
    ensures text { OnOk result (text.new.items ≡ text.old.items
        ++ chain_text 8 (map (λ name. name.now) names.now) checked.now id) }
    ensures fault { IfErr result (λ fault. fault ≡ told.NoMemory) }
{
    let why = explain(alloc, checked, names, id)?;
    text.extend_from_slice(&why)?;
    Ok(())
}

// Why a link has no interrupt.
fn reason_of(
    alloc: Global,
    checked: &Checked<'_>,
    links: &[(ObjectId, Vec<Item>)],
    device: ObjectId,
) -> Result<Reason, NoMemory>
    ensures { IfOk result (λ reason.
        reason ≡ reason_of checked.now (crs_of_links links.now) device) }
{
    if is_listed(links, device) {
        return Ok(Reason::NoInterrupt);
    }
    let crs = crs_of(alloc, checked.namespace(), device)?;
    Ok(reason_by(checked, crs))
}

// Why a link has no items, by its `_CRS`.
fn reason_by(checked: &Checked<'_>, crs: Option<ObjectId>) -> Reason
    ensures { result ≡ reason_by checked.now (option_map (λ id. id.0) crs) }
{
    let Some(crs) = crs else {
        return Reason::NoCrs;
    };
    match checked.verdict(crs) {
        Some(Verdict::Refused(_, _) | Verdict::Unreadable { .. }) => Reason::Refused(crs),
        Some(Verdict::Accepted(_)) | None => Reason::NoBuffer,
    }
}

// Whether a link has items.
fn is_listed(links: &[(ObjectId, Vec<Item>)], device: ObjectId) -> bool
    ensures { result ≡ is_listed (crs_of_links links.now) device }
{
    for link in links {
        let is_same = link.0.0 == device.0;
        if is_same {
            return true;
        }
    }
    false
}
