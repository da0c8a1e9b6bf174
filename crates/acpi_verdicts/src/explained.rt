// What people are told of why a method is refused.

ghost use Rattle.std.specs.Prelude.{◌≡◌, ◌++◌, IfErr, IfOk, OnOk, map, string_bytes};
ghost use Rattle.acpi_verdicts.specs.Explained.{chain_text, found_part, is_form, next_of, reason_text, refused_part, refused_place, refused_text, rest_text, unread_text, unreadable_label, unreadable_text};
ghost use Rattle.acpi_text.specs.declared.writing.RunFault.TheVariants as told;
ghost use Rattle.aml_namespace.specs.Shows.{shown};

use crate::about::{called_at, push_about};
use crate::findings::push_finding;
use crate::outside::push_outside;
use crate::words::cause_words;
use acpi_notes::{TreePlace, label_of, tree_note};
use acpi_text::{RunFault, cause_text};
use aml_causes::{Cause, Refusal};
use aml_findings::Finding;
use aml_namespace::Namespace;
use aml_path_text::push_path;
use aml_paths::ObjectId;
use aml_place_text::push_standing;
use aml_tree::Refusal as Unread;
use aml_verify::{Checked, Verdict};
use std::alloc::{AllocError, Global};

/// The most methods that are told of one behind the other.
const MOST_TOLD: u8 = 8;

/// Why the method with a number is refused, in lines that each end in a line feed: its path, the
/// cause, the file, the byte, what the cause means, and what was found there and what was wanted;
/// of a cause that tells of a call the path of the method that is called. Where that one is refused
/// itself, the lines of it follow, two spaces further in, down to the first method that is refused
/// for another cause. 8 methods are told at most; a line behind them says under which method the
/// rest of the chain stands: under the one that the last line calls. No line where the method is
/// accepted, or no method has the number.
///
/// The files are called by the names that are handed in, in the order of the tables.
///
/// # Errors
///
/// `NoMemory`, where memory is wanted.
pub fn explain(
    alloc: Global,
    checked: &Checked<'_>,
    names: &[&str],
    id: ObjectId,
) -> Result<Vec<u8>, RunFault>
    ensures text { IfOk result (λ text. text.items
        ≡ chain_text 8 (map (λ name. name.now) names.now) checked.now id) }
    ensures fault { IfErr result (λ fault. fault ≡ told.NoMemory) }
{
    let mut text = Vec::new(alloc);
    push_chain(alloc, &mut text, checked, names, id, MOST_TOLD)?;
    Ok(text)
}

// Adds the lines of a method, and of those that are refused before it, so many methods at most.
fn push_chain(
    alloc: Global,
    text: &mut Vec<u8>,
    checked: &Checked<'_>,
    names: &[&str],
    id: ObjectId,
    most: u8,
) -> Result<(), RunFault>
    ensures text { OnOk result (text.new.items ≡ text.old.items
        ++ chain_text most (map (λ name. name.now) names.now) checked.now id) }
    ensures fault { IfErr result (λ fault. fault ≡ told.NoMemory) }
{
    if most == 0 {
        return push_rest(alloc, text, checked.namespace(), id);
    }
    push_reason(alloc, text, checked, names, id)?;
    let Some(callee) = next_of(checked, id) else {
        return Ok(());
    };
    text.extend_from_slice(b"  ")?;
    push_chain(alloc, text, checked, names, callee, most - 1)
}

// Adds the line that says that the rest of a chain stands under a method.
fn push_rest(
    alloc: Global,
    text: &mut Vec<u8>,
    namespace: &Namespace<'_>,
    id: ObjectId,
) -> Result<(), RunFault>
    ensures text { OnOk result
        (text.new.items ≡ text.old.items ++ rest_text (shown namespace.now) id) }
    ensures fault { IfErr result (λ fault. fault ≡ told.NoMemory) }
{
    text.extend_from_slice(b"the rest of the chain stands under ")?;
    push_path(alloc, text, namespace, id)?;
    text.extend_from_slice(b"\n")?;
    Ok(())
}

// Adds the line of one method, if it is refused.
fn push_reason(
    alloc: Global,
    text: &mut Vec<u8>,
    checked: &Checked<'_>,
    names: &[&str],
    id: ObjectId,
) -> Result<(), RunFault>
    ensures text { OnOk result (text.new.items ≡ text.old.items
        ++ reason_text (map (λ name. name.now) names.now) checked.now id) }
    ensures fault { IfErr result (λ fault. fault ≡ told.NoMemory) }
{
    match checked.verdict(id) {
        Some(Verdict::Refused(refusal, finding)) => {
            let label = label_of(alloc, names, refusal.table)?;
            push_refused(
                alloc,
                text,
                checked.namespace(),
                id,
                label.as_str(),
                *refusal,
                *finding,
            )
        }
        Some(Verdict::Unreadable { table, refusal }) => {
            push_unread(
                alloc,
                text,
                checked.namespace(),
                names,
                id,
                *table,
                *refusal,
            )
        }
        Some(Verdict::Accepted(_)) | None => Ok(()),
    }
}

// Adds the line of a method that is refused for a cause at a place of its body.
fn push_refused(
    alloc: Global,
    text: &mut Vec<u8>,
    namespace: &Namespace<'_>,
    id: ObjectId,
    label: &str,
    refusal: Refusal,
    finding: Finding,
) -> Result<(), RunFault>
    ensures text { OnOk result (text.new.items ≡ text.old.items
        ++ refused_text (shown namespace.now) label.now id refusal finding) }
    ensures fault { IfErr result (λ fault. fault ≡ told.NoMemory) }
{
    push_path(alloc, text, namespace, id)?;
    push_cause(alloc, text, namespace, label, refusal, finding)?;
    push_about(alloc, text, namespace, id, refusal, finding)?;
    text.extend_from_slice(b"\n")?;
    Ok(())
}

// Adds what stands behind the path of a method that is refused for a cause.
fn push_cause(
    alloc: Global,
    text: &mut Vec<u8>,
    namespace: &Namespace<'_>,
    label: &str,
    refusal: Refusal,
    finding: Finding,
) -> Result<(), RunFault>
    ensures text { OnOk result (text.new.items ≡ text.old.items
        ++ refused_part (shown namespace.now) label.now refusal finding) }
    ensures fault { IfErr result (λ fault. fault ≡ told.NoMemory) }
{
    let place = refused_place(alloc, label, refusal)?;
    text.extend_from_slice(place.as_bytes())?;
    push_standing(text, namespace.table_bytes(refusal.table), refusal.at)?;
    text.extend_from_slice(b": ")?;
    text.extend_from_slice(cause_words(refusal.why).as_bytes())?;
    push_found(alloc, text, namespace, refusal, finding)
}

// Adds what was found and what was wanted; where nothing was found of a form that has no meaning,
// what is wanted of it.
fn push_found(
    alloc: Global,
    text: &mut Vec<u8>,
    namespace: &Namespace<'_>,
    refusal: Refusal,
    finding: Finding,
) -> Result<(), RunFault>
    ensures text { OnOk result (text.new.items ≡ text.old.items
        ++ found_part (shown namespace.now) refusal finding) }
    ensures fault { IfErr result (λ fault. fault ≡ told.NoMemory) }
{
    if is_form(refusal.why, finding) {
        push_outside(text, namespace.table_bytes(refusal.table), refusal.at)
    } else {
        push_finding(alloc, text, namespace, finding)
    }
}

// Whether a form that has no meaning was refused, and nothing was found there.
fn is_form(cause: Cause, finding: Finding) -> bool
    ensures { result ≡ is_form cause finding }
{
    matches!((cause, finding), (Cause::OutsideProfile, Finding::Nothing))
}

// A cause and its place.
#[tactic(auto, unfolding(crate::specs::Explained::refused_place))]
fn refused_place(alloc: Global, label: &str, refusal: Refusal) -> Result<String, AllocError>
    ensures { IfOk result (λ part. string_bytes part ≡ refused_place label.now refusal) }
{
    let cause = cause_text(refusal.why);
    let at = refusal.at;
    format!(in alloc; ": {cause}: {label}, byte {at}")
}

// How the place of a body that cannot be read is called, behind the method's path.
#[tactic(auto, unfolding(crate::specs::Explained::unreadable_label))]
fn unreadable_label(alloc: Global, label: &str, refusal: Unread) -> Result<String, AllocError>
    ensures { IfOk result (λ part. string_bytes part ≡ unreadable_label label.now refusal) }
{
    let cause = refusal.cause.text();
    format!(in alloc; ": {cause}: {label}")
}

/// Why the body of the method with a number cannot be read, in a line that ends in a line feed: its
/// path, the fault, the file, the byte, and what is wrong there. The files are called by the names
/// that are handed in, in the order of the tables.
///
/// # Errors
///
/// `NoMemory`, where memory is wanted.
pub fn unread_text(
    alloc: Global,
    namespace: &Namespace<'_>,
    names: &[&str],
    id: ObjectId,
    table: usize,
    refusal: Unread,
) -> Result<Vec<u8>, RunFault>
    ensures text { IfOk result (λ text. text.items
        ≡ unread_text (map (λ name. name.now) names.now) (shown namespace.now) id table refusal) }
    ensures fault { IfErr result (λ fault. fault ≡ told.NoMemory) }
{
    let mut text = Vec::new(alloc);
    push_unread(alloc, &mut text, namespace, names, id, table, refusal)?;
    Ok(text)
}

// Adds that line.
fn push_unread(
    alloc: Global,
    text: &mut Vec<u8>,
    namespace: &Namespace<'_>,
    names: &[&str],
    id: ObjectId,
    table: usize,
    refusal: Unread,
) -> Result<(), RunFault>
    ensures text { OnOk result (text.new.items ≡ text.old.items ++ unread_text
        (map (λ name. name.now) names.now) (shown namespace.now) id table refusal) }
    ensures fault { IfErr result (λ fault. fault ≡ told.NoMemory) }
{
    let label = label_of(alloc, names, table)?;
    let label = unreadable_label(alloc, label.as_str(), refusal)?;
    let bytes = namespace.table_bytes(table);
    push_unreadable(alloc, text, namespace, id, label.as_str(), bytes, refusal)
}

// Adds the line of a method whose body cannot be read, by how its file is called.
fn push_unreadable(
    alloc: Global,
    text: &mut Vec<u8>,
    namespace: &Namespace<'_>,
    id: ObjectId,
    label: &str,
    bytes: &[u8],
    refusal: Unread,
) -> Result<(), RunFault>
    ensures text { OnOk result (text.new.items ≡ text.old.items
        ++ unreadable_text (shown namespace.now) label.now bytes.now id refusal) }
    ensures fault { IfErr result (λ fault. fault ≡ told.NoMemory) }
{
    push_path(alloc, text, namespace, id)?;
    let at = refusal.at;
    let note = tree_note(alloc, TreePlace { label, bytes, at }, refusal.cause)?;
    text.extend_from_slice(note.as_bytes())?;
    text.extend_from_slice(b"\n")?;
    Ok(())
}

// The method whose own cause is told next: the one that is called, where a method is refused for
// that.
fn next_of(checked: &Checked<'_>, id: ObjectId) -> Option<ObjectId>
    ensures { result ≡ next_of checked.now id }
{
    match checked.verdict(id) {
        Some(Verdict::Refused(refusal, _)) if refusal.why == Cause::CalleeRefused => {
            called_at(checked.namespace(), id, *refusal)
        }
        _ => None,
    }
}
