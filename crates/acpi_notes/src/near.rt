// A path that is no method's, and what stands near it.

ghost use Rattle.std.specs.Prelude.{◌≡◌, ◌++◌, ◌-◌, IfOk, OnOk, replicate, string_bytes};
ghost use Rattle.std.specs.Option.{option_map};
ghost use Rattle.aml_namespace.specs.PrintedObjects.{printed_object};
ghost use Rattle.aml_namespace.specs.Shows.{shown};
ghost use Rattle.acpi_notes.specs.Near.{IsMissingNote, IsObjectNote, IsThere, below_root, far_note, near_note, near_path, no_method_note, padded, printed_form, printed_segments};

use aml_namespace::Namespace;
use std::alloc::{AllocError, Global};

/// The path as it is printed that a word may mean: with a `\` in front, in upper case, each segment
/// of four characters; None where the word is that already, or nothing has that path.
pub(crate) fn near_path(
    alloc: Global,
    namespace: &Namespace<'_>,
    word: &str,
) -> Result<Option<String>, AllocError>
    ensures { IfOk result (λ near. option_map string_bytes near
        ≡ near_path (shown namespace.now).entries word.now) }
{
    let path = printed_form(alloc, word)?;
    match namespace.find(path.as_bytes()) {
        Some(_) if path.as_str() != word => Ok(Some(path)),
        _ => Ok(None),
    }
}

/// The path as it is printed that a word may mean.
#[tactic(auto, unfolding(crate::specs::Near::printed_form))]
fn printed_form(alloc: Global, word: &str) -> Result<String, AllocError>
    ensures { IfOk result (λ path. string_bytes path ≡ printed_form word.now) }
{
    let mut path = String::from_str(alloc, "\\")?;
    let below = below_root(word);
    if !below.is_empty() {
        push_segments(alloc, &mut path, below)?;
    }
    Ok(path)
}

/// A word without the `\` in front.
fn below_root(word: &str) -> &str
    ensures { result.now ≡ below_root word.now }
{
    match word.strip_prefix('\\') {
        Some(below) => below,
        None => word,
    }
}

/// Adds what stands between the dots of a text, each padded.
fn push_segments(alloc: Global, path: &mut String, text: &str) -> Result<(), AllocError>
    ensures { OnOk result (string_bytes path.new
        ≡ string_bytes path.old ++ printed_segments text.now) }
{
    let mut rest = text;
    while let Some((segment, behind)) = rest.split_once('.') {
        push_padded(alloc, path, segment)?;
        path.push('.')?;
        rest = behind;
    }
    push_padded(alloc, path, rest)
}

/// Adds a segment in upper case, with `_` behind it up to four characters.
fn push_padded(alloc: Global, path: &mut String, segment: &str) -> Result<(), AllocError>
    ensures { OnOk result (string_bytes path.new ≡ string_bytes path.old ++ padded segment.now) }
{
    let upper = segment.to_ascii_uppercase(alloc)?;
    path.push_str(upper.as_str())?;
    path.push_str(padding(segment.len()))
}

/// What so many characters want up to four.
fn padding(length: usize) -> &'static str
    ensures { result.now ≡ replicate (4 - length) 95 }
{
    match length {
        0 => "____",
        1 => "___",
        2 => "__",
        3 => "_",
        _ => "",
    }
}

/// The longest front of a path, cut between segments, that something has; the root is always there.
fn front_there<'a>(namespace: &Namespace<'_>, path: &'a str) -> &'a str
    ensures { IsThere (shown namespace.now).entries result.now }
{
    let mut front = path;
    while let Some((before, _)) = front.rsplit_once('.') {
        front = before;
        if namespace.find(front.as_bytes()).is_some() {
            return front;
        }
    }
    "\\"
}

/// Of a path that is no method's: what stands there, or which path may be meant, or how far it
/// leads.
pub fn object_note(
    alloc: Global,
    namespace: &Namespace<'_>,
    word: &str,
) -> Result<String, AllocError>
    ensures { IfOk result (λ note. IsObjectNote (shown namespace.now).entries word.now
        (printed_object (shown namespace.now).entries word.now) (string_bytes note)) }
{
    match namespace.find(word.as_bytes()) {
        Some(_) => no_method_note(alloc, word),
        None => missing_note(alloc, namespace, word),
    }
}

#[tactic(auto, unfolding(crate::specs::Near::no_method_note))]
fn no_method_note(alloc: Global, word: &str) -> Result<String, AllocError>
    ensures { IfOk result (λ note. string_bytes note ≡ no_method_note word.now) }
{
    format!(in alloc; "{word} is no method of a table: names shows what it is")
}

/// Of a path that nothing has.
fn missing_note(alloc: Global, namespace: &Namespace<'_>, word: &str) -> Result<String, AllocError>
    ensures { IfOk result (λ note. IsMissingNote (shown namespace.now).entries word.now
        (near_path (shown namespace.now).entries word.now) (string_bytes note)) }
{
    match near_path(alloc, namespace, word)? {
        Some(path) => near_note(alloc, word, path.as_str()),
        None => {
            let path = printed_form(alloc, word)?;
            far_note(alloc, word, front_there(namespace, path.as_str()))
        }
    }
}

#[tactic(auto, unfolding(crate::specs::Near::near_note))]
fn near_note(alloc: Global, word: &str, path: &str) -> Result<String, AllocError>
    ensures { IfOk result (λ note. string_bytes note ≡ near_note word.now path.now) }
{
    format!(in alloc; "nothing has the path {word}; {path} is there")
}

#[tactic(auto, unfolding(crate::specs::Near::far_note))]
fn far_note(alloc: Global, word: &str, front: &str) -> Result<String, AllocError>
    ensures { IfOk result (λ note. string_bytes note ≡ far_note word.now front.now) }
{
    format!(in alloc; "nothing has the path {word}; of it {front} is there")
}
