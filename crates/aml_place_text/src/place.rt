// What stands at a place of a body, in words: an operator by its word of ASL, or a name as it is
// spelled.

ghost use Rattle.std.specs.Prelude.{◌≡◌, ◌++◌, OnOk, replicate};
ghost use Rattle.aml_lex.specs.Names.{name_of};
ghost use Rattle.aml_paths.specs.Printed.{segments_text};
ghost use Rattle.aml_place_text.specs.Place.{bracketed, name_text, prefix_text, standing_text};

use crate::operators::operator_name;
use aml_lex::{NameRef, name_there};
use aml_tree::op_at;
use std::alloc::AllocError;

/// Adds what stands at a place, in brackets behind a space; nothing where neither an operator nor a
/// name begins there.
pub fn push_standing(text: &mut Vec<u8>, bytes: &[u8], at: usize) -> Result<(), AllocError>
    ensures { OnOk result (text.new.items ≡ text.old.items ++ standing_text bytes.now at) }
{
    if let Some((op, _)) = op_at(bytes, at) {
        return push_bracketed(text, operator_name(op).as_bytes());
    }
    match name_there(bytes, at) {
        Some(name) => push_bracketed_name(text, &name),
        None => Ok(()),
    }
}

// Adds words in brackets, behind a space.
fn push_bracketed(text: &mut Vec<u8>, words: &[u8]) -> Result<(), AllocError>
    ensures { OnOk result (text.new.items ≡ text.old.items ++ bracketed words.now) }
{
    text.extend_from_slice(b" (")?;
    text.extend_from_slice(words)?;
    text.extend_from_slice(b")")?;
    Ok(())
}

// Adds a name so.
fn push_bracketed_name(text: &mut Vec<u8>, name: &NameRef<'_>) -> Result<(), AllocError>
    ensures { OnOk result
        (text.new.items ≡ text.old.items ++ bracketed (name_text (name_of name.now))) }
{
    text.extend_from_slice(b" (")?;
    push_name(text, name)?;
    text.extend_from_slice(b")")?;
    Ok(())
}

// Adds a name: its prefix, and its segments with a `.` between each two.
fn push_name(text: &mut Vec<u8>, name: &NameRef<'_>) -> Result<(), AllocError>
    ensures { OnOk result (text.new.items ≡ text.old.items ++ name_text (name_of name.now)) }
{
    push_prefix(text, name)?;
    push_segments(text, name)
}

// Adds `\` where the name begins at the root, and a `^` for each parent.
fn push_prefix(text: &mut Vec<u8>, name: &NameRef<'_>) -> Result<(), AllocError>
    ensures { OnOk result (text.new.items
        ≡ text.old.items ++ prefix_text (name_of name.now).rooted (name_of name.now).parents) }
{
    if name.rooted() {
        text.push(b'\\')?;
    }
    push_parents(text, name.parents())
}

// Adds so many `^`.
fn push_parents(text: &mut Vec<u8>, count: usize) -> Result<(), AllocError>
    ensures { OnOk result (text.new.items ≡ text.old.items ++ replicate count 94) }
{
    for _ in 0..count {
        text.push(b'^')?;
    }
    Ok(())
}

// Adds the segments.
fn push_segments(text: &mut Vec<u8>, name: &NameRef<'_>) -> Result<(), AllocError>
    ensures { OnOk result
        (text.new.items ≡ text.old.items ++ segments_text (name_of name.now).segs) }
{
    for i in 0..name.segs() {
        if i > 0 {
            text.push(b'.')?;
        }
        text.extend_from_slice(&name.seg(i).bytes)?;
    }
    Ok(())
}
