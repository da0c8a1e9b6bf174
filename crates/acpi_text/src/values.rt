// Values, as they are printed.

ghost use Rattle.std.specs.Prelude.{◌≡◌, ◌++◌, ◌∷◌, [], OnOk, codes};
ghost use Rattle.acpi_text.specs.Lists.{Lists};
ghost use Rattle.acpi_text.specs.Text.{escaped, hex, joined};
ghost use Rattle.acpi_text.specs.Values.{bytes_text, element_text, element_texts, listed, named_text, value_text};
ghost use Rattle.aml_values.specs.Views.{element, elements_of, view};
ghost use Rattle.aml_namespace.specs.Shows.{shown};

use crate::escaped::escaped_text;
use crate::path::push_object;
use crate::writing::{RunFault, put};
use aml_namespace::Namespace;
use aml_paths::ObjectId;
use aml_values::{Element, Value};
use hex;
use std::alloc::{AllocError, Global};
use std::io::Write;

/// Prints a value: an integer as `0x2a`; `buffer 0102`, of no bytes `buffer -`; `string "AB"`, with
/// `\x` and two hex digits for what is no printable character; `package [E, E]`, in which an
/// element is a value, the first path of the object that a name names, `unresolved` or `unset`.
///
/// At Err the writer holds a beginning of that text.
pub fn list_value<W: Write>(
    alloc: Global,
    out: &mut W,
    namespace: &Namespace<'_>,
    value: &Value,
) -> Result<(), RunFault>
    ensures { Lists result (W.contents out.old) (W.contents out.new)
        (value_text (shown namespace.now).entries (view value.now)) }
{
    let mut text = Vec::new(alloc);
    push_value(alloc, &mut text, namespace, value)?;
    put(out, text.as_slice())
}

/// Adds a value.
#[cycle(push_value)]
#[tactic(auto, unfolding(crate::specs::Values::value_text))]
pub(crate) fn push_value(
    alloc: Global,
    text: &mut Vec<u8>,
    namespace: &Namespace<'_>,
    value: &Value,
) -> Result<(), RunFault>
    ensures { OnOk result (text.new.items
        ≡ text.old.items ++ value_text (shown namespace.now).entries (view value.now)) }
{
    match value {
        Value::Int(number) => push_integer(alloc, text, *number)?,
        Value::Buf(bytes) => {
            text.extend_from_slice(b"buffer ")?;
            push_bytes(alloc, text, bytes.as_slice())?;
        }
        Value::Str(characters) => push_string(alloc, text, characters.as_slice())?,
        Value::Pkg(package) => {
            text.extend_from_slice(b"package [")?;
            push_elements(alloc, text, namespace, package.elements())?;
            text.extend_from_slice(b"]")?;
        }
    }
    Ok(())
}

// Adds elements, with `, ` between each two.
#[cycle(push_value)]
fn push_elements(
    alloc: Global,
    text: &mut Vec<u8>,
    namespace: &Namespace<'_>,
    elements: &[Element],
) -> Result<(), RunFault>
    ensures { let texts = element_texts (shown namespace.now).entries (elements_of elements.now) in
        OnOk result (text.new.items ≡ text.old.items ++ listed texts) }
{
    for (i, each) in elements.iter().enumerate() {
        if i > 0 {
            text.extend_from_slice(b", ")?;
        }
        push_element(alloc, text, namespace, each)?;
    }
    Ok(())
}

// Adds an element.
#[cycle(push_value)]
#[tactic(auto, unfolding(crate::specs::Values::element_text))]
fn push_element(
    alloc: Global,
    text: &mut Vec<u8>,
    namespace: &Namespace<'_>,
    each: &Element,
) -> Result<(), RunFault>
    ensures { OnOk result (text.new.items
        ≡ text.old.items ++ element_text (shown namespace.now).entries (element each.now)) }
{
    match each {
        Element::Value(value) => push_value(alloc, text, namespace, value),
        Element::Name(object) => push_named(alloc, text, namespace, *object),
        Element::Unset => {
            text.extend_from_slice(b"unset")?;
            Ok(())
        }
    }
}

// Adds what a name names.
fn push_named(
    alloc: Global,
    text: &mut Vec<u8>,
    namespace: &Namespace<'_>,
    object: Option<ObjectId>,
) -> Result<(), RunFault>
    ensures { OnOk result (text.new.items
        ≡ text.old.items ++ named_text (shown namespace.now).entries object) }
{
    match object {
        Some(id) => push_object(alloc, text, namespace, id),
        None => {
            text.extend_from_slice(b"unresolved")?;
            Ok(())
        }
    }
}

fn push_integer(alloc: Global, text: &mut Vec<u8>, number: u64) -> Result<(), AllocError>
    ensures { OnOk result (text.new.items ≡ text.old.items ++ (codes "0x" ++ hex number)) }
{
    let digits = format!(in alloc; "0x{number:x}")?;
    text.extend_from_slice(digits.as_bytes())
}

fn push_bytes(alloc: Global, text: &mut Vec<u8>, bytes: &[u8]) -> Result<(), AllocError>
    ensures { OnOk result (text.new.items ≡ text.old.items ++ bytes_text bytes.now) }
{
    if bytes.is_empty() {
        return text.extend_from_slice(b"-");
    }
    let digits = hex::encode(alloc, bytes)?;
    text.extend_from_slice(digits.as_bytes())
}

fn push_string(alloc: Global, text: &mut Vec<u8>, characters: &[u8]) -> Result<(), AllocError>
    ensures { OnOk result (text.new.items
        ≡ text.old.items ++ joined (codes "string \"" ∷ escaped characters.now ∷ codes "\"" ∷ [])) }
{
    let escaped = escaped_text(alloc, characters)?;
    let quoted = format!(in alloc; "string \"{escaped}\"")?;
    text.extend_from_slice(quoted.as_bytes())
}
