// The names of a namespace, as they are printed.

ghost use Rattle.std.specs.Prelude.{◌≡◌, ◌++◌, ◌<◌, length, slice_get, IfOk, OnOk, string_bytes};
ghost use Rattle.acpi_text.specs.Lists.{Lists};
ghost use Rattle.acpi_text.specs.Names.{content_text, entry_line, entry_text, kind_text, names_text};
ghost use Rattle.aml_path_text.specs.Paths.{path_of};
ghost use Rattle.aml_paths.specs.Paths.{Path};
ghost use Rattle.aml_namespace.specs.Shows.{shown};
ghost use Rattle.aml_objects.specs.Widths.{bits_of};

use crate::writing::{RunFault, put};
use aml_namespace::{Content, Entry, Namespace, Object, Width};
use aml_path_text::push_path;
use aml_paths::ObjectId;
use std::alloc::{AllocError, Global};
use std::io::Write;

/// Prints a line for each path of a namespace, in order of definition: the path, and what stands
/// under it, as `\_SB_.PCI0 device`, `\M000 method 1`, `\NAME buffer 16` or `\ALS0 alias \M000`.
///
/// Behind `method` is its number of arguments, behind `buffer` and `string` that of their bytes,
/// behind `package` that of its elements, behind `field` and `bufferfield` that of their bits, and
/// behind `alias` the first path of its object.
///
/// At Err the writer holds a beginning of that text.
pub fn list_names<W: Write>(
    alloc: Global,
    out: &mut W,
    namespace: &Namespace<'_>,
) -> Result<(), RunFault>
    ensures { Lists result (W.contents out.old) (W.contents out.new)
        (names_text (shown namespace.now)) }
{
    let mut line = Vec::new(alloc);
    for number in 0..namespace.len() {
        list_name(alloc, &mut line, out, namespace, ObjectId(number))?;
    }
    Ok(())
}

// Prints the line of the path with this number. It is made where the line before stood, whose room
// serves again.
fn list_name<W: Write>(
    alloc: Global,
    line: &mut Vec<u8>,
    out: &mut W,
    namespace: &Namespace<'_>,
    id: ObjectId,
) -> Result<(), RunFault>
    requires { id.0 < length (shown namespace.now).entries }
    ensures { let entries = (shown namespace.now).entries in
        (named : Path × Entry) → slice_get entries id.0 ≡ Some named
        → Lists result (W.contents out.old) (W.contents out.new)
        (entry_line (shown namespace.now) named) }
{
    let entry = namespace.entry(id).unwrap();
    line.clear();
    push_line(alloc, line, namespace, id, entry)?;
    put(out, line.as_slice())
}

// Adds the line of the path with this number, under which an entry stands.
#[tactic(auto, unfolding(crate::specs::Names::entry_line))]
fn push_line(
    alloc: Global,
    line: &mut Vec<u8>,
    namespace: &Namespace<'_>,
    id: ObjectId,
    entry: Entry,
) -> Result<(), RunFault>
    ensures { let entries = (shown namespace.now).entries in OnOk result (line.new.items
        ≡ line.old.items ++ entry_line (shown namespace.now) (path_of entries id.0, entry)) }
{
    push_path(alloc, line, namespace, id)?;
    line.extend_from_slice(b" ")?;
    push_entry(alloc, line, namespace, entry)?;
    line.extend_from_slice(b"\n")?;
    Ok(())
}

// Adds what stands under a path.
#[tactic(auto, unfolding(crate::specs::Names::entry_text))]
fn push_entry(
    alloc: Global,
    line: &mut Vec<u8>,
    namespace: &Namespace<'_>,
    entry: Entry,
) -> Result<(), RunFault>
    ensures { OnOk result
        (line.new.items ≡ line.old.items ++ entry_text (shown namespace.now) entry) }
{
    match entry {
        Entry::Own(object) => {
            let kind = kind_of(alloc, namespace.width(), object)?;
            line.extend_from_slice(kind.as_bytes())?;
            Ok(())
        }
        Entry::Alias(id) => {
            line.extend_from_slice(b"alias ")?;
            push_path(alloc, line, namespace, id)?;
            Ok(())
        }
    }
}

// The kind of an object, where integers have this width.
#[tactic(auto, unfolding(crate::specs::Names::kind_text))]
fn kind_of(alloc: Global, width: Width, object: Object) -> Result<String, AllocError>
    ensures { IfOk result (λ kind. string_bytes kind ≡ kind_text (bits_of width) object) }
{
    match object {
        Object::Scope => format!(in alloc; "scope"),
        Object::Device => format!(in alloc; "device"),
        Object::Processor => format!(in alloc; "processor"),
        Object::PowerResource => format!(in alloc; "power"),
        Object::ThermalZone => format!(in alloc; "thermal"),
        Object::Method(method) => format!(in alloc; "method {}", method.args),
        Object::OsInterfaces => format!(in alloc; "method 1"),
        Object::Data(name) => content_of(alloc, name.content),
        Object::Region(_) | Object::DataTableRegion => format!(in alloc; "region"),
        Object::Field(field) => format!(in alloc; "field {}", field.bits),
        Object::BufferField(field) => format!(in alloc; "bufferfield {}", field.size.bits(width)),
        Object::Mutex { .. } | Object::GlobalLock => format!(in alloc; "mutex"),
        Object::Event => format!(in alloc; "event"),
    }
}

// The kind of a name's content.
#[tactic(auto, unfolding(crate::specs::Names::content_text))]
fn content_of(alloc: Global, content: Content) -> Result<String, AllocError>
    ensures { IfOk result (λ kind. string_bytes kind ≡ content_text content) }
{
    match content {
        Content::Integer => format!(in alloc; "integer"),
        Content::Buffer(count) => format!(in alloc; "buffer {count}"),
        Content::String(count) => format!(in alloc; "string {count}"),
        Content::Package(count) => format!(in alloc; "package {count}"),
    }
}
