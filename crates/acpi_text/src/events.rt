// What an evaluation did to the world, as it is printed.

ghost use Rattle.std.specs.Prelude.{◌≡◌, ◌++◌, IfOk, OnOk, codes, string_bytes};
ghost use Rattle.acpi_text.specs.Events.{access_line, event_line, events_text, notify_line, space_text, wait_line};
ghost use Rattle.acpi_text.specs.Lists.{Lists};
ghost use Rattle.acpi_text.specs.Names.{object_text};
ghost use Rattle.aml_namespace.specs.Shows.{shown};
ghost use Rattle.aml_regions.specs.EventViews.{event_of, events_of};

use crate::path::push_object;
use crate::writing::{RunFault, put};
use aml_namespace::Namespace;
use aml_paths::ObjectId;
use aml_regions::{Access, Event};
use std::alloc::{AllocError, Global};
use std::io::Write;

/// Prints a line for each event, in their order: `read io 0x60 8 0x15` and `write io 0x60 8 0xb5`
/// with space, address, width in bits and value, `notify \DEV0 0x80` with the first path of the
/// object, `sleep 0xa` in milliseconds and `stall 0xa` in microseconds.
///
/// At Err the writer holds a beginning of that text.
pub fn list_events<W: Write>(
    alloc: Global,
    out: &mut W,
    namespace: &Namespace<'_>,
    events: &[Event],
) -> Result<(), RunFault>
    ensures { Lists result (W.contents out.old) (W.contents out.new)
        (events_text (shown namespace.now).entries (events_of events.now)) }
{
    let mut line = String::new(alloc);
    for event in events {
        list_event(alloc, &mut line, out, namespace, event)?;
    }
    Ok(())
}

// Prints the line of an event. It is made in a text that held the line before, whose room serves
// again.
fn list_event<W: Write>(
    alloc: Global,
    line: &mut String,
    out: &mut W,
    namespace: &Namespace<'_>,
    event: &Event,
) -> Result<(), RunFault>
    ensures { Lists result (W.contents out.old) (W.contents out.new)
        (event_line (shown namespace.now).entries (event_of event.now)) }
{
    line.clear();
    match event {
        Event::Read(access, value) => push_access(line, "read", *access, *value)?,
        Event::Written(access, value) => push_access(line, "write", *access, *value)?,
        Event::Slept(milliseconds, _) => push_wait(line, "sleep", *milliseconds)?,
        Event::Stalled(microseconds) => push_wait(line, "stall", *microseconds)?,
        Event::Notified(object, value) => {
            return list_notify(alloc, out, namespace, *object, *value);
        }
    }
    put(out, line.as_bytes())
}

#[tactic(auto, unfolding(crate::specs::Events::access_line))]
fn push_access(line: &mut String, verb: &str, access: Access, value: u64) -> Result<(), AllocError>
    ensures { OnOk result (string_bytes line.new ≡
        string_bytes line.old ++ access_line verb.now access value) }
{
    let address = access.address;
    let width = access.width;
    line.push_str(verb)?;
    push_space(line, access.space)?;
    writeln!(line, " 0x{address:x} {width} 0x{value:x}")
}

// An address space behind a blank, by the word that a register file's text has for it, or else by
// its number.
fn push_space(line: &mut String, space: u8) -> Result<(), AllocError>
    ensures { OnOk result (string_bytes line.new ≡
        string_bytes line.old ++ codes " " ++ space_text space) }
{
    match space {
        0 => line.push_str(" mem"),
        1 => line.push_str(" io"),
        2 => line.push_str(" pci"),
        3 => line.push_str(" ec"),
        5 => line.push_str(" cmos"),
        _ => write!(line, " {space}"),
    }
}

fn list_notify<W: Write>(
    alloc: Global,
    out: &mut W,
    namespace: &Namespace<'_>,
    object: ObjectId,
    value: u64,
) -> Result<(), RunFault>
    ensures { let thing = object_text (shown namespace.now).entries object in
        Lists result (W.contents out.old) (W.contents out.new)
        (notify_line thing value) }
{
    let line = notify_line_of(alloc, namespace, object, value)?;
    put(out, line.as_slice())
}

#[tactic(auto, unfolding(crate::specs::Events::notify_line))]
fn notify_line_of(
    alloc: Global,
    namespace: &Namespace<'_>,
    object: ObjectId,
    value: u64,
) -> Result<Vec<u8>, RunFault>
    ensures { let thing = object_text (shown namespace.now).entries object in
        IfOk result (λ line. line.items ≡ notify_line thing value) }
{
    let mut line = Vec::new(alloc);
    line.extend_from_slice(b"notify ")?;
    push_object(alloc, &mut line, namespace, object)?;
    let behind = format!(in alloc; " 0x{value:x}\n")?;
    line.extend_from_slice(behind.as_bytes())?;
    Ok(line)
}

#[tactic(auto, unfolding(crate::specs::Events::wait_line))]
fn push_wait(line: &mut String, verb: &str, time: u64) -> Result<(), AllocError>
    ensures { OnOk result
        (string_bytes line.new ≡ string_bytes line.old ++ wait_line verb.now time) }
{
    writeln!(line, "{verb} 0x{time:x}")
}
