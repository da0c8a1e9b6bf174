// The command `resources`.

ghost use Rattle.std.specs.Prelude.{◌≡◌, [], Ok, Some, option_map, vec_items};
ghost use Rattle.acpi_listing.specs.Commands.{ListsGiven, ListsItems, ListsLoaded, ListsResources, ListsTables, SpellsNoItems, octets_of};
ghost use Rattle.acpi_sources.specs.Inputs.{tables_of};
ghost use Rattle.acpi_listing.specs.Steps.{Tells, Writes};
ghost use Rattle.acpi_sources.specs.Faults.{Tries, nowhere};
ghost use Rattle.acpi_sources.specs.declared.fault.FaultCause.TheVariants as cause;
ghost use Rattle.acpi_resource_text.specs.Lines.{items_text};
ghost use Rattle.acpi_resources.specs.Items.{items_of};
ghost use Rattle.aml_namespace.specs.Shows.{shown};
ghost use Rattle.aml_regions.specs.Registers.{contents};
ghost use Rattle.aml_regions.specs.Text.{TextSets};
ghost use Rattle.aml_signatures.specs.Signed.{kinds_told};
ghost use Rattle.aml_values.specs.Views.{view};
ghost use Rattle.acpi_sources.specs.declared.status.Status.TheVariants as exit;

use crate::eval::print_said;
use crate::load::load_counted;
use crate::objects::{find_object, given_over};
use crate::regs::read_registers;
use crate::signed::read_signatures;
use crate::stop::Stop;
use crate::tell::{tell_descriptors, tell_reason};
use crate::verify::verdicts_on;
use acpi_objects::Given;
use acpi_resource_text::list_resources;
use acpi_resources::{Item, items};
use acpi_sources::{Fault, FaultCause, Inputs, Source, Status};
use acpi_words::{Notes, ObjectRequest};
use aml_namespace::Namespace;
use aml_paths::ObjectId;
use aml_registers::Registers;
use aml_signatures::Signatures;
use aml_values::Value;
use aml_verify::Checked;
use std::alloc::Global;
use std::io::Write;

/// Prints the resource descriptors that an object gives: what a data name holds, or what the
/// evaluation of an accepted method gives; a method that is refused has the line of its verdict.
pub(crate) fn list_resources_of<F: Source, N: Notes, W: Write>(
    alloc: Global,
    request: &ObjectRequest<'_>,
    files: &mut F,
    notes: &N,
    out: &mut W,
) -> Result<Status, Stop>
    ensures { Writes (ListsResources F.answers request.now.inputs request.now.object.now
        (option_map (λ name. name.now) request.now.regs)
        (option_map (λ name. name.now) request.now.kinds))
        files.old files.new (W.contents out.old) (W.contents out.new) result }
{
    let registers = read_registers(alloc, request.regs, files, notes)?;
    let signatures = read_signatures(alloc, request.kinds, files, notes)?;
    let inputs = Inputs::read(alloc, &request.inputs, files)?;
    list_inputs(alloc, request, registers, &signatures, &inputs, notes, out)
}

// Prints what an object of the tables that were read gives, over registers.
fn list_inputs<N: Notes, W: Write>(
    alloc: Global,
    request: &ObjectRequest<'_>,
    registers: Registers,
    signatures: &Signatures,
    inputs: &Inputs,
    notes: &N,
    out: &mut W,
) -> Result<Status, Stop>
    requires set { TextSets registers.text.items (contents registers.file) }
    requires fresh { registers.file.events.items ≡ [] }
    ensures { Writes (ListsTables (contents registers.file) (kinds_told signatures.now)
        request.now.object.now (tables_of inputs.now))
        tt tt (W.contents out.old) (W.contents out.new) result }
{
    let namespace = load_counted(alloc, inputs, &request.inputs, &[], notes)?;
    list_loaded(
        alloc, request, registers, signatures, &namespace, notes, out,
    )
}

// Prints what an object of a namespace gives, over registers.
fn list_loaded<N: Notes, W: Write>(
    alloc: Global,
    request: &ObjectRequest<'_>,
    registers: Registers,
    signatures: &Signatures,
    namespace: &Namespace<'_>,
    notes: &N,
    out: &mut W,
) -> Result<Status, Stop>
    requires set { TextSets registers.text.items (contents registers.file) }
    requires fresh { registers.file.events.items ≡ [] }
    ensures { Writes (ListsLoaded (contents registers.file) (kinds_told signatures.now)
        request.now.object.now (shown namespace.now))
        tt tt (W.contents out.old) (W.contents out.new) result }
{
    let id = find_object(alloc, namespace, request.object, notes)?;
    let checked = verdicts_on(alloc, namespace, signatures)?;
    let given = given_over(alloc, &checked, id, registers)?;
    list_given(alloc, request, &checked, id, &given, notes, out)
}

// Prints what an object gave.
fn list_given<N: Notes, W: Write>(
    alloc: Global,
    request: &ObjectRequest<'_>,
    checked: &Checked<'_>,
    id: ObjectId,
    given: &Given,
    notes: &N,
    out: &mut W,
) -> Result<Status, Stop>
    ensures { Writes (ListsGiven checked.now id.0 given.now)
        tt tt (W.contents out.old) (W.contents out.new) result }
{
    match given {
        Given::Value(value) => list_items(alloc, request.object, octets_of(value), notes, out),
        Given::Nothing => list_items(alloc, request.object, None, notes, out),
        Given::Refused => {
            let names = request.inputs.files.as_slice();
            tell_reason(alloc, notes, checked, names, id);
            print_said(alloc, out, checked, id)
        }
    }
}

// The bytes of a buffer.
fn octets_of(value: &Value) -> Option<&[u8]>
    ensures { option_map (λ octets. octets.now) result ≡ octets_of (view value.now) }
{
    match value {
        Value::Buf(octets) => Some(octets.as_slice()),
        _ => None,
    }
}

// Prints the items that the bytes spell which an object gives, where it gives bytes.
fn list_items<N: Notes, W: Write>(
    alloc: Global,
    object: &str,
    octets: Option<&[u8]>,
    notes: &N,
    out: &mut W,
) -> Result<Status, Stop>
    ensures { Writes (ListsItems (option_map (λ octets. octets.now) octets.entry))
        tt tt (W.contents out.old) (W.contents out.new) result }
{
    match octets {
        Some(octets) => list_spelled(alloc, object, octets, notes, out),
        None => Err(Stop::Fault(no_buffer(notes))),
    }
}

// What the object gave is no buffer.
fn no_buffer<N: Notes>(notes: &N) -> Fault
    ensures { result ≡ nowhere cause.NotBuffer }
{
    notes.tell(
        "the object gives no buffer: ask for a _CRS, a _PRS, or another object that gives resource descriptors",
    );
    Fault::nowhere(FaultCause::NotBuffer)
}

// Prints the items that bytes spell.
fn list_spelled<N: Notes, W: Write>(
    alloc: Global,
    object: &str,
    octets: &[u8],
    notes: &N,
    out: &mut W,
) -> Result<Status, Stop>
    ensures { Writes (ListsItems (Some octets.now))
        tt tt (W.contents out.old) (W.contents out.new) result }
{
    let items = spelled_items(alloc, object, octets, notes)?;
    print_items(alloc, out, items.as_slice())
}

// The items that bytes spell; people are told why there are none.
fn spelled_items<N: Notes>(
    alloc: Global,
    object: &str,
    octets: &[u8],
    notes: &N,
) -> Result<Vec<Item>, Fault>
    ensures { Tries (λ items. items_of octets.now ≡ Ok (vec_items items)) (SpellsNoItems octets.now)
        result }
{
    let found = items_in(alloc, octets);
    if let Err(fault) = &found {
        tell_descriptors(alloc, notes, object, octets, *fault);
    }
    found
}

// The items that bytes spell.
fn items_in(alloc: Global, octets: &[u8]) -> Result<Vec<Item>, Fault>
    ensures { Tries (λ items. items_of octets.now ≡ Ok (vec_items items)) (SpellsNoItems octets.now)
        result }
{
    let items = items(alloc, octets)?;
    Ok(items)
}

// Prints items, and answers the status of that.
fn print_items<W: Write>(alloc: Global, out: &mut W, items: &[Item]) -> Result<Status, Stop>
    ensures { Writes (Tells (items_text items.now) exit.Done) (tt {0}) (tt {0})
        (W.contents out.old) (W.contents out.new) result }
{
    list_resources(alloc, out, items)?;
    Ok(Status::Done)
}
