// The command `routing`.

ghost use Rattle.std.specs.Prelude.{◌≡◌, [], Ok, option_map, vec_items};
ghost use Rattle.acpi_listing.specs.Commands.{FollowsNot, ListsPrt, ListsRoutes, ListsValue, RoutesLoaded, RoutesTables, routes_with};
ghost use Rattle.acpi_sources.specs.Faults.{nowhere, Tries};
ghost use Rattle.acpi_sources.specs.Inputs.{tables_of};
ghost use Rattle.acpi_listing.specs.Steps.{Tells, Writes};
ghost use Rattle.acpi_sources.specs.declared.fault.FaultCause.TheVariants as cause;
ghost use Rattle.acpi_resource_text.specs.Lines.{routes_text};
ghost use Rattle.acpi_resources.specs.Interrupts.{crs_of_links};
ghost use Rattle.aml_namespace.specs.Shows.{shown};
ghost use Rattle.aml_regions.specs.Registers.{contents};
ghost use Rattle.aml_regions.specs.Text.{TextSets};
ghost use Rattle.aml_signatures.specs.Signed.{kinds_told};
ghost use Rattle.aml_values.specs.Views.{view};
ghost use Rattle.acpi_sources.specs.declared.status.Status.TheVariants as exit;

use crate::eval::print_said;
use crate::load::load_counted;
use crate::madt::{madt_of, read_controllers};
use crate::objects::{find_object, prt_over};
use crate::regs::read_registers;
use crate::signed::read_signatures;
use crate::stop::Stop;
use crate::tell::{tell_reason, tell_route};
use crate::verify::verdicts_on;
use acpi_objects::Given;
use acpi_resource_text::list_routes;
use acpi_resources::{Item, Route, routes};
use acpi_routing::Prt;
use acpi_sources::{Fault, FaultCause, Inputs, Source, Status};
use acpi_tables::Madt;
use acpi_words::{Notes, RoutingRequest};
use aml_namespace::Namespace;
use aml_paths::ObjectId;
use aml_registers::Registers;
use aml_signatures::Signatures;
use aml_values::Value;
use aml_verify::Checked;
use std::alloc::Global;
use std::io::Write;

/// Prints where the interrupts go that a `_PRT` lists: what a data name holds, or what the
/// evaluation of an accepted method gives; a method that is refused has the line of its verdict. Of
/// each link that the `_PRT` names the `_CRS` is asked once, over the names and the registers as
/// they were left.
pub(crate) fn list_routes_of<F: Source, N: Notes, W: Write>(
    alloc: Global,
    request: &RoutingRequest<'_>,
    files: &mut F,
    notes: &N,
    out: &mut W,
) -> Result<Status, Stop>
    ensures { Writes (ListsRoutes F.answers request.now.asked.inputs
        request.now.asked.object.now
        (option_map (λ name. name.now) request.now.asked.regs)
        (option_map (λ name. name.now) request.now.asked.kinds)
        (option_map (λ name. name.now) request.now.madt))
        files.old files.new (W.contents out.old) (W.contents out.new) result }
{
    let asked = &request.asked;
    let registers = read_registers(alloc, asked.regs, files, notes)?;
    let signatures = read_signatures(alloc, asked.kinds, files, notes)?;
    let controllers = read_controllers(request.madt, files)?;
    let madt = madt_of(alloc, request.madt, &controllers, notes)?;
    let inputs = Inputs::read(alloc, &asked.inputs, files)?;
    list_inputs(
        alloc,
        request,
        registers,
        &signatures,
        madt.as_ref(),
        &inputs,
        notes,
        out,
    )
}

// Prints the routes of a `_PRT` of the tables that were read, over registers.
fn list_inputs<N: Notes, W: Write>(
    alloc: Global,
    request: &RoutingRequest<'_>,
    registers: Registers,
    signatures: &Signatures,
    madt: Option<&Madt<'_>>,
    inputs: &Inputs,
    notes: &N,
    out: &mut W,
) -> Result<Status, Stop>
    requires set { TextSets registers.text.items (contents registers.file) }
    requires fresh { registers.file.events.items ≡ [] }
    ensures { Writes (RoutesTables (contents registers.file) (kinds_told signatures.now)
        (option_map (λ m. m.now) madt.entry) request.now.asked.object.now (tables_of inputs.now))
        tt tt (W.contents out.old) (W.contents out.new) result }
{
    let asked = &request.asked;
    let namespace = load_counted(alloc, inputs, &asked.inputs, &[], notes)?;
    list_loaded(
        alloc, request, registers, signatures, madt, &namespace, notes, out,
    )
}

// Prints the routes of a `_PRT` of a namespace, over registers.
fn list_loaded<N: Notes, W: Write>(
    alloc: Global,
    request: &RoutingRequest<'_>,
    registers: Registers,
    signatures: &Signatures,
    madt: Option<&Madt<'_>>,
    namespace: &Namespace<'_>,
    notes: &N,
    out: &mut W,
) -> Result<Status, Stop>
    requires set { TextSets registers.text.items (contents registers.file) }
    requires fresh { registers.file.events.items ≡ [] }
    ensures { Writes (RoutesLoaded (contents registers.file) (kinds_told signatures.now)
        (option_map (λ m. m.now) madt.entry) request.now.asked.object.now (shown namespace.now))
        tt tt (W.contents out.old) (W.contents out.new) result }
{
    let id = find_object(alloc, namespace, request.asked.object, notes)?;
    let checked = verdicts_on(alloc, namespace, signatures)?;
    let prt = prt_over(alloc, &checked, id, registers, notes)?;
    list_prt(alloc, request, madt, &checked, id, &prt, notes, out)
}

// Prints the routes of what an object gave.
fn list_prt<N: Notes, W: Write>(
    alloc: Global,
    request: &RoutingRequest<'_>,
    madt: Option<&Madt<'_>>,
    checked: &Checked<'_>,
    id: ObjectId,
    prt: &Prt,
    notes: &N,
    out: &mut W,
) -> Result<Status, Stop>
    ensures { Writes
        (ListsPrt (option_map (λ m. m.now) madt.entry) checked.now id.0 prt.now.given
        (crs_of_links prt.now.links.items))
        tt tt (W.contents out.old) (W.contents out.new) result }
{
    match &prt.given {
        Given::Value(value) => {
            list_value(alloc, request, madt, checked, value, &prt.links, notes, out)
        }
        Given::Nothing => Err(Stop::Fault(no_package(notes))),
        Given::Refused => {
            let names = request.asked.inputs.files.as_slice();
            tell_reason(alloc, notes, checked, names, id);
            print_said(alloc, out, checked, id)
        }
    }
}

// What the object gave is no package.
fn no_package<N: Notes>(notes: &N) -> Fault
    ensures { result ≡ nowhere cause.NotPackage }
{
    notes.tell("the object gives no package: ask for a _PRT");
    Fault::nowhere(FaultCause::NotPackage)
}

// Prints the routes of a value, with the items of the links that it names.
fn list_value<N: Notes, W: Write>(
    alloc: Global,
    request: &RoutingRequest<'_>,
    madt: Option<&Madt<'_>>,
    checked: &Checked<'_>,
    value: &Value,
    links: &[(ObjectId, Vec<Item>)],
    notes: &N,
    out: &mut W,
) -> Result<Status, Stop>
    ensures { Writes (ListsValue (option_map (λ m. m.now) madt.entry)
        (crs_of_links links.now) (view value.now))
        tt tt (W.contents out.old) (W.contents out.new) result }
{
    let Value::Pkg(_) = value else {
        return Err(Stop::Fault(no_package(notes)));
    };
    let routes = followed(alloc, request, madt, checked, value, links, notes)?;
    print_routes(alloc, out, routes.as_slice())
}

// The routes of a value; people are told why there are none.
fn followed<N: Notes>(
    alloc: Global,
    request: &RoutingRequest<'_>,
    madt: Option<&Madt<'_>>,
    checked: &Checked<'_>,
    value: &Value,
    links: &[(ObjectId, Vec<Item>)],
    notes: &N,
) -> Result<Vec<Route>, Fault>
    ensures { let controllers = option_map (λ m. m.now) madt.entry in
        let items = crs_of_links links.now in
        let found = routes_with controllers items (view value.now) in
        Tries (λ routes. found ≡ Ok (vec_items routes))
        (FollowsNot controllers items (view value.now)) result }
{
    let found = routes_in(alloc, value, links, madt);
    if let Err(fault) = &found {
        let names = request.asked.inputs.files.as_slice();
        tell_route(alloc, notes, checked, names, value, links, *fault);
    }
    found
}

// The routes of a value, with the items of the links that it names.
fn routes_in(
    alloc: Global,
    value: &Value,
    links: &[(ObjectId, Vec<Item>)],
    madt: Option<&Madt<'_>>,
) -> Result<Vec<Route>, Fault>
    ensures { let controllers = option_map (λ m. m.now) madt.entry in
        let items = crs_of_links links.now in
        let found = routes_with controllers items (view value.now) in
        Tries (λ routes. found ≡ Ok (vec_items routes))
        (FollowsNot controllers items (view value.now)) result }
{
    let routes = routes(alloc, value, links, madt)?;
    Ok(routes)
}

// Prints routes, and answers the status of that.
fn print_routes<W: Write>(alloc: Global, out: &mut W, routes: &[Route]) -> Result<Status, Stop>
    ensures { Writes (Tells (routes_text routes.now) exit.Done) (tt {0}) (tt {0})
        (W.contents out.old) (W.contents out.new) result }
{
    list_routes(alloc, out, routes)?;
    Ok(Status::Done)
}
