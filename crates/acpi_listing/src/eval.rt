// The command `eval`.

ghost use Rattle.std.specs.Prelude.{◌≡◌, ◌↔◌, [], IsSome, None, Some, true};
ghost use Rattle.std.specs.Prelude.{IfOk, IfErr, map, option_map, vec_items};
ghost use Rattle.acpi_words.specs.Arguments.{ListsArguments, ListsBadArguments};
ghost use Rattle.aml_values.specs.Views.{view};
ghost use Rattle.aml_namespace.specs.Names.{method_at};
ghost use Rattle.aml_namespace.specs.Shows.{bytes_in, shown};
ghost use Rattle.acpi_listing.specs.Commands.{EvaluatesFiles, EvaluatesFound, EvaluatesMethod, EvaluatesTables, IsMethodAt, IsNoMethodAt, printed_path, IsDone, IsMeant, Takes, are_taken, evaluation_text, is_accepted, is_taken, outcome_status, with_events};
ghost use Rattle.aml_operators.specs.Tree as terms;
ghost use Rattle.aml_operators.specs.Tree.{views};
ghost use Rattle.aml_bodies.specs.Methods.{AreStatementsOf};
ghost use Rattle.aml_regions.specs.EventViews.{events_of};
ghost use Rattle.aml_regions.specs.Registers.{contents};
ghost use Rattle.aml_regions.specs.Text.{TextSets};
ghost use Rattle.acpi_listing.specs.Steps.{Tells, Writes};
ghost use Rattle.acpi_sources.specs.Faults.{Tries, nowhere};
ghost use Rattle.acpi_sources.specs.Inputs.{tables_of};
ghost use Rattle.acpi_listing.specs.Loading.{interfaces_of};
ghost use Rattle.acpi_text.specs.Lists.{Lists};
ghost use Rattle.acpi_verdicts.specs.Verdicts.{said_of, said_text};
ghost use Rattle.aml_interp.specs.Answers.{WereChecked};
ghost use Rattle.aml_known.specs.declared.accepted.Accepted.{Accepted};
ghost use Rattle.aml_verify.specs.Accepts.{takes};
ghost use Rattle.aml_verify.specs.declared.verdict.Verdict.TheVariants as verdict;
ghost use Rattle.aml_signatures.specs.Signed.{kinds_told};
ghost use Rattle.acpi_text.specs.Outcome.{refusal_line};
ghost use Rattle.acpi_sources.specs.declared.fault.FaultCause.TheVariants as cause;
ghost use Rattle.acpi_sources.specs.declared.status.Status.TheVariants as exit;

use crate::load::load_counted;
use crate::regs::read_registers;
use crate::signed::read_signatures;
use crate::stop::Stop;
use crate::tell::{
    tell_argument, tell_error, tell_misfit, tell_object, tell_paths, tell_plain, tell_reason,
    tell_unread, tell_untold,
};
use crate::verify::verdicts_on;
use acpi_sources::{Fault, FaultCause, Inputs, Source, Status};
use acpi_text::{RunFault, list_evaluation, list_events, list_refusal};
use acpi_verdicts::list_said;
use acpi_words::{EvalRequest, Notes, read_arguments};
use aml_contents::Names;
use aml_interp::evaluate as evaluate_accepted;
use aml_meaning::Outcome;
use aml_namespace::{Method, Namespace, Width};
use aml_operators::Term;
use aml_paths::ObjectId;
use aml_plain::evaluate_tree;
use aml_regions::Event;
use aml_registers::Registers;
use aml_signatures::Signatures;
use aml_tree::{Refusal, TreeFault};
use aml_values::Value;
use aml_verify::{Checked, Verdict};
use std::alloc::Global;
use std::io::Write;

/// Evaluates a method, and prints its events and how that ended: with a number of steps that is
/// given, or with as many as the verdict on it says; a method that is refused has the line of its
/// verdict.
pub(crate) fn evaluate<F: Source, N: Notes, W: Write>(
    alloc: Global,
    request: &EvalRequest<'_>,
    files: &mut F,
    notes: &N,
    out: &mut W,
) -> Result<Status, Stop>
    ensures { Writes (EvaluatesFiles F.answers request.now.inputs request.now.method.now
        (option_map (λ text. text.now) request.now.args)
        (option_map (λ name. name.now) request.now.regs)
        (option_map (λ name. name.now) request.now.kinds) request.now.steps
        (option_map (λ text. text.now) request.now.osi))
        files.old files.new (W.contents out.old) (W.contents out.new) result }
{
    let arguments = arguments_of(alloc, request, notes)?;
    let registers = read_registers(alloc, request.regs, files, notes)?;
    let signatures = read_signatures(alloc, request.kinds, files, notes)?;
    let inputs = Inputs::read(alloc, &request.inputs, files)?;
    let setup = Setup {
        arguments,
        registers,
    };
    evaluate_inputs(alloc, request, setup, &signatures, &inputs, notes, out)
}

// What a method is evaluated with: its arguments, and the registers that answer it.
#[derive(Drop)]
struct Setup {
    arguments: Vec<Value>,
    registers: Registers,
}

fn arguments_of<N: Notes>(
    alloc: Global,
    request: &EvalRequest<'_>,
    notes: &N,
) -> Result<Vec<Value>, Fault>
    ensures { let args = option_map (λ text. text.now) request.now.args in
        Tries (λ vs. ListsArguments args (map view (vec_items vs)))
        (λ f. (f ≡ nowhere cause.BadArgs) × ListsBadArguments args) result }
{
    match request.args {
        Some(text) => {
            let read = read_arguments(alloc, text);
            if read.is_err() {
                tell_argument(alloc, notes, text);
            }
            read
        }
        None => Ok(Vec::new(alloc)),
    }
}

// The texts that `_OSI` knows.
fn interfaces_of<'a>(alloc: Global, osi: Option<&'a str>) -> Result<Vec<&'a [u8]>, Fault>
    ensures known { let texts = interfaces_of (option_map (λ text. text.now) osi.entry) in
        IfOk result (λ known. bytes_in (vec_items known) ≡ texts) }
    ensures fault { IfErr result (λ f. f ≡ nowhere cause.NoMemory) }
{
    let mut known = Vec::new(alloc);
    if let Some(text) = osi {
        known.push(text.as_bytes())?;
    }
    Ok(known)
}

// Evaluates a method of the tables that were read, over registers.
fn evaluate_inputs<N: Notes, W: Write>(
    alloc: Global,
    request: &EvalRequest<'_>,
    setup: Setup,
    signatures: &Signatures,
    inputs: &Inputs,
    notes: &N,
    out: &mut W,
) -> Result<Status, Stop>
    requires set { TextSets setup.registers.text.items (contents setup.registers.file) }
    requires fresh { setup.registers.file.events.items ≡ [] }
    ensures { Writes
        (EvaluatesTables (contents setup.registers.file) (kinds_told signatures.now)
        request.now.method.now (map view (vec_items setup.arguments)) request.now.steps
        (interfaces_of (option_map (λ text. text.now) request.now.osi)) (tables_of inputs.now)) tt
        tt (W.contents out.old) (W.contents out.new) result }
{
    let known = interfaces_of(alloc, request.osi)?;
    let namespace = load_counted(alloc, inputs, &request.inputs, known.as_slice(), notes)?;
    let (id, method) = find_method(alloc, &namespace, request.method, notes)?;
    match request.steps {
        Some(steps) => {
            evaluate_method(
                alloc, request, &namespace, id, method, setup, steps, notes, out,
            )
        }
        None => evaluate_judged(
            alloc, request, &namespace, signatures, id, method, setup, notes, out,
        ),
    }
}

// Evaluates a method that is judged first. A method that is not accepted has its line.
fn evaluate_judged<N: Notes, W: Write>(
    alloc: Global,
    request: &EvalRequest<'_>,
    namespace: &Namespace<'_>,
    signatures: &Signatures,
    id: ObjectId,
    method: Method,
    setup: Setup,
    notes: &N,
    out: &mut W,
) -> Result<Status, Stop>
    requires there { method_at (shown namespace.now) id.0 ≡ Some method }
    requires set { TextSets setup.registers.text.items (contents setup.registers.file) }
    requires fresh { setup.registers.file.events.items ≡ [] }
    ensures { Writes
        (EvaluatesFound (contents setup.registers.file) (kinds_told signatures.now)
        (shown namespace.now) (map view (vec_items setup.arguments)) None (id.0, method))
        tt tt (W.contents out.old) (W.contents out.new) result }
{
    let checked = verdicts_on(alloc, namespace, signatures)?;
    if !is_accepted(&checked, id) {
        let names = request.inputs.files.as_slice();
        tell_reason(alloc, notes, &checked, names, id);
        tell_paths(alloc, notes, namespace, signatures);
        tell_untold(notes, &checked, &[id], request.kinds);
        tell_plain(notes, &checked, id);
        return print_said(alloc, out, &checked, id);
    }
    if !checked.accepts(id, &setup.arguments) {
        tell_misfit(
            alloc,
            notes,
            namespace,
            request.method,
            method,
            &setup.arguments,
            checked.misfit(id, &setup.arguments),
        );
        return Err(Stop::Fault(Fault::nowhere(FaultCause::ArgsDontFit)));
    }
    let mut registers = setup.registers;
    let outcome = done_over(alloc, &checked, id, setup.arguments, &mut registers)?;
    print_outcome(alloc, out, namespace, &outcome, registers.events())
}

// How an accepted method's evaluation ends, from what the names of the tables hold first, over
// registers.
fn done_over(
    alloc: Global,
    checked: &Checked<'_>,
    id: ObjectId,
    arguments: Vec<Value>,
    world: &mut Registers,
) -> Result<Outcome, Fault>
    requires checked { WereChecked checked.now }
    requires accepted { takes (said_of checked.now id.0) (map view arguments.items) ≡ true }
    requires set { TextSets world.old.text.items (contents world.old.file) }
    requires fresh { world.old.file.events.items ≡ [] }
    ensures { (a : Accepted) → said_of checked.now id.0 ≡ Some (verdict.Accepted a) →
        (m : _) → method_at (shown checked.now.namespace.now) id.0 ≡ Some m →
        IsDone (contents world.old.file) (shown checked.now.namespace.now) (id.0, m)
        (map view (vec_items arguments)) a.bound
        (with_events result (events_of world.new.file.events.items)) }
{
    let mut names = Names::initial(alloc, checked.namespace())?;
    let value = evaluate_accepted(alloc, checked, &mut names, id, arguments, world)?;
    Ok(Outcome::Done(value))
}

// Whether the method with a number is accepted.
fn is_accepted(checked: &Checked<'_>, id: ObjectId) -> bool
    ensures { result ≡ is_accepted (said_of checked.now id.0) }
{
    match checked.verdict(id) {
        Some(Verdict::Accepted(_)) => true,
        Some(Verdict::Refused(_, _)) => false,
        Some(Verdict::Unreadable { .. }) => false,
        None => false,
    }
}

// Evaluates a method with so many steps.
fn evaluate_method<N: Notes, W: Write>(
    alloc: Global,
    request: &EvalRequest<'_>,
    namespace: &Namespace<'_>,
    id: ObjectId,
    method: Method,
    setup: Setup,
    steps: u64,
    notes: &N,
    out: &mut W,
) -> Result<Status, Stop>
    requires there { method_at (shown namespace.now) id.0 ≡ Some method }
    requires set { TextSets setup.registers.text.items (contents setup.registers.file) }
    requires fresh { setup.registers.file.events.items ≡ [] }
    ensures { Writes (EvaluatesMethod (contents setup.registers.file) (shown namespace.now)
        (map view (vec_items setup.arguments)) steps (id.0, method))
        tt tt (W.contents out.old) (W.contents out.new) result }
{
    let body = match namespace.tree(alloc, id) {
        Ok(body) => body,
        Err(TreeFault::NoMemory) => return Err(Stop::Fault(Fault::nowhere(FaultCause::NoMemory))),
        Err(TreeFault::Refused(refusal)) => {
            let names = request.inputs.files.as_slice();
            tell_unread(alloc, notes, namespace, names, id, method.table, refusal);
            return print_refusal(alloc, out, namespace, id, method.table, refusal);
        }
    };
    if !fits(namespace, method, &setup.arguments) {
        tell_misfit(
            alloc,
            notes,
            namespace,
            request.method,
            method,
            &setup.arguments,
            None,
        );
        return Err(Stop::Fault(Fault::nowhere(FaultCause::ArgsDontFit)));
    }
    let mut world = setup.registers;
    let outcome = outcome_of(
        alloc,
        namespace,
        id,
        body,
        setup.arguments,
        &mut world,
        steps,
    )?;
    let names = request.inputs.files.as_slice();
    tell_error(alloc, notes, namespace, names, &outcome);
    print_outcome(alloc, out, namespace, &outcome, world.events())
}

// How a method's evaluation ends, from what the names of the tables hold first, over registers.
fn outcome_of(
    alloc: Global,
    namespace: &Namespace<'_>,
    id: ObjectId,
    body: Vec<Term>,
    arguments: Vec<Value>,
    world: &mut Registers,
    steps: u64,
) -> Result<Outcome, Fault>
    requires known { IsSome (method_at (shown namespace.now) id.0) }
    requires read { AreStatementsOf (shown namespace.now) id.0 (map terms.view body.items) }
    requires set { TextSets world.old.text.items (contents world.old.file) }
    requires fresh { world.old.file.events.items ≡ [] }
    ensures { (m : Method) → method_at (shown namespace.now) id.0 ≡ Some m →
        IsMeant (shown namespace.now) (contents world.old.file) id.0 m (views body.items)
        (map view (vec_items arguments)) steps
        (with_events result (events_of world.new.file.events.items)) }
{
    let mut names = Names::initial(alloc, namespace)?;
    let outcome = evaluate_tree(
        alloc, namespace, &mut names, id, body, arguments, world, steps,
    )?;
    Ok(outcome)
}

// Prints the events of an evaluation, and how it ended.
fn list_ended<W: Write>(
    alloc: Global,
    out: &mut W,
    namespace: &Namespace<'_>,
    outcome: &Outcome,
    events: &[Event],
) -> Result<(), RunFault>
    ensures { Lists result (W.contents out.old) (W.contents out.new)
        (evaluation_text (shown namespace.now).entries (outcome.now, events_of events.now)) }
{
    list_events(alloc, out, namespace, events)?;
    list_evaluation(alloc, out, namespace, outcome)
}

// Prints the events of an evaluation and how it ended, and answers the status of that.
fn print_outcome<W: Write>(
    alloc: Global,
    out: &mut W,
    namespace: &Namespace<'_>,
    outcome: &Outcome,
    events: &[Event],
) -> Result<Status, Stop>
    ensures { let entries = (shown namespace.now).entries in
        let text = evaluation_text entries (outcome.now, events_of events.now) in
        Writes (Tells text (outcome_status outcome.now))
        (tt {0}) (tt {0}) (W.contents out.old) (W.contents out.new) result }
{
    list_ended(alloc, out, namespace, outcome, events)?;
    Ok(status_of(outcome))
}

/// Prints what is said of a method that is not accepted, and answers the status of that.
pub(crate) fn print_said<W: Write>(
    alloc: Global,
    out: &mut W,
    checked: &Checked<'_>,
    id: ObjectId,
) -> Result<Status, Stop>
    ensures { Writes (Tells (said_text checked.now id) exit.Refused) (tt {0}) (tt {0})
        (W.contents out.old) (W.contents out.new) result }
{
    list_said(alloc, out, checked, id)?;
    Ok(Status::Refused)
}

// Prints that a method's body cannot be read, and answers the status of that.
fn print_refusal<W: Write>(
    alloc: Global,
    out: &mut W,
    namespace: &Namespace<'_>,
    id: ObjectId,
    table: usize,
    refusal: Refusal,
) -> Result<Status, Stop>
    ensures { let path = printed_path (shown namespace.now) id.0 in
        Writes (Tells (refusal_line path table refusal) exit.Refused) (tt {0}) (tt {0})
        (W.contents out.old) (W.contents out.new) result }
{
    list_refusal(alloc, out, namespace, id, table, refusal)?;
    Ok(Status::Refused)
}

// The method whose printed path, or an alias's, the word is.
fn find_method<N: Notes>(
    alloc: Global,
    namespace: &Namespace<'_>,
    word: &str,
    notes: &N,
) -> Result<(ObjectId, Method), Fault>
    ensures found { IfOk result
        (λ found. IsMethodAt (shown namespace.now) word.now found.0.0 found.1) }
    ensures none { IfErr result
        (λ f. IsNoMethodAt (shown namespace.now) word.now × (f ≡ nowhere cause.NoSuchObject)) }
{
    let Some(id) = namespace.find(word.as_bytes()) else {
        tell_object(alloc, notes, namespace, word);
        return Err(Fault::nowhere(FaultCause::NoSuchObject));
    };
    match namespace.method(id) {
        Some(method) => Ok((id, method)),
        None => {
            tell_object(alloc, notes, namespace, word);
            Err(Fault::nowhere(FaultCause::NoSuchObject))
        }
    }
}

// Whether the method takes these arguments: as many as it has, integers of the namespace among
// them.
fn fits(namespace: &Namespace<'_>, method: Method, arguments: &[Value]) -> bool
    ensures { result ≡ true ↔ Takes (shown namespace.now) method (map view arguments.now) }
{
    arguments.len() == usize::from(method.args) && are_taken(namespace.width(), arguments)
}

// Whether the integers among these values are of a width.
fn are_taken(width: Width, values: &[Value]) -> bool
    ensures { result ≡ are_taken width (map view values.now) }
{
    let greatest = width.greatest();
    for value in values {
        if !is_taken(greatest, value) {
            return false;
        }
    }
    true
}

// Whether a value is no integer above the greatest.
fn is_taken(greatest: u64, value: &Value) -> bool
    ensures { result ≡ is_taken greatest (view value.now) }
{
    match value {
        Value::Int(number) => *number <= greatest,
        _ => true,
    }
}

fn status_of(outcome: &Outcome) -> Status
    ensures { result ≡ outcome_status outcome.now }
{
    match outcome {
        Outcome::Done(_) => Status::Done,
        Outcome::AmlError(_) | Outcome::OutOfSteps => Status::Refused,
    }
}
