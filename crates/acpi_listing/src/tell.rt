// What is told of a fault beside its line.

use acpi_notes::{
    Files, WantedTable, argument_note, count_note, file_label, greatest_note, help_of, load_note,
    object_note, registers_note, signatures_note, table_note,
};
use acpi_resource_text::refusal_note;
use acpi_resources::{Item, ResourceRefusal, RouteCause};
use acpi_routing::{LinkRefusal, entry_note, link_text, source_text};
use acpi_sources::{Fault, FaultCause, Where};
use acpi_tables::TableFault;
use acpi_text::RunFault;
use acpi_verdicts::{any_refused, error_text, explain, misfit_note, summary, unread_text};
use acpi_words::{Notes, bad_argument, words_error};
use aml_causes::Cause;
use aml_externals::is_dead_if;
use aml_meaning::Outcome;
use aml_namespace::{LoadCause, LoadRefusal, Method, Namespace};
use aml_path_text::push_path;
use aml_paths::ObjectId;
use aml_signatures::Signatures;
use aml_tree::{Refusal, TreeCause};
use aml_values::Value;
use aml_verify::{Checked, Misfit, Verdict};
use std::alloc::{AllocError, Global};
use std::convert::AsStr;
use std::str;

// Tells a note, if there is memory for it.
fn tell<N: Notes>(notes: &N, note: Result<String, AllocError>) {
    if let Ok(note) = note {
        notes.tell(note.as_str());
    }
}

/// Of a file that is no table.
pub(crate) fn tell_table<N: Notes>(
    alloc: Global,
    notes: &N,
    number: usize,
    name: &str,
    bytes: &[u8],
    fault: TableFault,
) {
    let Ok(label) = file_label(alloc, name, number) else {
        return;
    };
    let wanted = WantedTable::Definitions;
    tell(
        notes,
        table_note(alloc, label.as_str(), bytes, fault, wanted),
    );
}

/// Of tables that cannot be loaded; where a table is refused for an If that `--dead-externals`
/// opens, of that option too.
pub(crate) fn tell_load<N: Notes>(
    alloc: Global,
    notes: &N,
    files: Files<'_>,
    refusal: LoadRefusal,
) {
    if let Ok(label) = files.label(alloc, refusal.table) {
        tell(notes, load_note(alloc, label.as_str(), files, refusal));
    }
    let Some(table) = files.tables.get(refusal.table) else {
        return;
    };
    if refusal.cause == LoadCause::Tree(TreeCause::ModuleCode) && is_dead_if(table, refusal.at) {
        notes.tell(
            "there stands an If (Zero) that iasl writes round Externals: with --dead-externals they are read",
        );
    }
}

/// Of a text of `--args` that is no list of values.
pub(crate) fn tell_argument<N: Notes>(alloc: Global, notes: &N, text: &str) {
    if let Ok(Some((number, element))) = bad_argument(alloc, text) {
        tell(notes, argument_note(alloc, number, element));
    }
}

/// Of a line that sets no registers.
pub(crate) fn tell_registers<N: Notes>(alloc: Global, notes: &N, name: &str, fault: Fault) {
    let Where::Line(line) = fault.at else {
        return;
    };
    let label = option_label(name, "the file of --regs");
    tell(notes, registers_note(alloc, label, line));
}

/// Of a line that tells no kinds of arguments.
pub(crate) fn tell_signatures<N: Notes>(alloc: Global, notes: &N, name: &str, fault: Fault) {
    let Where::Line(line) = fault.at else {
        return;
    };
    let label = option_label(name, "the file of --kinds");
    tell(notes, signatures_note(alloc, label, line));
}

// How the file of an option is called: on standard input by the option, else by its name.
fn option_label<'a>(name: &'a str, option: &'a str) -> &'a str {
    if name == "@" { option } else { name }
}

/// Of each method that is refused why it is, with the files by their names; whether there was
/// memory for all.
pub(crate) fn tell_refused<N: Notes>(
    alloc: Global,
    notes: &N,
    checked: &Checked<'_>,
    names: &[&str],
) -> bool {
    for id in checked.namespace().methods() {
        if !tell_reason(alloc, notes, checked, names, *id) {
            return false;
        }
    }
    true
}

/// How many methods are accepted, and how many are refused for which cause, where one is refused.
pub(crate) fn tell_summary<N: Notes>(alloc: Global, notes: &N, checked: &Checked<'_>) {
    if !any_refused(checked) {
        return;
    }
    tell_made(notes, summary(alloc, checked));
}

/// Of a method that is refused why it is, with the files by their names; whether there was memory
/// for it.
pub(crate) fn tell_reason<N: Notes>(
    alloc: Global,
    notes: &N,
    checked: &Checked<'_>,
    names: &[&str],
    id: ObjectId,
) -> bool {
    tell_made(notes, explain(alloc, checked, names, id))
}

/// Of an evaluation that an AML error ended what it met, with the files by their names.
pub(crate) fn tell_error<N: Notes>(
    alloc: Global,
    notes: &N,
    namespace: &Namespace<'_>,
    names: &[&str],
    outcome: &Outcome,
) {
    let Outcome::AmlError(error) = outcome else {
        return;
    };
    tell_made(notes, error_text(alloc, namespace, names, *error));
}

/// Of a method that is refused, and so is not evaluated: how it is evaluated all the same.
pub(crate) fn tell_plain<N: Notes>(notes: &N, checked: &Checked<'_>, id: ObjectId) {
    if let Some(Verdict::Refused(_, _)) = checked.verdict(id) {
        notes.tell(
            "eval --plain N evaluates it without a verdict, in at most N steps, up to an AML error if it meets one",
        );
    }
}

/// Of a method whose body cannot be read, and so is not evaluated, why that is.
pub(crate) fn tell_unread<N: Notes>(
    alloc: Global,
    notes: &N,
    namespace: &Namespace<'_>,
    names: &[&str],
    id: ObjectId,
    table: usize,
    refusal: Refusal,
) {
    tell_made(
        notes,
        unread_text(alloc, namespace, names, id, table, refusal),
    );
}

/// Of each path of `--kinds` that is not that of a method, whose line has no effect.
pub(crate) fn tell_paths<N: Notes>(
    alloc: Global,
    notes: &N,
    namespace: &Namespace<'_>,
    signatures: &Signatures,
) {
    for path in signatures.paths() {
        if let Ok(word) = str::from_utf8(path)
            && let Ok(Some(note)) = path_note(alloc, namespace, word)
        {
            let note = note.as_str();
            tell(
                notes,
                format!(in alloc; "a line of --kinds has no effect: {note}"),
            );
        }
    }
}

// Why the line of a path in `--kinds` has no effect, if it has none.
fn path_note(
    alloc: Global,
    namespace: &Namespace<'_>,
    word: &str,
) -> Result<Option<String>, RunFault> {
    let Some(id) = namespace.find(word.as_bytes()) else {
        return Ok(Some(object_note(alloc, namespace, word)?));
    };
    if namespace.method(id).is_none() {
        return Ok(Some(object_note(alloc, namespace, word)?));
    }
    let mut path = Vec::new(alloc);
    push_path(alloc, &mut path, namespace, id)?;
    if path.as_slice() == word.as_bytes() {
        return Ok(None);
    }
    let Ok(path) = str::from_utf8(&path) else {
        return Ok(None);
    };
    Ok(Some(format!(in alloc; "{word} is an alias, and the method's own path is {path}")?))
}

/// Of methods of which one is refused for what an argument of it holds, as far as that can be seen,
/// where no file tells the kinds of arguments: as what they count.
pub(crate) fn tell_untold<N: Notes>(
    notes: &N,
    checked: &Checked<'_>,
    methods: &[ObjectId],
    kinds: Option<&str>,
) {
    if kinds.is_none() && methods.iter().any(|id| may_lack_kinds(checked, *id)) {
        notes.tell(
            "without --kinds each argument counts as an integer, but those of a _DSM: docs/SIGNATURES.md has how to tell what it holds",
        );
    }
}

// Whether a method is refused for what an argument may hold, as far as a cause tells.
fn may_lack(why: Cause) -> bool {
    matches!(why, Cause::WrongKind | Cause::Index | Cause::BoundTooLarge)
}

// Whether a method that takes arguments is refused for what one of them may hold.
fn may_lack_kinds(checked: &Checked<'_>, id: ObjectId) -> bool {
    let Some(method) = checked.namespace().method(id) else {
        return false;
    };
    match checked.verdict(id) {
        Some(Verdict::Refused(refusal, _)) => method.args > 0 && may_lack(refusal.why),
        _ => false,
    }
}

/// Of a file of `--madt` that is no MADT.
pub(crate) fn tell_madt<N: Notes>(
    alloc: Global,
    notes: &N,
    name: Option<&str>,
    bytes: &[u8],
    fault: TableFault,
) {
    let label = option_label(name.unwrap_or("@"), "the file of --madt");
    tell(
        notes,
        table_note(alloc, label, bytes, fault, WantedTable::Madt),
    );
}

/// Of bytes which an object gives and which are no list of resource descriptors.
pub(crate) fn tell_descriptors<N: Notes>(
    alloc: Global,
    notes: &N,
    object: &str,
    octets: &[u8],
    fault: Fault,
) {
    if let (FaultCause::Resources(cause), Where::Byte(at)) = (fault.cause, fault.at) {
        let refusal = ResourceRefusal { cause, at };
        tell(notes, refusal_note(alloc, object, octets.len(), refusal));
    }
}

/// Of a link whose `_CRS` gives bytes that are no list of resource descriptors.
pub(crate) fn tell_link<N: Notes>(
    alloc: Global,
    notes: &N,
    namespace: &Namespace<'_>,
    refused: LinkRefusal,
) {
    if let Ok(text) = link_text(alloc, namespace, refused) {
        tell_lines(notes, &text);
    }
}

/// Of a `_PRT` that cannot be followed: which element is at fault, and why.
pub(crate) fn tell_route<N: Notes>(
    alloc: Global,
    notes: &N,
    checked: &Checked<'_>,
    names: &[&str],
    prt: &Value,
    links: &[(ObjectId, Vec<Item>)],
    fault: Fault,
) {
    let Where::Element(element) = fault.at else {
        return;
    };
    if fault.cause == FaultCause::Routes(RouteCause::BadEntry) {
        tell(notes, entry_note(alloc, prt, element));
    } else if let Ok(text) = source_text(alloc, checked, names, prt, links, element) {
        tell_lines(notes, &text);
    }
}

// Tells lines that were made, or that memory was wanted for them; whether there was memory.
fn tell_made<N: Notes>(notes: &N, made: Result<Vec<u8>, RunFault>) -> bool {
    match made {
        Ok(text) => {
            tell_lines(notes, &text);
            true
        }
        Err(_) => {
            notes.tell("out of memory");
            false
        }
    }
}

// Tells lines that each end in a line feed.
fn tell_lines<N: Notes>(notes: &N, text: &[u8]) {
    for line in text.split(|b| *b == b'\n') {
        if let Ok(line) = str::from_utf8(line)
            && !line.is_empty()
        {
            notes.tell(line);
        }
    }
}

/// Of a path that is no method's.
pub(crate) fn tell_object<N: Notes>(
    alloc: Global,
    notes: &N,
    namespace: &Namespace<'_>,
    word: &str,
) {
    tell(notes, object_note(alloc, namespace, word));
}

/// Of an object that gives no value.
pub(crate) fn tell_valueless<N: Notes>(alloc: Global, notes: &N, word: &str) {
    tell(
        notes,
        format!(in alloc; "{word} is neither a data name nor a method without arguments"),
    );
}

/// Of arguments that do not fit a method: their number, the first integer that is too great, or
/// the first that is not of the kind at its place.
pub(crate) fn tell_misfit<N: Notes>(
    alloc: Global,
    notes: &N,
    namespace: &Namespace<'_>,
    word: &str,
    method: Method,
    arguments: &[Value],
    misfit: Option<Misfit>,
) {
    if arguments.len() != usize::from(method.args) {
        tell(notes, count_note(alloc, word, method.args, arguments.len()));
        return;
    }
    let greatest = namespace.width().greatest();
    for (number, argument) in arguments.iter().enumerate() {
        if let Value::Int(given) = argument
            && *given > greatest
        {
            tell(notes, greatest_note(alloc, number, *given, greatest));
            return;
        }
    }
    if let Some(misfit) = misfit {
        tell(notes, misfit_note(alloc, namespace.width(), misfit));
    }
}

// Of words that are no command line: the help that they ask for, or what is wrong with them.
fn tell_words<S: AsStr, N: Notes>(alloc: Global, notes: &N, words: &[S]) {
    if let Some(help) = help_of(words) {
        notes.help(help);
    } else if let Some(error) = words_error(alloc, words) {
        notes.show(&error);
    }
}

/// Of a fault that ends a command, where nothing was told yet: the words, a file, or memory.
pub(crate) fn tell_end<S: AsStr, N: Notes>(alloc: Global, notes: &N, words: &[S], fault: Fault) {
    match fault.cause {
        FaultCause::CommandLine => tell_words(alloc, notes, words),
        FaultCause::File => notes.tell_unread(alloc),
        FaultCause::NoMemory => notes.tell("out of memory"),
        _ => {}
    }
}
