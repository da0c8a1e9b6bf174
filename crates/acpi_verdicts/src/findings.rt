// What rules found where they refuse and what they wanted, in words: kinds as `--kinds` has them.

ghost use Rattle.std.specs.Prelude.{◌≡◌, ◌++◌, IfErr, IfOk, OnOk, string_bytes};
ghost use Rattle.acpi_verdicts.specs.Findings as spec;
ghost use Rattle.acpi_text.specs.declared.writing.RunFault.TheVariants as told;
ghost use Rattle.aml_namespace.specs.Shows.{shown};
ghost use Rattle.aml_objects.specs.Widths.{bits_of};

use acpi_text::RunFault;
use aml_findings::{Change, FieldFault, Finding, Found, LoopLack, NumberedSlot, Sort, Wanted};
use aml_known::{Known, Yield};
use aml_namespace::{Namespace, Width};
use aml_path_text::push_path;
use aml_paths::ObjectId;
use aml_place_text::push_standing;
use std::alloc::{AllocError, Global};

/// Adds what was found and what was wanted, behind a colon; nothing where the cause tells all.
pub(crate) fn push_finding(
    alloc: Global,
    text: &mut Vec<u8>,
    namespace: &Namespace<'_>,
    finding: Finding,
) -> Result<(), RunFault>
    ensures text { OnOk result
        (text.new.items ≡ text.old.items ++ spec.told_text (shown namespace.now) finding) }
    ensures fault { IfErr result (λ fault. fault ≡ told.NoMemory) }
{
    match finding {
        Finding::Released { mutex, last } => push_released(alloc, text, namespace, mutex, last),
        Finding::StillHeld { last } => push_still_held(alloc, text, namespace, last),
        Finding::Steps { table, at } => push_reached(alloc, text, namespace, table, at),
        _ => {
            let words = finding_text(alloc, namespace.width(), finding)?;
            text.extend_from_slice(words.as_bytes())?;
            Ok(())
        }
    }
}

// Adds a mutex that is released, and the one that was taken last, if any is held.
fn push_released(
    alloc: Global,
    text: &mut Vec<u8>,
    namespace: &Namespace<'_>,
    mutex: ObjectId,
    last: Option<ObjectId>,
) -> Result<(), RunFault>
    ensures text { OnOk result (text.new.items
        ≡ text.old.items ++ spec.released_text (shown namespace.now) mutex last) }
    ensures fault { IfErr result (λ fault. fault ≡ told.NoMemory) }
{
    text.extend_from_slice(b": found a release of ")?;
    push_path(alloc, text, namespace, mutex)?;
    push_last(alloc, text, namespace, last)
}

// Adds which mutex was wanted where one is released: the one that was taken last, if any is held.
fn push_last(
    alloc: Global,
    text: &mut Vec<u8>,
    namespace: &Namespace<'_>,
    last: Option<ObjectId>,
) -> Result<(), RunFault>
    ensures text { OnOk result
        (text.new.items ≡ text.old.items ++ spec.last_text (shown namespace.now) last) }
    ensures fault { IfErr result (λ fault. fault ≡ told.NoMemory) }
{
    let Some(last) = last else {
        text.extend_from_slice(b", wanted none where no mutex is held")?;
        return Ok(());
    };
    text.extend_from_slice(b", wanted one of ")?;
    push_path(alloc, text, namespace, last)?;
    text.extend_from_slice(b", the last taken of those held")?;
    Ok(())
}

// Adds the mutex that was taken last of those that are still held.
fn push_still_held(
    alloc: Global,
    text: &mut Vec<u8>,
    namespace: &Namespace<'_>,
    last: ObjectId,
) -> Result<(), RunFault>
    ensures text { OnOk result
        (text.new.items ≡ text.old.items ++ spec.still_held_text (shown namespace.now) last) }
    ensures fault { IfErr result (λ fault. fault ≡ told.NoMemory) }
{
    text.extend_from_slice(b": found ")?;
    push_path(alloc, text, namespace, last)?;
    text.extend_from_slice(
        b" still held (each Acquire takes its mutex here, whatever its timeout), wanted no mutex held",
    )?;
    Ok(())
}

// Adds the statement with which the steps of its block reach 2^63.
fn push_reached(
    alloc: Global,
    text: &mut Vec<u8>,
    namespace: &Namespace<'_>,
    table: usize,
    at: usize,
) -> Result<(), RunFault>
    ensures text { OnOk result (text.new.items
        ≡ text.old.items ++ spec.reached_text (shown namespace.now) table at) }
    ensures fault { IfErr result (λ fault. fault ≡ told.NoMemory) }
{
    let place = reached_place(alloc, at)?;
    text.extend_from_slice(place.as_bytes())?;
    push_standing(text, namespace.table_bytes(table), at)?;
    text.extend_from_slice(b", wanted fewer")?;
    Ok(())
}

// The same by its place alone.
#[tactic(auto, unfolding(crate::specs::Findings::reached_place))]
fn reached_place(alloc: Global, at: usize) -> Result<String, AllocError>
    ensures { IfOk result (λ text. string_bytes text ≡ spec.reached_place at) }
{
    format!(in alloc; ": found 2^63 steps reached at byte {at}")
}

// What was found and what was wanted, where no object's path is told.
#[tactic(auto, unfolding(crate::specs::Findings::finding_text))]
fn finding_text(alloc: Global, width: Width, finding: Finding) -> Result<String, AllocError>
    ensures { IfOk result (λ text. string_bytes text ≡ spec.finding_text (bits_of width) finding) }
{
    match finding {
        Finding::Nothing
        | Finding::Released { .. }
        | Finding::StillHeld { .. }
        | Finding::Steps { .. } => format!(in alloc; ""),
        Finding::Other { found, wanted } => other_text(alloc, width, found, wanted),
        Finding::Index {
            greatest,
            length: Some(length),
        } => { format!(in alloc; ": found an index up to {greatest}, wanted one below {length}") }
        Finding::Index {
            greatest,
            length: None,
        } => format!(in alloc; ": found an index up to {greatest}, wanted a length that is known"),
        Finding::Element { greatest, length } => {
            format!(in alloc;
                ": found an index up to {greatest} of {length} elements, wanted a value there"
            )
        }
        Finding::Field {
            byte,
            bit,
            bits,
            length,
        } => {
            format!(in alloc;
                ": found {bits} bits from bit {bit} of byte {byte} on, wanted them within buf:{length}"
            )
        }
        Finding::Joined { bytes } => {
            format!(in alloc; ": found {bytes} bytes, wanted 65536 at most")
        }
        Finding::Given(given) => given_text(alloc, width, given),
        Finding::Turn { slot, began, ends } => turn_text(alloc, width, slot, began, ends),
        Finding::Level { taken, held } => {
            format!(in alloc; ": found level {taken}, wanted {held} or more")
        }
        Finding::Fault(fault) => fault_text(alloc, fault),
        Finding::Units {
            at,
            bits,
            unit,
            length,
        } => format!(in alloc;
            ": found {bits} bits from bit {at} on in units of {unit} bits, wanted whole units within the {length} bytes of a region below 2^64"
        ),
        Finding::Lack(lack) => lack_text(alloc, lack),
    }
}

// What is wrong with a field.
#[tactic(auto, unfolding(crate::specs::Findings::fault_text))]
fn fault_text(alloc: Global, fault: FieldFault) -> Result<String, AllocError>
    ensures { IfOk result (λ text. string_bytes text ≡ spec.fault_text fault) }
{
    match fault {
        FieldFault::Bits(bits) => format!(in alloc; ": found {bits} bits, wanted 1 to 2048"),
        FieldFault::Space(space) => {
            format!(in alloc;
                ": found a region of space {space}, wanted 0 (mem), 1 (io), 2 (pci), 3 (ec) or 5 (cmos)"
            )
        }
        _ => {
            let words = fault_words(fault);
            format!(in alloc; "{words}")
        }
    }
}

// The same, where that is no number.
fn fault_words(fault: FieldFault) -> &'static str
    ensures { result.now ≡ spec.fault_words fault }
{
    match fault {
        FieldFault::Connected => {
            ": found a Connection or an extended access before it in its list, wanted neither"
        }
        FieldFault::Access => {
            ": found access for buffers or a reserved one, wanted AnyAcc, ByteAcc, WordAcc, DWordAcc or QWordAcc"
        }
        FieldFault::Update => {
            ": found the reserved update rule, wanted Preserve, WriteAsOnes or WriteAsZeros"
        }
        FieldFault::NoRegion =>
            ": found a field of no OperationRegion that the tables define, wanted a field of one",
        FieldFault::Place => {
            ": found a region whose first place is computed, wanted an integer literal"
        }
        FieldFault::Length => {
            ": found a region whose length is computed, wanted an integer literal"
        }
        FieldFault::Bits(_) | FieldFault::Space(_) => "",
    }
}

// What a loop lacks that has no shape.
#[tactic(auto, unfolding(crate::specs::Findings::lack_text))]
fn lack_text(alloc: Global, lack: LoopLack) -> Result<String, AllocError>
    ensures { IfOk result (λ text. string_bytes text ≡ spec.lack_text lack) }
{
    match lack {
        LoopLack::Test => format!(in alloc;
            ": found a test of another form, wanted a local, LLess (Local0, 5) or LGreater (Local0, 5), of any local and literal in this order"
        ),
        LoopLack::Limit { local } => {
            format!(in alloc;
                ": found Local{local} compared with no integer literal, wanted it compared with one"
            )
        }
        LoopLack::Unchanged { local, wanted } => {
            let wanted = change_words(wanted);
            format!(in alloc;
                ": found no store into Local{local} in the body, wanted it made {wanted} by one statement of the body itself, in no If or While"
            )
        }
        LoopLack::Otherwise { local, wanted } => otherwise_text(alloc, local, wanted),
    }
}

// A loop's local that changes otherwise than is wanted.
#[tactic(auto, unfolding(crate::specs::Findings::otherwise_text))]
fn otherwise_text(alloc: Global, local: u8, wanted: Change) -> Result<String, AllocError>
    ensures { IfOk result (λ text. string_bytes text ≡ spec.otherwise_text local wanted) }
{
    let wanted = change_words(wanted);
    format!(in alloc;
        ": found a Continue before or other changes of Local{local}, wanted it made {wanted} once, in no If or While"
    )
}

// How a loop's local is to change in each turn.
fn change_words(change: Change) -> &'static str
    ensures { result.now ≡ spec.change_words change }
{
    match change {
        Change::OneMore => "one more",
        Change::OneLess => "one less",
    }
}

// Something else than what was wanted.
#[tactic(auto, unfolding(crate::specs::Findings::other_text))]
fn other_text(
    alloc: Global,
    width: Width,
    found: Found,
    wanted: Wanted,
) -> Result<String, AllocError>
    ensures { IfOk result
        (λ text. string_bytes text ≡ spec.other_text (bits_of width) found wanted) }
{
    let found = found_text(alloc, width, found)?;
    let wanted = wanted_text(alloc, width, wanted)?;
    let found = found.as_str();
    let wanted = wanted.as_str();
    format!(in alloc; ": found {found}, wanted {wanted}")
}

// What a call gives that need not give a value.
#[tactic(auto, unfolding(crate::specs::Findings::given_text))]
fn given_text(alloc: Global, width: Width, given: Yield) -> Result<String, AllocError>
    ensures { IfOk result (λ text. string_bytes text ≡ spec.given_text (bits_of width) given) }
{
    match given {
        Yield::Always(_) => format!(in alloc; ""),
        Yield::Sometimes(kind) => {
            let kind = kind_text(alloc, width, kind)?;
            let kind = kind.as_str();
            format!(in alloc; ": found {kind} on some ways alone, wanted a value on each")
        }
        Yield::Never => format!(in alloc; ": found no value on any way"),
    }
}

// What a local or an argument holds where turns begin, and where one ends.
#[tactic(auto, unfolding(crate::specs::Findings::turn_text))]
fn turn_text(
    alloc: Global,
    width: Width,
    slot: NumberedSlot,
    began: Known,
    ends: Option<Known>,
) -> Result<String, AllocError>
    ensures { IfOk result (λ text. string_bytes text
        ≡ spec.turn_text (bits_of width) slot began ends) }
{
    let slot = slot_text(alloc, slot)?;
    let began = kind_text(alloc, width, began)?;
    let ends = end_text(alloc, width, ends)?;
    let slot = slot.as_str();
    let began = began.as_str();
    let ends = ends.as_str();
    format!(in alloc;
        ": found {ends} in {slot} where a turn ends, wanted {began} as where it began"
    )
}

// What a slot holds, if it holds something for certain.
#[tactic(auto, unfolding(crate::specs::Findings::end_text))]
fn end_text(alloc: Global, width: Width, kind: Option<Known>) -> Result<String, AllocError>
    ensures { IfOk result (λ text. string_bytes text ≡ spec.end_text (bits_of width) kind) }
{
    match kind {
        Some(kind) => kind_text(alloc, width, kind),
        None => format!(in alloc; "what may be unset"),
    }
}

// A local or an argument.
#[tactic(auto, unfolding(crate::specs::Findings::slot_text))]
fn slot_text(alloc: Global, slot: NumberedSlot) -> Result<String, AllocError>
    ensures { IfOk result (λ text. string_bytes text ≡ spec.slot_text slot) }
{
    match slot {
        NumberedSlot::Local(number) => format!(in alloc; "Local{number}"),
        NumberedSlot::Argument(number) => format!(in alloc; "Arg{number}"),
    }
}

// What was found.
#[tactic(auto, unfolding(crate::specs::Findings::found_text))]
fn found_text(alloc: Global, width: Width, found: Found) -> Result<String, AllocError>
    ensures { IfOk result (λ text. string_bytes text ≡ spec.found_text (bits_of width) found) }
{
    match found {
        Found::Kind(kind) => kind_text(alloc, width, kind),
        Found::Object(sort) => {
            let words = sort_words(sort);
            format!(in alloc; "{words}")
        }
        Found::Slot => format!(in alloc; "a local or an argument"),
        Found::Unmade => format!(in alloc; "a name that is made further on"),
    }
}

// The sort of an object.
fn sort_words(sort: Sort) -> &'static str
    ensures { result.now ≡ spec.sort_words sort }
{
    match sort {
        Sort::Scope => "a scope",
        Sort::Device => "a device",
        Sort::Processor => "a processor",
        Sort::PowerResource => "a power resource",
        Sort::ThermalZone => "a thermal zone",
        Sort::Method => "a method",
        Sort::Data => "a data name",
        Sort::Region => "an operation region",
        Sort::Field => "a field of a region",
        Sort::BufferField => "a field of a buffer",
        Sort::Mutex => "a mutex",
        Sort::Event => "an event",
        Sort::Nothing => "no object",
    }
}

// What was wanted.
#[tactic(auto, unfolding(crate::specs::Findings::wanted_text))]
fn wanted_text(alloc: Global, width: Width, wanted: Wanted) -> Result<String, AllocError>
    ensures { IfOk result (λ text. string_bytes text ≡ spec.wanted_text (bits_of width) wanted) }
{
    match wanted {
        Wanted::Within(kind) => kind_text(alloc, width, kind),
        Wanted::IntegerOr(kind) => {
            let kind = kind_text(alloc, width, kind)?;
            let kind = kind.as_str();
            format!(in alloc; "int or {kind}")
        }
        _ => {
            let words = wanted_words(wanted);
            format!(in alloc; "{words}")
        }
    }
}

// The same where it has no kind of its own.
fn wanted_words(wanted: Wanted) -> &'static str
    ensures { result.now ≡ spec.wanted_words wanted }
{
    match wanted {
        Wanted::Integer => "int",
        Wanted::Buffer => "buf",
        Wanted::Text => "str",
        Wanted::IntegerOrBuffer => "int or buf",
        Wanted::BufferOrText => "buf or str",
        Wanted::Sized => "buf, str or pkg",
        Wanted::Comparable => "int, buf or str",
        Wanted::FilledBuffer => "a buffer of 1 byte or more",
        Wanted::Divisor => "an integer literal other than 0",
        Wanted::Value => "a value",
        Wanted::Target => "a name or a field that takes a value",
        Wanted::NoStore => "no store into a name that holds a package",
        Wanted::Mutex => "a mutex",
        Wanted::Notifiable => "a device, a processor or a thermal zone",
        Wanted::Within(_) | Wanted::IntegerOr(_) => "a kind",
    }
}

// A kind.
#[tactic(auto, unfolding(crate::specs::Findings::kind_text))]
pub(crate) fn kind_text(alloc: Global, width: Width, kind: Known) -> Result<String, AllocError>
    ensures { IfOk result (λ text. string_bytes text ≡ spec.kind_text (bits_of width) kind) }
{
    match kind {
        Known::Int(most) => integer_text(alloc, width, most),
        Known::Buf(size) => format!(in alloc; "buf:{size}"),
        Known::Str(size) => format!(in alloc; "str:{size}"),
        Known::Pkg(_) => format!(in alloc; "pkg of one shape"),
        Known::AnyPkg => format!(in alloc; "pkg"),
        Known::Mixed => format!(in alloc; "any kind"),
    }
}

// The kind of integers up to one.
#[tactic(auto, unfolding(crate::specs::Findings::integer_text))]
fn integer_text(alloc: Global, width: Width, most: u64) -> Result<String, AllocError>
    ensures { IfOk result (λ text. string_bytes text ≡ spec.integer_text (bits_of width) most) }
{
    if most == width.greatest() {
        format!(in alloc; "int")
    } else {
        format!(in alloc; "int:{most}")
    }
}
