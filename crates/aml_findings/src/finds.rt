// What rules find where they refuse: whoever judges is told, and people are.

ghost use Rattle.std.specs.Prelude.{◌≡◌, ℕ, List};
ghost use Rattle.aml_kinds.specs.Kinds.{Shape};
ghost use Rattle.aml_judged.specs.Known.{slot_within};
ghost use Rattle.aml_meaning.specs.Actions.{action};
ghost use Rattle.aml_meaning.specs.Owns.{field_at};
ghost use Rattle.aml_meaning.specs.declared.mutex.TakenMutex.{TakenMutex};
ghost use Rattle.aml_objects.specs.Widths.{bits_of};
ghost use Rattle.aml_known.specs.Views.{AreApart, slot_of};
ghost use Rattle.aml_findings.specs.Finds as spec;
ghost use Rattle.aml_findings.specs.Finds.{CombinedAreUnmet, ComparedAreUnmet, ConcatenatedAreUnmet, ConvertedAreUnmet, FindsChanged, FindsEnd, FindsLed, IntegersAreUnmet, ReleasedAreUnmet, StillHeldAreTold};

use crate::around::Around;
use crate::finding::{Finding, Found, NumberedSlot, Sort, Wanted};
use aml_causes::Cause;
use aml_kind_rules::{field_kind, lies_inside};
use aml_known::{Env, Known, Slot, kind_at};
use aml_meaning::{Action, BufferField, Comparison, TakenMutex, action_of};
use aml_namespace::{Link, Object};
use aml_operators::Op;
use aml_paths::{NoMemory, ObjectId};

/// What is told of a method that is refused for a cause: what a rule found last, and of V11 the
/// statement of its table with which the steps of its block reach 2^63, if one was told.
pub fn refused(why: Cause, last: Finding, table: usize, reached: Option<usize>) -> Finding
    ensures { result ≡ spec.refused_finding why last table reached }
{
    match (why, reached) {
        (Cause::BoundTooLarge, Some(at)) => Finding::Steps { table, at },
        (Cause::BoundTooLarge, None) => Finding::Nothing,
        _ => last,
    }
}

/// What is of a kind, where something else was wanted.
pub fn other_kind(kind: Known, wanted: Wanted) -> Finding
    ensures { result ≡ spec.kind_found kind wanted }
{
    Finding::Other {
        found: Found::Kind(kind),
        wanted,
    }
}

/// An object of a sort, where something else was wanted.
pub fn other_object(sort: Sort, wanted: Wanted) -> Finding
    ensures { result ≡ spec.object_found sort wanted }
{
    Finding::Other {
        found: Found::Object(sort),
        wanted,
    }
}

/// A name that is made further on.
pub fn unmade(wanted: Wanted) -> Finding
    ensures { result ≡ Finding.Other Found.Unmade wanted }
{
    Finding::Other {
        found: Found::Unmade,
        wanted,
    }
}

/// A local or an argument, where an object was wanted.
pub fn unread(wanted: Wanted) -> Finding
    ensures { result ≡ Finding.Other Found.Slot wanted }
{
    Finding::Other {
        found: Found::Slot,
        wanted,
    }
}

/// Where an integer is wanted.
pub fn integer(kind: Known) -> Finding
    ensures { result ≡ spec.integer_finding kind }
{
    other_kind(kind, Wanted::Integer)
}

/// Where two integers are wanted.
pub fn integers(j: Known, k: Known) -> Finding
    ensures { result ≡ spec.integers_finding j k }
{
    match j {
        Known::Int(_) => integer(k),
        _ => integer(j),
    }
}

/// Where two integers are combined, the second of which may be a divisor.
pub fn combined(j: Known, k: Known) -> Finding
    ensures { result ≡ spec.combined_finding j k }
{
    match (j, k) {
        (Known::Int(_), Known::Int(_)) => other_kind(k, Wanted::Divisor),
        _ => integers(j, k),
    }
}

/// Where two values are compared.
pub fn compared(f: Comparison, j: Known, k: Known) -> Finding
    ensures { result ≡ spec.compared_finding f j k }
{
    match (f, j) {
        (Comparison::LEqual, Known::Int(_)) => integer(k),
        (Comparison::LEqual, Known::Buf(_)) => other_kind(k, Wanted::Buffer),
        (Comparison::LEqual, Known::Str(_)) => other_kind(k, Wanted::Text),
        (Comparison::LEqual, _) => other_kind(j, Wanted::Comparable),
        _ => integers(j, k),
    }
}

/// Where a value is converted.
pub fn converted(kind: Known) -> Finding
    ensures { result ≡ spec.converted_finding kind }
{
    match kind {
        Known::Int(_) | Known::Buf(_) => other_kind(kind, Wanted::FilledBuffer),
        _ => other_kind(kind, Wanted::IntegerOrBuffer),
    }
}

/// Where two values are put together.
pub fn concatenated(j: Known, k: Known) -> Finding
    ensures { result ≡ spec.concatenated_finding j k }
{
    match (j, k) {
        (Known::Buf(a), Known::Buf(b)) | (Known::Str(a), Known::Str(b)) => Finding::Joined {
            bytes: a.saturating_add(b),
        },
        (Known::Buf(_), _) => other_kind(k, Wanted::Buffer),
        (Known::Str(_), _) => other_kind(k, Wanted::Text),
        _ => other_kind(j, Wanted::BufferOrText),
    }
}

/// Where something so long has an index, if its length is known.
fn index(kind: Known, length: Option<u64>) -> Finding
    ensures { result ≡ spec.index_finding kind length }
{
    match kind {
        Known::Int(greatest) => Finding::Index { greatest, length },
        _ => integer(kind),
    }
}

/// Where a package of so many elements has an index.
fn element(kind: Known, length: u64) -> Finding
    ensures { result ≡ spec.element_finding kind length }
{
    match kind {
        Known::Int(greatest) if greatest < length => Finding::Element { greatest, length },
        _ => index(kind, Some(length)),
    }
}

/// Where an Index of what is of one kind, at what is of another, is read.
pub fn led<A: Around>(here: &A, j: Known, k: Known) -> Finding
    ensures { FindsLed (A.numbered here.now) j k result }
{
    match j {
        Known::Buf(size) | Known::Str(size) => index(k, Some(size)),
        Known::Pkg(shape) => match here.places(shape) {
            Ok(length) => element(k, length),
            Err(_) => index(k, None),
        },
        Known::AnyPkg => index(k, None),
        Known::Int(_) | Known::Mixed => other_kind(j, Wanted::Sized),
    }
}

/// Where a byte is stored at an index of a name, which holds what is of a kind.
pub fn byte_written<A: Around>(
    here: &A,
    from: usize,
    held: Option<Known>,
    at: Known,
    stored: Known,
) -> Finding
    ensures { result ≡ spec.byte_finding (A.around here.now) from held at stored }
{
    match (held, at) {
        (Some(Known::Buf(size)), Known::Int(greatest)) if greatest < size => integer(stored),
        (Some(Known::Buf(size)), _) => index(at, Some(size)),
        (Some(kind), _) => other_kind(kind, Wanted::Buffer),
        (None, _) => named(here, here.link(from), Wanted::Buffer),
    }
}

/// Where what is of a kind is stored into a name that holds what is of another, if it holds
/// anything.
pub fn stored(held: Option<Known>, kind: Known) -> Finding
    ensures { result ≡ spec.stored_finding held kind }
{
    match held {
        Some(Known::Pkg(_) | Known::AnyPkg) => other_kind(kind, Wanted::NoStore),
        Some(old) => other_kind(kind, Wanted::Within(old)),
        None => unmade(Wanted::Target),
    }
}

/// Where what is of a kind is stored into a field of so many bits.
pub fn given<A: Around>(here: &A, bits: u64, kind: Known) -> Finding
    ensures { result ≡ spec.given_finding (A.around here.now).width bits kind }
{
    match field_kind(here.width(), bits) {
        Known::Int(_) => integer(kind),
        wide => other_kind(kind, Wanted::IntegerOr(wide)),
    }
}

/// Where a field of a buffer is used.
pub fn buffer_field<A: Around>(here: &A, field: BufferField, source: Option<Known>) -> Finding
    ensures { result ≡ spec.buffer_field_finding (A.around here.now) field source }
{
    match source {
        Some(Known::Buf(length)) => Finding::Field {
            byte: field.byte,
            bit: field.bit,
            bits: field.bits,
            length,
        },
        Some(kind) => other_kind(kind, Wanted::Buffer),
        None => named(here, field.source, Wanted::Buffer),
    }
}

/// Where it is stored into.
pub fn buffer_field_stored<A: Around>(
    here: &A,
    field: BufferField,
    source: Option<Known>,
    kind: Known,
) -> Finding
    ensures { result ≡ spec.buffer_field_stored_finding (A.around here.now) field source kind }
{
    match source {
        Some(Known::Buf(size)) if lies_inside(field, size) => given(here, field.bits, kind),
        _ => buffer_field(here, field, source),
    }
}

/// The sort of an object.
fn sort_of(object: Option<Object>) -> Sort
    ensures { result ≡ spec.sort_of object }
{
    match object {
        Some(Object::Scope) => Sort::Scope,
        Some(Object::Device) => Sort::Device,
        Some(Object::Processor) => Sort::Processor,
        Some(Object::PowerResource) => Sort::PowerResource,
        Some(Object::ThermalZone) => Sort::ThermalZone,
        Some(Object::Method(_) | Object::OsInterfaces) => Sort::Method,
        Some(Object::Data(_)) => Sort::Data,
        Some(Object::Region(_) | Object::DataTableRegion) => Sort::Region,
        Some(Object::Field(_)) => Sort::Field,
        Some(Object::BufferField(_)) => Sort::BufferField,
        Some(Object::Mutex { .. } | Object::GlobalLock) => Sort::Mutex,
        Some(Object::Event) => Sort::Event,
        None => Sort::Nothing,
    }
}

/// The sort of an own name.
fn own_sort<A: Around>(here: &A, number: usize) -> Sort
    ensures { result ≡ spec.own_sort (field_at (A.around here.now).kinds.fields number) }
{
    match here.own_field(number) {
        Some(_) => Sort::BufferField,
        None => Sort::Data,
    }
}

/// The sort of what a name means.
fn sort_named<A: Around>(here: &A, link: Link) -> Sort
    ensures { result ≡ spec.sort_named (A.around here.now) link }
{
    match link {
        Link::Method(_) | Link::OsInterfaces => Sort::Method,
        Link::Data(_) => Sort::Data,
        Link::Own(number) => own_sort(here, number),
        Link::Field(_) => Sort::Field,
        Link::BufferField(_) => Sort::BufferField,
        Link::Object(id) => sort_of(here.object(id)),
        Link::Missing => Sort::Nothing,
    }
}

/// Where a name means an object of another sort than what was wanted.
pub fn named<A: Around>(here: &A, link: Link, wanted: Wanted) -> Finding
    ensures { result ≡ spec.named_finding (A.around here.now) link wanted }
{
    other_object(sort_named(here, link), wanted)
}

/// Where an operand is notified.
pub fn notified<A: Around>(here: &A, op: Op, at: usize) -> Finding
    ensures { result ≡ spec.notified_finding (A.around here.now) (action op) at }
{
    match action_of(op) {
        Action::Name => named(here, here.link(at), Wanted::Notifiable),
        _ => unread(Wanted::Notifiable),
    }
}

/// Where a mutex of a level is taken, if one is, and others are held, whose greatest level may be
/// known.
pub fn level(taken: Option<u8>, held: Option<u8>) -> Finding
    ensures { result ≡ spec.level_finding taken held }
{
    match (taken, held) {
        (Some(taken), Some(held)) => Finding::Level { taken, held },
        _ => Finding::Nothing,
    }
}

/// Where a mutex is released that was not taken last of those that are held, if it is known which
/// was.
pub fn released(mutex: ObjectId, last: Result<Option<TakenMutex>, NoMemory>) -> Finding
    ensures { result ≡ spec.released_finding mutex last }
{
    match last {
        Ok(Some(last)) => Finding::Released {
            mutex,
            last: Some(last.object),
        },
        Ok(None) => Finding::Released { mutex, last: None },
        Err(NoMemory) => Finding::Nothing,
    }
}

/// Where a mutex is still held, if it is known which was taken last.
pub fn still_held(last: Result<Option<TakenMutex>, NoMemory>) -> Finding
    ensures { result ≡ spec.still_held_finding last }
{
    match last {
        Ok(Some(last)) => Finding::StillHeld { last: last.object },
        Ok(None) | Err(NoMemory) => Finding::Nothing,
    }
}

/// Whether what a slot holds is within what it began with.
fn is_kept(ends: Slot, began: Known) -> bool
    ensures { (shapes : ℕ → Shape) → AreApart shapes →
        result ≡ slot_within (slot_of shapes ends) (slot_of shapes (Some began)) }
{
    match ends {
        Some(kind) => kind.is_within(began),
        None => false,
    }
}

/// A slot that is not within what it began with: its number, and both.
#[derive(Clone, Copy)]
struct ChangedSlot {
    number: u8,
    began: Known,
    held: Slot,
}

/// The first slot that is not within what it began with; none where all are.
fn changed(ends: &[Slot], starts: &[Slot]) -> Option<ChangedSlot>
    ensures { (shapes : ℕ → Shape) → AreApart shapes →
        FindsChanged shapes ends.now starts.now result }
{
    for number in 0..8 {
        let held = kind_at(ends, number);
        if let Some(began) = kind_at(starts, number) {
            if !is_kept(held, began) {
                return Some(ChangedSlot {
                    number,
                    began,
                    held,
                });
            }
        }
    }
    None
}

/// Where an end of a turn that counts is not within what the turns of a loop begin with.
fn end_changed(end: &Env, start: &Env) -> Finding
    ensures { (shapes : ℕ → Shape) → AreApart shapes → FindsEnd shapes end.now start.now result }
{
    if let Some(slot) = changed(&end.locals, &start.locals) {
        return Finding::Turn {
            slot: NumberedSlot::Local(slot.number),
            began: slot.began,
            ends: slot.held,
        };
    }
    match changed(&end.args, &start.args) {
        Some(slot) => Finding::Turn {
            slot: NumberedSlot::Argument(slot.number),
            began: slot.began,
            ends: slot.held,
        },
        None => Finding::Nothing,
    }
}

/// Where the end of a loop's body or its Continues are not within what it began with.
pub fn turned(end: &Env, continued: &Option<Env>, start: &Env) -> Finding
    ensures { (shapes : ℕ → Shape) (lists : ℕ → List TakenMutex) → AreApart shapes →
        FindsEnd shapes (spec.told_end shapes lists end.now continued.now start.now) start.now
        result }
{
    match continued {
        Some(other) if end.is_end_within(start) => end_changed(other, start),
        _ => end_changed(end, start),
    }
}

/// Where a rule of kinds or of mutexes refuses, what is found is not what was wanted.
pub fn findings_are_unmet()
    ensures integers { IntegersAreUnmet }
    ensures combined { CombinedAreUnmet }
    ensures compared { ComparedAreUnmet }
    ensures converted { ConvertedAreUnmet }
    ensures concatenated { ConcatenatedAreUnmet }
    ensures released { ReleasedAreUnmet }
    ensures still_held { StillHeldAreTold }
{}
