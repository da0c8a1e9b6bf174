// The object that a cause is about: the region of a field, or the method that is called.

ghost use Rattle.std.specs.Prelude.{◌≡◌, ◌++◌, IfErr, OnOk};
ghost use Rattle.acpi_verdicts.specs.About as spec;
ghost use Rattle.acpi_text.specs.declared.writing.RunFault.TheVariants as told;
ghost use Rattle.aml_namespace.specs.Shows.{shown};

use acpi_text::RunFault;
use aml_causes::{Cause, Refusal};
use aml_findings::{FieldFault, Finding};
use aml_namespace::{Link, Namespace, Object, Through};
use aml_path_text::push_path;
use aml_paths::{NamePlace, ObjectId};
use aml_place_text::push_standing;
use std::alloc::Global;

/// Adds the name of the region that a field lies in, as its list spells it, where that is what was
/// found; where the cause tells of a call, the path of the method that is called; else nothing.
pub(crate) fn push_about(
    alloc: Global,
    text: &mut Vec<u8>,
    namespace: &Namespace<'_>,
    id: ObjectId,
    refusal: Refusal,
    finding: Finding,
) -> Result<(), RunFault>
    ensures text { OnOk result (text.new.items
        ≡ text.old.items ++ spec.about_text (shown namespace.now) id refusal finding) }
    ensures fault { IfErr result (λ fault. fault ≡ told.NoMemory) }
{
    if let Some(name) = region_named(namespace, id, refusal, finding) {
        text.extend_from_slice(b"; in the region")?;
        push_standing(text, namespace.table_bytes(name.table), name.at)?;
        return Ok(());
    }
    if let Some(callee) = callee_told(namespace, id, refusal) {
        text.extend_from_slice(b": ")?;
        push_path(alloc, text, namespace, callee)?;
    }
    Ok(())
}

// Where the region of a field is named, where something of that was found. Then the field's name is
// no own name of the body, whose fields lie in buffers.
fn region_named(
    namespace: &Namespace<'_>,
    id: ObjectId,
    refusal: Refusal,
    finding: Finding,
) -> Option<NamePlace>
    ensures { result ≡ spec.region_named (shown namespace.now) id refusal finding }
{
    if !is_of_region(finding) {
        return None;
    }
    match meant_at(namespace, id, refusal) {
        Link::Field(field) => region_of(namespace.object(field)),
        _ => None,
    }
}

// Where a field names its region.
fn region_of(object: Option<Object>) -> Option<NamePlace>
    ensures { result ≡ spec.region_of object }
{
    match object {
        Some(Object::Field(field)) => match field.through {
            Through::Region(region) => Some(region.name),
            _ => None,
        },
        _ => None,
    }
}

// Whether what was found is of a field of a region: so many bits are found of fields of buffers
// too.
fn is_of_region(finding: Finding) -> bool
    ensures { result ≡ spec.is_of_region finding }
{
    match finding {
        Finding::Units { .. } => true,
        Finding::Fault(fault) => !matches!(fault, FieldFault::Bits(_)),
        _ => false,
    }
}

// The method that is called where a method is refused, if the cause tells of a call.
fn callee_told(namespace: &Namespace<'_>, id: ObjectId, refusal: Refusal) -> Option<ObjectId>
    ensures { result ≡ spec.callee_told (shown namespace.now) id refusal }
{
    if asks_callee(refusal.why) {
        called_at(namespace, id, refusal)
    } else {
        None
    }
}

// Whether a cause tells of the method that is called.
fn asks_callee(cause: Cause) -> bool
    ensures { result ≡ spec.asks_callee cause }
{
    matches!(cause, Cause::Cycle | Cause::CalleeRefused | Cause::Depth)
}

/// The method that the name at the place of a refusal calls. The name of a call is no own name.
pub(crate) fn called_at(
    namespace: &Namespace<'_>,
    id: ObjectId,
    refusal: Refusal,
) -> Option<ObjectId>
    ensures { result ≡ spec.called_at (shown namespace.now) id refusal }
{
    match meant_at(namespace, id, refusal) {
        Link::Method(callee) => Some(callee),
        _ => None,
    }
}

// What the name at the place of a refusal means, own names apart.
fn meant_at(namespace: &Namespace<'_>, id: ObjectId, refusal: Refusal) -> Link
    ensures { result ≡ spec.meant_at (shown namespace.now) id refusal }
{
    namespace.link(id, namespace.table_bytes(refusal.table), refusal.at)
}
