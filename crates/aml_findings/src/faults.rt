// What is wrong with fields that cannot be read and written: for people alone.

ghost use Rattle.std.specs.Prelude.{◌≡◌};
ghost use Rattle.aml_regions.specs.Fields.{is_known_space};
ghost use Rattle.aml_findings.specs.Faults as spec;
ghost use Rattle.aml_findings.specs.Faults.{FaultsAreReasons};

use crate::around::Around;
use crate::finding::{FieldFault, Finding};
use aml_meaning::BufferField;
use aml_namespace::{AccessType, Field, Link, Object, ObjectId, Region, Through, UpdateRule};

/// The first of what is wrong with a field of a region or of a buffer, by what its name means. Of
/// an index field and a bank field no more is told than its list tells.
pub fn unusable<A: Around>(here: &A, link: Link) -> Finding
    ensures { result ≡ spec.unusable_finding (A.around here.now) link }
{
    match link {
        Link::Field(id) | Link::BufferField(id) => object(here, here.object(id)),
        Link::Own(number) => own(here.own_field(number)),
        Link::Method(_) | Link::OsInterfaces | Link::Data(_) | Link::Object(_) | Link::Missing => {
            Finding::Nothing
        }
    }
}

/// What is wrong with the field that an object is.
fn object<A: Around>(here: &A, object: Option<Object>) -> Finding
    ensures { result ≡ spec.object_finding (A.around here.now) object }
{
    match object {
        Some(Object::Field(field)) => listed(here, field),
        Some(Object::BufferField(field)) => sized(field.size.bits(here.width())),
        _ => Finding::Nothing,
    }
}

/// What is wrong with a field of a buffer that an own name is.
fn own(field: Option<BufferField>) -> Finding
    ensures { result ≡ spec.own_finding field }
{
    match field {
        Some(field) => sized(field.bits),
        None => Finding::Nothing,
    }
}

/// A number of bits that no field may have.
fn sized(bits: u64) -> Finding
    ensures { result ≡ spec.sized_finding bits }
{
    Finding::Fault(FieldFault::Bits(bits))
}

/// What is wrong with a field by its list, or else by how its units are reached.
fn listed<A: Around>(here: &A, field: Field) -> Finding
    ensures { result ≡ spec.listed_finding (A.around here.now) field }
{
    if field.is_connected {
        return Finding::Fault(FieldFault::Connected);
    }
    if !is_counted(field.bits) {
        return sized(field.bits);
    }
    if is_reserved(field.rule.update) {
        return Finding::Fault(FieldFault::Update);
    }
    match unit_bits(field.rule.access) {
        Some(unit) => reached(here, field, unit),
        None => Finding::Fault(FieldFault::Access),
    }
}

/// Whether a field has a bit, and no more than 2,048.
fn is_counted(bits: u64) -> bool
    ensures { result ≡ spec.is_counted bits }
{
    0 < bits && bits <= 2048
}

/// Whether an update rule is reserved.
fn is_reserved(rule: UpdateRule) -> bool
    ensures { result ≡ spec.is_reserved rule }
{
    match rule {
        UpdateRule::Reserved => true,
        UpdateRule::Preserve | UpdateRule::Ones | UpdateRule::Zeros => false,
    }
}

/// How many bits a unit has.
fn unit_bits(access: AccessType) -> Option<u8>
    ensures { result ≡ spec.unit_bits access }
{
    match access {
        AccessType::Any | AccessType::Byte => Some(8),
        AccessType::Word => Some(16),
        AccessType::DWord => Some(32),
        AccessType::QWord => Some(64),
        AccessType::Other => None,
    }
}

/// What is wrong with how a field's units are reached.
fn reached<A: Around>(here: &A, field: Field, unit: u8) -> Finding
    ensures { result ≡ spec.reached_finding (A.around here.now) field unit field.through }
{
    match field.through {
        Through::Region(region) => in_region(here, field, unit, named(here, region.object)),
        Through::Index { .. } | Through::Bank { .. } => Finding::Nothing,
    }
}

/// The object with a number, if there is such a number.
fn named<A: Around>(here: &A, id: Option<ObjectId>) -> Option<Object>
    ensures { result ≡ spec.named_object (A.around here.now) id }
{
    here.object(id?)
}

/// What is wrong with a field of the region that an object is.
fn in_region<A: Around>(here: &A, field: Field, unit: u8, object: Option<Object>) -> Finding
    ensures { result ≡ spec.in_region_finding (A.around here.now) field unit object }
{
    match object {
        Some(Object::Region(region)) => placed(here, field, unit, region),
        _ => Finding::Fault(FieldFault::NoRegion),
    }
}

/// What is wrong with a field of a region: where all else is right, its units need not lie there.
fn placed<A: Around>(here: &A, field: Field, unit: u8, region: Region) -> Finding
    ensures { result ≡ spec.placed_finding (A.around here.now) field unit region }
{
    if !is_known(region.space) {
        return Finding::Fault(FieldFault::Space(region.space));
    }
    match (region.place, region.length) {
        (None, _) => Finding::Fault(FieldFault::Place),
        (Some(_), None) => Finding::Fault(FieldFault::Length),
        (Some(_), Some(length)) => Finding::Units {
            at: field.bit,
            bits: field.bits,
            unit,
            length: here.width().wrapped(length),
        },
    }
}

/// Whether the regions of a space can be accessed.
fn is_known(space: u64) -> bool
    ensures { result ≡ is_known_space space }
{
    space <= 3 || space == 5
}

/// A fault that is told of a field is why it cannot be read and written.
pub fn faults_are_reasons()
    ensures { FaultsAreReasons }
{}
