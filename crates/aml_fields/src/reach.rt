// The fields of a namespace (ACPI 6.5, 19.6, Field, IndexField and BankField).

ghost use Rattle.std.specs.Prelude.{◌≡◌, IfSome};
ghost use Rattle.aml_namespace.specs.Shows.{shown};
ghost use Rattle.aml_regions.specs.Fields.{IsSoundField};
ghost use Rattle.aml_meaning.specs.Reached.{field_layout, in_region, named, other_bits, plain_field, reached, reached_through, unit_width, usable};

use crate::soundness::{is_known, sound};
use aml_namespace::{AccessType, Field, Namespace, Object, Reference, Through, UpdateRule};
use aml_regions::{
    AnyField, BankedField, FieldLayout, IndexedField, OtherBits, RegionField, UnitWidth,
};

/// The field that a field of a namespace is. None where it cannot be read and written: its access
/// or its update rule is reserved, or it stands behind a connection or an extended access in its
/// list; its region is missing, is no region of the tables' own, or has a computed place or size;
/// its bank value is computed; its index, data or bank field is no field of a region of which all
/// this holds; or it is not sound.
pub fn field_in(namespace: &Namespace<'_>, field: &Field) -> Option<AnyField>
    ensures is { result ≡ usable (shown namespace.now) field.now }
    ensures sound { IfSome result IsSoundField }
{
    let any = reached_in(namespace, field)?;
    if sound(&any) { Some(any) } else { None }
}

// How its units are reached.
fn reached_in(namespace: &Namespace<'_>, field: &Field) -> Option<AnyField>
    ensures { result ≡ reached (shown namespace.now) field.now }
{
    through_in(namespace, &field.through, layout_in(field)?)
}

fn through_in(namespace: &Namespace<'_>, through: &Through, layout: FieldLayout) -> Option<AnyField>
    ensures { result ≡ reached_through (shown namespace.now) through.now layout }
{
    match through {
        Through::Region(region) => { Some(AnyField::Plain(region_in(namespace, layout, region)?)) }
        Through::Index { index, data } => Some(AnyField::Indexed(IndexedField {
            layout,
            index_field: plain_in(namespace, index)?,
            data_field: plain_in(namespace, data)?,
        })),
        Through::Bank {
            region,
            bank,
            value,
        } => Some(AnyField::Banked(BankedField {
            field: region_in(namespace, layout, region)?,
            bank: plain_in(namespace, bank)?,
            value: namespace.width().wrapped((*value)?),
        })),
    }
}

// The object that a name means.
fn object_in(namespace: &Namespace<'_>, reference: &Reference) -> Option<Object>
    ensures { result ≡ named (shown namespace.now) reference.now }
{
    namespace.object(reference.object?)
}

// An index, data or bank field: a field of a region.
fn plain_in(namespace: &Namespace<'_>, reference: &Reference) -> Option<RegionField>
    ensures { result ≡
        plain_field (shown namespace.now) (named (shown namespace.now) reference.now) }
{
    let Some(Object::Field(field)) = object_in(namespace, reference) else {
        return None;
    };
    let layout = layout_in(&field)?;
    let Through::Region(region) = field.through else {
        return None;
    };
    region_in(namespace, layout, &region)
}

// A field's bits in a region.
fn region_in(
    namespace: &Namespace<'_>,
    layout: FieldLayout,
    reference: &Reference,
) -> Option<RegionField>
    ensures { result ≡
        in_region (shown namespace.now) layout (named (shown namespace.now) reference.now) }
{
    let Some(Object::Region(region)) = object_in(namespace, reference) else {
        return None;
    };
    let place = region.place?;
    let length = region.length?;
    if !is_known(region.space) {
        return None;
    }
    Some(RegionField {
        space: region.space as u8,
        place: namespace.width().wrapped(place),
        length: namespace.width().wrapped(length),
        layout,
    })
}

// Where a field's bits stand.
fn layout_in(field: &Field) -> Option<FieldLayout>
    ensures { result ≡ field_layout field.now }
{
    if field.is_connected {
        return None;
    }
    Some(FieldLayout {
        at: field.bit,
        bits: field.bits,
        width: width_of(field.rule.access)?,
        others: others_of(field.rule.update)?,
    })
}

fn width_of(access: AccessType) -> Option<UnitWidth>
    ensures { result ≡ unit_width access }
{
    match access {
        AccessType::Any | AccessType::Byte => Some(UnitWidth::Byte),
        AccessType::Word => Some(UnitWidth::Word),
        AccessType::DWord => Some(UnitWidth::DWord),
        AccessType::QWord => Some(UnitWidth::QWord),
        AccessType::Other => None,
    }
}

fn others_of(update: UpdateRule) -> Option<OtherBits>
    ensures { result ≡ other_bits update }
{
    match update {
        UpdateRule::Preserve => Some(OtherBits::Preserve),
        UpdateRule::Ones => Some(OtherBits::Ones),
        UpdateRule::Zeros => Some(OtherBits::Zeros),
        UpdateRule::Reserved => None,
    }
}
