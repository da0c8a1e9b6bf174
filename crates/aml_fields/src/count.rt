// How many events a read or a write of a field has.

ghost use Rattle.std.specs.Prelude.{◌≡◌, ◌<◌, ◌≤◌, ◌+◌, ◌*◌, ◌^◌};
ghost use Rattle.aml_regions.specs.Fields.{IsLaidOut, IsSound, IsSoundField, count, covers, end, first};
ghost use Rattle.aml_meaning.specs.Fields.{all_units_cost, others_cost, plan_of, plan_writes, read_count, region_plan, write_count};

use crate::units::{end_of, first_of};
use aml_regions::{AnyField, FieldLayout, OtherBits, RegionField};

/// How many events one read and one write of a unit have.
#[derive(Clone, Copy)]
struct UnitEvents {
    read: u64,
    write: u64,
}

/// The events of one read of a field: those of a read of each unit that it touches.
#[tactic(auto, using(crate::proofs::Plans::plan_layout), unfolding(aml_meaning::specs::Fields::read_count, aml_meaning::specs::Fields::plan_reads))]
pub fn read_count(field: &AnyField) -> u64
    requires { IsSoundField field.now }
    ensures { result ≡ read_count field.now }
{
    units_of(&field.layout()) * unit_events(field).read
}

/// The events of one write of a field: those of a write of each unit that it touches, and where
/// bits beside the field are kept, of a read before it.
#[tactic(auto, using(crate::proofs::Plans::plan_layout), unfolding(aml_meaning::specs::Fields::write_count, aml_meaning::specs::Fields::plan_writes))]
pub fn write_count(field: &AnyField) -> u64
    requires { IsSoundField field.now }
    ensures { result ≡ write_count field.now }
{
    write_events(&field.layout(), unit_events(field))
}

// The events of one read and one write of a field's unit.
#[tactic(auto, unfolding(aml_meaning::specs::Fields::plan_of, aml_meaning::specs::Fields::region_plan, aml_meaning::specs::Fields::banked_plan, aml_meaning::specs::Fields::indexed_plan, aml_meaning::specs::Fields::plan_reads))]
fn unit_events(field: &AnyField) -> UnitEvents
    requires { IsSoundField field.now }
    ensures read { result.read ≡ (plan_of field.now).read_events }
    ensures write { result.write ≡ (plan_of field.now).write_events }
    ensures few { result.read + result.write ≤ 2 ^ 14 }
{
    match field {
        AnyField::Plain(_) => UnitEvents { read: 1, write: 1 },
        AnyField::Banked(field) => {
            let events = region_writes(&field.bank) + 1;
            UnitEvents {
                read: events,
                write: events,
            }
        }
        AnyField::Indexed(field) => {
            let chosen = region_writes(&field.index_field);
            UnitEvents {
                read: chosen + units_of(&field.data_field.layout),
                write: chosen + region_writes(&field.data_field),
            }
        }
    }
}

// The events of one write of a field of a region.
#[tactic(auto, unfolding(aml_meaning::specs::Fields::region_plan, aml_meaning::specs::Fields::plan_writes))]
fn region_writes(field: &RegionField) -> u64
    requires { IsSound field.now }
    ensures is { result ≡ plan_writes (region_plan field.now) }
    ensures few { result ≤ 4096 }
{
    write_events(&field.layout, UnitEvents { read: 1, write: 1 })
}

// How many units a field touches.
#[tactic(auto, unfolding(aml_regions::specs::Fields::count))]
fn units_of(layout: &FieldLayout) -> u64
    requires { IsLaidOut layout.now }
    ensures is { result ≡ count layout.now }
    ensures few { result ≤ 2048 }
{
    end_of(layout) - first_of(layout)
}

// The events of one write of each unit that a field touches.
fn write_events(layout: &FieldLayout, one: UnitEvents) -> u64
    requires laid_out { IsLaidOut layout.now }
    requires few { one.read + one.write ≤ 2 ^ 14 }
    ensures is { result ≡ all_units_cost layout.now one.read one.write }
    ensures few { result ≤ 2048 * (one.read + one.write) }
{
    let mut events = 0;
    for unit in first_of(layout)..end_of(layout) {
        let whole = is_covered(layout, unit);
        events += others_events(layout.others, whole, one.read) + one.write;
    }
    events
}

// Whether a unit is wholly the field's.
fn is_covered(layout: &FieldLayout, unit: u64) -> bool
    requires laid_out { IsLaidOut layout.now }
    requires low { first layout.now ≤ unit }
    requires high { unit < end layout.now }
    ensures { result ≡ covers layout.now unit }
{
    let width = u64::from(layout.width.bits());
    let start = unit * width;
    layout.at <= start && width <= layout.at + layout.bits - start
}

// The events that the bits of a unit that are not the field's cost.
fn others_events(others: OtherBits, whole: bool, read: u64) -> u64
    ensures { result ≡ others_cost whole others read }
{
    if whole {
        return 0;
    }
    match others {
        OtherBits::Preserve => read,
        OtherBits::Ones | OtherBits::Zeros => 0,
    }
}
