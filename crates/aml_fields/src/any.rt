// Fields, however their units are reached.

ghost use Rattle.aml_regions.specs.Fields.{IsSoundField};
ghost use Rattle.aml_meaning.specs.Fields.{plan_of};

use crate::units::Units;
use aml_paths::NoMemory;
use aml_regions::{AnyField, FieldLayout, World};

#[tactic(auto, unfolding(aml_meaning::specs::Fields::plan_of, aml_meaning::specs::Fields::region_plan, aml_meaning::specs::Fields::banked_plan, aml_meaning::specs::Fields::indexed_plan))]
impl<W: World> Units<W> for AnyField {
    ghost plan = { plan_of };

    ghost ready = { IsSoundField };

    fn layout(&self) -> FieldLayout {
        AnyField::layout(self)
    }

    fn read_unit(&self, world: &mut W, unit: u64, left: &mut u64) -> Result<Option<u64>, NoMemory> {
        match self {
            AnyField::Plain(field) => field.read_unit(world, unit, left),
            AnyField::Banked(field) => field.read_unit(world, unit, left),
            AnyField::Indexed(field) => field.read_unit(world, unit, left),
        }
    }

    fn write_unit(
        &self,
        world: &mut W,
        unit: u64,
        value: u64,
        left: &mut u64,
    ) -> Result<bool, NoMemory> {
        match self {
            AnyField::Plain(field) => field.write_unit(world, unit, value, left),
            AnyField::Banked(field) => field.write_unit(world, unit, value, left),
            AnyField::Indexed(field) => field.write_unit(world, unit, value, left),
        }
    }
}
