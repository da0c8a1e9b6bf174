// Units behind an index field and a data field (ACPI 6.5, 19.6, IndexField).

ghost use Rattle.aml_regions.specs.Fields.{IsSoundIndexed};
ghost use Rattle.aml_meaning.specs.Fields.{indexed_plan};

use crate::read::read_integer;
use crate::units::{Units, place_of};
use crate::write::write_units;
use aml_paths::NoMemory;
use aml_regions::{FieldLayout, IndexedField, World};

#[tactic(auto, unfolding(aml_meaning::specs::Fields::indexed_plan))]
impl<W: World> Units<W> for IndexedField {
    ghost plan = { indexed_plan };

    ghost ready = { IsSoundIndexed };

    fn layout(&self) -> FieldLayout {
        self.layout
    }

    fn read_unit(&self, world: &mut W, unit: u64, left: &mut u64) -> Result<Option<u64>, NoMemory> {
        let place = place_of(&self.layout, unit);
        if !write_units(world, &self.index_field, &place, left)? {
            return Ok(None);
        }
        read_integer(world, &self.data_field, left)
    }

    fn write_unit(
        &self,
        world: &mut W,
        unit: u64,
        value: u64,
        left: &mut u64,
    ) -> Result<bool, NoMemory> {
        let byte = place_of(&self.layout, unit);
        if !write_units(world, &self.index_field, &byte, left)? {
            return Ok(false);
        }
        write_units(world, &self.data_field, &value, left)
    }
}
