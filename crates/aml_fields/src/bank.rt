// Units behind a bank field (ACPI 6.5, 19.6, BankField).

ghost use Rattle.aml_regions.specs.Fields.{IsSoundBanked};
ghost use Rattle.aml_meaning.specs.Fields.{banked_plan};

use crate::units::Units;
use crate::write::write_units;
use aml_paths::NoMemory;
use aml_regions::{BankedField, FieldLayout, World};

#[tactic(auto, unfolding(aml_meaning::specs::Fields::banked_plan))]
impl<W: World> Units<W> for BankedField {
    ghost plan = { banked_plan };

    ghost ready = { IsSoundBanked };

    fn layout(&self) -> FieldLayout {
        self.field.layout
    }

    fn read_unit(&self, world: &mut W, unit: u64, left: &mut u64) -> Result<Option<u64>, NoMemory> {
        if !write_units(world, &self.bank, &self.value, left)? {
            return Ok(None);
        }
        self.field.read_unit(world, unit, left)
    }

    fn write_unit(
        &self,
        world: &mut W,
        unit: u64,
        value: u64,
        left: &mut u64,
    ) -> Result<bool, NoMemory> {
        let bank = &self.bank;
        if !write_units(world, bank, &self.value, left)? {
            return Ok(false);
        }
        self.field.write_unit(world, unit, value, left)
    }
}
