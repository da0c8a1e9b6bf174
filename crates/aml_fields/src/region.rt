// Single accesses of the units of a region.

ghost use Rattle.std.specs.Prelude.{◌≡◌, ◌<◌, Ok, false};
ghost use Rattle.aml_regions.specs.Fields.{IsSound, access, end};
ghost use Rattle.aml_meaning.specs.Fields.{region_plan};

use crate::units::{Units, place_of};
use aml_paths::NoMemory;
use aml_regions::{Access, FieldLayout, RegionField, World};

/// A unit's access.
#[tactic(auto, unfolding(aml_regions::specs::Fields::access))]
fn access_of(field: &RegionField, unit: u64) -> Access
    requires sound { IsSound field.now }
    requires unit { unit < end field.now.layout }
    ensures { result ≡ access field.now unit }
{
    Access {
        space: field.space,
        address: field.place + place_of(&field.layout, unit),
        width: field.layout.width.bits(),
    }
}

#[tactic(auto, unfolding(aml_meaning::specs::Fields::region_plan))]
impl<W: World> Units<W> for RegionField {
    ghost plan = { region_plan };

    ghost ready = { IsSound };

    fn layout(&self) -> FieldLayout {
        self.layout
    }

    fn read_unit(&self, world: &mut W, unit: u64, left: &mut u64) -> Result<Option<u64>, NoMemory> {
        if *left == 0 {
            return Ok(None);
        }
        *left -= 1;
        let answer = world.read(access_of(self, unit))?;
        Ok(Some(answer))
    }

    fn write_unit(
        &self,
        world: &mut W,
        unit: u64,
        value: u64,
        left: &mut u64,
    ) -> Result<bool, NoMemory> {
        if *left == 0 {
            return Ok(false);
        }
        *left -= 1;
        world.write(access_of(self, unit), value)?;
        Ok(true)
    }
}
