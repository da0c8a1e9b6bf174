// The interrupts of link devices, by their numbers.

ghost use Rattle.std.specs.Prelude.{◌≡◌, ℕ, IfOk, slice_index};
ghost use Rattle.std.specs.Ordering.{nat_cmp};
ghost use Rattle.std.specs.Option.{option_map};
ghost use Rattle.std.specs.BTreeMap.{get};
ghost use Rattle.acpi_resources.specs.Interrupts.{crs_of_links, flat, items_of_device, link_interrupt};

use crate::isa_numbers::IsaNumbers;
use crate::item::Item;
use crate::link::link_interrupt;
use crate::route::GlobalInterrupt;
use aml_paths::ObjectId;
use std::alloc::{AllocError, Global};
use std::collections::BTreeMap;

/// The interrupts of link devices, looked up once for each device. It is an ordered map, whose time
/// whoever chooses the links cannot spoil.
#[derive(Drop)]
pub(crate) struct Links {
    interrupts: BTreeMap<usize, Option<GlobalInterrupt>>,
}

impl Links {
    /// The interrupts by these items. Of two pairs of one device the first counts.
    pub(crate) fn of(
        alloc: Global,
        links: &[(ObjectId, Vec<Item>)],
        isa: &IsaNumbers,
    ) -> Result<Links, AllocError>
        ensures { IfOk result (λ kept. (device : ℕ) → get nat_cmp kept.interrupts device
            ≡ option_map (link_interrupt (slice_index isa.now.numbers))
            (items_of_device (crs_of_links links.now) device)) }
    {
        let mut interrupts = BTreeMap::new(alloc);
        let mut left = links.len();
        while 0 < left {
            left -= 1;
            let link = &links[left];
            let interrupt = link_interrupt(&link.1, isa);
            interrupts.insert(link.0.0, interrupt)?;
        }
        Ok(Links { interrupts })
    }

    /// The interrupt of a device; None where it has none, or is not among the links.
    pub(crate) fn interrupt(&self, device: ObjectId) -> Option<GlobalInterrupt>
        ensures { result ≡ flat (get nat_cmp self.now.interrupts device.0) }
    {
        *self.interrupts.get(&device.0)?
    }
}
