// One access of one unit.

/// One access of one unit of an address space (ACPI 6.5, 5.5.2.4).
#[derive(Clone, Copy, Debug, PartialEq, Eq)]
pub struct Access {
    /// The address space, by its number in an OperationRegion.
    pub space: u8,
    /// The place of the unit's first byte in its space.
    pub address: u64,
    /// The unit's width in bits: 8, 16, 32 or 64.
    pub width: u8,
}
