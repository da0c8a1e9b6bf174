// The methods that tables declare as others' (ACPI 6.5, 19.6.46, External).

use aml_paths::NamePlace;

/// A method that a table declares as another's.
#[derive(Clone, Copy, Debug)]
pub struct External {
    /// Its name.
    pub name: NamePlace,
    /// The number of its arguments.
    pub args: u8,
}
