// A law over the definitions: the function does nothing, its contract is the law.

ghost use Rattle.acpi_tables.specs.Laws.{StructuresAreFound};

/// The structures that bytes are made of are those that are found from the front on, and cover the
/// bytes; so bytes are made of structures in one way at most.
pub fn structures_are_found()
    ensures { StructuresAreFound }
{}
