// Laws of lists of items. Each function does nothing: its contract is the law.

ghost use Rattle.acpi_resources.specs.Laws.{ItemsAreSpelled, RefusalsAreFirst};

/// Items are read just where their spellings, up to the first end tag, begin the bytes.
pub fn items_are_spelled()
    ensures { ItemsAreSpelled }
{}

/// Bytes are refused just where they spell items before the place of the refusal, none of them an
/// end tag, and go on with what it tells.
pub fn refusals_are_first()
    ensures { RefusalsAreFirst }
{}
