// A law of units. The function does nothing: its contract is the law.

ghost use Rattle.aml_regions.specs.Laws.{ReadsWhatWasWritten};

/// A read of a unit gives the value that was written there last.
pub fn reads_what_was_written()
    ensures { ReadsWhatWasWritten }
{}
