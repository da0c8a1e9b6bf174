// The law of printed paths. The function does nothing: its contract is the law.

ghost use Rattle.aml_paths.specs.Printed.{PrintedIsRead};

/// What is printed of a path prints that path.
pub fn printed_paths_are_read()
    ensures { PrintedIsRead }
{}
