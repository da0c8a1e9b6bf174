// Laws of own names. The functions do nothing: their contracts are the laws.

ghost use Rattle.aml_own_names.specs.Laws.{OneCountServes, OwnNamesAreTheGrammars};

/// The own names of a body are just those that take no arguments where it is read.
pub fn own_names_are_the_grammars()
    ensures { OwnNamesAreTheGrammars }
{}

/// One count of what names take serves all statements of a body: none for an own name where it
/// stands.
pub fn one_count_serves()
    ensures { OneCountServes }
{}
