// A law over the definitions alone.

ghost use Rattle.aml_methods.specs.Laws.{JudgingsAreThere};

/// Each namespace has a judging of its methods, whatever signatures tell of them; so what is said
/// of all of them is said of one.
pub fn judgings_are_there()
    ensures { JudgingsAreThere }
{}
