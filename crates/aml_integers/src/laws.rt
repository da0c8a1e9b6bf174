// Laws over the definitions alone.

ghost use Rattle.aml_integers.specs.Laws.{CallsDecide, DoneDecides, IntegersAreOne, MarksDecide, OrderDecides};

/// Of which methods are integer-only, a body asks about those that it calls alone.
pub fn calls_decide()
    ensures { CallsDecide }
{}

/// Which accepted methods are integer-only has one answer, and deciding in call order finds it.
pub fn integers_are_found()
    ensures one { IntegersAreOne }
    ensures found { OrderDecides }
{}

/// Where methods are marked one by one, each behind those that it calls, the marks are right at
/// each step; and when all that are accepted are marked, they are the answer.
pub fn marks_decide()
    ensures steps { MarksDecide }
    ensures done { DoneDecides }
{}
