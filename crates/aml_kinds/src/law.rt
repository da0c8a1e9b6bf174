// The laws of kinds. Each function does nothing: its contract is the law.

ghost use Rattle.aml_kinds.specs.Laws.{Widens, Commutes, Associates, IsIdempotent};

/// What fits a kind fits each kind that it lies within, where no shape in the first has more
/// elements than a package may have.
pub fn fits_what_it_lies_within()
    ensures { Widens }
{}

/// The order of two kinds makes no difference to their join.
pub fn join_commutes()
    ensures { Commutes }
{}

/// The order in which three kinds are joined makes no difference.
pub fn join_associates()
    ensures { Associates }
{}

/// A kind joined to itself stays.
pub fn join_stays()
    ensures { IsIdempotent }
{}
