//! What a verdict is, and what it means: the kind rules with their bound, over the meaning of
//! `aml_meaning` (ACPI 6.5, 5.5.2 and 19.6; kinds, causes and bounds are the project's own).
//!
//! The text to believe stands in `specs/`: `Known` (what is known of a frame), `Judged` (what
//! judging gives), `KindRules` (the kinds of what operators give), `Judge` (a clause an operator,
//! in the order of causes, beside `aml_meaning`'s `Meaning`), `Bodies`, `Verdicts`, `Integers`
//! (which methods evaluate integers alone, and that they want no memory), and in `Safe` and `Laws`
//! what a verdict means. Shapes of loops are those of `aml_bounds`, calls of bodies and lengths of
//! chains those of `aml_calls`.
//! `docs/VERDICTS.md` tells the same in plain words, with the clause for each cause.
#![tactic(auto)]

ghost use Rattle.std.specs.Prelude.{Option};
ghost use Rattle.aml_values.specs.Values.{Value};
ghost use Rattle.aml_judged.specs.Events.{FieldsCost};
ghost use Rattle.aml_judged.specs.Fine.{FineParts};
ghost use Rattle.aml_judged.specs.InPlace.{ExitsAreJoined, PartsAreJoined};
ghost use Rattle.aml_judged.specs.Integers.{IntegersAlone, IntegersWantNone};
ghost use Rattle.aml_judged.specs.Keeps.{TermsKeepLocals};
ghost use Rattle.aml_judged.specs.Laws.{CallsAreSeen, CyclesAreLong, OrderAnswers, VerdictsAreOne, VerdictsMean};
ghost use Rattle.aml_judged.specs.Sums.{CostsAreSums};

/// A method that is accepted meets no error, where its callers hold no mutex above the least level
/// that it takes, and ends within its bound, or a read of it has no answer.
pub fn verdicts_mean()
    ensures { VerdictsMean }
{}

/// Which methods are accepted has one answer, and judging them in call order finds it.
pub fn verdicts_are_found()
    ensures one { VerdictsAreOne }
    ensures found { OrderAnswers }
{}

/// The cost that judging a body carries is the sum over the body, by how often each loop turns and
/// what each name costs; so the bound of an accepted method is that sum.
pub fn costs_are_sums()
    ensures { CostsAreSums }
{}

/// The methods that a body calls, as read from its statements, are all that judging it asks of; and
/// where chains are told rightly, none of them reaches a method from which all chains are short.
pub fn calls_are_seen()
    ensures seen { CallsAreSeen }
    ensures cycles { CyclesAreLong }
{}

/// A local that is no target in a term is kept by it, and a turn is ended early only by a Continue
/// in it, whatever its operators are.
pub fn terms_keep_locals()
    ensures { TermsKeepLocals }
{}

/// A field's read and its write take as many steps as they have events.
pub fn fields_cost()
    ensures { FieldsCost }
{}

/// Exits may be joined and costs added as they come.
pub fn parts_are_joined()
    ensures exits { ExitsAreJoined }
    ensures parts { PartsAreJoined }
{}

/// What is fine has a fine first part, and what follows is fine; a step is there, so steps count
/// down through loops and calls, and an error is never there.
pub fn evaluations_count_down()
    ensures statements { FineParts (Option Value) (Unit {0}) }
    ensures values { FineParts Value (Option Value) }
    ensures effects { FineParts (Unit {0}) (Option Value) }
{}

/// In an integer-only method locals, arguments, names of integers and operands hold integers alone.
pub fn integers_alone()
    ensures { IntegersAlone }
{}

/// An integer-only method wants memory nowhere, where mutexes are not watched.
pub fn integers_want_none()
    ensures { IntegersWantNone }
{}
