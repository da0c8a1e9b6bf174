//! Evaluations that meet no error and have their steps, whatever is answered that fits: laws over
//! the definitions of `aml_meaning` alone, and that a verdict of `aml_judged` gives such an
//! evaluation (ACPI 6.5, 5.5.2 and 19.6).
//!
//! An evaluator of what a verifier accepted asks for `Fine` of what it is to evaluate, and finds
//! it again for each part, turn and call of it: so it tests neither for errors nor for steps.
//! `specs/Fine` says what is fine, `specs/Laws` what that lends; nothing of it knows of kinds or
//! of how a verdict is found.
#![tactic(auto)]

ghost use Rattle.std.specs.Prelude.{ℕ, List, Option};
ghost use Rattle.aml_values.specs.Values.{Value};
ghost use Rattle.aml_fine.specs.Laws.{AcceptedAreFine, CallsAreFine, FineLends, LoopsAreFine, NarrowAnswersFit, TestsTakeAStep};

/// What is fine has a fine first part, and what follows is fine where the first went on; a step
/// is there, a rule gives a value, and no answer that says what comes of it is an error or want
/// of steps.
pub fn fine_is_lent()
    ensures statements { FineLends (Option Value) (Unit {0}) }
    ensures values { FineLends Value (Option Value) }
    ensures numbers { FineLends ℕ (Unit {0}) }
    ensures arguments { FineLends (List Value) (Option Value) }
    ensures effects { FineLends (Unit {0}) (Option Value) }
{}

/// In a fine loop the test is fine, and behind it the body; behind a turn the loop is fine again,
/// where the test takes a step, as that of each While does.
pub fn loops_are_fine()
    ensures turns { LoopsAreFine }
    ensures tests { TestsTakeAStep }
{}

/// A fine call finds its callee, and is not one method too many; the callee's body is fine in its
/// own frame, and no Break or Continue leaves it.
pub fn calls_are_fine()
    ensures { CallsAreFine }
{}

/// The body of an accepted method is fine in its first frame, with as many steps as its verdict
/// says, and with each script of answers that fit as the verdict asks. Where names hold integers
/// alone, these are all whose answers fit their kinds.
pub fn accepted_are_fine()
    ensures fine { AcceptedAreFine }
    ensures narrow { NarrowAnswersFit }
{}
