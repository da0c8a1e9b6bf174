//! That there are verdicts to speak of: laws over the definitions of `aml_judged` and `aml_calls`
//! alone (ACPI 6.5, 5.5.2 and 19.6, Method; verdicts and the limit on chains are the project's
//! own).
//!
//! What is said of verdicts is said of any answer to which methods are accepted, and of any telling
//! of which methods reach which. Here it is shown that both are there, so that nothing of it is
//! said of nothing. `specs/Laws` has the statements.
#![tactic(auto)]

ghost use Rattle.aml_verdict_laws.specs.Laws.{ReachIsTold, VerdictsAreThere};

/// Whatever the methods are, there is an answer to which of them are accepted.
pub fn verdicts_are_there()
    ensures { VerdictsAreThere }
{}

/// Where all that methods call is among some methods, it can be told of any two whether a chain of
/// calls leads from one to the other.
pub fn reach_is_told()
    ensures { ReachIsTold }
{}
