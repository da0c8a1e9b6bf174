//! What all evaluations have, by the definitions of `aml_meaning` alone (ACPI 6.5, 5.5.2 and 19.6).
//!
//! What data names hold changes, by stores and at Sleeps; of which kinds that is does not. So what
//! is known of a name's kind before an evaluation holds behind it too. `specs/Steady` has the
//! statements. And an evaluation in which mutexes are not watched goes as one in which they are,
//! where that breaks none of their rules: `specs/Unwatched`. Both follow from what the parts have
//! of which evaluations are made (`proofs/Closed`).
#![tactic(auto)]

ghost use Rattle.aml_steady.specs.Steady.{BodiesKeepKinds, CallsWithinKeepKinds, FramesKeepKinds, ListsKeepKinds, MethodsKeepKinds, RunsKeepKinds, StatementsKeepKinds, StoresKeepKinds, TermsKeepKinds, ValuesKeepKinds};
ghost use Rattle.aml_steady.specs.Unwatched.{MethodsGoUnwatched};

/// Where calls keep the kinds of names, so do a term, its value, the values of arguments, a list of
/// statements and a store, however they end.
pub fn terms_keep_kinds()
    ensures terms { TermsKeepKinds }
    ensures values { ValuesKeepKinds }
    ensures lists { ListsKeepKinds }
    ensures stores { StoresKeepKinds }
{}

/// And so do a statement at the top of a body, a body, a method, and a body in a frame of its own.
pub fn methods_keep_kinds()
    ensures statements { StatementsKeepKinds }
    ensures bodies { BodiesKeepKinds }
    ensures methods { MethodsKeepKinds }
    ensures frames { FramesKeepKinds }
{}

/// Calls do keep them, of any methods, however many more may be active.
pub fn calls_keep_kinds()
    ensures { CallsWithinKeepKinds }
{}

/// What an evaluator answers of a call has the kinds of names as they were, also where memory
/// ended.
pub fn runs_keep_kinds()
    ensures { RunsKeepKinds }
{}

/// A method goes just so where mutexes are not watched, if it breaks none of their rules where they
/// are: of them nothing is kept, and its value or error, names, steps and events are the same.
pub fn methods_go_unwatched()
    ensures { MethodsGoUnwatched }
{}
