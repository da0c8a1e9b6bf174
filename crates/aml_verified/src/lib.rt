//! What it means that a method was accepted: the law of verdicts, said of those that the verifier
//! gives (the rules and the meaning are the project's own; ACPI 6.5, 5.5.2 and 19.6, Method).
//! `specs/Laws` has the statement.
#![tactic(auto)]

ghost use Rattle.aml_verified.specs.Laws.{AcceptedIntegersSpare, AcceptedMethodsRun};

/// A method that the verifier accepts meets no AML error, whatever its arguments, the names and the
/// answers of the world, as long as they fit their kinds; and with as many steps as its verdict
/// says it is done, or a read has no answer.
pub fn accepted_methods_run()
    ensures { AcceptedMethodsRun }
{}

/// The meaning of a method that the verifier accepts wants no memory, where it evaluates integers
/// alone and mutexes are not watched.
pub fn accepted_integers_spare()
    ensures { AcceptedIntegersSpare }
{}
