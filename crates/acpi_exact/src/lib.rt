//! What `eval`, `resources` and `routing` have of accepted methods is just what these mean: laws
//! over what the commands' own contracts say (ACPI 6.5, 5.5.2 and 19.6).
//!
//! `specs/Evals` says it of an outcome and its events, `specs/Givens` of the values that objects
//! give, one after the other.
#![tactic(auto)]

ghost use Rattle.acpi_exact.specs.Evals.{EvalsAreExact};
ghost use Rattle.acpi_exact.specs.Givens.{ResourcesAreExact, RoutesAreExact};

/// What `eval` answers of an accepted method, the outcome and the events until then, is just what
/// the meaning of its body is with as many steps as its verdict says, from what the tables give its
/// names and with the arguments that the text of `--args` lists, where tables are made of bytes:
/// its meaning meets no AML error, of mutexes or other, and does not run out of steps.
pub fn evals_are_exact()
    ensures { EvalsAreExact }
{}

/// What an accepted method gives that `resources` asks, its value or none, is just what the meaning
/// of its body gives with as many steps as its verdict says, from what the tables give its names,
/// where tables are made of bytes.
pub fn resources_are_exact()
    ensures { ResourcesAreExact }
{}

/// And so is what accepted methods give that `routing` asks, of the object with the elements and
/// then of each link device that these name, one after the other, each from what names hold behind
/// the one before.
pub fn routes_are_exact()
    ensures { RoutesAreExact }
{}
