// What an evaluation of an accepted method is: the laws.

ghost use Rattle.aml_interp.specs.FromTables.{FromTables};
ghost use Rattle.aml_interp.specs.Headline.{Headline};

/// A method that the verifier accepted, with arguments of its kinds, over names that hold what is
/// of theirs, meets no AML error, whatever is answered, and ends within the steps that its verdict
/// says: `meaning` says so of the definition. What `evaluate` answers is just the definition's
/// outcome, contents of names and events (`exact`), and so it is done (`answer`).
pub fn accepted_methods_are_done()
    ensures { Headline }
{}

/// The same from tables on: what names hold that were loaded from tables is of their kinds, at first
/// and behind each evaluation that is done, and so are arguments that a method takes and what Sleeps
/// leave of the kinds of the names, where what kinds leave open is whole: bytes are bytes, and
/// integers are of the width where anything may stand. So an accepted method meets no AML error,
/// whatever is answered, and ends within its steps.
pub fn tables_begin_well()
    ensures { FromTables }
{}
