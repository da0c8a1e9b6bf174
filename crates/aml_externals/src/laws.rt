// Laws of opening. Each function does nothing: its contract is the law.

ghost use Rattle.aml_externals.specs.Laws.{AgainNothingChanges, DeadIfsAreScopes, EachIsCounted, OpcodesAloneChange, OthersStay, LengthStays, NoneIsFoundAgain, NoneIsLeft, TheyWereIfs, TablesStay};

/// Of a table that is opened just the opcodes of the dead Ifs change, and the checksum.
pub fn opcodes_alone_change()
    ensures changed { OpcodesAloneChange }
    ensures length { LengthStays }
    ensures were_ifs { TheyWereIfs }
    ensures counted { EachIsCounted }
    ensures others { OthersStay }
{}

/// A table that is opened has the length and the sum of a table.
pub fn tables_stay()
    ensures { TablesStay }
{}

/// Opening a table a second time changes nothing: no dead If is left in it.
pub fn opening_is_done_once()
    ensures again { AgainNothingChanges }
    ensures none { NoneIsFoundAgain }
{}

/// By the grammar a dead If's block holds Externals alone, and is a Scope of no name that has just
/// these, at the same places, once its opcode is a Scope's.
pub fn dead_ifs_are_scopes()
    ensures { DeadIfsAreScopes }
{}

/// In a table that is opened no dead If stands before the first fault of its module, by the
/// grammar.
pub fn no_dead_if_is_left()
    ensures { NoneIsLeft }
{}
