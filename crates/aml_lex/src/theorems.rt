// Laws over the definitions. Each function does nothing: its contract is the law.

ghost use Rattle.aml_lex.specs.Bounds.{EndsWithin, EndsWithinIfAny, FaultsWithin, PackageWithin};
ghost use Rattle.aml_lex.specs.Exact.{HasOneFront, IsRead, IsReadIfAny};
ghost use Rattle.aml_lex.specs.Spelling.{SpellsInteger, SpellsName, SpellsPkgLength, SpellsString};
ghost use Rattle.aml_lex.specs.Reading.{integer_data_at, name_string_at, package_end_at, pkg_length_at, string_data_at};

/// Each answer ends behind its place and within the bytes.
pub fn answers_end_within()
    ensures pkg_length { EndsWithin pkg_length_at }
    ensures package_end { PackageWithin package_end_at }
    ensures name_string { EndsWithin name_string_at }
    ensures integer_data { EndsWithinIfAny integer_data_at }
    ensures string_data { EndsWithin string_data_at }
{}

/// Each fault stands within the bytes or at their end.
pub fn faults_stand_within()
    ensures pkg_length { FaultsWithin pkg_length_at }
    ensures package_end { FaultsWithin package_end_at }
    ensures name_string { FaultsWithin name_string_at }
    ensures integer_data { FaultsWithin integer_data_at }
    ensures string_data { FaultsWithin string_data_at }
{}

/// Of one byte list at most one front is a spelling, and of one value.
pub fn spellings_are_unique()
    ensures pkg_length { HasOneFront SpellsPkgLength }
    ensures name_string { HasOneFront SpellsName }
    ensures integer_data { HasOneFront SpellsInteger }
    ensures string_data { HasOneFront SpellsString }
{}

/// Wherever a spelling stands, it is read: with the readers' clauses, an answer Ok is given just
/// there.
pub fn spellings_are_read()
    ensures pkg_length { IsRead SpellsPkgLength pkg_length_at }
    ensures name_string { IsRead SpellsName name_string_at }
    ensures integer_data { IsReadIfAny SpellsInteger integer_data_at }
    ensures string_data { IsRead SpellsString string_data_at }
{}
