// Laws of loading, and of what names take. The functions do nothing: their contracts are the laws.

ghost use Rattle.aml_namespace.specs.Laws.{DefinitionsStay, FaultsWithin, LinksCount, PathsDistinct};

/// Each fault of a load names one of the tables that were handed in, by its number, and a place of
/// at most that table's number of bytes.
pub fn faults_stand_within()
    ensures { FaultsWithin }
{}

/// No definition disappears or is replaced when more tables follow.
pub fn definitions_stay()
    ensures { DefinitionsStay }
{}

/// A path has at most one object.
pub fn paths_are_distinct()
    ensures { PathsDistinct }
{}

/// How many terms follow a name of a body that means something is what its link tells: an own name
/// has none, a method as many as its arguments, `_OSI` one, all else none.
pub fn links_count()
    ensures { LinksCount }
{}
