//! That the literals of which verdicts speak are those of a namespace, and that what its names hold
//! first is of their kinds: laws over the grammar, what data holds and the definitions of
//! `aml_judged` (ACPI 6.5, 19.6, Buffer, Name, Package and String, and 20.2.3 to 20.2.5; the
//! greatest number of elements is the project's own).
//!
//! What a verdict means is said of methods whose literals hold integers of the width, bytes, and
//! packages of no more elements than they may have, and of names that hold what is of their kinds.
//! Here it is shown that what the grammar ties to bytes is so, and what a load makes of it, so that
//! nothing of it is said of nothing. `specs/Laws` has the statements.
#![tactic(auto)]

ghost use Rattle.aml_judged.specs.Safe.{AreBytes};
ghost use Rattle.aml_namespace.specs.Shows.{bytes_in};
ghost use Rattle.aml_literal_laws.specs.Stands.{DataStands};
ghost use Rattle.aml_literal_laws.specs.Laws.{FirstNamesFit, LeftNamesFit, LiteralsAreSmall, TablesAreBytes};

/// The literals of the methods of a namespace hold integers of the width, bytes, and packages that
/// have not too many elements, where its tables are made of bytes.
pub fn literals_are_small()
    ensures { LiteralsAreSmall }
{}

/// What the data names of a namespace hold before any evaluation is of their kinds: integers of the
/// width, bytes, and packages that have not too many elements, where it was loaded from tables that
/// are made of bytes, with such a text of `_OS_`.
pub fn first_names_fit()
    ensures { FirstNamesFit }
{}

/// And so is what is left in these names later, as by whoever runs at a Sleep, where it is of their
/// kinds, its bytes are bytes, and what stands in elements that the tables leave unset is of the
/// width.
pub fn left_names_fit()
    ensures { LeftNamesFit }
{}

/// The data of each name of such a namespace stands in its table, in the bytes up to its end: what
/// is told of it is what is told of that term, and what the name holds first is made of it.
pub fn data_stands()
    ensures { DataStands }
{}

/// Tables that a program holds are made of bytes, and so are those of each namespace that they load
/// to: the premise of the law.
pub fn tables_are_bytes(tables: &[&[u8]])
    ensures { TablesAreBytes (bytes_in tables.now) }
{
    for bytes in tables {
        are_bytes(bytes);
    }
}

/// What a program holds as bytes are numbers below 256, as a text of `_OS_`.
pub fn are_bytes(bytes: &[u8])
    ensures { AreBytes bytes.now }
{}
