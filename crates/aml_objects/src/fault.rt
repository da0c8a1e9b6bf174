// Why tables cannot be loaded.

ghost use Rattle.aml_objects.specs.Causes.{load_cause_text};
ghost use Rattle.std.specs.Prelude.{◌≡◌};
ghost use Rattle.aml_objects.specs.declared.fault.LoadFault.TheVariants.{NoMemory};
ghost use Rattle.aml_objects.specs.Fault.{load_refusal, table_refusal, tree_fault};

use acpi_tables::{TableCause, TableFault};
use aml_tree::{TreeCause, TreeFault};
use std::alloc::{AllocError, AllocFailed};
use std::fmt;
use thiserror::Error;

/// What is wrong with a table or with its definitions.
#[derive(Clone, Copy, Debug, PartialEq, Eq)]
pub enum LoadCause {
    /// The table, E101 to E104; its place is that of the field at fault, or the table's end.
    Table(TableCause),
    /// The bytes of its module, E201 to E209; its place is that of the byte at fault, or the
    /// table's end.
    Tree(TreeCause),
    /// A second definition of a path; its place is that of the defined name.
    Duplicate,
    /// A defined name whose parent is no scope that is there, or a Scope whose name opens none; its
    /// place is that of the name.
    ScopeMissing,
    /// A path more than 65,535, predefined ones counted; its place is that of the defined name.
    TooMany,
    /// An alias of nothing that is defined already; its place is that of the source's name.
    AliasMissing,
}

impl LoadCause {
    /// The number and the name of what is wrong, as they are printed.
    pub fn text(self) -> &'static str
        ensures { result.now ≡ load_cause_text self }
    {
        match self {
            LoadCause::Table(table) => table.text(),
            LoadCause::Tree(tree) => tree.text(),
            LoadCause::Duplicate => "E301 Duplicate",
            LoadCause::ScopeMissing => "E302 ScopeMissing",
            LoadCause::TooMany => "E303 TooMany",
            LoadCause::AliasMissing => "E304 AliasMissing",
        }
    }
}

impl fmt::Display for LoadCause {
    fn fmt<W: fmt::Write>(&self, f: &mut fmt::Formatter<W>) -> fmt::Result {
        f.write_str(self.text())
    }
}

impl std::error::Error for LoadCause {}

/// A refusal to load: what is wrong, in which table and at which byte.
#[derive(Clone, Copy, Debug, PartialEq, Eq, Error)]
#[error("{cause} {table} {at}")]
pub struct LoadRefusal {
    pub cause: LoadCause,
    /// The number of the table in the order of loading, from 0.
    pub table: usize,
    /// The byte, counted from the table's first, of at most the table's number of bytes.
    pub at: usize,
}

/// Why there is no namespace: want of memory, which has no place, or a refusal, which has one.
#[derive(Clone, Copy, Debug, PartialEq, Eq, Error)]
pub enum LoadFault {
    /// An allocation failed; the load may be tried again.
    #[error("E524 NoMemory")]
    NoMemory,
    /// The first fault.
    #[error(transparent)]
    Refused(LoadRefusal),
}

/// A refusal in the table with a number.
pub(crate) fn refuse(cause: LoadCause, table: usize, at: usize) -> LoadFault
    ensures { result ≡ LoadFault.Refused (load_refusal cause table at) }
{
    LoadFault::Refused(LoadRefusal { cause, table, at })
}

/// A table's own fault, in the table with a number.
pub fn table_fault(table: usize, fault: TableFault) -> LoadFault
    ensures { result ≡ LoadFault.Refused (table_refusal table fault) }
{
    refuse(LoadCause::Table(fault.cause), table, fault.at)
}

/// A module's fault, in the table with a number.
pub fn tree_fault(table: usize, fault: TreeFault) -> LoadFault
    ensures { result ≡ tree_fault table fault }
{
    match fault {
        TreeFault::NoMemory => LoadFault::NoMemory,
        TreeFault::Refused(refusal) => refuse(LoadCause::Tree(refusal.cause), table, refusal.at),
    }
}

impl From<AllocError> for LoadFault {
    ghost from_gives = { λ _ fault. fault ≡ NoMemory };

    fn from(_error: AllocError) -> LoadFault {
        LoadFault::NoMemory
    }
}

impl<T: Drop> From<AllocFailed<T>> for LoadFault {
    ghost from_gives = { λ _ fault. fault ≡ NoMemory };

    fn from(_error: AllocFailed<T>) -> LoadFault {
        LoadFault::NoMemory
    }
}
