// What ends a command with a fault line.

ghost use Rattle.std.specs.Prelude.{◌≡◌};
ghost use Rattle.acpi_sources.specs.Faults.{source_fault, load_fault, fault_status, resource_fault, route_fault, at_byte, cause_text, in_table, nowhere, registers_fault, signatures_fault};
ghost use Rattle.acpi_sources.specs.declared.fault.FaultCause.TheVariants as told;

use crate::source::SourceFault;
use crate::status::Status;
use acpi_resources::{ResourceCause, ResourceFault, RouteCause, RouteFault};
use acpi_tables::{TableCause, TableFault};
use aml_namespace::{LoadCause, LoadFault, LoadRefusal};
use aml_paths::NoMemory;
use aml_regions::RegistersFault;
use aml_signatures::SignatureFault;
use std::alloc::{AllocError, AllocFailed};

/// What ends a command with a fault line: what is wrong, and where.
#[derive(Clone, Copy, Debug, PartialEq, Eq)]
pub struct Fault {
    pub cause: FaultCause,
    pub at: Where,
}

/// What is wrong.
#[derive(Clone, Copy, Debug, PartialEq, Eq)]
pub enum FaultCause {
    /// The words are no command line.
    CommandLine,
    /// A line of the text of `--kinds` that is no signature, or has the path of a line before it.
    BadKinds,
    /// A line of the text of `--regs` that sets no registers.
    BadRegs,
    /// The text of `--args` is no list of arguments.
    BadArgs,
    /// Too many or too few arguments for the method, one above the greatest integer, or one of
    /// another kind than its verdict says.
    ArgsDontFit,
    /// A file or a line of the input that cannot be read.
    File,
    /// No memory.
    NoMemory,
    /// No method has that path, or no object that gives a value.
    NoSuchObject,
    /// What the object gives is no buffer.
    NotBuffer,
    /// What the object gives is no package.
    NotPackage,
    /// A table that cannot be listed.
    Table(TableCause),
    /// A table that cannot be loaded.
    Load(LoadCause),
    /// Bytes that are no list of resource descriptors.
    Resources(ResourceCause),
    /// A `_PRT` that cannot be followed.
    Routes(RouteCause),
}

/// Where it is.
#[derive(Clone, Copy, Debug, PartialEq, Eq)]
pub enum Where {
    /// It has no place.
    Nowhere,
    /// At a byte of the file, or of the table, with that number, both counted from 0.
    Table { table: usize, at: usize },
    /// At the byte with that number, counted from 0.
    Byte(usize),
    /// In the line with that number, counted from 1.
    Line(usize),
    /// In the element of a package with that number, counted from 0.
    Element(usize),
}

impl Fault {
    /// A fault that has no place.
    pub fn nowhere(cause: FaultCause) -> Self
        ensures { result ≡ nowhere cause }
    {
        Fault {
            cause,
            at: Where::Nowhere,
        }
    }

    /// The fault of a table in the file with that number.
    pub fn of_table(file: usize, fault: TableFault) -> Self
        ensures { result ≡ in_table (told.Table fault.cause) file fault.at }
    {
        Fault {
            cause: FaultCause::Table(fault.cause),
            at: Where::Table {
                table: file,
                at: fault.at,
            },
        }
    }

    /// The fault of a table in a file that has no number.
    pub fn of_bytes(fault: TableFault) -> Self
        ensures { result ≡ at_byte (told.Table fault.cause) fault.at }
    {
        Fault {
            cause: FaultCause::Table(fault.cause),
            at: Where::Byte(fault.at),
        }
    }

    /// The fault of a load.
    pub fn of_load(refusal: LoadRefusal) -> Self
        ensures { result ≡ in_table (told.Load refusal.cause) refusal.table refusal.at }
    {
        Fault {
            cause: FaultCause::Load(refusal.cause),
            at: Where::Table {
                table: refusal.table,
                at: refusal.at,
            },
        }
    }

    /// How the program ends.
    pub fn status(self) -> Status
        ensures { result ≡ fault_status self }
    {
        match self.cause {
            FaultCause::CommandLine => Status::NoCommand,
            _ => Status::Fault,
        }
    }
}

impl FaultCause {
    /// The number and the name of what is wrong, as they are printed.
    pub fn text(self) -> &'static str
        ensures { result.now ≡ cause_text self }
    {
        match self {
            FaultCause::NotBuffer => "E421 NotBuffer",
            FaultCause::NotPackage => "E422 NotPackage",
            FaultCause::BadKinds => "E501 BadKinds",
            FaultCause::BadRegs => "E511 BadRegs",
            FaultCause::CommandLine => "E520 CommandLine",
            FaultCause::BadArgs => "E521 BadArgs",
            FaultCause::ArgsDontFit => "E522 ArgsDontFit",
            FaultCause::File => "E523 File",
            FaultCause::NoMemory => "E524 NoMemory",
            FaultCause::NoSuchObject => "E525 NoSuchObject",
            FaultCause::Table(cause) => cause.text(),
            FaultCause::Load(cause) => cause.text(),
            FaultCause::Resources(cause) => cause.text(),
            FaultCause::Routes(cause) => cause.text(),
        }
    }
}

impl From<AllocError> for Fault {
    ghost from_gives = { λ _ f. f ≡ nowhere told.NoMemory };

    fn from(_error: AllocError) -> Fault {
        Fault::nowhere(FaultCause::NoMemory)
    }
}

impl<T: Drop> From<AllocFailed<T>> for Fault {
    ghost from_gives = { λ _ f. f ≡ nowhere told.NoMemory };

    fn from(_error: AllocFailed<T>) -> Fault {
        Fault::nowhere(FaultCause::NoMemory)
    }
}

impl From<NoMemory> for Fault {
    ghost from_gives = { λ _ f. f ≡ nowhere told.NoMemory };

    fn from(_error: NoMemory) -> Fault {
        Fault::nowhere(FaultCause::NoMemory)
    }
}

impl From<SourceFault> for Fault {
    ghost from_gives = { λ e f. f ≡ source_fault e };

    fn from(fault: SourceFault) -> Fault {
        match fault {
            SourceFault::File => Fault::nowhere(FaultCause::File),
            SourceFault::NoMemory => Fault::nowhere(FaultCause::NoMemory),
        }
    }
}

impl From<RegistersFault> for Fault {
    ghost from_gives = { λ e f. f ≡ registers_fault e };

    fn from(fault: RegistersFault) -> Fault {
        match fault {
            RegistersFault::NoMemory => Fault::nowhere(FaultCause::NoMemory),
            RegistersFault::BadRegs { line } => Fault {
                cause: FaultCause::BadRegs,
                at: Where::Line(line),
            },
        }
    }
}

impl From<SignatureFault> for Fault {
    ghost from_gives = { λ e f. f ≡ signatures_fault e };

    fn from(fault: SignatureFault) -> Fault {
        match fault {
            SignatureFault::NoMemory => Fault::nowhere(FaultCause::NoMemory),
            SignatureFault::BadKinds { line } => Fault {
                cause: FaultCause::BadKinds,
                at: Where::Line(line),
            },
        }
    }
}

impl From<LoadFault> for Fault {
    ghost from_gives = { λ e f. f ≡ load_fault e };

    fn from(fault: LoadFault) -> Fault {
        match fault {
            LoadFault::NoMemory => Fault::nowhere(FaultCause::NoMemory),
            LoadFault::Refused(refusal) => Fault::of_load(refusal),
        }
    }
}

impl From<ResourceFault> for Fault {
    ghost from_gives = { λ e f. f ≡ resource_fault e };

    fn from(fault: ResourceFault) -> Fault {
        match fault {
            ResourceFault::NoMemory => Fault::nowhere(FaultCause::NoMemory),
            ResourceFault::Refused(refusal) => Fault {
                cause: FaultCause::Resources(refusal.cause),
                at: Where::Byte(refusal.at),
            },
        }
    }
}

impl From<RouteFault> for Fault {
    ghost from_gives = { λ e f. f ≡ route_fault e };

    fn from(fault: RouteFault) -> Fault {
        match fault {
            RouteFault::NoMemory => Fault::nowhere(FaultCause::NoMemory),
            RouteFault::Refused(refusal) => Fault {
                cause: FaultCause::Routes(refusal.cause),
                at: Where::Element(refusal.element),
            },
        }
    }
}
