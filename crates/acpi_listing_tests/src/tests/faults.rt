// The line of each fault, by what is wrong and where.

use acpi_resources::{ResourceCause, RouteCause};
use acpi_sources::{Fault, FaultCause, Where, list_fault};
use acpi_tables::TableCause;
use aml_namespace::LoadCause;
use std::test::Fail;

const NOWHERE: Where = Where::Nowhere;

const IN_TABLE: Where = Where::Table { table: 1, at: 38 };

const LAST: Where = Where::Table {
    table: 0,
    at: usize::MAX,
};

const LINES: &[(FaultCause, Where, &str)] = &[
    (FaultCause::CommandLine, NOWHERE, "E520 CommandLine"),
    (FaultCause::BadArgs, NOWHERE, "E521 BadArgs"),
    (FaultCause::ArgsDontFit, NOWHERE, "E522 ArgsDontFit"),
    (FaultCause::File, NOWHERE, "E523 File"),
    (FaultCause::NoMemory, NOWHERE, "E524 NoMemory"),
    (FaultCause::NoSuchObject, NOWHERE, "E525 NoSuchObject"),
    (
        FaultCause::Table(TableCause::BadSum),
        IN_TABLE,
        "E103 BadSum 1 38",
    ),
    (
        FaultCause::Load(LoadCause::Table(TableCause::Short)),
        LAST,
        "E101 Short 0 18446744073709551615",
    ),
    (
        FaultCause::Load(LoadCause::Duplicate),
        IN_TABLE,
        "E301 Duplicate 1 38",
    ),
    (FaultCause::BadKinds, Where::Line(2), "E501 BadKinds 2"),
    (
        FaultCause::BadRegs,
        Where::Line(65_536),
        "E511 BadRegs 65536",
    ),
    (
        FaultCause::Resources(ResourceCause::BadItem),
        Where::Byte(65_535),
        "E402 BadItem 65535",
    ),
    (
        FaultCause::Routes(RouteCause::BadEntry),
        Where::Element(0),
        "E411 BadEntry 0",
    ),
    (
        FaultCause::Routes(RouteCause::NoLink),
        Where::Element(17),
        "E412 NoLink 17",
    ),
    (FaultCause::NotBuffer, NOWHERE, "E421 NotBuffer"),
    (FaultCause::NotPackage, NOWHERE, "E422 NotPackage"),
];

#[test]
fn lines_of_faults(rt: HostRuntime) -> Result<(), Fail> {
    let alloc = rt.alloc();
    for (cause, at, line) in LINES {
        let mut out = Vec::new(alloc);
        let fault = Fault {
            cause: *cause,
            at: *at,
        };
        list_fault(alloc, &mut out, fault)?;
        let text = format!(in alloc; "fault {line}\n")?;
        assert_eq!(rt; out.as_slice(), text.as_bytes(), "at {line}");
    }
    Ok(())
}
