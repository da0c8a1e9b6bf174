// What tables say, as it is printed.

ghost use Rattle.acpi_text.specs.Lists.{Lists};
ghost use Rattle.std.specs.List.{flat_map};
ghost use Rattle.acpi_text.specs.Tables.{tables_text, table_text, header_line, pointer_line, address_line, fixed_lines, interrupt_lines};
ghost use Rattle.acpi_text.specs.Structures.{structure_line};
ghost use Rattle.acpi_tables.specs.Xsdt.{listed};
ghost use Rattle.acpi_tables.specs.Madt.{entries};
ghost use Rattle.std.specs.Prelude.{◌++◌};

use crate::items::{Listing, list_items};
use crate::structures::structure_line_of;
use crate::table::Table;
use crate::table_lines;
use crate::writing::{RunFault, put};
use acpi_tables::{Addresses, Entries, Entry, Fadt, Header, Madt, Rsdp, Xsdt};
use std::alloc::Global;
use std::io::Write;
use std::slice;

/// Prints what tables say, one after the other: each its header's line, or `rsdp` or `facs left
/// out` in place of it, and its contents on lines that begin with two spaces.
///
/// At Err the writer holds a beginning of that text.
pub fn list_tables<W: Write>(
    alloc: Global,
    out: &mut W,
    tables: &[Table<'_>],
) -> Result<(), RunFault>
    ensures { Lists result (W.contents out.old) (W.contents out.new) (tables_text tables.now) }
{
    list_items(alloc, out, tables.iter())
}

impl Listing for slice::Iter<'_, Table<'_>> {
    ghost use Rattle.std.specs.Slice.Iter.{iter_rest};
    ghost use Rattle.acpi_text.specs.Items.{lent};

    ghost text = { λ table. table_text table.now };

    ghost left = { λ tables. tables_text (iter_rest tables) };

    ghost begins = { lent table_text };

    fn list<W: Write>(alloc: Global, out: &mut W, table: &Table<'_>) -> Result<(), RunFault>
        ensures { Lists result (W.contents out.old) (W.contents out.new) (table_text table.now) }
    {
        match table {
            Table::Rsdp(rsdp) => list_rsdp(alloc, out, rsdp),
            Table::Facs => put(out, b"facs left out\n"),
            Table::Xsdt(xsdt) => list_xsdt(alloc, out, xsdt),
            Table::Fadt(fadt) => list_fadt(alloc, out, fadt),
            Table::Madt(madt) => list_madt(alloc, out, madt),
            Table::Other(header) => list_header(alloc, out, header),
        }
    }
}

fn list_rsdp<W: Write>(alloc: Global, out: &mut W, rsdp: &Rsdp<'_>) -> Result<(), RunFault>
    ensures { Lists result (W.contents out.old) (W.contents out.new) (pointer_line rsdp.now) }
{
    let line = table_lines::pointer(alloc, rsdp)?;
    put(out, line.as_bytes())
}

fn list_header<W: Write>(alloc: Global, out: &mut W, header: &Header<'_>) -> Result<(), RunFault>
    ensures { Lists result (W.contents out.old) (W.contents out.new) (header_line header.now) }
{
    let line = table_lines::header(alloc, header)?;
    put(out, line.as_bytes())
}

fn list_xsdt<W: Write>(alloc: Global, out: &mut W, xsdt: &Xsdt<'_>) -> Result<(), RunFault>
    ensures { Lists result (W.contents out.old) (W.contents out.new)
        (header_line xsdt.now.header ++ flat_map address_line (listed xsdt.now)) }
{
    list_header(alloc, out, &xsdt.header)?;
    list_items(alloc, out, xsdt.entries())
}

impl Listing for Addresses<'_> {
    ghost use Rattle.acpi_tables.specs.Entries.{addresses_left};
    ghost use Rattle.acpi_text.specs.Items.{shown};

    ghost text = { address_line };

    ghost left = { λ addresses. flat_map address_line (addresses_left addresses) };

    ghost begins = { shown addresses_left address_line };

    fn list<W: Write>(alloc: Global, out: &mut W, address: u64) -> Result<(), RunFault>
        ensures { Lists result (W.contents out.old) (W.contents out.new) (address_line address) }
    {
        let line = table_lines::address(alloc, address)?;
        put(out, line.as_bytes())
    }
}

fn list_fadt<W: Write>(alloc: Global, out: &mut W, fadt: &Fadt<'_>) -> Result<(), RunFault>
    ensures { Lists result (W.contents out.old) (W.contents out.new)
        (header_line fadt.now.header ++ fixed_lines fadt.now) }
{
    list_header(alloc, out, &fadt.header)?;
    list_fixed_fields(alloc, out, fadt)
}

fn list_fixed_fields<W: Write>(alloc: Global, out: &mut W, fadt: &Fadt<'_>) -> Result<(), RunFault>
    ensures { Lists result (W.contents out.old) (W.contents out.new) (fixed_lines fadt.now) }
{
    let fields = table_lines::fixed(alloc, fadt)?;
    put(out, fields.as_bytes())
}

fn list_madt<W: Write>(alloc: Global, out: &mut W, madt: &Madt<'_>) -> Result<(), RunFault>
    ensures { Lists result (W.contents out.old) (W.contents out.new)
        (header_line madt.now.header
        ++ (interrupt_lines madt.now ++ flat_map structure_line (entries madt.now))) }
{
    list_header(alloc, out, &madt.header)?;
    list_interrupt_fields(alloc, out, madt)?;
    list_items(alloc, out, madt.entries())
}

fn list_interrupt_fields<W: Write>(
    alloc: Global,
    out: &mut W,
    madt: &Madt<'_>,
) -> Result<(), RunFault>
    ensures { Lists result (W.contents out.old) (W.contents out.new) (interrupt_lines madt.now) }
{
    let fields = table_lines::interrupts(alloc, madt)?;
    put(out, fields.as_bytes())
}

impl Listing for Entries<'_> {
    ghost use Rattle.acpi_tables.specs.Entries.{entries_left};
    ghost use Rattle.acpi_text.specs.Items.{shown};

    ghost text = { structure_line };

    ghost left = { λ entries. flat_map structure_line (entries_left entries) };

    ghost begins = { shown entries_left structure_line };

    fn list<W: Write>(alloc: Global, out: &mut W, entry: Entry) -> Result<(), RunFault>
        ensures { Lists result (W.contents out.old) (W.contents out.new) (structure_line entry) }
    {
        let line = structure_line_of(alloc, entry)?;
        put(out, line.as_bytes())
    }
}
