// Whole tables (ACPI 6.5, 5.2.6).

ghost use Rattle.std.specs.Prelude.{◌≡◌, ◌≤◌, ◌+◌, ◌*◌, ◌%◌, length, false};
ghost use Rattle.acpi_tables.specs.Header.{IsTable};
ghost use Rattle.aml_externals.specs.Opened.{kept};
ghost use Rattle.aml_externals.specs.Table.{table_opened, dead_at};

use crate::dead_if::IF;
use crate::open::{SCOPE, is_dead_in, open_list};
use acpi_tables::Header;

/// How many lists of definitions stand one in another, where a definition in the innermost has the
/// greatest depth of a term but one.
const GREATEST_LISTS: u8 = 63;

/// The place of a header's checksum.
const CHECKSUM: usize = 9;

/// How much lower a Scope's opcode is than an If's.
const LOWER: u8 = IF - SCOPE;

/// Makes each dead If of a table's module a Scope of no name, in place: an If whose test is Zero,
/// which holds one External or more and nothing else, and has no Else, in the table's list of
/// definitions or in that of a definition there. Its opcode A0 becomes 10, the test's byte 00 is
/// then the null name, and the checksum at place 9 changes to fit. All other bytes stay, so each
/// External keeps its place.
///
/// Answers how many there were. A table with a fault of its header stays as it is. In a list, what
/// stands behind the first thing that is no definition stays as it is.
pub fn open_dead_externals(table: &mut [u8]) -> usize
    ensures opened { IsTable table.old → (table.new, result) ≡ table_opened table.old }
    ensures left { (IsTable table.old → ⊥) → (table.new, result) ≡ kept table.old }
    ensures few { result ≤ length table.old }
{
    if Header::read(table).is_err() {
        return 0;
    }
    open_module(table)
}

fn open_module(table: &mut [u8]) -> usize
    requires { 36 ≤ length table.old }
    ensures opened { (table.new, result) ≡ table_opened table.old }
    ensures few { result ≤ length table.old }
{
    let count = open_list(&mut table[Header::SIZE..], GREATEST_LISTS);
    table[CHECKSUM] = raised(table[CHECKSUM], count);
    count
}

/// A checksum for so many bytes that are that much lower.
fn raised(checksum: u8, count: usize) -> u8
    ensures { result ≡ (checksum + 0x90 * count) % 256 }
{
    let low = (count % 256) as u32;
    ((checksum as u32 + LOWER as u32 * low) % 256) as u8
}

/// Whether at such a place of a table begins an If that `open_dead_externals` makes a Scope. None
/// does in a table with a fault of its header.
pub fn is_dead_if(table: &[u8], at: usize) -> bool
    ensures here { IsTable table.now → result ≡ dead_at table.now at }
    ensures none { (IsTable table.now → ⊥) → result ≡ false }
{
    match Header::read(table) {
        Err(_) => false,
        Ok(_) => is_dead_at(table, at),
    }
}

#[tactic(auto, unfolding(crate::specs::Table::dead_at))]
fn is_dead_at(table: &[u8], at: usize) -> bool
    requires { 36 ≤ length table.now }
    ensures { result ≡ dead_at table.now at }
{
    Header::SIZE <= at && is_dead_in(&table[Header::SIZE..], at - Header::SIZE, GREATEST_LISTS)
}
