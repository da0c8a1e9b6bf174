// Loading tables, one behind the other (ACPI 6.5, 5.2.11 and 5.3).

ghost use Rattle.std.specs.Prelude.{◌≡◌, ◌<◌, length, map};
ghost use Rattle.aml_objects.specs.Kept.{entries_seen};
ghost use Rattle.aml_namespace.specs.Load.{signature_of};
ghost use Rattle.aml_namespace.specs.Loads.{DeclaresTable, LoadsAll, LoadsTable};

use crate::define::define_all;
use acpi_tables::read_table;
use aml_arities::External;
use aml_objects::{Here, LoadFault, Objects, table_fault, tree_fault};
use aml_paths::ROOT;
use aml_tree::read_module;
use std::alloc::Global;

/// The signature of the table with a number.
fn signature_of(table: usize) -> &'static [u8; 4]
    ensures { result.now ≡ signature_of table }
{
    match table {
        0 => b"DSDT",
        _ => b"SSDT",
    }
}

/// Loads the table with a number behind those before it, and answers its revision.
#[tactic(auto, using(crate::proofs::Modules::module_terms))]
fn load_table(
    alloc: Global,
    table: usize,
    bytes: &[u8],
    objects: &mut Objects,
    externals: &mut Vec<External>,
) -> Result<u8, LoadFault>
    ensures loads { LoadsTable table bytes.now (entries_seen objects.old)
        (entries_seen objects.new) result }
    ensures declares { let before = entries_seen objects.old in
        let after = entries_seen objects.new in
        DeclaresTable table bytes.now before after externals.old.items externals.new.items result }
{
    let header = match read_table(bytes, signature_of(table)) {
        Ok(header) => header,
        Err(fault) => return Err(table_fault(table, fault)),
    };
    let terms = match read_module(alloc, bytes) {
        Ok(terms) => terms,
        Err(fault) => return Err(tree_fault(table, fault)),
    };
    let here = Here {
        table,
        bytes,
        scope: ROOT,
    };
    define_all(here, objects, externals, &terms)?;
    Ok(header.revision)
}

/// What loaded tables tell beside their objects.
#[derive(Drop)]
pub(crate) struct Loaded {
    /// The revision of the first.
    pub revision: u8,
    /// The methods that they declare as others', in the order of the bytes.
    pub externals: Vec<External>,
}

/// Loads tables, one behind the other.
pub(crate) fn load_tables(
    alloc: Global,
    tables: &[&[u8]],
    objects: &mut Objects,
) -> Result<Loaded, LoadFault>
    requires { 0 < length tables.now }
    ensures { let bytes = map (λ t. t.now) tables.now in
        LoadsAll bytes (entries_seen objects.old) (entries_seen objects.new) result }
{
    let mut revision = 0;
    let mut externals = Vec::new(alloc);
    for (number, bytes) in tables.iter().enumerate() {
        let told = match load_table(alloc, number, bytes, objects, &mut externals) {
            Ok(told) => told,
            Err(fault) => return Err(fault),
        };
        if number == 0 {
            revision = told;
        }
    }
    Ok(Loaded {
        revision,
        externals,
    })
}
