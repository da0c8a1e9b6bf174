// Tables that cannot be loaded.

ghost use Rattle.std.specs.Prelude.{◌≡◌, IfOk, map, string_bytes, vec_items};
ghost use Rattle.acpi_notes.specs.Label.{label_of};
ghost use Rattle.acpi_notes.specs.Load.{BeginsWith, IsLoadNote, bytes_numbered, found_note, too_many_note};

use crate::definitions::{Found, Place, find_again};
use crate::label::label_of;
use crate::table::{WantedTable, table_note};
use crate::tree::{TreePlace, tree_note};
use acpi_tables::TableFault;
use aml_namespace::{LoadCause, LoadRefusal};
use std::alloc::{AllocError, Global};

/// The files of a load, by their names in the order of the words, and what they hold.
#[derive(Clone, Copy, Debug)]
pub struct Files<'a> {
    pub names: &'a [&'a str],
    pub tables: &'a [Vec<u8>],
}

impl Files<'_> {
    /// How the file with a number is called.
    pub fn label(&self, alloc: Global, number: usize) -> Result<String, AllocError>
        ensures { IfOk result (λ label. string_bytes label
            ≡ label_of (map (λ name. name.now) self.now.names.now) number) }
    {
        label_of(alloc, self.names, number)
    }

    fn bytes(&self, number: usize) -> &[u8]
        ensures { result.now ≡ bytes_numbered (map vec_items self.now.tables.now) number }
    {
        match self.tables.get(number) {
            Some(table) => table.as_slice(),
            None => &[],
        }
    }
}

/// Of a load's refusal: the file and place, what was wanted there and what was found; of a path
/// that is defined twice both places, of one that is missing which it is.
pub fn load_note(
    alloc: Global,
    label: &str,
    files: Files<'_>,
    refusal: LoadRefusal,
) -> Result<String, AllocError>
    ensures { IfOk result (λ note. let tables = map vec_items files.entry.tables.now in
        IsLoadNote label.now (bytes_numbered tables refusal.table) refusal.cause refusal.at
        (string_bytes note)) }
{
    let bytes = files.bytes(refusal.table);
    let at = refusal.at;
    match refusal.cause {
        LoadCause::Table(cause) => {
            let fault = TableFault { cause, at };
            table_note(alloc, label, bytes, fault, WantedTable::Definitions)
        }
        LoadCause::Tree(cause) => tree_note(alloc, TreePlace { label, bytes, at }, cause),
        LoadCause::TooMany => too_many_note(alloc, label, at),
        LoadCause::Duplicate | LoadCause::ScopeMissing | LoadCause::AliasMissing => {
            definition_note(alloc, label, files, refusal)
        }
    }
}

#[tactic(auto, unfolding(crate::specs::Load::too_many_note))]
fn too_many_note(alloc: Global, label: &str, at: usize) -> Result<String, AllocError>
    ensures { IfOk result (λ note. string_bytes note ≡ too_many_note label.now at) }
{
    format!(in alloc; "{label}: the definition at byte {at} makes a path more than 65535")
}

fn definition_note(
    alloc: Global,
    label: &str,
    files: Files<'_>,
    refusal: LoadRefusal,
) -> Result<String, AllocError>
    ensures { IfOk result (λ note. BeginsWith label.now (string_bytes note)) }
{
    let refused = Place {
        table: refusal.table,
        at: refusal.at,
    };
    let mut note = String::from_str(alloc, label)?;
    let behind = definition_part(alloc, files, refused, refusal.cause)?;
    note.push_str(behind.as_str())?;
    Ok(note)
}

/// What is wrong with a name that a definition wants.
fn missing_words(cause: LoadCause) -> &'static str {
    match cause {
        LoadCause::AliasMissing => "which nothing before it defines",
        _ => "which nothing before it defines, or which holds no names",
    }
}

/// What stands behind the file, by what is wrong with the definition.
fn definition_part(
    alloc: Global,
    files: Files<'_>,
    refused: Place,
    cause: LoadCause,
) -> Result<String, AllocError> {
    let at = refused.at;
    match find_again(alloc, files.tables, refused)? {
        Some(Found::Twice { path, first }) => match first {
            None => {
                format!(in alloc; ": {path}, defined at byte {at}, is there from the beginning")
            }
            Some(first) => {
                let before = files.label(alloc, first.table)?;
                found_note(alloc, at, path.as_str(), before.as_str(), first)
            }
        },
        Some(Found::Nothing { wanted }) => missing_part(alloc, at, wanted.as_str(), cause),
        None => format!(in alloc; ": the definition at byte {at}"),
    }
}

/// Of a name whose path is missing, behind the file. The root is there, but no definition makes it.
fn missing_part(
    alloc: Global,
    at: usize,
    wanted: &str,
    cause: LoadCause,
) -> Result<String, AllocError> {
    if cause == LoadCause::ScopeMissing && wanted == "\\" {
        return format!(in alloc;
            ": the name at byte {at} is the root's, which no definition makes"
        );
    }
    let missing = missing_words(cause);
    format!(in alloc; ": the name at byte {at} wants {wanted}, {missing}")
}

/// Of a path that is defined twice, behind the file: both places.
#[tactic(auto, unfolding(crate::specs::Load::found_note))]
fn found_note(
    alloc: Global,
    at: usize,
    path: &str,
    before: &str,
    first: Place,
) -> Result<String, AllocError>
    ensures { IfOk result (λ note. string_bytes note
        ≡ found_note at path.now before.now first.at) }
{
    let place = first.at;
    format!(in alloc;
        ": {path}, defined at byte {at}, is already defined at byte {place} of {before}"
    )
}
