// Folders among the files of a command.

ghost use Rattle.std.specs.Prelude.{◌≡◌, ◌++◌, ◌<◌, ℕ, List, IfOk, false, length, map, string_bytes, vec_items};
ghost use Rattle.acpi_words.specs.Folders.{HasFolders, StandsFor, takes_value};

use crate::arguments::read_digits;
use std::alloc::AllocError;
use std::rt::Files;
use std::{fs, io};

/// Which files of a folder a command takes.
#[derive(Clone, Copy, Debug, PartialEq, Eq)]
enum Wanted {
    /// Of each table.
    Tables,
    /// Of the DSDT, and of SSDTs.
    Definitions,
}

/// Which table a file is said to have by its name, in the order in which files are taken.
#[derive(Clone, Copy, Debug, PartialEq, Eq, PartialOrd, Ord)]
enum Said {
    Dsdt,
    Ssdt,
    Other,
}

/// A file of a folder, in the order in which it is taken.
#[derive(Debug, Drop, PartialEq, Eq, PartialOrd, Ord)]
struct Taken {
    said: Said,
    /// Of SSDT10 it is 10; 0 where there is none.
    number: u64,
    path: String,
}

/// The words, with the tables' files in place of each folder among the files of the command: for
/// `tables` all of them, for any other command the DSDT and behind it the SSDTs in the order of
/// their numbers. A folder without such files stays as it is.
pub fn with_folders<R: Files + Eprint + AllocGlobal + Clone + Drop>(
    rt: &R,
    words: Vec<String>,
) -> Result<Vec<String>, AllocError>
    ensures { IfOk result (λ all. HasFolders false (map string_bytes (vec_items words))
        (map string_bytes (vec_items all))) }
{
    let wanted = match words.first() {
        Some(command) if command.as_str() == "tables" => Wanted::Tables,
        _ => Wanted::Definitions,
    };
    let mut all = Vec::new(rt.alloc());
    let mut may_be_file = false;
    for word in words {
        let next_may_be = !takes_value(word.as_str());
        push_word(rt, &mut all, word, may_be_file, wanted)?;
        may_be_file = next_may_be;
    }
    Ok(all)
}

/// Whether a word is an option whose next word is a value.
fn takes_value(word: &str) -> bool
    ensures { result ≡ takes_value word.now }
{
    word == "--method"
        || word == "--plain"
        || word == "--args"
        || word == "--regs"
        || word == "--kinds"
        || word == "--osi"
        || word == "--object"
        || word == "--madt"
}

/// Adds a word, or the files of the folder that it names, where it may name one.
fn push_word<R: Files + Eprint + AllocGlobal + Clone + Drop>(
    rt: &R,
    words: &mut Vec<String>,
    word: String,
    may_be_file: bool,
    wanted: Wanted,
) -> Result<(), AllocError>
    ensures { let before = map string_bytes words.old.items in
        let after = map string_bytes words.new.items in
        IfOk result (λ _. (added : List (List ℕ)) × (after ≡ before ++ added)
        × StandsFor may_be_file (string_bytes word) added) }
{
    if !may_be_file || word.starts_with('-') || !is_folder(rt, word.as_str()) {
        words.push(word)?;
        return Ok(());
    }
    push_files(rt, words, word, wanted)
}

fn is_folder<R: Files>(rt: &R, name: &str) -> bool {
    match fs::metadata(rt, name) {
        Ok(metadata) => metadata.is_dir(),
        Err(_) => false,
    }
}

/// Whether a name may be that of a file: also where the system does not tell, so that the command
/// reads it, and ends where it cannot.
fn may_be_file<R: Files>(rt: &R, name: &str) -> bool {
    match fs::metadata(rt, name) {
        Ok(metadata) => metadata.is_file(),
        Err(_) => true,
    }
}

/// What is told of an entry of a folder that is not taken.
fn passed_over<R: Files>(rt: &R, path: &str) -> &'static str {
    if is_folder(rt, path) {
        ": a folder, not entered"
    } else {
        ": no table's file, passed over"
    }
}

/// Adds the files of a folder that are taken; where none is, the folder's name.
fn push_files<R: Files + Eprint + AllocGlobal + Clone + Drop>(
    rt: &R,
    words: &mut Vec<String>,
    folder: String,
    wanted: Wanted,
) -> Result<(), AllocError>
    ensures { let before = map string_bytes words.old.items in
        let after = map string_bytes words.new.items in
        IfOk result (λ _. (added : List (List ℕ)) × (after ≡ before ++ added)
        × (0 < length added)) }
{
    let mut taken = files_in(rt, folder.as_str(), wanted)?;
    if taken.is_empty() {
        words.push(folder)?;
        return Ok(());
    }
    taken.sort()?;
    for file in taken {
        words.push(file.path)?;
    }
    Ok(())
}

/// Tells of a file or a folder on standard error.
fn tell<R: Eprint>(rt: &R, name: &str, what: &str) {
    let _ = rt.eprint("acpicheck: ");
    let _ = rt.eprint(name);
    let _ = rt.eprintln(what);
}

/// What is told of a folder that has no file that the command takes.
fn none_of(wanted: Wanted) -> &'static str {
    match wanted {
        Wanted::Tables => ": no table's file in this folder",
        Wanted::Definitions => ": no file of a DSDT or an SSDT in this folder",
    }
}

/// The files of a folder that are taken, in any order; where none is, standard error tells why.
fn files_in<R: Files + Eprint + AllocGlobal + Clone + Drop>(
    rt: &R,
    folder: &str,
    wanted: Wanted,
) -> Result<Vec<Taken>, AllocError> {
    let mut taken = Vec::new(rt.alloc());
    let entries = match fs::read_dir(rt, folder) {
        Ok(entries) => entries,
        Err(error) => return none_read(rt, folder, &error),
    };
    for entry in entries {
        let entry = match entry {
            Ok(entry) => entry,
            Err(error) => return none_read(rt, folder, &error),
        };
        let path = String::from_str(rt.alloc(), entry.path().as_str())?;
        if let Some(file) = taken_as(rt, entry.file_name(), path, wanted) {
            taken.push(file)?;
        }
    }
    if taken.is_empty() {
        tell(rt, folder, none_of(wanted));
    }
    Ok(taken)
}

/// As what a file of a folder is taken, by its name. Of what is no table's file standard error
/// tells.
fn taken_as<R: Files + Eprint>(rt: &R, name: &str, path: String, wanted: Wanted) -> Option<Taken> {
    match said_by(name) {
        Some((said, number)) if may_be_file(rt, path.as_str()) => {
            let is_wanted = said != Said::Other || wanted == Wanted::Tables;
            is_wanted.then_some(Taken { said, number, path })
        }
        _ => {
            tell(rt, path.as_str(), passed_over(rt, path.as_str()));
            None
        }
    }
}

/// No file of a folder that cannot be read to its end, so that none is judged without the others;
/// standard error tells why.
fn none_read<R: Eprint + AllocGlobal>(
    rt: &R,
    folder: &str,
    error: &io::Error,
) -> Result<Vec<Taken>, AllocError> {
    let _ = rt.eprint("acpicheck: ");
    let _ = rt.eprint(folder);
    let _ = rt.eprint(": ");
    let _ = rt.eprintln(error);
    Ok(Vec::new(rt.alloc()))
}

/// Which table a file of that name is said to have, with its number: the name is a table's
/// signature, and behind it digits, an ending of a table's file, or both, in either case. None
/// where it is no name of a table's file.
fn said_by(name: &str) -> Option<(Said, u64)> {
    let (stem, ending) = name.split_once('.').unwrap_or((name, "dat"));
    let (signature, digits) = stem.split_at_checked(4)?;
    if !is_tables(ending) || !signature.bytes().all(is_of_signature) {
        return None;
    }
    let number = match digits {
        "" => 0,
        _ => read_digits(digits, 10)?,
    };
    if signature.eq_ignore_ascii_case("dsdt") {
        return Some((Said::Dsdt, number));
    }
    if signature.eq_ignore_ascii_case("ssdt") {
        return Some((Said::Ssdt, number));
    }
    Some((Said::Other, number))
}

/// Whether files of tables have such an ending: as `acpidump -b` writes them, or `iasl`.
fn is_tables(ending: &str) -> bool {
    ending.eq_ignore_ascii_case("dat")
        || ending.eq_ignore_ascii_case("aml")
        || ending.eq_ignore_ascii_case("bin")
}

/// Whether such a byte stands in signatures.
fn is_of_signature(byte: u8) -> bool {
    byte.is_ascii_alphanumeric() || byte == b'_' || byte == b'!'
}
