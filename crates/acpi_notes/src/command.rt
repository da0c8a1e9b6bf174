// What is told of the words of a command and of the texts that they name.

ghost use Rattle.std.specs.Prelude.{◌≡◌, IfOk, string_bytes};
ghost use Rattle.acpi_notes.specs.Command.{argument_note, count_note, greatest_note, line_note, registers_note, signatures_note};

use std::alloc::{AllocError, Global};

/// Of an element of `--args` that is no value: its number, from 0, and its text.
#[tactic(auto, unfolding(crate::specs::Command::argument_note))]
pub fn argument_note(alloc: Global, number: usize, text: &str) -> Result<String, AllocError>
    ensures { IfOk result (λ note. string_bytes note ≡ argument_note number text.now) }
{
    format!(in alloc;
        "element {number} of --args is '{text}', and a number below 2^64 as 41 or 0x29, buf:00a5, str:TEXT or pkg is wanted"
    )
}

/// Of a number of arguments that is not the method's.
#[tactic(auto, unfolding(crate::specs::Command::count_note))]
pub fn count_note(alloc: Global, path: &str, wanted: u8, given: usize) -> Result<String, AllocError>
    ensures { IfOk result (λ note. string_bytes note ≡ count_note path.now wanted given) }
{
    format!(in alloc; "{path}: --args lists {given} arguments, and the method takes {wanted}")
}

/// Of an argument above the greatest integer of the tables.
#[tactic(auto, unfolding(crate::specs::Command::greatest_note))]
pub fn greatest_note(
    alloc: Global,
    number: usize,
    given: u64,
    greatest: u64,
) -> Result<String, AllocError>
    ensures { IfOk result (λ note. string_bytes note ≡ greatest_note number given greatest) }
{
    format!(in alloc;
        "element {number} of --args is {given}, and the greatest integer of the tables is {greatest}"
    )
}

/// Of a line of the text of `--regs` that sets no registers: its number, from 1.
#[tactic(auto, unfolding(crate::specs::Command::registers_note))]
pub fn registers_note(alloc: Global, label: &str, line: usize) -> Result<String, AllocError>
    ensures { IfOk result (λ note. string_bytes note ≡ registers_note label.now line) }
{
    format!(in alloc;
        "{label}: line {line} is not SPACE ADDRESS BYTES, as io 60 1527: mem, io, pci, ec or cmos, hex without prefix, two digits a byte, one space between and nothing behind, no CR either, and no byte past 2^64 - 1"
    )
}

/// Of a line of the text of `--kinds` that is no signature, or has the path of a line before it:
/// its number, from 1.
#[tactic(auto, unfolding(crate::specs::Command::signatures_note))]
pub fn signatures_note(alloc: Global, label: &str, line: usize) -> Result<String, AllocError>
    ensures { IfOk result (λ note. string_bytes note ≡ signatures_note label.now line) }
{
    format!(in alloc;
        "{label}: line {line} is not PATH KINDS, as \\_SB_.EC0_.WRIT int:15 buf:32, or has a path for the second time: int, int:MAX, buf:N, str:N or pkg, decimal below 2^64, one space between and nothing behind, no CR either"
    )
}

/// Of a line of standard input that is no file: its number, from 0 behind the words.
#[tactic(auto, unfolding(crate::specs::Command::line_note))]
pub fn line_note(alloc: Global, number: usize) -> Result<String, AllocError>
    ensures { IfOk result (λ note. string_bytes note ≡ line_note number) }
{
    format!(in alloc;
        "line {number} of standard input, from 0 behind the words: hex text is wanted there, two digits a byte"
    )
}
