// The first line of standard input, whose words are a command, and the files behind it.

ghost use Rattle.std.specs.Prelude.{IfOk, map, vec_items};
ghost use Rattle.std.specs.Prelude.{◌↔◌, IsTrue};
ghost use Rattle.acpi_words.specs.FirstLine.{AreWords, FailsToStart, StartsWith};
ghost use Rattle.acpi_sources.specs.Input.{IsTorn, is_whole};
ghost use Rattle.acpi_sources.specs.Faults.{Tries};

use acpi_sources::{Fault, FaultCause, HexLines, Input, Lines};
use std::alloc::{AllocError, Global};
use std::str;

// The most words of a line.
const MOST_WORDS: usize = 65_536;

/// The words of the first line, and the files on the lines behind it.
///
/// Faults: E523 where there is no first line, or the input failed within it; E520 where it is no
/// text.
pub fn read_first_line<'a>(
    alloc: Global,
    input: &'a Input,
) -> Result<(Vec<&'a str>, HexLines<'a>), Fault>
    ensures { let bytes = vec_items input.now.bytes in
        Tries (λ start. StartsWith bytes (is_whole input.now.end)
        (map (λ word. word.now) (vec_items start.0)) start.1)
        (FailsToStart bytes (is_whole input.now.end)) result }
{
    let mut lines = Lines::new(&input.bytes);
    let Some(first) = lines.next_line() else {
        return Err(Fault::nowhere(FaultCause::File));
    };
    if is_torn(input, first) {
        return Err(Fault::nowhere(FaultCause::File));
    }
    let Ok(text) = str::from_utf8(first) else {
        return Err(Fault::nowhere(FaultCause::CommandLine));
    };
    let words = split_words(alloc, text)?;
    let files = HexLines {
        alloc,
        lines,
        is_whole: input.is_whole(),
    };
    Ok((words, files))
}

// Whether the first line may go on behind what was read.
fn is_torn(input: &Input, first: &[u8]) -> bool
    ensures { IsTrue result ↔
        IsTorn (is_whole input.now.end) first.now (vec_items input.now.bytes) }
{
    !input.is_whole() && first.len() == input.bytes.len()
}

// The words of a line, split at single spaces. A line of spaces alone has a word for each, so the
// last word that there may be takes all that is left.
fn split_words(alloc: Global, line: &str) -> Result<Vec<&str>, AllocError>
    ensures { IfOk result
        (λ words. AreWords 65536 line.now (map (λ word. word.now) (vec_items words))) }
{
    let mut words = Vec::new(alloc);
    let mut rest = line;
    while words.len() + 1 < MOST_WORDS {
        let Some((word, behind)) = rest.split_once(' ') else {
            break;
        };
        words.push(word)?;
        rest = behind;
    }
    words.push(rest)?;
    Ok(words)
}
