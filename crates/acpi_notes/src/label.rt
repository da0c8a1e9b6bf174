// How a file is called.

ghost use Rattle.std.specs.Prelude.{◌≡◌, IfOk, codes, map, string_bytes};
ghost use Rattle.acpi_notes.specs.Label.{label_of, line_label};

use std::alloc::{AllocError, Global};

/// A file's name; or of `@`, which stands for a line of standard input, the number of the file,
/// from 0.
#[tactic(auto, unfolding(crate::specs::Label::line_label))]
pub fn file_label(alloc: Global, name: &str, number: usize) -> Result<String, AllocError>
    ensures line { name.now ≡ codes "@" →
        IfOk result (λ label. string_bytes label ≡ line_label number) }
    ensures named { (name.now ≡ codes "@" → ⊥) →
        IfOk result (λ label. string_bytes label ≡ name.now) }
{
    if name == "@" {
        return format!(in alloc; "file {number} of standard input");
    }
    String::from_str(alloc, name)
}

/// How the file with a number is called, of files by their names: by its own; or by its number
/// where that is `@`, or none has the number.
pub fn label_of(alloc: Global, names: &[&str], number: usize) -> Result<String, AllocError>
    ensures { IfOk result (λ label. string_bytes label
        ≡ label_of (map (λ name. name.now) names.now) number) }
{
    match names.get(number) {
        Some(name) => file_label(alloc, name, number),
        None => format!(in alloc; "file {number}"),
    }
}
