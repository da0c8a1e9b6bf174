// What people are told of bytes that are no list of resource descriptors.

ghost use Rattle.std.specs.Prelude.{◌≡◌, IfOk, string_bytes};
ghost use Rattle.acpi_resource_text.specs.Notes.{buffer_note, found_text, refusal_note};

use acpi_resources::{ResourceCause, ResourceRefusal};
use std::alloc::{AllocError, Global};

/// Of a buffer of so many bytes, which are no list of resource descriptors, by the path of the
/// object that gives it: the place, and what is wrong there.
pub fn refusal_note(
    alloc: Global,
    path: &str,
    length: usize,
    refusal: ResourceRefusal,
) -> Result<String, AllocError>
    ensures { IfOk result (λ note. string_bytes note ≡ refusal_note path.now length refusal) }
{
    buffer_note(alloc, path, length, refusal.at, found_text(refusal.cause))
}

// Of such a buffer, what is wrong at a byte.
#[tactic(auto, unfolding(crate::specs::Notes::buffer_note))]
fn buffer_note(
    alloc: Global,
    path: &str,
    length: usize,
    at: usize,
    found: &str,
) -> Result<String, AllocError>
    ensures { IfOk result (λ note. string_bytes note ≡ buffer_note path.now length at found.now) }
{
    format!(in alloc; "{path} gives a buffer of {length} bytes: at byte {at} {found}")
}

// What is wrong at that byte.
fn found_text(cause: ResourceCause) -> &'static str
    ensures { result.now ≡ found_text cause }
{
    match cause {
        ResourceCause::Truncated => "begins a descriptor that goes beyond them",
        ResourceCause::BadItem => {
            "begins a descriptor of a length that it cannot have, or that holds fewer interrupts than it lists"
        }
        ResourceCause::NoEnd => "they end without an end tag",
    }
}
