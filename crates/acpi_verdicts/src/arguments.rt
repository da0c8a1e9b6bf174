// What people are told of arguments that a method does not take.

ghost use Rattle.std.specs.Prelude.{◌≡◌, IfOk, string_bytes};
ghost use Rattle.acpi_verdicts.specs.Arguments as spec;
ghost use Rattle.aml_objects.specs.Widths.{bits_of};

use crate::findings::kind_text;
use aml_namespace::Width;
use aml_verify::Misfit;
use std::alloc::{AllocError, Global};

/// Of an element of `--args` that is not of the kind that the method takes there: its number, and
/// that kind, as `--kinds` has it.
#[tactic(auto, unfolding(crate::specs::Arguments::misfit_note))]
pub fn misfit_note(alloc: Global, width: Width, misfit: Misfit) -> Result<String, AllocError>
    ensures { IfOk result (λ note. string_bytes note
        ≡ spec.misfit_note (bits_of width) misfit) }
{
    let number = misfit.number;
    let kind = kind_text(alloc, width, misfit.kind)?;
    let kind = kind.as_str();
    format!(in alloc;
        "element {number} of --args is not of the kind {kind}, which the method takes there: see --kinds"
    )
}
