// What locals and arguments hold.

ghost use Rattle.std.specs.Prelude.{◌≡◌, map, slice_get, Some};
ghost use Rattle.aml_values.specs.Views.{view};
ghost use Rattle.aml_meaning.specs.Parts.{copy_takes_memory};
ghost use Rattle.aml_meaning.specs.Runs.{content};
ghost use Rattle.aml_machine.specs.Views.{value_of};
ghost use Rattle.aml_scene.specs.Tells.{IsOrWanted, told};

use aml_machine::copied;
use aml_meaning::AmlCause;
use aml_scene::halt::{Halt, Scene, fails};
use aml_values::Value;
use std::alloc::Global;

/// What a local or an argument holds, where it stands. A1 at the term's place where it is unset.
pub fn seen<'a>(
    scene: &Scene<'_>,
    at: usize,
    slots: &'a [Option<Value>],
    k: u8,
) -> Result<&'a Value, Halt>
    ensures { told (λ v. view v.now) result
        ≡ content scene.now.table at (slice_get (map value_of slots.now) k) }
{
    match slots.get(usize::from(k)) {
        Some(Some(value)) => Ok(value),
        _ => Err(fails(AmlCause::Unset, scene, at)),
    }
}

/// A copy of what a local or an argument holds. A1 at the term's place where it is unset.
pub fn held(
    alloc: Global,
    scene: &Scene<'_>,
    at: usize,
    slots: &[Option<Value>],
    k: u8,
) -> Result<Value, Halt>
    ensures { let slot = slice_get (map value_of slots.now) k in
        IsOrWanted (copy_takes_memory slot) (told view result) (content scene.now.table at slot) }
{
    match slots.get(usize::from(k)) {
        Some(Some(value)) => {
            let kept = copied(alloc, value)?;
            Ok(kept)
        }
        _ => Err(fails(AmlCause::Unset, scene, at)),
    }
}
