// Answers with places.

ghost use Rattle.aml_direct.specs.Tells.{Did, behind_it, given, itself, nothing};
ghost use Rattle.aml_scene.specs.Stores.{dropped};
ghost use Rattle.aml_scene.specs.Tells.{told};
ghost use Rattle.aml_machine.specs.Views.{value_of};
ghost use Rattle.aml_meaning.specs.Runs.{Runs};

use aml_scene::halt::Halt;
use aml_values::Value;

/// The place behind a term whose value is dropped.
pub fn placed(answer: Result<(Option<Value>, usize), Halt>) -> Result<usize, Halt>
    ensures { (m : _) (stop : _) (s t : _) → Did given behind_it m stop answer s t →
        Did nothing itself (dropped m) stop result s t }
{
    match answer {
        Ok((_, next)) => Ok(next),
        Err(halt) => Err(halt),
    }
}

/// What is answered of a term that ends at a place.
pub fn ended_at(
    answer: Result<Option<Value>, Halt>,
    stop: usize,
) -> Result<(Option<Value>, usize), Halt>
    ensures { (m : _) (s t : _) → Runs (told value_of answer) m s t →
        Did given behind_it m stop result s t }
{
    match answer {
        Ok(value) => Ok((value, stop)),
        Err(halt) => Err(halt),
    }
}
