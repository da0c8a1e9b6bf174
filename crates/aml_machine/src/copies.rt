// Copies of values.

ghost use Rattle.std.specs.Prelude.{◌≡◌, IfErr, IfOk, true};
ghost use Rattle.aml_meaning.specs.Parts.{takes_memory};
ghost use Rattle.aml_values.specs.Views.{view};

use aml_paths::NoMemory;
use aml_values::{Value, copy};
use std::alloc::Global;

/// A copy of a value, for which memory is wanted only where it is no integer.
pub fn copied(alloc: Global, value: &Value) -> Result<Value, NoMemory>
    ensures copy { IfOk result (λ v. view v ≡ view value.now) }
    ensures spares { IfErr result (λ _. takes_memory (view value.now) ≡ true) }
{
    match value {
        Value::Int(number) => Ok(Value::Int(*number)),
        Value::Buf(_) | Value::Str(_) | Value::Pkg(_) => copy(alloc, value),
    }
}
