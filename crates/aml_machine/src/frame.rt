// What a running method has of its own.

ghost use Rattle.std.specs.Prelude.{◌≡◌, [], List};
ghost use Rattle.aml_values.specs.Values as values;
ghost use Rattle.aml_meaning.specs.State.{entered};
ghost use Rattle.aml_machine.specs.Arguments.{AreSlotsOf};
ghost use Rattle.aml_machine.specs.Views.{frame_of};

use crate::arguments::Arguments;
use crate::mutexes::Mutexes;
use aml_contents::Names;
use aml_meaning::BufferField;
use aml_values::Value;
use std::alloc::Global;

/// Locals and arguments, unset or with a value, and the names that the method has made so far, by
/// their numbers in order of definition: what each holds, or the field of a buffer that it is; and
/// the mutexes that it holds.
#[derive(Drop)]
pub struct Frame {
    pub locals: [Option<Value>; 8],
    pub args: [Option<Value>; 7],
    pub owns: Names,
    pub fields: Vec<Option<BufferField>>,
    pub mutexes: Mutexes,
}

impl Frame {
    /// A method's frame as it begins, which holds no mutex of these yet, with its arguments.
    pub fn new(alloc: Global, mutexes: Mutexes, arguments: Arguments) -> Self
        requires { mutexes.taken.items ≡ [] }
        ensures { (given : List values.Value) → AreSlotsOf arguments given →
            frame_of result ≡ entered mutexes.watched mutexes.outside given }
    {
        Frame {
            locals: [None, None, None, None, None, None, None, None],
            args: arguments.slots,
            owns: Names::new(alloc),
            fields: Vec::new(alloc),
            mutexes,
        }
    }
}
