// The values that a method is called with.

ghost use Rattle.std.specs.Prelude.{◌≡◌, ◌++◌, ◌∷◌, [], length, List, map};
ghost use Rattle.aml_values.specs.Values as values;
ghost use Rattle.aml_values.specs.Views.{view};
ghost use Rattle.aml_machine.specs.Arguments.{AreSlotsOf};

use aml_values::Value;

/// The values of a method's arguments, each in its slot, from the first on; behind the last, slots
/// are unset. It takes no memory.
#[derive(Drop)]
pub struct Arguments {
    pub(crate) slots: [Option<Value>; 7],
}

impl Arguments {
    /// None yet.
    pub fn new() -> Self
        ensures { AreSlotsOf result [] }
    {
        Arguments {
            slots: [None, None, None, None, None, None, None],
        }
    }

    /// These; those behind the seventh are not looked at.
    pub fn of(values: Vec<Value>) -> Self
        ensures { AreSlotsOf result (map view values.items) }
    {
        let mut given = values.into_iter();
        Arguments {
            slots: [
                given.next(),
                given.next(),
                given.next(),
                given.next(),
                given.next(),
                given.next(),
                given.next(),
            ],
        }
    }

    /// Puts one more behind so many. One behind the seventh is let go, since no method has a slot
    /// for it.
    pub fn put(&mut self, number: usize, value: Value)
        ensures { (given : List values.Value) → length given ≡ number → AreSlotsOf self.old given →
            AreSlotsOf self.new (given ++ view value ∷ []) }
    {
        if number < self.slots.len() {
            self.slots[number] = Some(value);
        }
    }
}
