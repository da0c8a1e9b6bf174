//! What operators make at the top of a method's body.

ghost use Rattle.std.specs.Prelude.{◌≡◌};
ghost use Rattle.aml_meaning.specs.Definitions.{definition};

use aml_namespace::CreatedFieldSize;
use aml_operators::Op;

/// What an operator makes at the top of a method's body.
#[derive(Clone, Copy, Debug, PartialEq, Eq)]
pub enum Definition {
    /// A name that holds a value (ACPI 6.5, 19.6, Name).
    Name,
    /// A field of a buffer, as large as its operator says (19.6, CreateBitField, CreateByteField,
    /// CreateWordField, CreateDWordField, CreateQWordField).
    Field(CreatedFieldSize),
    /// A field of a buffer whose number of bits stands in a term (19.6, CreateField).
    CountedField,
    /// Nothing.
    Nothing,
}

/// What an operator makes at the top of a method's body.
pub fn definition_of(op: Op) -> Definition
    ensures { result ≡ definition op }
{
    match op {
        Op::Name => Definition::Name,
        Op::CreateBitField => Definition::Field(CreatedFieldSize::Bit),
        Op::CreateByteField => Definition::Field(CreatedFieldSize::Byte),
        Op::CreateWordField => Definition::Field(CreatedFieldSize::Word),
        Op::CreateDWordField => Definition::Field(CreatedFieldSize::DWord),
        Op::CreateQWordField => Definition::Field(CreatedFieldSize::QWord),
        Op::CreateField => Definition::CountedField,
        _ => Definition::Nothing,
    }
}
