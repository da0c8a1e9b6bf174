// The fields of a field list (ACPI 6.5, 19.6, Field, and 20.2.5.2).

ghost use Rattle.std.specs.Prelude.{◌≡◌, length};
ghost use Rattle.aml_operators.specs.declared.row.Code.TheVariants as code;
ghost use Rattle.aml_operators.specs.Shape.{IsShaped};
ghost use Rattle.aml_operators.specs.Tree.{view, views};
ghost use Rattle.aml_namespace.specs.FieldLists.{access_of, behind, behind_access, behind_bits, behind_field, connected, field_in, field_of, list_start, moved, rule_of, update_of, with_access};

use aml_objects::{AccessType, Field, FieldRule, Through, UpdateRule};
use aml_operators::{Op, Term, number_in, two};

/// What a field list has said so far, up to one of its items.
#[derive(Clone, Copy, Debug)]
pub(crate) struct Cursor {
    /// The number of bits before the item.
    bit: u64,
    rule: FieldRule,
    /// Whether a connection or an extended access stands before it.
    is_connected: bool,
}

/// Bits 3:0 of a field list's flags, or of an access type.
fn access_of(number: u64) -> AccessType
    ensures { result ≡ access_of number }
{
    match number % 16 {
        0 => AccessType::Any,
        1 => AccessType::Byte,
        2 => AccessType::Word,
        3 => AccessType::DWord,
        4 => AccessType::QWord,
        _ => AccessType::Other,
    }
}

/// Bits 6:5 of a field list's flags.
fn update_of(flags: u64) -> UpdateRule
    ensures { result ≡ update_of flags }
{
    match flags / 32 % 4 {
        0 => UpdateRule::Preserve,
        1 => UpdateRule::Ones,
        2 => UpdateRule::Zeros,
        _ => UpdateRule::Reserved,
    }
}

/// How the fields of a list are read and written, by its flags.
fn rule_of(flags: u64) -> FieldRule
    ensures { result ≡ rule_of flags }
{
    FieldRule {
        access: access_of(flags),
        lock: flags / 16 % 2 == 1,
        update: update_of(flags),
    }
}

impl Cursor {
    /// The beginning of a field list, by its flags.
    pub(crate) fn at_start(flags: u64) -> Cursor
        ensures { result ≡ list_start flags }
    {
        Cursor {
            bit: 0,
            rule: rule_of(flags),
            is_connected: false,
        }
    }

    /// So many bits on.
    fn moved(self, bits: u64) -> Cursor
        ensures { result ≡ moved self bits }
    {
        Cursor {
            bit: self.bit.saturating_add(bits),
            ..self
        }
    }

    /// With another access type.
    fn with_access(self, access: u64) -> Cursor
        ensures { result ≡ with_access self access }
    {
        Cursor {
            rule: FieldRule {
                access: access_of(access),
                ..self.rule
            },
            ..self
        }
    }

    /// Behind a connection or an extended access.
    fn connected(self) -> Cursor
        ensures { result ≡ connected self }
    {
        Cursor {
            is_connected: true,
            ..self
        }
    }

    /// Behind a field.
    fn behind_field(self, parts: &[Term]) -> Cursor
        requires { length parts.now ≡ 2 }
        ensures { result ≡ behind_field self (views parts.now) }
    {
        let (_, bits) = two(parts);
        self.moved(number_in(bits))
    }

    /// Behind bits that are skipped.
    fn behind_bits(self, parts: &[Term]) -> Cursor
        ensures { result ≡ behind_bits self (views parts.now) }
    {
        match parts {
            [bits, ..] => self.moved(number_in(bits)),
            [] => self,
        }
    }

    /// Behind another access type.
    fn behind_access(self, parts: &[Term]) -> Cursor
        ensures { result ≡ behind_access self (views parts.now) }
    {
        match parts {
            [access, ..] => self.with_access(number_in(access)),
            [] => self,
        }
    }

    /// Behind an item.
    #[tactic(auto, using(aml_operators::proofs::Views::view_out, aml_operators::proofs::PartsOf::part_count))]
    pub(crate) fn behind(self, item: &Term) -> Cursor
        requires { IsShaped code.Module (view item.now) }
        ensures { result ≡ behind self (view item.now) }
    {
        match item.op {
            Op::NamedField => self.behind_field(&item.parts),
            Op::ReservedField => self.behind_bits(&item.parts),
            Op::AccessField => self.behind_access(&item.parts),
            Op::ExtendedAccessField => self.behind_access(&item.parts).connected(),
            Op::ConnectField => self.connected(),
            _ => self,
        }
    }

    /// The field that an item with these parts makes, with the place of its name.
    #[tactic(auto, using(aml_operators::proofs::Views::view_out, aml_operators::proofs::PartsOf::part_count))]
    fn field_in(self, through: Through, parts: &[Term]) -> Option<(usize, Field)>
        requires { length parts.now ≡ 2 }
        ensures { result ≡ field_in through self (views parts.now) }
    {
        let (name, bits) = two(parts);
        let field = Field {
            through,
            bit: self.bit,
            bits: number_in(bits),
            rule: self.rule,
            is_connected: self.is_connected,
        };
        Some((name.at, field))
    }

    /// The field that an item makes, with the place of its name.
    #[tactic(auto, using(aml_operators::proofs::Views::view_out, aml_operators::proofs::PartsOf::part_count))]
    pub(crate) fn field_of(self, through: Through, item: &Term) -> Option<(usize, Field)>
        requires { IsShaped code.Module (view item.now) }
        ensures { result ≡ field_of through self (view item.now) }
    {
        match item.op {
            Op::NamedField => self.field_in(through, &item.parts),
            _ => None,
        }
    }
}
