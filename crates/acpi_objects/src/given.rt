// What one object gives.

ghost use Rattle.std.specs.Prelude.{◌≡◌, [], IfOk, true};
ghost use Rattle.acpi_objects.specs.Gives.{Gives, Holds, IsEvaluated, IsGiven, gives_value};
ghost use Rattle.aml_contents.specs.Belongs.{Belong};
ghost use Rattle.aml_contents.specs.Contents.{content_at};
ghost use Rattle.aml_contents.specs.Held.{content_kinds, contents};
ghost use Rattle.aml_interp.specs.Answers.{WereChecked};
ghost use Rattle.aml_machine.specs.Views.{names_of};
ghost use Rattle.aml_objects.specs.Entries.{object_at};
ghost use Rattle.aml_namespace.specs.Shows.{shown};
ghost use Rattle.aml_verify.specs.Accepts.{takes};
ghost use Rattle.aml_verify.specs.Said.{verdict_at};

use aml_contents::Names;
use aml_interp::evaluate;
use aml_namespace::Object;
use aml_paths::{NoMemory, ObjectId};
use aml_regions::World;
use aml_values::{Value, copy};
use aml_verify::{Checked, Verdict};
use std::alloc::Global;

/// What an object gives.
#[derive(Drop)]
pub enum Given {
    /// A value.
    Value(Value),
    /// Nothing: a name that holds none, a method that returns none, or no such object.
    Nothing,
    /// Nothing, since it is a method that is not accepted.
    Refused,
}

/// Whether an object gives a value: a data name, or a method without arguments.
pub fn gives_value(object: Option<Object>) -> bool
    ensures { result ≡ gives_value object }
{
    match object {
        Some(Object::Data(_)) => true,
        Some(Object::Method(method)) => method.args == 0,
        _ => false,
    }
}

/// What the object with a number gives, which gives a value: a data name what it holds, a method
/// that is accepted what its evaluation gives, over these names and this world.
///
/// # Errors
///
/// `NoMemory`, where memory is wanted.
pub fn value_of<W: World>(
    alloc: Global,
    checked: &Checked<'_>,
    id: ObjectId,
    names: &mut Names,
    world: &mut W,
) -> Result<Given, NoMemory>
    requires checked { WereChecked checked.now }
    requires gives { gives_value (object_at (shown checked.now.namespace.now).entries id.0) ≡ true }
    requires names { Belong (shown checked.now.namespace.now) (content_kinds names.old) }
    ensures given { Gives checked.now id.0 result (names_of names.old) (W.log world.old)
        (names_of names.new) (W.log world.new) }
    ensures names { Belong (shown checked.now.namespace.now) (content_kinds names.new) }
{
    match checked.verdict(id) {
        None => held(alloc, names, id),
        Some(Verdict::Accepted(_)) => evaluated(alloc, checked, id, names, world),
        Some(Verdict::Refused(_, _) | Verdict::Unreadable { .. }) => Ok(Given::Refused),
    }
}

// What a name holds, if anything.
fn held(alloc: Global, names: &Names, id: ObjectId) -> Result<Given, NoMemory>
    ensures { IfOk result (Holds (content_at (contents names.now) id.0)) }
{
    match names.get(id) {
        Some(value) => {
            let copied = copy(alloc, value)?;
            Ok(Given::Value(copied))
        }
        None => Ok(Given::Nothing),
    }
}

// What the evaluation of an accepted method gives, without arguments.
fn evaluated<W: World>(
    alloc: Global,
    checked: &Checked<'_>,
    id: ObjectId,
    names: &mut Names,
    world: &mut W,
) -> Result<Given, NoMemory>
    requires checked { WereChecked checked.now }
    requires accepted { takes (verdict_at checked.now.verdicts.items id.0) [] ≡ true }
    requires names { Belong (shown checked.now.namespace.now) (content_kinds names.old) }
    ensures given { IfOk result (λ g. IsEvaluated checked.now id.0 g (names_of names.old)
        (W.log world.old) (names_of names.new) (W.log world.new)) }
    ensures names { Belong (shown checked.now.namespace.now) (content_kinds names.new) }
{
    let none = Vec::new(alloc);
    let value = evaluate(alloc, checked, names, id, none, world)?;
    Ok(given_by(value))
}

// What an evaluation gives, by its value or none.
fn given_by(value: Option<Value>) -> Given
    ensures { IsGiven value result }
{
    match value {
        Some(value) => Given::Value(value),
        None => Given::Nothing,
    }
}
