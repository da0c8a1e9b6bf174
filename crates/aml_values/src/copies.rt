// Copies of values.

ghost use Rattle.std.specs.Prelude.{◌≡◌, IfOk, map};
ghost use Rattle.aml_values.specs.Views.{view, element};

use crate::value::{Element, Value};
use aml_paths::NoMemory;
use std::alloc::Global;

/// A copy of a value.
#[cycle(copy)]
pub fn copy(alloc: Global, value: &Value) -> Result<Value, NoMemory>
    ensures { IfOk result (λ v. view v ≡ view value.now) }
{
    match value {
        Value::Int(number) => Ok(Value::Int(*number)),
        Value::Buf(bytes) => Ok(Value::Buf(bytes.copy()?)),
        Value::Str(characters) => Ok(Value::Str(characters.copy()?)),
        Value::Pkg(package) => Ok(Value::Pkg(package.copied(alloc)?)),
    }
}

/// A copy of the elements of a package.
#[cycle(copy)]
pub(crate) fn copied_elements(alloc: Global, elements: &[Element]) -> Result<Vec<Element>, NoMemory>
    ensures { IfOk result (λ es. map element es.items ≡ map element elements.now) }
{
    let mut made = Vec::new(alloc);
    for each in elements {
        let copy = copied_element(alloc, each)?;
        made.push(copy)?;
    }
    Ok(made)
}

/// A copy of an element.
#[cycle(copy)]
fn copied_element(alloc: Global, each: &Element) -> Result<Element, NoMemory>
    ensures { IfOk result (λ e. element e ≡ element each.now) }
{
    match each {
        Element::Value(value) => Ok(Element::Value(copy(alloc, value)?)),
        Element::Name(object) => Ok(Element::Name(*object)),
        Element::Unset => Ok(Element::Unset),
    }
}
