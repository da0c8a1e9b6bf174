// What the rows of crates/acpicheck/rows cannot say of operators' rules: a package of 64 levels,
// which no Name has.

use crate::kinds::{Sample, value_of};
use aml_rules::{Place, element_at};
use aml_values::{Value, is_same_value};
use std::test::Fail;

const OPERATOR: Place = Place { table: 1, at: 10 };

const FIRST: Place = Place { table: 1, at: 20 };

const SECOND: Place = Place { table: 1, at: 30 };

#[test]
fn the_deepest_element(rt: HostRuntime) -> Result<(), Fail> {
    let alloc = rt.alloc();
    let package = value_of(alloc, Sample::Nested(64))?;
    let within = value_of(alloc, Sample::Nested(63))?;
    let element = element_at(alloc, OPERATOR, FIRST, &package, SECOND, &Value::Int(0));
    assert!(rt; element.is_ok_and(|element| is_same_value(&element, &within)));
    Ok(())
}
