// Contents of names, again and again.

use aml_contents::Names;
use aml_namespace::Width;
use aml_paths::ObjectId;
use aml_values::Value;
use std::alloc::Global;

/// Names of 64 bits, of which each holds an integer.
fn integers(alloc: Global) -> Option<Names> {
    let mut names = Names::new(alloc);
    for first in 0..4u64 {
        if names
            .push(alloc, Width::Bits64, Some(Value::Int(first)))
            .is_err()
        {
            return None;
        }
    }
    Some(names)
}

/// The integer that a name holds.
fn held(names: &Names, number: u64) -> u64 {
    match names.get(ObjectId(number as usize)) {
        Some(Value::Int(n)) => *n,
        _ => 0,
    }
}

/// The integers that names hold, one name a turn, summed up.
pub(crate) fn get_again(alloc: Global, turns: u64) -> Option<u64> {
    let names = integers(alloc)?;
    let mut sum = 0u64;
    for turn in 0..turns {
        sum = sum.wrapping_add(held(&names, turn % 4));
    }
    Some(sum)
}

/// A name is given an integer in each turn; what they hold last, summed up.
pub(crate) fn set_again(alloc: Global, turns: u64) -> Option<u64> {
    let mut names = integers(alloc)?;
    for turn in 0..turns {
        if names
            .set(ObjectId((turn % 4) as usize), Value::Int(turn))
            .is_err()
        {
            return None;
        }
    }
    let mut sum = 0u64;
    for number in 0..4 {
        sum = sum.wrapping_add(held(&names, number));
    }
    Some(sum)
}
