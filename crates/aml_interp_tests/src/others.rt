// Methods that run while another sleeps. What names hold then was worked out by hand (ACPI 6.5,
// 19.6, Sleep).

ghost use Rattle.std.specs.Prelude.{◌≡◌, IfOk, [], ◌∷◌};
ghost use Rattle.aml_interp.specs.Answers.{WereChecked};

use crate::methods::{Wanted, first_names, gives};
use acpi_samples::{HOST, table_of};
use aml_interp::{Others, evaluate};
use aml_namespace::{LoadFault, Namespace};
use aml_paths::{NoMemory, ObjectId};
use aml_regions::{Event, RegisterFile};
use aml_signatures::Signatures;
use aml_values::Value;
use aml_verify::{Checked, verify};
use std::alloc::{AllocError, Global};
use std::process::Abort;
use std::test::Fail;

/// Name (CNT0, 5), Method (M014) {Sleep (One) Return (CNT0)}, Method (INC0) {Increment (CNT0)}:
/// objects 9, 10 and 11.
const COUNTED: &[u8] =
    b"\x08CNT0\x0a\x05\x14\x0eM014\x00\x5b\x22\x01\xa4CNT0\x14\x0bINC0\x00\x75CNT0";

/// One method.
fn only(alloc: Global, id: ObjectId) -> Result<Vec<ObjectId>, AllocError>
    ensures { IfOk result (λ methods. methods.items ≡ id ∷ []) }
{
    let mut methods = Vec::new(alloc);
    methods.push(id)?;
    Ok(methods)
}

/// Whether a log is one Sleep, behind which names were left.
fn is_one_sleep(events: &[Event]) -> bool {
    matches!(events, [Event::Slept(1, Some(_))])
}

/// INC0 runs while M014 sleeps.
fn is_counted(rt: &impl Abort, alloc: Global) -> Result<(), LoadFault> {
    let table = table_of(alloc, *b"DSDT", 2, COUNTED)?;
    let namespace = Namespace::load(alloc, &[&table], HOST)?;
    is_counted_in(rt, alloc, &namespace)
}

/// The same in the namespace of their table.
fn is_counted_in(
    rt: &impl Abort,
    alloc: Global,
    namespace: &Namespace<'_>,
) -> Result<(), LoadFault> {
    let signatures = Signatures::new(alloc);
    match verify(alloc, namespace, &signatures) {
        Ok(checked) => is_counted_by(rt, alloc, &checked),
        Err(NoMemory) => Err(LoadFault::NoMemory),
    }
}

/// The same by the verdicts on them; or memory is wanted, and CNT0 holds what it held, or what INC0
/// left.
fn is_counted_by(rt: &impl Abort, alloc: Global, checked: &Checked<'_>) -> Result<(), LoadFault>
    requires { WereChecked checked.now }
{
    let mut names = first_names(alloc, checked.namespace())?;
    let none = Vec::new(alloc);
    assert!(rt; checked.accepts(ObjectId(10), &none));
    assert!(rt; checked.accepts(ObjectId(11), &none));
    assert!(rt; checked.names_fit(&names));
    let methods = only(alloc, ObjectId(11))?;
    let (mine, theirs) = (RegisterFile::new(alloc), RegisterFile::new(alloc));
    let mut world = Others::new(alloc, checked, methods, mine, theirs);
    let answer = evaluate(alloc, checked, &mut names, ObjectId(10), none, &mut world);
    let counted = names.get(ObjectId(9)).map(number);
    match answer {
        Ok(value) => {
            assert!(rt; gives(&value, Wanted::Int(6)));
            assert!(rt; is_one_sleep(world.mine().events()));
            assert!(rt; world.theirs().events().is_empty());
            assert_eq!(rt; counted, Some(Some(6)));
            Ok(())
        }
        Err(NoMemory) => {
            let slept = is_one_sleep(world.mine().events());
            assert_eq!(rt; counted, Some(Some(if slept { 6 } else { 5 })));
            Err(LoadFault::NoMemory)
        }
    }
}

/// An integer's number.
fn number(value: &Value) -> Option<u64> {
    match value {
        Value::Int(number) => Some(*number),
        _ => None,
    }
}

#[test]
fn a_method_runs_at_a_sleep(rt: HostRuntime) -> Result<(), Fail> {
    match is_counted(&rt, rt.alloc()) {
        Err(LoadFault::NoMemory) => is_counted(&rt, rt.alloc())?,
        told => told?,
    }
    Ok(())
}
