// What is kept of bodies, which arguments methods take and which evaluate integers alone, also
// where memory is wanted. Expected values were worked out by hand.

use acpi_samples::{HOST, table_of};
use aml_bodies::LinkedName;
use aml_namespace::{Link, Namespace};
use aml_paths::{NoMemory, ObjectId};
use aml_signatures::Signatures;
use aml_values::Value;
use aml_verify::{Checked, Verifier, verify};
use std::alloc::Global;
use std::process::Abort;
use std::test::Fail;

/// A buffer BUF0 and four methods behind it: `M001` returns the sum of its argument and one; `M002`
/// what `BUF0` holds; `M003` a local that is not set, for which it is refused; and of `M004` the
/// operand of a Return is missing.
const BEHIND: &[u8] =
    b"\x08BUF0\x11\x03\x0a\x10\x14\x0bM001\x01\xa4rh\x01\x00\x14\x0bM002\x00\xa4BUF0\x14\x08M003\x00\xa4`\x14\x07M004\x00\xa4";

/// What is known of a method.
#[derive(Clone, Copy, Debug, PartialEq, Eq)]
struct Known {
    /// The places of its opcode and its first statement, where its body is kept.
    kept: Option<(usize, usize)>,
    /// The places of its body's first byte and behind its last, where it is accepted.
    body: Option<(usize, usize)>,
    /// Whether it takes an integer, no more and no less.
    takes: bool,
    /// Whether it evaluates integers alone.
    integers: bool,
}

const WANTED: [Known; 4] = [
    Known {
        kept: Some((45, 52)),
        body: Some((52, 57)),
        takes: true,
        integers: true,
    },
    Known {
        kept: Some((57, 64)),
        body: Some((64, 69)),
        takes: false,
        integers: false,
    },
    Known {
        kept: Some((69, 76)),
        body: None,
        takes: false,
        integers: false,
    },
    Known {
        kept: None,
        body: None,
        takes: false,
        integers: false,
    },
];

fn known_of(checked: &Checked<'_>, id: ObjectId) -> Known {
    let kept = match checked.kept(id) {
        Some(kept) => Some((kept.opcode, kept.start)),
        None => None,
    };
    let body = match checked.body(id) {
        Some((_, start, bytes)) => Some((start, bytes.len())),
        None => None,
    };
    Known {
        kept,
        body,
        takes: checked.accepts(id, &[Value::Int(0xffff_ffff)])
            && !checked.accepts(id, &[Value::Int(0x1_0000_0000)])
            && !checked.accepts(id, &[])
            && !checked.accepts(id, &[Value::Int(0), Value::Int(0)]),
        integers: checked.integer_only(id),
    }
}

/// The name at a place of the method with a number among those of the namespace, where it is kept.
fn name_at(checked: &Checked<'_>, number: usize, at: usize) -> Option<LinkedName> {
    let id = checked.namespace().methods().get(number)?;
    checked.kept(*id)?.links.find(at)
}

/// What is known of the methods, and of the name that the second has.
fn are_known(rt: &impl Abort, checked: &Checked<'_>) {
    let methods = checked.namespace().methods();
    assert_eq!(rt; methods.len(), WANTED.len());
    for (i, id) in methods.iter().enumerate() {
        assert_eq!(rt; Some(known_of(checked, *id)), WANTED.get(i).copied());
    }
    let name = name_at(checked, 1, 65);
    assert_eq!(rt; name.map(|name| name.end), Some(69));
    let data = matches!(name.map(|name| name.link), Some(Link::Data(_)));
    assert!(rt; data);
    assert_eq!(rt; name_at(checked, 1, 64), None);
    assert_eq!(rt; name_at(checked, 0, 53), None);
}

/// Judges the methods of a namespace, one step at a time, each again where it wants memory; and all
/// at once.
fn are_kept(rt: &impl Abort, alloc: Global, namespace: &Namespace<'_>) -> Result<(), NoMemory> {
    let signatures = Signatures::new(alloc);
    let mut verifier = Verifier::new(alloc, namespace, &signatures)?;
    for _ in 0..verifier.left() {
        if verifier.step().is_err() {
            assert!(rt; verifier.step()?.is_some());
        }
    }
    are_known(rt, &verifier.finish());
    are_known(rt, &verify(alloc, namespace, &signatures)?);
    Ok(())
}

/// Judges the methods of a table.
fn is_kept(rt: &impl Abort, alloc: Global) -> Result<(), NoMemory> {
    let table = table_of(alloc, *b"DSDT", 1, BEHIND).map_err(|_| NoMemory)?;
    let Ok(mut namespace) = Namespace::load(alloc, &[&table], HOST) else {
        return Err(NoMemory);
    };
    namespace.count_externals(alloc)?;
    are_kept(rt, alloc, &namespace)
}

#[test]
fn rows_of_what_is_kept_where_memory_is_wanted(rt: HostRuntime) -> Result<(), Fail> {
    if is_kept(&rt, rt.alloc()).is_err() {
        is_kept(&rt, rt.alloc())?;
    }
    Ok(())
}
