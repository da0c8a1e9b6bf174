use aml_contents::Names;
use aml_interp::evaluate;
use aml_namespace::{Host, Namespace};
use aml_regions::World;
use aml_signatures::Signatures;
use aml_values::Value;
use aml_verify::verify;
use std::alloc::Global;

/// What a method of a DSDT gives over this hardware, if it is accepted and takes no arguments.
pub(crate) fn value_of<W: World>(
    alloc: Global,
    dsdt: &[u8],
    path: &[u8],
    hardware: &mut W,
) -> Option<Value> {
    let tables = [dsdt];
    let host = Host {
        os: b"boot",
        osi: &[],
    };
    let namespace = Namespace::load(alloc, &tables, host).ok()?;
    value_in(alloc, &namespace, path, hardware)
}

// The same of a namespace that was loaded.
fn value_in<W: World>(
    alloc: Global,
    namespace: &Namespace<'_>,
    path: &[u8],
    hardware: &mut W,
) -> Option<Value> {
    let signatures = Signatures::new(alloc);
    let checked = verify(alloc, namespace, &signatures).ok()?;
    let id = namespace.find(path)?;
    let none = Vec::new(alloc);
    if !checked.accepts(id, &none) {
        return None;
    }
    let mut names = Names::initial(alloc, namespace).ok()?;
    evaluate(alloc, &checked, &mut names, id, none, hardware).ok()?
}
