// Literals of data (ACPI 6.5, 19.6, Buffer, Package and String).

ghost use Rattle.std.specs.Prelude.{◌≡◌, ◌≤◌, ◌<◌, IfOk, length};
ghost use Rattle.aml_operators.specs.declared.op.Op.TheVariants as op;
ghost use Rattle.aml_operators.specs.Tree.{stop_of, trees};
ghost use Rattle.aml_paths.specs.declared.scope.Scope.TheVariants.{At};
ghost use Rattle.aml_namespace.specs.Shows.{shown};
ghost use Rattle.aml_values.specs.Views as seen;
ghost use Rattle.aml_contents.specs.BodyData.{body_data};
ghost use Rattle.aml_contents.specs.FirstContents.{counted, element_in, elements_in, named};
ghost use Rattle.aml_meaning.specs.Actions.{action};
ghost use Rattle.aml_meaning.specs.declared.action.Action.TheVariants as does;
ghost use Rattle.aml_literals.specs.There.{DataThere, ElementThere, ElementsThere, IsCount, PackageThere, RestThere, first_element};

use crate::numbers::{literal_at, literal_number, number};
use aml_contents::{filled, package_of};
use aml_lex::bytes_between;
use aml_meaning::{Action, action_of};
use aml_namespace::Namespace;
use aml_operators::Op;
use aml_paths::{NamePlace, NoMemory, ObjectId, Scope};
use aml_places::{name_end, package, text_end};
use aml_tree::op_at;
use aml_values::{Element, Value};
use std::alloc::Global;

/// In which body a literal stands.
#[derive(Clone, Copy)]
struct Site {
    /// The number of its table.
    table: usize,
    /// Its method, from which names are looked up.
    method: ObjectId,
}

/// The value of a literal of data whose parts stand behind its opcode in a method's body, in a
/// table, and the place behind them: a string's characters; a buffer as long as the greater of its
/// size and its initialiser, with zeros behind; a package of as many elements as it counts, further
/// ones dropped and missing ones unset. Integers in it are taken modulo 2 to the width, and its
/// names are looked up from the method. No size in it is computed.
pub fn data_value(
    alloc: Global,
    namespace: &Namespace<'_>,
    table: usize,
    method: ObjectId,
    op: Op,
    bytes: &[u8],
    at: usize,
) -> Result<(Value, usize), NoMemory>
    requires datum { action op ≡ does.Data op }
    requires there { DataThere op bytes.now at }
    ensures value { IfOk result (λ r. (d : DataThere op bytes.now at) → seen.view r.0 ≡
        body_data (shown namespace.now) table method.0 op (trees d.there.parts)) }
    ensures place { IfOk result (λ r. (d : DataThere op bytes.now at) → d.there.stop ≡ r.1) }
{
    value(alloc, namespace, Site { table, method }, op, bytes, at)
}

/// The value of a string behind its opcode, and the place behind it.
fn string(
    alloc: Global,
    namespace: &Namespace<'_>,
    site: Site,
    bytes: &[u8],
    at: usize,
) -> Result<(Value, usize), NoMemory>
    requires { DataThere op.String bytes.now at }
    ensures value { IfOk result (λ r. (d : DataThere op.String bytes.now at) → seen.view r.0 ≡
        body_data (shown namespace.now) site.table site.method.0 op.String (trees d.there.parts)) }
    ensures place { IfOk result (λ r. (d : DataThere op.String bytes.now at) → d.there.stop ≡ r.1) }
{
    let stop = text_end(bytes, at);
    let text = bytes_between(namespace.table_bytes(site.table), at, stop - 1);
    let characters = filled(alloc, (stop - at - 1) as u64, text)?;
    Ok((Value::Str(characters), stop))
}

/// The value of a buffer behind its opcode, and the place behind it.
fn buffer(
    alloc: Global,
    namespace: &Namespace<'_>,
    site: Site,
    bytes: &[u8],
    at: usize,
) -> Result<(Value, usize), NoMemory>
    requires { DataThere op.Buffer bytes.now at }
    ensures value { IfOk result (λ r. (d : DataThere op.Buffer bytes.now at) → seen.view r.0 ≡
        body_data (shown namespace.now) site.table site.method.0 op.Buffer (trees d.there.parts)) }
    ensures place { IfOk result (λ r. (d : DataThere op.Buffer bytes.now at) → d.there.stop ≡ r.1) }
{
    let (stop, next) = package(bytes, at);
    let (size, start) = literal_at(&bytes[..stop], next);
    let initialiser = bytes_between(namespace.table_bytes(site.table), start, stop);
    let items = filled(alloc, size.max((stop - start) as u64), initialiser)?;
    Ok((Value::Buf(items), stop))
}

/// The number of elements that a package tells behind its length, and the place behind it.
fn count_at(op: Op, bytes: &[u8], at: usize) -> (u64, usize)
    requires { PackageThere op bytes.now at }
    ensures is { (p : PackageThere op bytes.now at) → IsCount op p.parts result }
    ensures ahead { at < result.1 }
    ensures within { result.1 ≤ length bytes.now }
{
    match op {
        Op::VarPackage => literal_at(bytes, at),
        _ => number(1, bytes, at),
    }
}

/// The value of a literal behind its opcode, and the place behind it.
#[cycle(data)]
fn value(
    alloc: Global,
    namespace: &Namespace<'_>,
    site: Site,
    op: Op,
    bytes: &[u8],
    at: usize,
) -> Result<(Value, usize), NoMemory>
    requires datum { action op ≡ does.Data op }
    requires there { DataThere op bytes.now at }
    ensures value { IfOk result (λ r. (d : DataThere op bytes.now at) → seen.view r.0 ≡
        body_data (shown namespace.now) site.table site.method.0 op (trees d.there.parts)) }
    ensures place { IfOk result (λ r. (d : DataThere op bytes.now at) → d.there.stop ≡ r.1) }
{
    match op {
        Op::String => string(alloc, namespace, site, bytes, at),
        Op::Buffer => buffer(alloc, namespace, site, bytes, at),
        _ => {
            let (stop, next) = package(bytes, at);
            let inside = &bytes[..stop];
            let (count, start) = count_at(op, inside, next);
            let elements = elements(alloc, namespace, site, count, inside, start)?;
            Ok((package_of(elements)?, stop))
        }
    }
}

/// So many elements of a package: those that fill the bytes from a place on, and unset ones.
#[cycle(data)]
fn elements(
    alloc: Global,
    namespace: &Namespace<'_>,
    site: Site,
    count: u64,
    bytes: &[u8],
    start: usize,
) -> Result<Vec<Element>, NoMemory>
    requires { ElementsThere bytes.now start }
    ensures { IfOk result (λ es. (e : ElementsThere bytes.now start) → seen.elements_of es.items ≡
        counted count
        (elements_in (shown namespace.now) site.table (At site.method) (trees e.parts))) }
{
    let mut made = Vec::new(alloc);
    let mut at = start;
    'each: for _ in 0..count {
        let (element, next) = next_element(alloc, namespace, site, bytes, at)?;
        made.push(element)?;
        at = next;
    }
    Ok(made)
}

/// The first of the elements that fill the bytes from a place on, and the place behind it; unset
/// where there is none.
#[cycle(data)]
fn next_element(
    alloc: Global,
    namespace: &Namespace<'_>,
    site: Site,
    bytes: &[u8],
    at: usize,
) -> Result<(Element, usize), NoMemory>
    requires { ElementsThere bytes.now at }
    ensures first { IfOk result (λ r. (e : ElementsThere bytes.now at) → seen.element r.0 ≡
        first_element (shown namespace.now) site.table (At site.method) e.parts) }
    ensures rest { IfOk result (λ r. (e : ElementsThere bytes.now at) →
        RestThere bytes.now r.1 e.parts) }
    ensures ahead { IfOk result (λ r. at ≤ r.1) }
{
    if at < bytes.len() {
        element(alloc, namespace, site, bytes, at)
    } else {
        Ok((Element::Unset, at))
    }
}

/// The element at a place, and the place behind it: a name, with what it names, or a value.
#[cycle(data)]
fn element(
    alloc: Global,
    namespace: &Namespace<'_>,
    site: Site,
    bytes: &[u8],
    at: usize,
) -> Result<(Element, usize), NoMemory>
    requires { ElementThere bytes.now at }
    ensures element { IfOk result (λ r. (e : ElementThere bytes.now at) → seen.element r.0 ≡
        element_in (shown namespace.now) site.table (At site.method) e.tree) }
    ensures place { IfOk result (λ r. (e : ElementThere bytes.now at) → stop_of e.tree ≡ r.1) }
    ensures ahead { IfOk result (λ r. at < r.1) }
{
    let Some((op, next)) = op_at(bytes, at) else {
        let named = named(namespace, site, at);
        return Ok((Element::Name(named), name_end(bytes, at)));
    };
    match action_of(op) {
        Action::Data(_) => {
            let (value, stop) = value(alloc, namespace, site, op, bytes, next)?;
            Ok((Element::Value(value), stop))
        }
        _ => {
            let (number, stop) = literal_number(op, bytes, next);
            let value = Value::Int(namespace.width().wrapped(number));
            Ok((Element::Value(value), stop))
        }
    }
}

/// What the name at a place names.
fn named(namespace: &Namespace<'_>, site: Site, at: usize) -> Option<ObjectId>
    ensures { result ≡ named (shown namespace.now) site.table (At site.method) at }
{
    namespace.named_at(NamePlace {
        table: site.table,
        at,
        scope: Scope::At(site.method),
    })
}
