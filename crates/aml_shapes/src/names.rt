// The kinds of data names, by the data that they hold first.

ghost use Rattle.std.specs.Prelude.{◌≡◌, IfOk, length, map};
ghost use Rattle.std.specs.Option.{option_map};
ghost use Rattle.aml_operators.specs.Tree.{view, views};
ghost use Rattle.aml_objects.specs.Entries.{object_at};
ghost use Rattle.aml_namespace.specs.Shows.{shown};
ghost use Rattle.aml_contents.specs.DataKinds.{counted_places, data_shape, name_kind_told, object_kind, shape_behind, source_shape};
ghost use Rattle.aml_contents.specs.FirstContents.{first_kinds};
ghost use Rattle.aml_known.specs.Views.{kind_of};
ghost use Rattle.aml_shapes.specs.Numbers.{AreKnown, IsNumber, Keeps, Tells, TellsHeld, numbered};

use crate::table::ShapeTable;
use crate::walk::package;
use aml_contents::data_in;
use aml_known::{Known, ShapeNumber};
use aml_namespace::{Content, DataName, Namespace, Object, Source, Width};
use aml_operators::{Op, Term};
use aml_paths::{NoMemory, ObjectId};
use std::alloc::Global;

/// The parts of a package; no other data has elements.
#[tactic(auto, using(aml_operators::proofs::Views::view_out))]
fn package_parts(term: &Term) -> &[Term]
    ensures { (width : Width) →
        shape_behind width (views result.now) ≡ data_shape width (view term.now) }
{
    match term.op {
        Op::Package | Op::VarPackage => &term.parts,
        _ => &[],
    }
}

/// The number of the shape with so many places that what a name's first content comes from tells.
fn source_package(
    alloc: Global,
    table: &mut ShapeTable,
    namespace: &Namespace<'_>,
    count: u64,
    source: Source,
) -> Result<usize, NoMemory>
    ensures number { IfOk result (λ n. IsNumber table.new n
        (counted_places count (source_shape (shown namespace.now) source))) }
    ensures keeps { Keeps table.old table.new }
{
    let width = namespace.width();
    match source {
        Source::Term {
            table: number,
            span,
            scope: _,
        } => {
            let term = data_in(alloc, namespace.table_bytes(number), span)?;
            package(alloc, table, width, count, package_parts(&term))
        }
        Source::Revision | Source::OsName => package(alloc, table, width, count, &[]),
    }
}

/// The kind of a data name.
fn name_kind(
    alloc: Global,
    table: &mut ShapeTable,
    namespace: &Namespace<'_>,
    name: DataName,
) -> Result<Known, NoMemory>
    ensures known { IfOk result (λ k. Tells table.new k
        (name_kind_told (shown namespace.now) name.content name.source)) }
    ensures keeps { Keeps table.old table.new }
{
    match name.content {
        Content::Integer => Ok(Known::Int(namespace.width().greatest())),
        Content::Buffer(size) => Ok(Known::Buf(size)),
        Content::String(size) => Ok(Known::Str(size)),
        Content::Package(count) => {
            let number = source_package(alloc, table, namespace, count, name.source)?;
            Ok(Known::Pkg(ShapeNumber(number)))
        }
    }
}

/// The kind of the object with a number, if it is a data name.
fn object_kind(
    alloc: Global,
    table: &mut ShapeTable,
    namespace: &Namespace<'_>,
    id: ObjectId,
) -> Result<Option<Known>, NoMemory>
    ensures known { let ns = shown namespace.now in IfOk result (λ k.
        TellsHeld table.new k (object_kind ns (object_at ns.entries id.0))) }
    ensures keeps { Keeps table.old table.new }
{
    match namespace.object(id) {
        Some(Object::Data(name)) => {
            let known = name_kind(alloc, table, namespace, name)?;
            Ok(Some(known))
        }
        _ => Ok(None),
    }
}

/// The kinds of what the data names of a namespace hold first, by the numbers of their objects:
/// none where an object is no data name. The shapes of packages are added where a table does not
/// have them.
pub fn shared_kinds(
    alloc: Global,
    namespace: &Namespace<'_>,
    table: &mut ShapeTable,
) -> Result<Vec<Option<Known>>, NoMemory>
    ensures kinds { IfOk result (λ ks. map (option_map (kind_of (numbered table.new))) ks.items
        ≡ first_kinds (shown namespace.now)) }
    ensures known { IfOk result (λ ks. AreKnown (length table.new) ks.items) }
    ensures keeps { Keeps table.old table.new }
{
    let mut kinds = Vec::with_capacity(alloc, namespace.len())?;
    for i in 0..namespace.len() {
        let kind = object_kind(alloc, table, namespace, ObjectId(i))?;
        kinds.push(kind)?;
    }
    Ok(kinds)
}
