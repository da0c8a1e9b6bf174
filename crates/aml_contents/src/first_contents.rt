// What a data name holds first (ACPI 6.5, 19.6, Name).

ghost use Rattle.std.specs.Prelude.{◌≡◌, IfOk};
ghost use Rattle.aml_operators.specs.Tree.{Node, none, view};
ghost use Rattle.aml_operators.specs.declared.op.Op.TheVariants.{Zero};
ghost use Rattle.aml_objects.specs.Entries.{object_at};
ghost use Rattle.aml_namespace.specs.Shows.{shown};
ghost use Rattle.aml_values.specs.Views as seen;
ghost use Rattle.aml_contents.specs.ContentViews.{content};
ghost use Rattle.aml_contents.specs.FirstContents.{data_in, first_content, value_from};

use crate::first_data::{Site, plain_value, value_in};
use aml_namespace::{Content, Namespace, Object, Source};
use aml_operators::{Op, Term};
use aml_paths::{NoMemory, ObjectId};
use aml_tree::{Span, TreeFault, read_data};
use aml_values::Value;
use std::alloc::Global;

/// The term Zero, which stands where no data can be read.
fn zero(alloc: Global) -> Term
    ensures { view result ≡ Node Zero 0 0 none }
{
    Term {
        op: Op::Zero,
        at: 0,
        end: 0,
        parts: Vec::new(alloc),
    }
}

/// The data that stands in a part of some bytes; the term Zero where none can be read there.
#[tactic(auto, using(crate::proofs::FirstData::data_there, crate::proofs::FirstData::no_data))]
pub fn data_in(alloc: Global, bytes: &[u8], span: Span) -> Result<Term, NoMemory>
    ensures { IfOk result (λ t. view t ≡ data_in bytes.now span) }
{
    if !span.is_within(bytes) {
        return Ok(zero(alloc));
    }
    match read_data(alloc, bytes, span) {
        Ok(term) => Ok(term),
        Err(TreeFault::NoMemory) => Err(NoMemory),
        Err(TreeFault::Refused(_)) => Ok(zero(alloc)),
    }
}

/// The first content of which it is told what it is, by where it comes from.
fn value_from(
    alloc: Global,
    namespace: &Namespace<'_>,
    told: Content,
    source: Source,
) -> Result<Value, NoMemory>
    ensures { IfOk result (λ v. seen.view v ≡ value_from (shown namespace.now) told source) }
{
    match source {
        Source::Revision => plain_value(alloc, namespace.width(), told, 2, &[]),
        Source::OsName => plain_value(alloc, namespace.width(), told, 0, namespace.os_name()),
        Source::Term { table, span, scope } => {
            let term = data_in(alloc, namespace.table_bytes(table), span)?;
            value_in(alloc, namespace, Site { table, scope }, told, &term)
        }
    }
}

/// What the object with a number holds first, if it is a data name.
pub(crate) fn first_content(
    alloc: Global,
    namespace: &Namespace<'_>,
    id: ObjectId,
) -> Result<Option<Value>, NoMemory>
    ensures { let ns = shown namespace.now in
        IfOk result (λ held. content held ≡ first_content ns (object_at ns.entries id.0)) }
{
    match namespace.object(id) {
        Some(Object::Data(data)) => {
            let value = value_from(alloc, namespace, data.content, data.source)?;
            Ok(Some(value))
        }
        _ => Ok(None),
    }
}
