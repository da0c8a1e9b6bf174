// The data of a Name (ACPI 6.5, 20.2.5.1).

ghost use Rattle.std.specs.Prelude.{◌≤◌, length, take};
ghost use Rattle.aml_operators.specs.Tree.{view};
ghost use Rattle.aml_tree.specs.Fault.{ReadsAs};
ghost use Rattle.aml_tree.specs.Data.{ReadsData, data_at, tree_read};

use crate::arity::NoArguments;
use crate::body::Span;
use crate::fault::TreeFault;
use crate::module::GREATEST_DEPTH;
use crate::walk::Reader;
use aml_operators::{Code, Spot, Term};
use std::alloc::Global;

/// Reads the data of a module's Name, whose span the Name's term gave. Its last byte is the last
/// that is looked at.
///
/// Faults: E201 to E209, each with its place in the table, the first in the order of the bytes.
pub fn read_data(alloc: Global, bytes: &[u8], span: Span) -> Result<Term, TreeFault>
    requires ordered { span.at ≤ span.end }
    requires within { span.end ≤ length bytes.now }
    ensures { ReadsData (take span.end bytes.now) span.at (tree_read result) }
{
    read_from(alloc, &bytes[..span.end], span.at)
}

#[tactic(auto, using(crate::proofs::DataRead::data_reads))]
fn read_from(alloc: Global, bytes: &[u8], at: usize) -> Result<Term, TreeFault>
    ensures { ReadsData bytes.now at (tree_read result) }
{
    read_term(alloc, bytes, at)
}

fn read_term(alloc: Global, bytes: &[u8], at: usize) -> Result<Term, TreeFault>
    ensures { ReadsAs view result (data_at bytes.now at) }
{
    let reader = Reader {
        alloc,
        code: Code::Module,
        arity: &NoArguments,
    };
    reader.term(at, Spot::Data, bytes, at, GREATEST_DEPTH)
}
