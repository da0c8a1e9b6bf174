// A method's body (ACPI 6.5, 20.2.5), in which the names that it makes take no arguments.

ghost use Rattle.std.specs.Prelude.{◌≡◌, ◌≤◌, ◌<◌, ◌↔◌, List, length, take, IsTrue, IfOk, IfErr, OnOk, []};
ghost use Rattle.aml_operators.specs.Tree.{view};
ghost use Rattle.aml_operators.specs.declared.term.Term.{out-Term};
ghost use Rattle.aml_operators.specs.declared.row.Code.TheVariants as code;
ghost use Rattle.aml_operators.specs.declared.row.Spot.TheVariants as spot;
ghost use Rattle.aml_operators.specs.Shape.{IsShaped};
ghost use Rattle.aml_lex.specs.Names.{name_of, seg_bytes, lone_segment};
ghost use Rattle.aml_tree.specs.Fault.{ReadsAs};
ghost use Rattle.aml_tree.specs.Reading.{term_at};
ghost use Rattle.aml_tree.specs.Spelled.{IsSpelled};
ghost use Rattle.aml_tree.specs.Owns.{is_kept, with_kept, Keeps};
ghost use Rattle.aml_tree.specs.Body.{made_place, segment_at, greatest_depth, owns_behind, body_until, ReadsBody, trees_of, trees_read};

use crate::arity::Arity;
use crate::fault::TreeFault;
use crate::module::GREATEST_DEPTH;
use crate::walk::Reader;
use aml_lex::{NameRef, NameSeg, standing_name};
use aml_operators::{Code, Op, Spot, Term, behind_first, first_place};
use std::alloc::Global;
use std::collections::BTreeSet;

/// Where a method's body lies in its table.
#[derive(Clone, Copy, Debug, PartialEq, Eq)]
pub struct Span {
    /// The place of its first byte.
    pub at: usize,
    /// The place behind its last byte.
    pub end: usize,
}

impl Span {
    /// Whether the span lies within the bytes.
    pub fn is_within(&self, bytes: &[u8]) -> bool
        ensures { IsTrue result ↔
            ((self.now.at ≤ self.now.end) × (self.now.end ≤ length bytes.now)) }
    {
        self.at <= self.end && self.end <= bytes.len()
    }
}

/// The counts of a body in which some names of its own stand.
#[derive(Drop)]
struct WithOwns<'a, A> {
    arity: &'a A,
    owns: &'a BTreeSet<NameSeg>,
}

impl<'a, A: Arity> Arity for WithOwns<'a, A> {
    ghost counts = { λ o. with_kept (A.counts o.arity.now) o.owns.now };

    fn arity(&self, name: &NameRef<'_>, at: usize) -> u8 {
        if is_own(self.owns, name) {
            0
        } else {
            self.arity.arity(name, at)
        }
    }
}

/// Whether a name is one of the body's own.
fn is_own(owns: &BTreeSet<NameSeg>, name: &NameRef<'_>) -> bool
    ensures { result ≡ is_kept owns.now (lone_segment (name_of name.now)) }
{
    match name.lone_segment() {
        Some(segment) => owns.contains(&segment),
        None => false,
    }
}

/// Where the name stands that a Name or a CreateField form makes; None for any other term.
#[tactic(auto, using(aml_operators::proofs::Views::view_out))]
pub fn made_place(term: &Term) -> Option<usize>
    ensures { result ≡ made_place (view term.now) }
{
    match term.op {
        Op::Name => first_place(&term.parts),
        Op::CreateBitField
        | Op::CreateByteField
        | Op::CreateWordField
        | Op::CreateDWordField
        | Op::CreateQWordField => first_place(behind_first(behind_first(&term.parts))),
        Op::CreateField => first_place(behind_first(behind_first(behind_first(&term.parts)))),
        _ => None,
    }
}

/// The own name that a statement at the top of a body makes.
#[tactic(auto, using(crate::proofs::Made::made_there))]
fn segment_made(bytes: &[u8], term: &Term) -> Option<NameSeg>
    requires shaped { IsShaped code.Body (view term.now) }
    requires spelled { IsSpelled bytes.now (view term.now) }
    ensures { seg_bytes result ≡ segment_at bytes.now (made_place (view term.now)) }
{
    let at = made_place(term)?;
    standing_name(bytes, at).lone_segment()
}

/// Keeps the own name that a statement makes.
fn keep_made(owns: &mut BTreeSet<NameSeg>, bytes: &[u8], term: &Term) -> Result<(), TreeFault>
    requires shaped { IsShaped code.Body (view term.now) }
    requires spelled { IsSpelled bytes.now (view term.now) }
    ensures ok { OnOk result ((names : List NameSeg) → Keeps owns.old names →
        Keeps owns.new (owns_behind names bytes.now (view term.now))) }
    ensures err { IfErr result (λ fault. fault ≡ TreeFault.NoMemory) }
{
    if let Some(segment) = segment_made(bytes, term) {
        owns.insert(segment)?;
    }
    Ok(())
}

/// A statement at the top of a body in which these names stand.
fn read_statement<A: Arity>(
    alloc: Global,
    arity: &A,
    owns: &BTreeSet<NameSeg>,
    bytes: &[u8],
    at: usize,
) -> Result<Term, TreeFault>
    ensures gives { ReadsAs view result (term_at code.Body
        (with_kept (A.counts arity.now) owns.now)
        greatest_depth at spot.Statement bytes.now at) }
    ensures ahead { IfOk result (λ t. at < (out-Term t).end) }
    ensures within { IfOk result (λ t. (out-Term t).end ≤ length bytes.now) }
{
    let with_owns = WithOwns { arity, owns };
    let reader = Reader {
        alloc,
        code: Code::Body,
        arity: &with_owns,
    };
    reader.term(at, Spot::Statement, bytes, at, GREATEST_DEPTH)
}

/// Reads the statements of a method's body, whose span a Method term of the table gave.
///
/// A name takes as many terms as `arity` tells for its place; a lone segment that an earlier Name
/// or CreateField form at the top of the body made takes none.
///
/// Faults: E201 to E208, each with its place in the table, the first in the order of the bytes.
pub fn read_body<A: Arity>(
    alloc: Global,
    bytes: &[u8],
    span: Span,
    arity: &A,
) -> Result<Vec<Term>, TreeFault>
    requires ordered { span.at ≤ span.end }
    requires within { span.end ≤ length bytes.now }
    ensures { ReadsBody (A.counts arity.now) (take span.end bytes.now) span.at (trees_read result) }
{
    read_statements(alloc, &bytes[..span.end], span.at, arity)
}

fn read_statements<A: Arity>(
    alloc: Global,
    bytes: &[u8],
    start: usize,
    arity: &A,
) -> Result<Vec<Term>, TreeFault>
    ensures { ReadsAs trees_of result
        (body_until (A.counts arity.now) bytes.now (length bytes.now) [] [] start) }
{
    let mut owns = BTreeSet::new(alloc);
    let mut statements = Vec::new(alloc);
    let mut at = start;
    while at < bytes.len() {
        let statement = read_statement(alloc, arity, &owns, bytes, at)?;
        at = statement.end;
        keep_made(&mut owns, bytes, &statement)?;
        statements.push(statement)?;
    }
    statements.shrink_to_fit();
    Ok(statements)
}
