// Judging the methods of a namespace, one body at a time.

ghost use Rattle.std.specs.Prelude.{◌≡◌, ◌++◌, ℕ, IfOk, OnErr, None, Some, false, length, map, slice_get, slice_set};
ghost use Rattle.aml_bodies.specs.Kept.{kept_at};
ghost use Rattle.aml_calls.specs.Pairs.{numbers};
ghost use Rattle.aml_integers.specs.Known.{marked};
ghost use Rattle.aml_namespace.specs.Names.{method_at};
ghost use Rattle.aml_operators.specs.Tree.{view};
ghost use Rattle.aml_namespace.specs.Shows.{shown};
ghost use Rattle.aml_signatures.specs.Signed.{kinds_told};
ghost use Rattle.aml_verify.specs.Said.{verdict_at};
ghost use Rattle.aml_verify.specs.Verdicts.{FoundOf, IsChecked, IsOfSame, IsRead, IsVerifier, JudgesNext, left, MarksNext, said_more, SaysNext};

use crate::body::Body;
use crate::checked::Checked;
use crate::read::Read;
use crate::verdict::Verdict;
use aml_bodies::Kept;
use aml_calls::call_order;
use aml_components::{Components, Heights};
use aml_findings::Finding;
use aml_findings::finds::refused;
use aml_integers::integers_alone;
use aml_known::{Known, Stop};
use aml_methods::{Named, Trees, arguments, gathered, nothing_yet, put};
use aml_namespace::{Method, Namespace};
use aml_operators::Term;
use aml_paths::{NoMemory, ObjectId};
use aml_shapes::{ShapeTable, shared_kinds};
use aml_signatures::Signatures;
use aml_tree::TreeFault;
use aml_walk::judge;
use std::alloc::Global;
use std::cell::Cell;

/// A verifier at work: each step judges one method, behind those that it calls.
#[derive(Drop)]
pub struct Verifier<'a, 's> {
    alloc: Global,
    read: Read<'a>,
    signatures: &'s Signatures,
    shapes: ShapeTable,
    /// The kinds of data names, by the numbers of their objects.
    shared: Vec<Option<Known>>,
    heights: Heights,
    components: Components,
    /// The methods as they are judged, and how many of them are.
    order: Vec<ObjectId>,
    judged: usize,
    /// By the numbers of the methods' objects.
    verdicts: Vec<Option<Verdict>>,
    /// Which methods evaluate integers alone, by the same numbers.
    integers: Vec<bool>,
}

/// What is found of a method that is judged.
#[derive(Drop)]
struct Found {
    verdict: Option<Verdict>,
    /// Whether it is accepted and evaluates integers alone.
    integers: bool,
}

/// No marks, for so many objects.
fn no_marks(alloc: Global, count: usize) -> Result<Vec<bool>, NoMemory>
    ensures count { IfOk result (λ marks. length marks.items ≡ count) }
    ensures none { IfOk result (λ marks. (k : ℕ) → marked marks.items k ≡ false) }
{
    match vec![in alloc; false; count] {
        Ok(marks) => Ok(marks),
        Err(_) => Err(NoMemory),
    }
}

/// Methods, and others behind them.
fn behind(mut order: Vec<ObjectId>, others: &[ObjectId]) -> Result<Vec<ObjectId>, NoMemory>
    ensures { IfOk result (λ all. all.items ≡ order.items ++ others.now) }
{
    order.extend_from_slice(others)?;
    Ok(order)
}

/// Keeps what is said of the method with a number, where there is room for it.
fn keep(verdicts: &mut Vec<Option<Verdict>>, id: ObjectId, said: Option<Verdict>)
    ensures { verdicts.new.items ≡ said_more verdicts.old.items id.0 said }
{
    if said.is_some() && id.0 < verdicts.len() {
        verdicts[id.0] = said;
    }
}

impl<'a, 's> Verifier<'a, 's> {
    /// A verifier of the methods of a namespace, whose arguments are of the kinds that signatures
    /// tell. Each body is read once for what it calls; what its names mean is kept, and the
    /// statements of the first are handed on to `step`.
    ///
    /// # Errors
    ///
    /// `NoMemory`, where memory is wanted.
    pub fn new(
        alloc: Global,
        namespace: &'a Namespace<'a>,
        signatures: &'s Signatures,
    ) -> Result<Verifier<'a, 's>, NoMemory>
        ensures verifier { IfOk result IsVerifier }
        ensures namespace { IfOk result (λ v. v.read.namespace.now ≡ namespace.now) }
        ensures signatures { IfOk result (λ v. v.signatures.now ≡ signatures.now) }
    {
        let count = namespace.len();
        let mut shapes = ShapeTable::new(alloc);
        let mut trees = Trees::new(alloc, count)?;
        let gathering = gathered(alloc, namespace, &mut shapes, &mut trees)?;
        let calls = gathering.calls;
        let read = Read {
            namespace,
            kept: gathering.kept,
            trees,
        };
        let shared = shared_kinds(alloc, namespace, &mut shapes)?;
        let (ordered, others) = call_order(alloc, &calls)?;
        let heights = Heights::of(alloc, &calls, &ordered, &others)?;
        let components = Components::of(alloc, &calls)?;
        let order = behind(ordered, &others)?;
        let verdicts = nothing_yet(alloc, count)?;
        let integers = no_marks(alloc, count)?;
        Ok(Verifier {
            alloc,
            read,
            signatures,
            shapes,
            shared,
            heights,
            components,
            order,
            judged: 0,
            verdicts,
            integers,
        })
    }

    /// How many methods are left to be judged.
    #[must_use]
    pub fn left(&self) -> usize
        ensures { result ≡ left self.now }
    {
        self.order.len().saturating_sub(self.judged)
    }

    /// Judges the next method, and answers it; None where all are judged. Its body is read again
    /// and dropped, unless its statements are handed on.
    ///
    /// # Errors
    ///
    /// `NoMemory`, where memory is wanted: then nothing has changed, and the method may be tried
    /// again.
    pub fn step(&mut self) -> Result<Option<ObjectId>, NoMemory>
        ensures verifier { IsVerifier self.old → IsVerifier self.new }
        ensures same { IsOfSame self.old self.new }
        ensures next { IfOk result (JudgesNext self.old self.new) }
        ensures kept { OnErr result (self.new ≡ self.old) }
    {
        if self.judged >= self.order.len() {
            return Ok(None);
        }
        let id = self.order[self.judged];
        let found = self.found(id)?;
        keep(&mut self.verdicts, id, found.verdict);
        put(&mut self.integers, id, found.integers);
        self.judged += 1;
        Ok(Some(id))
    }

    /// What is found of the method with a number, which is next; nothing where no method has it.
    fn found(&self, id: ObjectId) -> Result<Found, NoMemory>
        requires next { slice_get (numbers self.now.order.items) self.now.judged ≡ Some id.0 }
        ensures { IfOk result (λ f. IsVerifier self.now → FoundOf self.now id.0 f) }
    {
        match self.read.namespace.method(id) {
            Some(method) => self.judge(id, method),
            None => Ok(Found {
                verdict: None,
                integers: false,
            }),
        }
    }

    /// What is found of the next method. Its body is read where its statements are not handed on.
    fn judge(&self, id: ObjectId, method: Method) -> Result<Found, NoMemory>
        requires next { slice_get (numbers self.now.order.items) self.now.judged ≡ Some id.0 }
        requires there { method_at (shown self.now.read.namespace.now) id.0 ≡ Some method }
        ensures { IfOk result (λ f. IsVerifier self.now → FoundOf self.now id.0 f) }
    {
        if let Some(body) = self.read.trees.find(id) {
            return self.judge_body(id, method, body);
        }
        match self.read.namespace.tree(self.alloc, id) {
            Ok(body) => self.judge_body(id, method, &body),
            Err(TreeFault::Refused(refusal)) => Ok(Found {
                verdict: Some(Verdict::Unreadable {
                    table: method.table,
                    refusal,
                }),
                integers: false,
            }),
            Err(TreeFault::NoMemory) => Err(NoMemory),
        }
    }

    /// The same where its statements are read.
    fn judge_body(&self, id: ObjectId, method: Method, body: &[Term]) -> Result<Found, NoMemory>
        requires next { slice_get (numbers self.now.order.items) self.now.judged ≡ Some id.0 }
        requires there { method_at (shown self.now.read.namespace.now) id.0 ≡ Some method }
        requires read { IsRead (shown self.now.read.namespace.now) id.0 method (map view body.now) }
        ensures { IfOk result (λ f. IsVerifier self.now → FoundOf self.now id.0 f) }
    {
        let kept = self.read.kept(id);
        let (verdict, integers) = self.judge_with(id, method, kept, body)?;
        Ok(Found {
            verdict: Some(verdict),
            integers,
        })
    }

    /// Its verdict, and whether it is accepted and evaluates integers alone. What its names mean is
    /// taken from what is kept of its body.
    fn judge_with(
        &self,
        id: ObjectId,
        method: Method,
        kept: &Kept,
        body: &[Term],
    ) -> Result<(Verdict, bool), NoMemory>
        requires next { slice_get (numbers self.now.order.items) self.now.judged ≡ Some id.0 }
        requires there { method_at (shown self.now.read.namespace.now) id.0 ≡ Some method }
        requires read { IsRead (shown self.now.read.namespace.now) id.0 method (map view body.now) }
        requires kept { kept_at self.now.read.kept.items id.0 ≡ Some kept.now }
        ensures said { IfOk result (λ f. IsVerifier self.now → SaysNext self.now id.0 method f.0) }
        ensures marks { IfOk result (λ f. IsVerifier self.now → MarksNext self.now id.0 f.1) }
    {
        let namespace = self.read.namespace;
        let bytes = namespace.body_bytes(id);
        let args = arguments(self.alloc, namespace, self.signatures, id, method.args)?;
        let names = Named {
            namespace,
            method: id,
            bytes,
            owns: &kept.owns,
            links: &kept.links,
        };
        let mut around = Body {
            alloc: self.alloc,
            names,
            table: method.table,
            shapes: &self.shapes,
            shared: &self.shared,
            verdicts: &self.verdicts,
            heights: &self.heights,
            components: &self.components,
            held: Vec::new(self.alloc),
            fields: Vec::new(self.alloc),
            finding: Cell::new(Finding::Nothing),
            reached: Cell::new(None),
        };
        self.shapes.are_apart();
        let alone = integers_alone(&around, &self.integers, &args, body);
        let short = self.heights.is_short(id, 64);
        match judge(self.alloc, &mut around, short, method.at, args, body) {
            Ok(accepted) => Ok((Verdict::Accepted(accepted), alone)),
            Err(Stop::Refused(refusal)) => {
                let last = around.finding.get();
                let finding = refused(refusal.why, last, around.table, around.reached.get());
                Ok((Verdict::Refused(refusal, finding), false))
            }
            Err(Stop::NoMemory) => Err(NoMemory),
        }
    }

    /// What is said of all methods, where all are judged. It takes no memory.
    #[must_use]
    pub fn finish(self) -> Checked<'a>
        ensures checked { let v = self.entry in
            IsVerifier v → left v ≡ 0 →
            IsChecked (kinds_told v.signatures.now) result }
        ensures namespace { result.namespace.now ≡ self.entry.read.namespace.now }
    {
        let read = self.read;
        Checked {
            namespace: read.namespace,
            shapes: self.shapes,
            verdicts: self.verdicts,
            kept: read.kept,
            integers: self.integers,
        }
    }
}

/// Judges all methods of a namespace, whose arguments are of the kinds that signatures tell.
///
/// # Errors
///
/// `NoMemory`, where memory is wanted.
pub fn verify<'a>(
    alloc: Global,
    namespace: &'a Namespace<'a>,
    signatures: &Signatures,
) -> Result<Checked<'a>, NoMemory>
    ensures checked { IfOk result (IsChecked (kinds_told signatures.now)) }
    ensures namespace { IfOk result (λ c. c.namespace.now ≡ namespace.now) }
{
    let mut verifier = Verifier::new(alloc, namespace, signatures)?;
    for _ in 0..verifier.left() {
        verifier.step()?;
    }
    Ok(verifier.finish())
}
