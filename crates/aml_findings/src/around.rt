// What is known around a body.

ghost use Rattle.std.specs.Prelude.{◌≡◌, IfOk, IfSome, OnOk};
ghost use Rattle.aml_operators.specs.Tree.{views};
ghost use Rattle.aml_objects.specs.Widths.{bits_of};
ghost use Rattle.aml_contents.specs.Contents.{kind_at};
ghost use Rattle.aml_contents.specs.FirstKinds.{kind_by};
ghost use Rattle.aml_judged.specs.Bodies.{grown};
ghost use Rattle.aml_judged.specs.Judged as judged;
ghost use Rattle.aml_meaning.specs.Owns.{field_at};
ghost use Rattle.aml_known.specs.Views.{kind_of};
ghost use Rattle.aml_regions.specs.Fields.{IsSoundField};
ghost use Rattle.aml_findings.specs.Views.{content_of, made_of, seen_of};

use crate::finding::Finding;
use aml_known::{Accepted, Known, Shapes};
use aml_meaning::BufferField;
use aml_namespace::{Link, Object, Width};
use aml_operators::{Op, Term};
use aml_paths::{NoMemory, ObjectId};
use aml_regions::AnyField;

/// What a method sees of one that it calls.
#[derive(Clone, Copy, Debug)]
pub struct Seen<'a> {
    /// Whether it reaches the caller.
    pub reaches: bool,
    /// Whether a chain of 64 methods or more begins with it.
    pub deep: bool,
    /// What it is, where it is accepted.
    pub accepted: Option<&'a Accepted>,
}

/// What a statement at the top of a body makes.
#[derive(Clone, Copy, Debug, PartialEq, Eq)]
pub enum Made {
    Nothing,
    /// A name that holds what is of a kind.
    Holding(Known),
    /// A field of a buffer.
    Field(BufferField),
}

/// What is known around a method's body, its own names so far among it, with the shapes of packages
/// by their numbers.
pub trait Around: Shapes {
    ghost around: { Self → judged.Around };

    /// The number of the body's table in the order of loading.
    fn table(&self) -> usize
        ensures { result ≡ (around self.now).table };

    /// How wide integers are.
    fn width(&self) -> Width
        ensures { bits_of result ≡ (around self.now).width };

    /// What the name at a place means.
    fn link(&self, at: usize) -> Link
        ensures { result ≡ (around self.now).link at };

    /// Whether the name at a place is one segment without prefix.
    fn lone(&self, at: usize) -> bool
        ensures { result ≡ (around self.now).lone at };

    /// The object with a number.
    fn object(&self, id: ObjectId) -> Option<Object>
        ensures { result ≡ (around self.now).object id.0 };

    /// The field of a region that the object with a number is, where it can be read and written.
    fn field(&self, id: ObjectId) -> Option<AnyField>
        ensures is { result ≡ (around self.now).field id.0 }
        ensures sound { IfSome result IsSoundField };

    /// The field of a buffer that the object with a number is, where it can be read and written.
    fn buffer_field(&self, id: ObjectId) -> Option<BufferField>
        ensures { result ≡ (around self.now).buffer_field id.0 };

    /// The kind of a literal of data.
    fn literal(&self, op: Op, parts: &[Term]) -> Result<Known, NoMemory>
        ensures { IfOk result (λ k. kind_of (Self.numbered self.now) k
            ≡ kind_by ((around self.now).literal op (views parts.now))) };

    /// The kind of the data name with a number; none where that is no data name.
    fn shared(&self, id: ObjectId) -> Option<Known>
        ensures { content_of (Self.numbered self.now) result
            ≡ kind_at (around self.now).kinds.shared id.0 };

    /// What is seen of the method with a number.
    fn callee(&self, id: ObjectId) -> Seen<'_>
        ensures { seen_of (Self.numbered self.now) result ≡ (around self.now).callee id.0 };

    /// The kind of what the own name with a number holds, if it is there and holds something.
    fn own(&self, number: usize) -> Option<Known>
        ensures { content_of (Self.numbered self.now) result
            ≡ kind_at (around self.now).kinds.owns number };

    /// The field of a buffer that the own name with a number is.
    fn own_field(&self, number: usize) -> Option<BufferField>
        ensures { result ≡ field_at (around self.now).kinds.fields number };

    /// Is told what a rule finds, before it refuses. Nothing that is known changes.
    fn finds(&self, finding: Finding);

    /// The statement that was told last, by its place, with which the steps of its block reach
    /// 2^63, if one was.
    fn reached(&self) -> Option<usize>;

    /// Is told which statement that is, or that none is. Nothing that is known changes.
    fn reaches(&self, at: Option<usize>);

    /// Makes an own name more, if there is one to make.
    fn make(&mut self, made: Made) -> Result<(), NoMemory>
        ensures makes { OnOk result
            (around self.new ≡ grown (around self.old) (made_of (Self.numbered self.old) made)) }
        ensures shapes { Self.numbered self.new ≡ Self.numbered self.old };
}
