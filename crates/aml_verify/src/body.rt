// What is known around a body that is judged.

ghost use Rattle.std.specs.Prelude.{◌≡◌, None, OnOk, slice_get, unwrap_or};
ghost use Rattle.aml_shapes.specs.Numbers.{numbered};
ghost use Rattle.aml_verify.specs.Bodies.{around_body, IsGrown};

use crate::verdict::{Verdict, accepted_at};
use aml_components::{Components, Heights};
use aml_fields::{buffer_field_numbered, field_in};
use aml_findings::{Around, Finding, Made, Seen};
use aml_known::{ElementKnown, Known, ShapeNumber, Shapes};
use aml_lex::name_there;
use aml_meaning::BufferField;
use aml_methods::Named;
use aml_namespace::{Link, Object, Width};
use aml_operators::{Op, Term};
use aml_paths::{NoMemory, ObjectId};
use aml_regions::AnyField;
use aml_shapes::ShapeTable;
use std::alloc::Global;
use std::cell::Cell;

/// What is known around a method's body, and the own names that it made so far.
#[derive(Drop)]
pub(crate) struct Body<'n, 'k, 'b> {
    pub alloc: Global,
    /// Whose body it is, with what its names mean.
    pub names: Named<'n, 'k>,
    /// The number of its table.
    pub table: usize,
    pub shapes: &'b ShapeTable,
    /// The kinds of data names, by the numbers of their objects.
    pub shared: &'b [Option<Known>],
    pub verdicts: &'b [Option<Verdict>],
    pub heights: &'b Heights,
    pub components: &'b Components,
    /// Of each own name that was made the kind of what it holds, unless it is a field.
    pub held: Vec<Option<Known>>,
    /// Of each the field that it is.
    pub fields: Vec<Option<BufferField>>,
    /// What a rule found last that may refuse; where the method is refused, what it found there.
    pub finding: Cell<Finding>,
    /// The statement, by its place, with which the steps of its block reach 2^63, if one does.
    pub reached: Cell<Option<usize>>,
}

/// A copy of what stands at a place, if anything does.
fn at<T: Copy>(places: &[Option<T>], number: usize) -> Option<T>
    ensures { result ≡ unwrap_or (slice_get places.now number) None }
{
    match places.get(number) {
        Some(Some(found)) => Some(*found),
        _ => None,
    }
}

impl Body<'_, '_, '_> {
    /// Makes an own name more.
    fn grow(&mut self, kind: Option<Known>, field: Option<BufferField>) -> Result<(), NoMemory>
        ensures grown { OnOk result (IsGrown self.old self.new kind field) }
        ensures shapes { self.new.shapes ≡ self.old.shapes }
    {
        self.held.reserve(1)?;
        self.fields.push(field)?;
        self.held.push(kind)?;
        Ok(())
    }
}

impl Shapes for Body<'_, '_, '_> {
    ghost numbered = { λ b. numbered b.shapes.now };

    fn places(&self, shape: ShapeNumber) -> Result<u64, NoMemory> {
        self.shapes.places(shape)
    }

    fn place(&self, shape: ShapeNumber, number: u64) -> Result<Option<ElementKnown>, NoMemory> {
        self.shapes.place(shape, number)
    }

    fn joined(&self, shape: ShapeNumber) -> Result<Option<ElementKnown>, NoMemory> {
        self.shapes.joined(shape)
    }
}

impl Around for Body<'_, '_, '_> {
    ghost around = { around_body };

    fn table(&self) -> usize {
        self.table
    }

    fn width(&self) -> Width {
        self.names.namespace.width()
    }

    fn link(&self, at: usize) -> Link {
        self.names.link(at)
    }

    fn lone(&self, at: usize) -> bool {
        match name_there(self.names.bytes, at) {
            Some(name) => name.lone_segment().is_some(),
            None => false,
        }
    }

    fn object(&self, id: ObjectId) -> Option<Object> {
        self.names.namespace.object(id)
    }

    fn field(&self, id: ObjectId) -> Option<AnyField> {
        let Some(Object::Field(field)) = self.names.namespace.object(id) else {
            return None;
        };
        field_in(self.names.namespace, &field)
    }

    fn buffer_field(&self, id: ObjectId) -> Option<BufferField> {
        buffer_field_numbered(self.names.namespace, id)
    }

    fn literal(&self, op: Op, parts: &[Term]) -> Result<Known, NoMemory> {
        self.shapes
            .find(self.alloc, self.names.namespace.width(), op, parts)
    }

    fn shared(&self, id: ObjectId) -> Option<Known> {
        at(self.shared, id.0)
    }

    fn callee(&self, id: ObjectId) -> Seen<'_> {
        Seen {
            reaches: self.components.reach_each_other(id, self.names.method),
            deep: !self.heights.is_short(id, 63),
            accepted: accepted_at(self.verdicts, id.0),
        }
    }

    fn own(&self, number: usize) -> Option<Known> {
        at(&self.held, number)
    }

    fn own_field(&self, number: usize) -> Option<BufferField> {
        at(&self.fields, number)
    }

    fn finds(&self, finding: Finding) {
        self.finding.set(finding);
    }

    fn reached(&self) -> Option<usize> {
        self.reached.get()
    }

    fn reaches(&self, at: Option<usize>) {
        self.reached.set(at);
    }

    fn make(&mut self, made: Made) -> Result<(), NoMemory> {
        match made {
            Made::Nothing => Ok(()),
            Made::Holding(kind) => self.grow(Some(kind), None),
            Made::Field(field) => self.grow(None, Some(field)),
        }
    }
}
