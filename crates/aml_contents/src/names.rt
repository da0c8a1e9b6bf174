// What data names hold.

ghost use Rattle.std.specs.Prelude.{◌≡◌, ◌↔◌, ◌++◌, ◌∷◌, [], OnOk, OnErr, IfOk, IfErr, IsTrue, is_ok, true, Some};
ghost use Rattle.std.specs.Option.{option_map};
ghost use Rattle.aml_namespace.specs.Shows.{shown};
ghost use Rattle.aml_values.specs.Views.{view};
ghost use Rattle.aml_kinds.specs.KindViews.{kind_of};
ghost use Rattle.aml_kinds.specs.SameKinds.{same_content_kind, same_kind};
ghost use Rattle.aml_contents.specs.Belongs.{Belong};
ghost use Rattle.aml_contents.specs.Contents.{HoldTheirKinds, are_fitting, changed_byte, content_at, has_byte, kind_at, may_hold, with_byte, with_content};
ghost use Rattle.aml_contents.specs.ContentViews.{content, content_kind, content_kinds_of, contents_of};
ghost use Rattle.aml_contents.specs.DataKinds.{name_kind_told, object_kind};
ghost use Rattle.aml_contents.specs.FirstKinds.{first_kind, greatest_of, held_first};

use crate::data_kinds::is_source_shape;
use crate::first_kinds::{first_kind, held_first};
use aml_kinds::{Kind, copy_kind, fits};
use aml_namespace::{Content, Namespace, Object, Source, Width};
use aml_paths::{NoMemory, ObjectId};
use aml_values::{Value, copy};
use std::alloc::Global;

/// What data names hold, by the numbers of their objects. Each content is of its name's kind.
#[derive(Drop)]
pub struct Names {
    contents: Vec<Option<Value>>,
    /// Of each content.
    kinds: Vec<Option<Kind>>,
    ghost fitting: { are_fitting (contents_of contents.items)
        (content_kinds_of kinds.items) ≡ true },
}

impl Names {
    ghost use Rattle.aml_contents.specs.Held.{contents, content_kinds};

    /// No contents.
    pub fn new(alloc: Global) -> Names
        ensures contents { contents result ≡ [] }
        ensures kinds { content_kinds result ≡ [] }
    {
        Names {
            contents: Vec::new(alloc),
            kinds: Vec::new(alloc),
        }
    }

    /// Adds what the object with the next number holds first, None where it is no data name. An
    /// integer is taken modulo 2 to the width. The name's kind is from now on that of this content;
    /// an integer's is that of each integer of the width.
    ///
    /// Where memory is wanted, nothing changes.
    pub fn push(&mut self, alloc: Global, width: Width, held: Option<Value>) -> Result<(), NoMemory>
        ensures held { OnOk result
            (contents self.new ≡ contents self.old ++ held_first width (content held) ∷ []) }
        ensures kinds { OnOk result (content_kinds self.new ≡
            content_kinds self.old ++ first_kind (greatest_of width) (content held) ∷ []) }
        ensures kept { OnErr result (contents self.new ≡ contents self.old) }
        ensures kinds_kept { OnErr result (content_kinds self.new ≡ content_kinds self.old) }
    {
        let kind = first_kind(alloc, width.greatest(), &held)?;
        self.kinds.push(kind)?;
        match self.contents.push(held_first(width, held)) {
            Ok(()) => Ok(()),
            Err(_) => {
                self.kinds.pop();
                Err(NoMemory)
            }
        }
    }

    /// A copy.
    pub fn copy(&self, alloc: Global) -> Result<Names, NoMemory>
        ensures contents { IfOk result (λ made. contents made ≡ contents self.now) }
        ensures kinds { IfOk result (λ made. content_kinds made ≡ content_kinds self.now) }
    {
        let contents = copied_contents(alloc, &self.contents)?;
        let kinds = copied_kinds(alloc, &self.kinds)?;
        Ok(Names { contents, kinds })
    }

    /// Whether these are the names of a namespace: there are just as many as it has objects, and
    /// their kinds are those of its names' first contents, also of what stands in packages. The
    /// data is read in the tables' bytes; no memory is taken.
    pub fn belong(&self, namespace: &Namespace<'_>) -> bool
        ensures { IsTrue result ↔ Belong (shown namespace.now) (content_kinds self.now) }
    {
        if self.kinds.len() != namespace.len() {
            return false;
        }
        for i in 0..self.kinds.len() {
            if !is_kind_of(namespace, namespace.object(ObjectId(i)), self.kind(i)) {
                return false;
            }
        }
        true
    }

    /// The kind of what the name with this number holds.
    fn kind(&self, number: usize) -> Option<&Kind>
        ensures { option_map (λ k. kind_of k.now) result ≡ kind_at (content_kinds self.now) number }
    {
        match self.kinds.get(number) {
            Some(Some(kind)) => Some(kind),
            _ => None,
        }
    }

    /// What the name with this number holds; None where no data name has it.
    pub fn get(&self, id: ObjectId) -> Option<&Value>
        ensures { option_map (λ v. view v.now) result ≡ content_at (contents self.now) id.0 }
    {
        match self.contents.get(id.0) {
            Some(Some(value)) => Some(value),
            _ => None,
        }
    }

    /// Whether the name with this number may hold a value.
    fn may_hold(&self, number: usize, value: &Value) -> bool
        ensures { result ≡ may_hold (content_kinds self.now) number (view value.now) }
    {
        match self.kinds.get(number) {
            Some(Some(kind)) => fits(value, kind),
            _ => false,
        }
    }

    /// Makes a name hold a value of its kind. Any other value is handed back, and nothing changes.
    pub fn set(&mut self, id: ObjectId, value: Value) -> Result<(), Value>
        ensures fits { is_ok result ≡ may_hold (content_kinds self.old) id.0 (view value) }
        ensures put { OnOk result
            (contents self.new ≡ with_content (contents self.old) id.0 (view value)) }
        ensures back { IfErr result (λ back. back ≡ value) }
        ensures kept { OnErr result (contents self.new ≡ contents self.old) }
        ensures kinds { content_kinds self.new ≡ content_kinds self.old }
    {
        if !self.may_hold(id.0, &value) {
            return Err(value);
        }
        self.contents[id.0] = Some(value);
        Ok(())
    }

    /// What each name holds is of its kind.
    pub fn hold_their_kinds(&self)
        ensures { HoldTheirKinds (contents self.now) (content_kinds self.now) }
    {}

    /// Sets a byte of the buffer that a name holds; false where there is no such byte.
    pub fn set_byte(&mut self, id: ObjectId, at: usize, byte: u8) -> bool
        ensures there { result ≡ has_byte (content_at (contents self.old) id.0) at }
        ensures put { contents self.new ≡ changed_byte (contents self.old) id.0 at byte }
        ensures kinds { content_kinds self.new ≡ content_kinds self.old }
    {
        put_byte(&mut self.contents, id.0, at, byte)
    }
}

/// Sets a byte of the buffer that stands in a place.
fn put_byte(contents: &mut [Option<Value>], number: usize, at: usize, byte: u8) -> bool
    ensures there { result ≡ has_byte (content_at (contents_of contents.old) number) at }
    ensures put { contents_of contents.new ≡
        changed_byte (contents_of contents.old) number at byte }
{
    if number >= contents.len() {
        return false;
    }
    put_in(&mut contents[number], at, byte)
}

/// Sets a byte of the buffer that a content may be.
fn put_in(held: &mut Option<Value>, at: usize, byte: u8) -> bool
    ensures there { result ≡ has_byte (content held.old) at }
    ensures put { content held.new ≡ option_map (λ v. with_byte v at byte) (content held.old) }
{
    match held {
        Some(Value::Buf(bytes)) => bytes.set(at, byte),
        _ => false,
    }
}

/// Copies of contents.
fn copied_contents(
    alloc: Global,
    contents: &[Option<Value>],
) -> Result<Vec<Option<Value>>, NoMemory>
    ensures { IfOk result (λ made. contents_of made.items ≡ contents_of contents.now) }
{
    let mut made = Vec::new(alloc);
    for each in contents {
        let copy = copied_content(alloc, each)?;
        made.push(copy)?;
    }
    Ok(made)
}

/// A copy of a content.
fn copied_content(alloc: Global, each: &Option<Value>) -> Result<Option<Value>, NoMemory>
    ensures { IfOk result (λ made. content made ≡ content each.now) }
{
    match each {
        Some(value) => Ok(Some(copy(alloc, value)?)),
        None => Ok(None),
    }
}

/// Copies of the kinds of contents.
fn copied_kinds(alloc: Global, kinds: &[Option<Kind>]) -> Result<Vec<Option<Kind>>, NoMemory>
    ensures { IfOk result (λ made. content_kinds_of made.items ≡ content_kinds_of kinds.now) }
{
    let mut made = Vec::new(alloc);
    for each in kinds {
        let copy = copied_content_kind(alloc, each)?;
        made.push(copy)?;
    }
    Ok(made)
}

/// A copy of the kind of a content.
fn copied_content_kind(alloc: Global, each: &Option<Kind>) -> Result<Option<Kind>, NoMemory>
    ensures { IfOk result (λ made. content_kind made ≡ content_kind each.now) }
{
    match each {
        Some(kind) => Ok(Some(copy_kind(alloc, kind)?)),
        None => Ok(None),
    }
}

/// Whether an object has just this kind of content first.
fn is_kind_of(namespace: &Namespace<'_>, object: Option<Object>, kind: Option<&Kind>) -> bool
    ensures { let held = option_map (λ k. kind_of k.now) kind.entry in
        result ≡ same_content_kind held (object_kind (shown namespace.now) object) }
{
    match (object, kind) {
        (Some(Object::Data(data)), Some(kind)) => {
            is_kind_told(namespace, kind, data.content, data.source)
        }
        (Some(Object::Data(_)), None) => false,
        (_, None) => true,
        (_, Some(_)) => false,
    }
}

/// Whether a kind is that of a name of whose first content it is told what it is, and where it
/// comes from.
fn is_kind_told(namespace: &Namespace<'_>, kind: &Kind, told: Content, source: Source) -> bool
    ensures { result ≡
        same_kind (kind_of kind.now) (name_kind_told (shown namespace.now) told source) }
{
    match (told, kind) {
        (Content::Integer, Kind::Int(greatest)) => *greatest == namespace.width().greatest(),
        (Content::Buffer(size), Kind::Buf(bytes)) => *bytes == size,
        (Content::String(size), Kind::Str(characters)) => *characters == size,
        (Content::Package(size), Kind::Pkg(shape)) => {
            is_source_shape(namespace, shape.places(), size, source)
        }
        _ => false,
    }
}
