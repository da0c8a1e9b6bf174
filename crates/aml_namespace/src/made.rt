// The objects that definitions make (ACPI 6.5, 19.6).

ghost use Rattle.std.specs.Prelude.{◌≡◌, ◌-◌, length};
ghost use Rattle.aml_operators.specs.declared.row.Code.TheVariants as code;
ghost use Rattle.aml_operators.specs.Shape.{AreShaped, IsShaped};
ghost use Rattle.aml_operators.specs.Tree.{view, views};
ghost use Rattle.aml_namespace.specs.Parts.{HasParts};
ghost use Rattle.aml_objects.specs.Kept.{here_of};
ghost use Rattle.aml_namespace.specs.Made.{buffer_field, data_of, method_of, name_place, named, named_bits, named_buffer_field, named_data, named_method, named_mutex, named_region, object_of, reference, scope_numbered};

use crate::content::{content_in, literal};
use aml_objects::{
    CreatedField, CreatedFieldSize, DataName, Here, Method, Object, Reference, Region, Source,
};
use aml_operators::{Op, Term, four, literal_of, number_in, three, two};
use aml_paths::{NamePlace, ObjectId, Scope};
use aml_tree::Span;

/// The scope whose path has a number.
pub(crate) fn scope_numbered(path: usize) -> Scope
    ensures { result ≡ scope_numbered path }
{
    match path {
        0 => Scope::Root,
        _ => Scope::At(ObjectId(path - 1)),
    }
}

/// A name that stands here.
#[tactic(auto, using(aml_operators::proofs::Views::view_out, aml_operators::proofs::PartsOf::part_count))]
pub(crate) fn name_place(here: Here<'_>, name: &Term) -> NamePlace
    ensures { result ≡ name_place (here_of here.entry) (view name.now) }
{
    NamePlace {
        table: here.table,
        at: name.at,
        scope: scope_numbered(here.scope),
    }
}

/// What is named here, and found once all tables are loaded.
pub(crate) fn reference(here: Here<'_>, name: &Term) -> Reference
    ensures { result ≡ reference (here_of here.entry) (view name.now) }
{
    Reference {
        name: name_place(here, name),
        object: None,
    }
}

/// A name of data.
#[tactic(auto, using(aml_operators::proofs::Views::view_out, aml_operators::proofs::PartsOf::part_count))]
fn data_of(here: Here<'_>, term: &Term) -> Object
    requires { IsShaped code.Module (view term.now) }
    ensures { result ≡ data_of (here_of here.entry) (view term.now) }
{
    Object::Data(DataName {
        content: content_in(term.op, &term.parts),
        source: Source::Term {
            table: here.table,
            span: Span {
                at: term.at,
                end: term.end,
            },
            scope: scope_numbered(here.scope),
        },
    })
}

/// A method, by its flags.
#[tactic(auto, using(aml_operators::proofs::Views::view_out, aml_operators::proofs::PartsOf::part_count))]
fn method_of(here: Here<'_>, at: usize, flags: u64, body: &Term) -> Object
    ensures { result ≡ method_of (here_of here.entry) at flags (view body.now) }
{
    Object::Method(Method {
        args: (flags % 8) as u8,
        serialized: flags / 8 % 2 == 1,
        sync_level: (flags / 16 % 16) as u8,
        table: here.table,
        at,
        body: Span {
            at: body.at,
            end: body.end,
        },
    })
}

/// A field of a buffer.
fn buffer_field(here: Here<'_>, size: CreatedFieldSize, buffer: &Term, index: &Term) -> Object
    ensures { result ≡ buffer_field (here_of here.entry) size (view buffer.now) (view index.now) }
{
    Object::BufferField(CreatedField {
        source: reference(here, buffer),
        index: literal(index),
        size,
    })
}

/// An object, with the place of its name.
type Named = Option<(usize, Object)>;

/// What is named by the first part.
#[tactic(auto, using(aml_operators::proofs::Views::view_out, aml_operators::proofs::PartsOf::part_count))]
fn named(made: Object, parts: &[Term]) -> Named
    ensures { result ≡ named made (views parts.now) }
{
    match parts {
        [name, ..] => Some((name.at, made)),
        [] => None,
    }
}

/// A name of data.
#[tactic(auto, using(aml_operators::proofs::Views::view_out, aml_operators::proofs::PartsOf::part_count))]
fn named_data(here: Here<'_>, parts: &[Term]) -> Named
    requires has { length parts.now ≡ 2 }
    requires shaped { AreShaped code.Module (views parts.now) }
    ensures { result ≡ named_data (here_of here.entry) (views parts.now) }
{
    let (name, term) = two(parts);
    Some((name.at, data_of(here, term)))
}

/// A method.
#[tactic(auto, using(aml_operators::proofs::Views::view_out, aml_operators::proofs::PartsOf::part_count))]
fn named_method(here: Here<'_>, at: usize, parts: &[Term]) -> Named
    requires { length parts.now ≡ 3 }
    ensures { result ≡ named_method (here_of here.entry) at (views parts.now) }
{
    let (name, flags, body) = three(parts);
    Some((name.at, method_of(here, at, number_in(flags), body)))
}

/// An operation region.
#[tactic(auto, using(aml_operators::proofs::Views::view_out, aml_operators::proofs::PartsOf::part_count))]
fn named_region(parts: &[Term]) -> Named
    requires { length parts.now ≡ 4 }
    ensures { result ≡ named_region (views parts.now) }
{
    let (name, space, place, length) = four(parts);
    let region = Region {
        space: number_in(space),
        place: literal_of(place),
        length: literal_of(length),
    };
    Some((name.at, Object::Region(region)))
}

/// A mutex, by its flags.
#[tactic(auto, using(aml_operators::proofs::Views::view_out, aml_operators::proofs::PartsOf::part_count))]
fn named_mutex(parts: &[Term]) -> Named
    requires { length parts.now ≡ 2 }
    ensures { result ≡ named_mutex (views parts.now) }
{
    let (name, flags) = two(parts);
    let sync_level = (number_in(flags) % 16) as u8;
    Some((name.at, Object::Mutex { sync_level }))
}

/// A field of a buffer, of a size that its operator tells.
#[tactic(auto, using(aml_operators::proofs::Views::view_out, aml_operators::proofs::PartsOf::part_count))]
fn named_buffer_field(here: Here<'_>, size: CreatedFieldSize, parts: &[Term]) -> Named
    requires { length parts.now ≡ 3 }
    ensures { result ≡ named_buffer_field (here_of here.entry) size (views parts.now) }
{
    let (buffer, index, name) = three(parts);
    Some((name.at, buffer_field(here, size, buffer, index)))
}

/// A field of a buffer, of so many bits.
#[tactic(auto, using(aml_operators::proofs::Views::view_out, aml_operators::proofs::PartsOf::part_count))]
fn named_bits(here: Here<'_>, parts: &[Term]) -> Named
    requires { length parts.now ≡ 4 }
    ensures { result ≡ named_bits (here_of here.entry) (views parts.now) }
{
    let (buffer, index, bits, name) = four(parts);
    let size = CreatedFieldSize::Bits(literal(bits));
    Some((name.at, buffer_field(here, size, buffer, index)))
}

/// What a definition makes that makes one object.
#[tactic(auto, using(aml_operators::proofs::PartsOf::part_count))]
pub(crate) fn object_of(here: Here<'_>, op: Op, at: usize, parts: &[Term]) -> Named
    requires has { HasParts op (views parts.now) }
    requires shaped { AreShaped code.Module (views parts.now) }
    ensures { result ≡ object_of (here_of here.entry) op at (views parts.now) }
{
    match op {
        Op::Name => named_data(here, parts),
        Op::Method => named_method(here, at, parts),
        Op::Mutex => named_mutex(parts),
        Op::Event => named(Object::Event, parts),
        Op::DataTableRegion => named(Object::DataTableRegion, parts),
        Op::OperationRegion => named_region(parts),
        Op::CreateBitField => named_buffer_field(here, CreatedFieldSize::Bit, parts),
        Op::CreateByteField => named_buffer_field(here, CreatedFieldSize::Byte, parts),
        Op::CreateWordField => named_buffer_field(here, CreatedFieldSize::Word, parts),
        Op::CreateDWordField => named_buffer_field(here, CreatedFieldSize::DWord, parts),
        Op::CreateQWordField => named_buffer_field(here, CreatedFieldSize::QWord, parts),
        Op::CreateField => named_bits(here, parts),
        _ => None,
    }
}
