// Which kinds, fields and names have integers alone.

ghost use Rattle.std.specs.Prelude.{◌≡◌, nat_le, Bool, ℕ};
ghost use Rattle.aml_kinds.specs.Kinds.{Shape};
ghost use Rattle.aml_known.specs.Views.{kinds_of};
ghost use Rattle.aml_judged.specs.Integers as judged;
ghost use Rattle.aml_findings.specs.Views.{content_of};
ghost use Rattle.aml_integers.specs.Known.{body_in, marked, methods_in};

use aml_findings::Around;
use aml_known::Known;
use aml_meaning::{BufferField, Definition};
use aml_namespace::Link;
use aml_paths::ObjectId;
use aml_regions::AnyField;

/// Whether there is a kind, and it is that of integers.
fn is_integer(kind: Option<Known>) -> bool
    ensures { (shapes : ℕ → Shape) → result ≡ judged.is_integer (content_of shapes kind) }
{
    match kind {
        Some(Known::Int(_)) => true,
        _ => false,
    }
}

/// Whether kinds are all those of integers.
pub fn are_integers(kinds: &[Known]) -> bool
    ensures { (shapes : ℕ → Shape) → result ≡ judged.are_integers (kinds_of shapes kinds.now) }
{
    'kinds: for i in 0..kinds.len() {
        if !is_integer(Some(kinds[i])) {
            return false;
        }
    }
    true
}

/// Whether an integer has room for so many bits.
fn fits_width<A: Around>(here: &A, bits: u64) -> bool
    ensures { result ≡ nat_le bits (A.around here.now).width }
{
    bits <= u64::from(here.width().bits())
}

/// Whether there is a field of a region that can be read and written, and its value is an integer.
fn is_narrow<A: Around>(here: &A, field: Option<AnyField>) -> bool
    ensures { result ≡ judged.is_narrow (A.around here.now).width field }
{
    match field {
        Some(field) => fits_width(here, field.layout().bits),
        None => false,
    }
}

/// The same of a field of a buffer.
fn is_narrow_buffer_field<A: Around>(here: &A, field: Option<BufferField>) -> bool
    ensures { result ≡ judged.is_narrow_buffer_field (A.around here.now).width field }
{
    match field {
        Some(field) => fits_width(here, field.bits),
        None => false,
    }
}

/// Whether what is made is nothing.
pub fn makes_nothing(made: Definition) -> bool
    ensures { result ≡ judged.makes_nothing made }
{
    match made {
        Definition::Nothing => true,
        _ => false,
    }
}

/// Whether the method with a number is marked as one that evaluates integers alone.
fn is_marked(only: &[bool], id: ObjectId) -> bool
    ensures { result ≡ marked only.now id.0 }
{
    match only.get(id.0) {
        Some(mark) => *mark,
        None => false,
    }
}

/// Whether what a name means holds integers alone, or has them as a field.
pub fn name<A: Around>(here: &A, link: Link) -> bool
    ensures { (only : ℕ → Bool) → result ≡ judged.integer_name (methods_in (A.around here.now))
        (body_in (A.around here.now)) (A.around here.now).kinds.shared only link }
{
    match link {
        Link::Data(id) => is_integer(here.shared(id)),
        Link::Field(id) => is_narrow(here, here.field(id)),
        Link::BufferField(id) => is_narrow_buffer_field(here, here.buffer_field(id)),
        _ => false,
    }
}

/// Whether a name with arguments calls a method that evaluates integers alone, or is read as one
/// without.
pub fn called<A: Around>(here: &A, only: &[bool], link: Link) -> bool
    ensures { result ≡ judged.integer_called (methods_in (A.around here.now))
        (body_in (A.around here.now)) (A.around here.now).kinds.shared (marked only.now) link }
{
    match link {
        Link::Method(id) => is_marked(only, id),
        _ => name(here, link),
    }
}

/// Whether CondRefOf may be asked of what a name means: what holds no value counts for nothing.
pub fn asked<A: Around>(here: &A, link: Link) -> bool
    ensures { (only : ℕ → Bool) → result ≡ judged.integer_asked (methods_in (A.around here.now))
        (body_in (A.around here.now)) (A.around here.now).kinds.shared only link }
{
    match link {
        Link::Data(_) | Link::Field(_) | Link::BufferField(_) => name(here, link),
        Link::Own(_) => false,
        _ => true,
    }
}
