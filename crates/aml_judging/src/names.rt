// Names that are read.

ghost use Rattle.std.specs.Prelude.{◌≡◌, IfSome};
ghost use Rattle.aml_causes.specs.declared.cause.Refusal.{Refusal};
ghost use Rattle.aml_regions.specs.Fields.{IsSoundField};
ghost use Rattle.aml_meaning.specs.Owns.{field_at};
ghost use Rattle.aml_meaning.specs.Rules.{Place};
ghost use Rattle.aml_judged.specs.Judge.{held_kind, judged_buffer_field, judged_content, judged_field, judged_name, judged_own, place_at, refusal};
ghost use Rattle.aml_rules.specs.Tells.{place_of};
ghost use Rattle.aml_judging.specs.Follows.{Costs};
ghost use Rattle.aml_findings.specs.Views.{content_of};
ghost use Rattle.aml_judging.specs.Views.{read_of};

use aml_causes::{Cause, Refusal};
use aml_fields::{read_count, usable_buffer_field};
use aml_findings::faults::unusable;
use aml_findings::{Around, Finding, Wanted, finds};
use aml_kind_rules::{field_kind, source_kind};
use aml_known::Known;
use aml_meaning::BufferField;
use aml_namespace::Link;
use aml_regions::AnyField;
use aml_rules::Place;

/// What is read of a name: a value of a kind, for some events.
#[derive(Clone, Copy, Debug, PartialEq, Eq)]
pub struct Read {
    pub kind: Known,
    pub events: u64,
}

/// A place in the body's table.
pub fn place<A: Around>(here: &A, at: usize) -> Place
    ensures { place_of result ≡ place_at (A.around here.now) at }
{
    Place {
        table: here.table(),
        at,
    }
}

/// A cause at a place in the body's table, of which no more is told.
pub fn refusal<A: Around>(here: &A, why: Cause, at: usize) -> Refusal
    ensures { result ≡ refusal (A.around here.now) why at }
{
    refusal_for(here, why, at, Finding::Nothing)
}

/// The same, with what was found there.
pub fn refusal_for<A: Around>(here: &A, why: Cause, at: usize, finding: Finding) -> Refusal
    ensures { result ≡ refusal (A.around here.now) why at }
{
    here.finds(finding);
    Refusal {
        table: here.table(),
        at,
        why,
    }
}

/// What a data name or an own name holds, by its kind. V3 at the name that holds nothing.
fn content<A: Around>(here: &A, at: usize, kind: Option<Known>) -> Result<Read, Refusal>
    ensures { Costs (read_of (A.numbered here.now)) (λ r. r.events)
        (judged_content (A.around here.now) at (content_of (A.numbered here.now) kind)) result }
{
    match kind {
        Some(kind) => Ok(Read { kind, events: 0 }),
        None => {
            let finding = finds::unmade(Wanted::Value);
            Err(refusal_for(here, Cause::WrongKind, at, finding))
        }
    }
}

/// A field of a region (ACPI 6.5, 19.6, Field). V9 at the name of one that cannot be read.
fn field<A: Around>(
    here: &A,
    link: Link,
    field: Option<AnyField>,
    at: usize,
) -> Result<Read, Refusal>
    requires sound { IfSome field IsSoundField }
    ensures { Costs (read_of (A.numbered here.now)) (λ r. r.events)
        (judged_field (A.around here.now) field at) result }
{
    match field {
        Some(field) => Ok(Read {
            kind: field_kind(here.width(), field.layout().bits),
            events: read_count(&field),
        }),
        None => Err(refusal_for(here, Cause::Region, at, unusable(here, link))),
    }
}

/// The kind of what a data name or an own name holds.
pub fn held_kind<A: Around>(here: &A, link: Link) -> Option<Known>
    ensures { content_of (A.numbered here.now) result ≡ held_kind (A.around here.now) link }
{
    match link {
        Link::Data(id) => here.shared(id),
        Link::Own(number) => here.own(number),
        _ => None,
    }
}

/// A field of a buffer (19.6, CreateField). V9 at the name of one that cannot be read, V3 where its
/// source is no buffer's name, V7 where it does not lie in its buffer.
fn buffer_field<A: Around>(
    here: &A,
    link: Link,
    field: Option<BufferField>,
    at: usize,
) -> Result<Read, Refusal>
    ensures { Costs (read_of (A.numbered here.now)) (λ r. r.events)
        (judged_buffer_field (A.around here.now) field at) result }
{
    let Some(field) = field else {
        return Err(refusal_for(here, Cause::Region, at, unusable(here, link)));
    };
    let source = held_kind(here, field.source);
    here.finds(finds::buffer_field(here, field, source));
    source_kind(place(here, at), field, source)?;
    let kind = field_kind(here.width(), field.bits);
    Ok(Read { kind, events: 0 })
}

/// An own name, or the field of a buffer that it is.
fn own<A: Around>(here: &A, number: usize, at: usize) -> Result<Read, Refusal>
    ensures { Costs (read_of (A.numbered here.now)) (λ r. r.events) (judged_own (A.around here.now)
        (field_at (A.around here.now).kinds.fields number) number at) result }
{
    match here.own_field(number) {
        Some(made) => buffer_field(here, Link::Own(number), usable_buffer_field(made), at),
        None => content(here, at, here.own(number)),
    }
}

/// What a name alone means, read. V1 where it names nothing, V3 where what it names cannot be read.
pub fn name<A: Around>(here: &A, link: Link, at: usize) -> Result<Read, Refusal>
    ensures { Costs (read_of (A.numbered here.now)) (λ r. r.events)
        (judged_name (A.around here.now) link at) result }
{
    match link {
        Link::Data(id) => content(here, at, here.shared(id)),
        Link::Own(number) => own(here, number, at),
        Link::Missing => Err(refusal(here, Cause::Unresolved, at)),
        Link::Field(id) => field(here, link, here.field(id), at),
        Link::BufferField(id) => buffer_field(here, link, here.buffer_field(id), at),
        Link::Method(_) | Link::OsInterfaces | Link::Object(_) => {
            let finding = finds::named(here, link, Wanted::Value);
            Err(refusal_for(here, Cause::WrongKind, at, finding))
        }
    }
}
