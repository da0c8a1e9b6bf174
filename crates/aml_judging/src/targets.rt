// Names, locals and arguments that are stored into.

ghost use Rattle.std.specs.Prelude.{◌≡◌, ◌+◌, IfSome};
ghost use Rattle.aml_operators.specs.Tree.{view, views};
ghost use Rattle.aml_regions.specs.Fields.{IsSoundField};
ghost use Rattle.aml_meaning.specs.Actions.{action};
ghost use Rattle.aml_meaning.specs.Owns.{field_at};
ghost use Rattle.aml_judged.specs.Judge.{judged_bound, judged_buffer_field_stored, judged_field_stored, judged_indexed, judged_into, judged_name_indexed, judged_own_stored, judged_placed, judged_put, judged_target};
ghost use Rattle.aml_known.specs.Views.{kind_of};
ghost use Rattle.aml_judging.specs.Follows.{Costs, Gives, Judges};
ghost use Rattle.aml_findings.specs.Views.{content_of};

use crate::names::{held_kind, place, refusal, refusal_for};
use crate::progress::Progress;
use aml_causes::{Cause, Refusal};
use aml_fields::{usable_buffer_field, write_count};
use aml_findings::faults::unusable;
use aml_findings::{Around, Wanted, finds};
use aml_kind_rules::{buffer_field_stored_kind, given_kind, may_replace};
use aml_known::{Known, Stop, set_kind};
use aml_meaning::{Action, BufferField, action_of};
use aml_namespace::Link;
use aml_operators::{Op, Term};
use aml_regions::AnyField;

/// What is of a kind is stored into a field of a region: so many events. V9 at the name of one that
/// cannot be written, V3 where it does not take such a value.
fn field<A: Around>(
    here: &A,
    link: Link,
    field: Option<AnyField>,
    at: usize,
    kind: Known,
) -> Result<u64, Refusal>
    requires sound { IfSome field IsSoundField }
    ensures { Costs (λ n. tt) (λ n. 1 + n) (judged_field_stored (A.around here.now) field at
        (kind_of (A.numbered here.now) kind)) result }
{
    let Some(field) = field else {
        return Err(refusal_for(here, Cause::Region, at, unusable(here, link)));
    };
    let bits = field.layout().bits;
    here.finds(finds::given(here, bits, kind));
    given_kind(here.width(), place(here, at), bits, kind)?;
    Ok(write_count(&field))
}

/// The same into a field of a buffer, without events. V9, V3 and V7 as where it is read, and V3
/// where it does not take such a value.
fn buffer_field<A: Around>(
    here: &A,
    link: Link,
    field: Option<BufferField>,
    at: usize,
    kind: Known,
) -> Result<u64, Refusal>
    ensures { Costs (λ n. tt) (λ n. 1 + n) (judged_buffer_field_stored (A.around here.now) field at
        (kind_of (A.numbered here.now) kind)) result }
{
    let Some(field) = field else {
        return Err(refusal_for(here, Cause::Region, at, unusable(here, link)));
    };
    let source = held_kind(here, field.source);
    here.finds(finds::buffer_field_stored(here, field, source, kind));
    buffer_field_stored_kind(here.width(), place(here, at), field, source, kind)?;
    Ok(0)
}

/// The same into a name that holds what is of a kind, if it holds something. V3 where it may not
/// hold such a value.
fn into<A: Around>(here: &A, at: usize, old: Option<Known>, kind: Known) -> Result<u64, Refusal>
    ensures { Costs (λ n. tt) (λ n. 1 + n) (judged_into (A.around here.now) at
        (content_of (A.numbered here.now) old) (kind_of (A.numbered here.now) kind)) result }
{
    match old {
        Some(old) if may_replace(kind, old) => Ok(0),
        _ => {
            let finding = finds::stored(old, kind);
            Err(refusal_for(here, Cause::WrongKind, at, finding))
        }
    }
}

/// The same into an own name, or the field of a buffer that it is.
fn own<A: Around>(here: &A, number: usize, at: usize, kind: Known) -> Result<u64, Refusal>
    ensures { Costs (λ n. tt) (λ n. 1 + n) (judged_own_stored (A.around here.now)
        (field_at (A.around here.now).kinds.fields number) number at
        (kind_of (A.numbered here.now) kind)) result }
{
    match here.own_field(number) {
        Some(made) => buffer_field(here, Link::Own(number), usable_buffer_field(made), at, kind),
        None => into(here, at, here.own(number), kind),
    }
}

/// The same into what a name means. V1 where it names nothing, V3 where it names nothing that is
/// stored into.
fn name<A: Around>(here: &A, link: Link, at: usize, kind: Known) -> Result<u64, Refusal>
    ensures { Costs (λ n. tt) (λ n. 1 + n) (judged_target (A.around here.now) link at
        (kind_of (A.numbered here.now) kind)) result }
{
    match link {
        Link::Data(id) => into(here, at, here.shared(id), kind),
        Link::Own(number) => own(here, number, at, kind),
        Link::Missing => Err(refusal(here, Cause::Unresolved, at)),
        Link::Field(id) => field(here, link, here.field(id), at, kind),
        Link::BufferField(id) => buffer_field(here, link, here.buffer_field(id), at, kind),
        Link::Method(_) | Link::OsInterfaces | Link::Object(_) => {
            let finding = finds::named(here, link, Wanted::Target);
            Err(refusal_for(here, Cause::WrongKind, at, finding))
        }
    }
}

/// What is of a kind is put into a target that is no Index. V2 at a target that is none of these.
pub fn put<A: Around>(
    here: &A,
    action: Action,
    at: usize,
    kind: Known,
    progress: &mut Progress,
) -> Result<(), Stop>
    ensures { Judges (A.numbered here.now) (λ lists u. u) (judged_put (A.around here.now) action at
        (kind_of (A.numbered here.now) kind)) progress.old progress.new result }
{
    match action {
        Action::Local(number) => set_kind(&mut progress.env.locals, number, kind),
        Action::Argument(number) => set_kind(&mut progress.env.args, number, kind),
        Action::NoTarget => return Ok(()),
        Action::Debug => {}
        Action::Name => {
            let events = name(here, here.link(at), at, kind)?;
            progress.pay(events);
        }
        _ => return Err(Stop::Refused(refusal(here, Cause::OutsideProfile, at))),
    }
    progress.step();
    Ok(())
}

/// The place of a name that a written Index is of, which names something. V1 where it does not.
fn bound<A: Around>(here: &A, link: Link, at: usize) -> Result<usize, Refusal>
    ensures { Gives (λ p. p) (judged_bound (A.around here.now) link at) result }
{
    match link {
        Link::Missing => Err(refusal(here, Cause::Unresolved, at)),
        _ => Ok(at),
    }
}

/// The place of the name that a written Index is of, alone or with arguments, which are not judged.
/// V2 at an Index of what is no name.
#[tactic(auto, using(aml_operators::proofs::Views::view_out))]
fn name_indexed<A: Around>(
    here: &A,
    at: usize,
    action: Action,
    from: usize,
    parts: &[Term],
) -> Result<usize, Refusal>
    ensures { Gives (λ p. p)
        (judged_name_indexed (A.around here.now) at action from (views parts.now)) result }
{
    match (action, parts) {
        (Action::Name, _) => bound(here, here.link(from), from),
        (Action::Invoke, [name, ..]) => bound(here, here.link(name.at), name.at),
        _ => Err(refusal(here, Cause::OutsideProfile, at)),
    }
}

/// The place of the name that a written Index with this target of its own is of. V2 at an Index
/// that has such a target.
#[tactic(auto, using(aml_operators::proofs::Views::view_out))]
pub fn indexed<A: Around>(here: &A, at: usize, own: Op, of: &Term) -> Result<usize, Refusal>
    ensures { Gives (λ p. p)
        (judged_indexed (A.around here.now) at (action own) (view of.now)) result }
{
    match action_of(own) {
        Action::NoTarget => name_indexed(here, at, action_of(of.op), of.at, &of.parts),
        _ => Err(refusal(here, Cause::OutsideProfile, at)),
    }
}

/// What is changed in place is no DerefOf. V2 at one.
#[tactic(auto, using(aml_operators::proofs::Views::view_out))]
pub fn placed<A: Around>(here: &A, term: &Term) -> Result<(), Refusal>
    ensures { Gives (λ u. u) (judged_placed (A.around here.now) (view term.now)) result }
{
    match action_of(term.op) {
        Action::Dereference => Err(refusal(here, Cause::OutsideProfile, term.at)),
        _ => Ok(()),
    }
}
