// What is looked at without being read: sizes, names that are asked for, objects that are notified.

ghost use Rattle.std.specs.Prelude.{◌≡◌, slice_get};
ghost use Rattle.aml_operators.specs.Tree.{view};
ghost use Rattle.aml_meaning.specs.Actions.{action};
ghost use Rattle.aml_meaning.specs.Notices.{is_notifiable};
ghost use Rattle.aml_meaning.specs.Owns.{field_at};
ghost use Rattle.aml_judged.specs.Judge.{judged_condition, judged_content_seen, judged_name_seen, judged_notified, judged_notified_name, judged_own_seen, judged_seen, judged_size, judged_slot_seen, judged_untargeted};
ghost use Rattle.aml_known.specs.Views.{kind_of, slots_of};
ghost use Rattle.aml_judging.specs.Follows.{FollowsIn, Gives, GivesIn};
ghost use Rattle.aml_findings.specs.Views.{content_of};
ghost use Rattle.aml_judging.specs.Views.{read_of};

use crate::names::{Read, place, refusal, refusal_for};
use aml_causes::{Cause, Refusal};
use aml_findings::{Around, Sort, Wanted, finds};
use aml_kind_rules::size_kind;
use aml_known::{Env, Known, Slot, Stop, kind_at};
use aml_meaning::{Action, action_of};
use aml_namespace::{Link, Object};
use aml_operators::{Op, Term};

/// The kind of what a local or an argument holds. V4 at one that may be unset.
pub fn slot<A: Around>(here: &A, slots: &[Slot], number: u8, at: usize) -> Result<Known, Refusal>
    ensures { Gives (kind_of (A.numbered here.now)) (judged_slot_seen (A.around here.now) at
        (slice_get (slots_of (A.numbered here.now) slots.now) number)) result }
{
    match kind_at(slots, number) {
        Some(kind) => Ok(kind),
        None => Err(refusal(here, Cause::Unset, at)),
    }
}

/// The kind of what a name holds, if it holds something. V3 where it holds nothing.
fn content<A: Around>(here: &A, at: usize, kind: Option<Known>) -> Result<Known, Refusal>
    ensures { Gives (kind_of (A.numbered here.now)) (judged_content_seen (A.around here.now) at
        (content_of (A.numbered here.now) kind)) result }
{
    match kind {
        Some(kind) => Ok(kind),
        None => {
            let finding = finds::unmade(Wanted::Sized);
            Err(refusal_for(here, Cause::WrongKind, at, finding))
        }
    }
}

/// The same of an own name. V3 at a field of a buffer.
fn own<A: Around>(here: &A, number: usize, at: usize) -> Result<Known, Refusal>
    ensures { Gives (kind_of (A.numbered here.now)) (judged_own_seen (A.around here.now)
        (field_at (A.around here.now).kinds.fields number) number at) result }
{
    match here.own_field(number) {
        Some(_) => {
            let finding = finds::other_object(Sort::BufferField, Wanted::Sized);
            Err(refusal_for(here, Cause::WrongKind, at, finding))
        }
        None => content(here, at, here.own(number)),
    }
}

/// The same of what a name means. V1 where it names nothing, V3 where what it names has no size.
fn name<A: Around>(here: &A, link: Link, at: usize) -> Result<Known, Refusal>
    ensures { Gives (kind_of (A.numbered here.now))
        (judged_name_seen (A.around here.now) link at) result }
{
    match link {
        Link::Data(id) => content(here, at, here.shared(id)),
        Link::Own(number) => own(here, number, at),
        Link::Missing => Err(refusal(here, Cause::Unresolved, at)),
        _ => {
            let finding = finds::named(here, link, Wanted::Sized);
            Err(refusal_for(here, Cause::WrongKind, at, finding))
        }
    }
}

/// The same of a local, an argument or a name. V2 at what is none of them.
fn seen<A: Around>(here: &A, action: Action, at: usize, env: &Env) -> Result<Known, Refusal>
    ensures { GivesIn (A.numbered here.now) (kind_of (A.numbered here.now))
        (judged_seen (A.around here.now) action at) env.now result }
{
    match action {
        Action::Local(number) => slot(here, &env.locals, number, at),
        Action::Argument(number) => slot(here, &env.args, number, at),
        Action::Name => name(here, here.link(at), at),
        _ => Err(refusal(here, Cause::OutsideProfile, at)),
    }
}

/// How large something is (ACPI 6.5, 19.6, SizeOf).
#[tactic(auto, using(aml_operators::proofs::Views::view_out))]
pub fn size<A: Around>(here: &A, of: &Term, env: &Env) -> Result<Known, Stop>
    ensures { FollowsIn (A.numbered here.now) (kind_of (A.numbered here.now))
        (judged_size (A.around here.now) (view of.now)) env.now result }
{
    let kind = seen(here, action_of(of.op), of.at, env)?;
    here.finds(finds::other_kind(kind, Wanted::Sized));
    size_kind(here.width(), here, place(here, of.at), kind)
}

/// Whether something has a name (19.6, CondRefOf). V2 at the operator with another operand than a
/// name alone, or with a target.
#[tactic(auto, using(aml_operators::proofs::Views::view_out))]
pub fn condition<A: Around>(
    here: &A,
    at: usize,
    what: &Term,
    target: &Term,
) -> Result<Read, Refusal>
    ensures { Gives (read_of (A.numbered here.now))
        (judged_condition (A.around here.now) at (view what.now) (view target.now)) result }
{
    match (action_of(what.op), action_of(target.op)) {
        (Action::Name, Action::NoTarget) => Ok(Read {
            kind: Known::Int(here.width().greatest()),
            events: 0,
        }),
        _ => Err(refusal(here, Cause::OutsideProfile, at)),
    }
}

/// Whether an object can be notified.
fn is_notifiable(object: Option<Object>) -> bool
    ensures { result ≡ is_notifiable object }
{
    match object {
        Some(Object::Device | Object::Processor | Object::ThermalZone) => true,
        _ => false,
    }
}

/// Whether what a name means can be notified (19.6, Notify). V1 where it names nothing.
fn notified_name<A: Around>(here: &A, link: Link, at: usize) -> Result<bool, Refusal>
    ensures { Gives (λ b. b) (judged_notified_name (A.around here.now) link at) result }
{
    match link {
        Link::Missing => Err(refusal(here, Cause::Unresolved, at)),
        Link::Object(id) => Ok(is_notifiable(here.object(id))),
        _ => Ok(false),
    }
}

/// Whether an operand can be notified; a local and an argument cannot, and are not read. V2 at what
/// is neither one of these nor a name.
pub fn notified<A: Around>(here: &A, op: Op, at: usize) -> Result<bool, Refusal>
    ensures { Gives (λ b. b) (judged_notified (A.around here.now) (action op) at) result }
{
    match action_of(op) {
        Action::Name => notified_name(here, here.link(at), at),
        Action::Local(_) | Action::Argument(_) => Ok(false),
        _ => Err(refusal(here, Cause::OutsideProfile, at)),
    }
}

/// An Index that is read has no target of its own. V2 at one that has.
pub fn untargeted<A: Around>(here: &A, at: usize, target: Op) -> Result<(), Refusal>
    ensures { Gives (λ u. u) (judged_untargeted (A.around here.now) at (action target)) result }
{
    match action_of(target) {
        Action::NoTarget => Ok(()),
        _ => Err(refusal(here, Cause::OutsideProfile, at)),
    }
}
