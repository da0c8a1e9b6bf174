// What definitions at the top of a body make: own names, and fields of buffers.

ghost use Rattle.std.specs.Prelude.{◌≡◌, ℕ, Option};
ghost use Rattle.std.specs.Option.{option_map};
ghost use Rattle.aml_kinds.specs.Kinds.{Shape};
ghost use Rattle.aml_contents.specs.FirstKinds.{kind_by, name_kind};
ghost use Rattle.aml_operators.specs.Tree.{more, none, view, views};
ghost use Rattle.aml_namespace.specs.declared.link.Link.{Link};
ghost use Rattle.aml_meaning.specs.Actions.{action};
ghost use Rattle.aml_meaning.specs.Definitions as definitions;
ghost use Rattle.aml_meaning.specs.declared.definition.Definition.TheVariants as makes;
ghost use Rattle.aml_judged.specs.Bodies.{first_kind_by, judged_data, judged_field_made, judged_made, judged_own_source, judged_source, may_make};
ghost use Rattle.aml_known.specs.Views.{kind_of};
ghost use Rattle.aml_judging.specs.Follows.{Gives, GivesOrMemory, Judges};
ghost use Rattle.aml_findings.specs.Views.{made_of};

use crate::names::refusal;
use crate::progress::Progress;
use aml_causes::{Cause, Refusal};
use aml_contents::computed_size;
use aml_fields::made_buffer_field;
use aml_findings::{Around, Made};
use aml_known::{Known, Stop};
use aml_meaning::{Action, Definition, action_of};
use aml_namespace::{CreatedFieldSize, Link};
use aml_operators::{Op, Term, first_place, literal_of};

/// Whether a definition makes an own name, by the place of its name: that is one segment without
/// prefix, and no own name has it yet.
fn may_make<A: Around>(here: &A, at: usize) -> bool
    ensures { result ≡ may_make (A.around here.now) at }
{
    here.lone(at) && !matches!(here.link(at), Link::Own(_))
}

/// A kind of a name that holds what has this kind first: an integer may be any.
fn named(greatest: u64, kind: Known) -> Known
    ensures { (shapes : ℕ → Shape) (v : _) → kind_of shapes kind ≡ kind_by v →
        kind_of shapes result ≡ name_kind greatest v }
{
    match kind {
        Known::Int(_) => Known::Int(greatest),
        _ => kind,
    }
}

/// The kind of a Name's data, by their operator and parts (ACPI 6.5, 19.6, Name). V2 at data whose
/// size is computed, and at what is no data.
fn first_kind<A: Around>(here: &A, op: Op, at: usize, parts: &[Term]) -> Result<Known, Stop>
    ensures { GivesOrMemory (kind_of (A.numbered here.now))
        (first_kind_by (A.around here.now) (action op) at (views parts.now)) result }
{
    match action_of(op) {
        Action::Literal(_) => Ok(Known::Int(here.width().greatest())),
        Action::Data(op) => {
            if let Some(from) = computed_size(op, at, parts) {
                return Err(Stop::Refused(refusal(here, Cause::OutsideProfile, from)));
            }
            let kind = here.literal(op, parts)?;
            Ok(named(here.width().greatest(), kind))
        }
        _ => Err(Stop::Refused(refusal(here, Cause::OutsideProfile, at))),
    }
}

/// What a field of a buffer is of: a data name, also an own one that is no field itself. V2 at the
/// opcode of one of anything else.
fn source<A: Around>(here: &A, at: usize, link: Link) -> Result<Link, Refusal>
    ensures { Gives (λ l. l) (judged_source (A.around here.now) at link) result }
{
    match link {
        Link::Data(_) => Ok(link),
        Link::Own(number) if here.own_field(number).is_none() => Ok(link),
        _ => Err(refusal(here, Cause::OutsideProfile, at)),
    }
}

/// The place of the name that the source of a field is, where it is one.
#[tactic(auto, using(aml_operators::proofs::Views::view_out))]
fn source_place(term: &Term) -> Option<usize>
    ensures { result ≡ definitions.source_of (view term.now) }
{
    match action_of(term.op) {
        Action::Name => Some(term.at),
        Action::Invoke => first_place(&term.parts),
        _ => None,
    }
}

/// A field of a buffer, where its source is a name, and its index and its size are integer literals
/// (19.6, CreateField and its kin). V2 at the opcode of any other.
fn field_made<A: Around>(
    here: &A,
    at: usize,
    from: Option<usize>,
    index: Option<u64>,
    size: Option<CreatedFieldSize>,
) -> Result<Made, Refusal>
    ensures { Gives (made_of (A.numbered here.now))
        (judged_field_made (A.around here.now) at from index size) result }
{
    let (Some(from), Some(index), Some(size)) = (from, index, size) else {
        return Err(refusal(here, Cause::OutsideProfile, at));
    };
    let source = source(here, at, here.link(from))?;
    Ok(Made::Field(made_buffer_field(here.width(), source, size, index)))
}

/// What a Name makes, behind its step.
#[tactic(auto, using(aml_operators::proofs::Views::view_out))]
fn name_made<A: Around>(
    here: &A,
    at: usize,
    name: &Term,
    held: &Term,
    progress: &mut Progress,
) -> Result<Made, Stop>
    ensures { Judges (A.numbered here.now) (λ lists m. made_of (A.numbered here.now) m)
        (judged_made (A.around here.now) makes.Name at
        (more (view name.now) (more (view held.now) none)))
        progress.old progress.new result }
{
    if !may_make(here, name.at) {
        return Err(Stop::Refused(refusal(here, Cause::LocalName, at)));
    }
    progress.step();
    let kind = first_kind(here, held.op, held.at, &held.parts)?;
    Ok(Made::Holding(kind))
}

/// What the operator of a field of a buffer makes that says how large it is.
#[tactic(auto, using(aml_operators::proofs::Views::view_out))]
fn sized_made<A: Around>(
    here: &A,
    at: usize,
    size: CreatedFieldSize,
    from: &Term,
    index: &Term,
    name: &Term,
) -> Result<Made, Refusal>
    ensures { Gives (made_of (A.numbered here.now))
        (judged_made (A.around here.now) (makes.Field size) at
        (more (view from.now) (more (view index.now) (more (view name.now) none)))) result }
{
    if !may_make(here, name.at) {
        return Err(refusal(here, Cause::LocalName, at));
    }
    field_made(here, at, source_place(from), literal_of(index), Some(size))
}

/// What a CreateField makes.
#[tactic(auto, using(aml_operators::proofs::Views::view_out))]
fn counted_made<A: Around>(
    here: &A,
    at: usize,
    from: &Term,
    index: &Term,
    count: &Term,
    name: &Term,
) -> Result<Made, Refusal>
    ensures { Gives (made_of (A.numbered here.now))
        (judged_made (A.around here.now) makes.CountedField at
        (more (view from.now)
        (more (view index.now) (more (view count.now) (more (view name.now) none))))) result }
{
    if !may_make(here, name.at) {
        return Err(refusal(here, Cause::LocalName, at));
    }
    let size = match literal_of(count) {
        Some(bits) => Some(CreatedFieldSize::Bits(bits)),
        None => None,
    };
    field_made(here, at, source_place(from), literal_of(index), size)
}

/// What a Name makes of its parts, behind its step. V2 where they are no name with data.
fn name_among<A: Around>(
    here: &A,
    at: usize,
    parts: &[Term],
    progress: &mut Progress,
) -> Result<Made, Stop>
    ensures { Judges (A.numbered here.now) (λ lists m. made_of (A.numbered here.now) m)
        (judged_made (A.around here.now) makes.Name at (views parts.now))
        progress.old progress.new result }
{
    match parts {
        [name, data] => name_made(here, at, name, data, progress),
        [_, _, _, ..] => Err(Stop::Refused(refusal(here, Cause::OutsideProfile, at))),
        _ => Err(Stop::Refused(refusal(here, Cause::OutsideProfile, at))),
    }
}

/// What the operator of a field of a buffer makes of its parts. V2 where they are not three.
fn sized_among<A: Around>(
    here: &A,
    at: usize,
    size: CreatedFieldSize,
    parts: &[Term],
) -> Result<Made, Refusal>
    ensures { Gives (made_of (A.numbered here.now))
        (judged_made (A.around here.now) (makes.Field size) at (views parts.now)) result }
{
    match parts {
        [from, index, name] => sized_made(here, at, size, from, index, name),
        [_, _, _, _, ..] => Err(refusal(here, Cause::OutsideProfile, at)),
        _ => Err(refusal(here, Cause::OutsideProfile, at)),
    }
}

/// What a CreateField makes of its parts. V2 where they are not four.
fn counted_among<A: Around>(here: &A, at: usize, parts: &[Term]) -> Result<Made, Refusal>
    ensures { Gives (made_of (A.numbered here.now))
        (judged_made (A.around here.now) makes.CountedField at (views parts.now)) result }
{
    match parts {
        [from, index, count, name] => counted_made(here, at, from, index, count, name),
        [_, _, _, _, _, ..] => Err(refusal(here, Cause::OutsideProfile, at)),
        _ => Err(refusal(here, Cause::OutsideProfile, at)),
    }
}

/// What a definition makes, behind its step. V13 at the opcode of one that may make no own name; V2
/// as its data or its source says.
pub fn made<A: Around>(
    here: &A,
    definition: Definition,
    at: usize,
    parts: &[Term],
    progress: &mut Progress,
) -> Result<Made, Stop>
    ensures { Judges (A.numbered here.now) (λ lists m. made_of (A.numbered here.now) m)
        (judged_made (A.around here.now) definition at (views parts.now))
        progress.old progress.new result }
{
    match definition {
        Definition::Name => name_among(here, at, parts, progress),
        Definition::Field(size) => {
            let part = sized_among(here, at, size, parts)?;
            Ok(part)
        }
        Definition::CountedField => {
            let part = counted_among(here, at, parts)?;
            Ok(part)
        }
        Definition::Nothing => Err(Stop::Refused(refusal(here, Cause::OutsideProfile, at))),
    }
}
