// The object that a command asks for, and what it gives.

ghost use Rattle.std.specs.Prelude.{◌≡◌, [], IfErr, IfOk, true};
ghost use Rattle.acpi_listing.specs.Commands.{IsGivenOver, IsObjectAt, IsPrtOver, link_fault};
ghost use Rattle.acpi_sources.specs.Faults.{nowhere};
ghost use Rattle.acpi_sources.specs.declared.fault.FaultCause.TheVariants as cause;
ghost use Rattle.acpi_objects.specs.Gives.{gives_value};
ghost use Rattle.acpi_routing.specs.Faults.{Answers};
ghost use Rattle.acpi_routing.specs.Prt.{GivesPrt};
ghost use Rattle.aml_contents.specs.Belongs.{Belong};
ghost use Rattle.aml_contents.specs.Held.{content_kinds};
ghost use Rattle.aml_interp.specs.Answers.{WereChecked};
ghost use Rattle.aml_machine.specs.Views.{names_of};
ghost use Rattle.aml_objects.specs.Entries.{object_at};
ghost use Rattle.aml_namespace.specs.Shows.{shown};
ghost use Rattle.aml_regions.specs.Registers.{contents};
ghost use Rattle.aml_regions.specs.Text.{TextSets};

use crate::tell::{tell_link, tell_object, tell_valueless};
use acpi_objects::{Given, gives_value, value_of};
use acpi_routing::{LinkFault, Prt, prt_of};
use acpi_sources::{Fault, FaultCause, Where};
use acpi_words::Notes;
use aml_contents::Names;
use aml_namespace::Namespace;
use aml_paths::ObjectId;
use aml_regions::World;
use aml_registers::Registers;
use aml_verify::Checked;
use std::alloc::Global;

/// The object whose printed path, or an alias's, the word is, where it gives a value.
pub(crate) fn find_object<N: Notes>(
    alloc: Global,
    namespace: &Namespace<'_>,
    word: &str,
    notes: &N,
) -> Result<ObjectId, Fault>
    ensures found { IfOk result (λ id. IsObjectAt (shown namespace.now) word.now id.0) }
    ensures none { (id : _) → IfErr result (λ f. IsObjectAt (shown namespace.now) word.now id → ⊥) }
    ensures fault { IfErr result (λ f. f ≡ nowhere cause.NoSuchObject) }
{
    let Some(id) = namespace.find(word.as_bytes()) else {
        tell_object(alloc, notes, namespace, word);
        return Err(Fault::nowhere(FaultCause::NoSuchObject));
    };
    if !gives_value(namespace.object(id)) {
        tell_valueless(alloc, notes, word);
        return Err(Fault::nowhere(FaultCause::NoSuchObject));
    }
    Ok(id)
}

/// What an object that gives a value gives, from what the names of the tables hold first, over
/// registers.
pub(crate) fn given_over(
    alloc: Global,
    checked: &Checked<'_>,
    id: ObjectId,
    registers: Registers,
) -> Result<Given, Fault>
    requires checked { WereChecked checked.now }
    requires gives { gives_value (object_at (shown checked.now.namespace.now).entries id.0) ≡ true }
    requires set { TextSets registers.text.items (contents registers.file) }
    requires fresh { registers.file.events.items ≡ [] }
    ensures { IsGivenOver (contents registers.file) checked.now id.0 result }
{
    let mut names = Names::initial(alloc, checked.namespace())?;
    let mut world = registers;
    let given = value_of(alloc, checked, id, &mut names, &mut world)?;
    Ok(given)
}

/// What an object that gives a value gives, and the items of the links that it names, from what the
/// names of the tables hold first, over registers. People are told which link is at fault.
pub(crate) fn prt_over<N: Notes>(
    alloc: Global,
    checked: &Checked<'_>,
    id: ObjectId,
    registers: Registers,
    notes: &N,
) -> Result<Prt, Fault>
    requires checked { WereChecked checked.now }
    requires gives { gives_value (object_at (shown checked.now.namespace.now).entries id.0) ≡ true }
    requires set { TextSets registers.text.items (contents registers.file) }
    requires fresh { registers.file.events.items ≡ [] }
    ensures { IsPrtOver (contents registers.file) checked.now id.0 result }
{
    let mut names = Names::initial(alloc, checked.namespace())?;
    let mut world = registers;
    match prt_noted(alloc, checked, id, &mut names, &mut world, notes) {
        Ok(prt) => Ok(prt),
        Err(fault) => Err(fault_of_link(fault)),
    }
}

// The same over these names and this world.
fn prt_noted<W: World, N: Notes>(
    alloc: Global,
    checked: &Checked<'_>,
    id: ObjectId,
    names: &mut Names,
    world: &mut W,
    notes: &N,
) -> Result<Prt, LinkFault>
    requires checked { WereChecked checked.now }
    requires gives { gives_value (object_at (shown checked.now.namespace.now).entries id.0) ≡ true }
    requires names { Belong (shown checked.now.namespace.now) (content_kinds names.old) }
    ensures { Answers (λ prt. prt)
        (λ r. GivesPrt checked.now id.0 r (names_of names.old) (W.log world.old)
        (names_of names.new) (W.log world.new)) result }
{
    let found = prt_of(alloc, checked, id, names, world);
    if let Err(LinkFault::Refused(refused)) = &found {
        tell_link(alloc, notes, checked.namespace(), *refused);
    }
    found
}

// Why a link that a `_PRT` names has no items.
fn fault_of_link(fault: LinkFault) -> Fault
    ensures { result ≡ link_fault fault }
{
    match fault {
        LinkFault::NoMemory => Fault::nowhere(FaultCause::NoMemory),
        LinkFault::Refused(refused) => Fault {
            cause: FaultCause::Resources(refused.refusal.cause),
            at: Where::Byte(refused.refusal.at),
        },
    }
}
