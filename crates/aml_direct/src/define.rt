// Fields of buffers that a body makes itself (ACPI 6.5, 19.6, CreateField and its kin).

ghost use Rattle.std.specs.Prelude.{◌≡◌, ◌≤◌};
ghost use Rattle.aml_operators.specs.Tree.{trees};
ghost use Rattle.aml_places.specs.Lies.{LiesTerm, StandParts, Stands};
ghost use Rattle.aml_regions.specs.Events.{Log};
ghost use Rattle.aml_meaning.specs.declared.definition.Definition.TheVariants as makes;
ghost use Rattle.aml_meaning.specs.Definitions.{defined};
ghost use Rattle.aml_machine.specs.Views.{now};
ghost use Rattle.aml_scene.specs.Letters.{counted_field, sized_field};
ghost use Rattle.aml_direct.specs.Fields.{IsLiteral, IsSource};
ghost use Rattle.aml_quick.specs.Settings.{count_of, setting_of};
ghost use Rattle.aml_direct.specs.Tells.{DoesParts, itself, nothing};

use aml_acts::define::{counted, make_field};
use aml_literals::literal_number;
use aml_machine::Machine;
use aml_meaning::{Action, AmlCause, action_of};
use aml_namespace::{CreatedFieldSize, Link};
use aml_places::name_end;
use aml_quick::Here;
use aml_scene::halt::{Halt, fails};
use aml_scene::own::{link_of, makes_own};
use aml_scene::steps::take_step;
use aml_tree::op_at;
use std::alloc::Global;

/// The place behind the source of a field, where that is the name of data, which takes no
/// arguments. No field is made of anything else.
fn behind_source(here: Here<'_>, bytes: &[u8], at: usize) -> Option<usize>
    requires { Stands (LiesTerm (count_of here.scene.now)) bytes.now at }
    ensures { (around : _) (t : _) → LiesTerm (count_of here.entry.scene.now) bytes.now at t →
        IsSource (setting_of here.entry around) at t result }
{
    if op_at(bytes, at).is_some() {
        return None;
    }
    match link_of(here.scene, at) {
        Link::Data(_) | Link::Own(_) => Some(name_end(bytes, at)),
        _ => None,
    }
}

/// The number of the integer literal at a place, where one stands, and the place behind it.
fn literal_there(here: Here<'_>, bytes: &[u8], at: usize) -> Option<(u64, usize)>
    requires { Stands (LiesTerm (count_of here.scene.now)) bytes.now at }
    ensures { (t : _) → LiesTerm (count_of here.entry.scene.now) bytes.now at t →
        IsLiteral t result }
{
    let (op, next) = op_at(bytes, at)?;
    match action_of(op) {
        Action::Literal(_) => Some(literal_number(op, bytes, next)),
        _ => None,
    }
}

/// A field that is as large as its operator says, with its step, and the place behind it. A6 at the
/// opcode where its source is no name of data, its index no integer literal, or its name no own
/// name.
pub fn sized_field(
    alloc: Global,
    here: Here<'_>,
    size: CreatedFieldSize,
    own: usize,
    bytes: &[u8],
    at: usize,
    machine: &mut Machine,
) -> Result<usize, Halt>
    requires { StandParts (count_of here.scene.now) sized_field bytes.now at }
    ensures means { (around : _) (log : Log) → DoesParts here.entry around nothing itself
        (λ parts. defined (setting_of here.entry around) (makes.Field size) own (trees parts))
        sized_field bytes.now own at result (now machine.old log) (now machine.new log) }
    ensures falls { machine.new.steps ≤ machine.old.steps }
{
    take_step(machine)?;
    let Some(index) = behind_source(here, bytes, at) else {
        return Err(fails(AmlCause::Outside, here.scene, own));
    };
    let Some((number, name)) = literal_there(here, bytes, index) else {
        return Err(fails(AmlCause::Outside, here.scene, own));
    };
    if !makes_own(here.scene, name) {
        return Err(fails(AmlCause::Outside, here.scene, own));
    }
    make_field(
        alloc,
        here.scene,
        own,
        Some(at),
        Some(number),
        Some(size),
        machine,
    )?;
    Ok(name_end(bytes, name))
}

/// A field whose number of bits stands in a term, with its step, and the place behind it. A6 at the
/// opcode where its source is no name of data, its index or its number of bits no integer literal,
/// or its name no own name.
pub fn counted_field(
    alloc: Global,
    here: Here<'_>,
    own: usize,
    bytes: &[u8],
    at: usize,
    machine: &mut Machine,
) -> Result<usize, Halt>
    requires { StandParts (count_of here.scene.now) counted_field bytes.now at }
    ensures means { (around : _) (log : Log) → DoesParts here.entry around nothing itself
        (λ parts. defined (setting_of here.entry around) makes.CountedField own (trees parts))
        counted_field bytes.now own at result (now machine.old log) (now machine.new log) }
    ensures falls { machine.new.steps ≤ machine.old.steps }
{
    take_step(machine)?;
    let Some(index) = behind_source(here, bytes, at) else {
        return Err(fails(AmlCause::Outside, here.scene, own));
    };
    let Some((number, size)) = literal_there(here, bytes, index) else {
        return Err(fails(AmlCause::Outside, here.scene, own));
    };
    let Some((bits, name)) = literal_there(here, bytes, size) else {
        return Err(fails(AmlCause::Outside, here.scene, own));
    };
    if !makes_own(here.scene, name) {
        return Err(fails(AmlCause::Outside, here.scene, own));
    }
    let long = counted(Some(bits));
    make_field(
        alloc,
        here.scene,
        own,
        Some(at),
        Some(number),
        long,
        machine,
    )?;
    Ok(name_end(bytes, name))
}
