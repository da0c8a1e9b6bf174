// Fields of buffers that a body makes itself (ACPI 6.5, 19.6, CreateField and its kin).

ghost use Rattle.std.specs.Prelude.{◌≡◌, ◌≤◌};
ghost use Rattle.aml_operators.specs.Tree.{view, views};
ghost use Rattle.aml_regions.specs.Events.{Log};
ghost use Rattle.aml_meaning.specs.declared.definition.Definition.TheVariants as makes;
ghost use Rattle.aml_meaning.specs.Definitions.{defined, source_of};
ghost use Rattle.aml_meaning.specs.Runs.{Runs};
ghost use Rattle.aml_machine.specs.Views.{now};
ghost use Rattle.aml_scene.specs.Letters.{HasParts, counted_field, sized_field};
ghost use Rattle.aml_scene.specs.Tells.{went};
ghost use Rattle.aml_plain.specs.Tells.{setting_of};

use crate::form::first_place_if_any;
use crate::setting::Setting;
use aml_acts::define::{counted, make_field};
use aml_machine::Machine;
use aml_meaning::{Action, AmlCause, action_of};
use aml_namespace::CreatedFieldSize;
use aml_operators::{Term, four, literal_of, three};
use aml_scene::halt::{Halt, fails};
use aml_scene::own::makes_own;
use aml_scene::steps::take_step;
use std::alloc::Global;

/// The place of the name that the source of a field is, where it is one.
#[tactic(auto, using(aml_operators::proofs::Views::view_out))]
fn source_of(term: &Term) -> Option<usize>
    ensures { result ≡ source_of (view term.now) }
{
    match action_of(term.op) {
        Action::Name => Some(term.at),
        Action::Invoke => first_place_if_any(&term.parts),
        _ => None,
    }
}

/// A field that is as large as its operator says, with its step. A6 at the opcode where its name
/// may not be an own name.
pub fn sized_field(
    alloc: Global,
    here: Setting<'_>,
    size: CreatedFieldSize,
    at: usize,
    parts: &[Term],
    machine: &mut Machine,
) -> Result<(), Halt>
    requires { HasParts sized_field (views parts.now) }
    ensures means { (around : _) (log : Log) → Runs (went result)
        (defined (setting_of here.entry around) (makes.Field size) at (views parts.now))
        (now machine.old log) (now machine.new log) }
    ensures falls { machine.new.steps ≤ machine.old.steps }
{
    let (source, index, name) = three(parts);
    take_step(machine)?;
    if makes_own(here.scene, name.at) {
        let from = source_of(source);
        make_field(
            alloc,
            here.scene,
            at,
            from,
            literal_of(index),
            Some(size),
            machine,
        )
    } else {
        Err(fails(AmlCause::Outside, here.scene, at))
    }
}

/// A field whose number of bits stands in a term, with its step. A6 at the opcode where its name
/// may not be an own name.
pub fn counted_field(
    alloc: Global,
    here: Setting<'_>,
    at: usize,
    parts: &[Term],
    machine: &mut Machine,
) -> Result<(), Halt>
    requires { HasParts counted_field (views parts.now) }
    ensures means { (around : _) (log : Log) → Runs (went result)
        (defined (setting_of here.entry around) makes.CountedField at (views parts.now))
        (now machine.old log) (now machine.new log) }
    ensures falls { machine.new.steps ≤ machine.old.steps }
{
    let (source, index, count, name) = four(parts);
    take_step(machine)?;
    if makes_own(here.scene, name.at) {
        let from = source_of(source);
        let size = counted(literal_of(count));
        make_field(
            alloc,
            here.scene,
            at,
            from,
            literal_of(index),
            size,
            machine,
        )
    } else {
        Err(fails(AmlCause::Outside, here.scene, at))
    }
}
