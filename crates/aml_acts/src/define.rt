// Fields of buffers that a body makes itself (ACPI 6.5, 19.6, CreateField and its kin).

ghost use Rattle.std.specs.Prelude.{◌≡◌};
ghost use Rattle.std.specs.Option.{option_map};
ghost use Rattle.aml_objects.specs.declared.object.CreatedFieldSize.TheVariants as size;
ghost use Rattle.aml_regions.specs.Events.{Log};
ghost use Rattle.aml_meaning.specs.Definitions.{field_source, make_field};
ghost use Rattle.aml_meaning.specs.Runs.{Runs};
ghost use Rattle.aml_machine.specs.Views.{now};
ghost use Rattle.aml_scene.specs.Tells.{itself, setting_in, told, went};

use crate::contents;
use aml_fields::made_buffer_field;
use aml_machine::Machine;
use aml_meaning::AmlCause;
use aml_namespace::{CreatedFieldSize, Link};
use aml_scene::halt::{Halt, Scene, fails};
use aml_scene::own::link_of;
use std::alloc::Global;

/// What a field is made of, by what its source's name means: a data name, also an own one that is
/// no field. A6 at the opcode where it means nothing or anything else.
fn field_source(scene: &Scene<'_>, at: usize, link: Link, machine: &Machine) -> Result<Link, Halt>
    ensures { (call : _) (log : Log) → Runs (told itself result)
        (field_source (setting_in scene.now call) at link)
        (now machine.now log) (now machine.now log) }
{
    match link {
        Link::Data(_) => Ok(link),
        Link::Own(number) => match machine.own_field(number) {
            None => Ok(link),
            Some(_) => Err(fails(AmlCause::Outside, scene, at)),
        },
        _ => Err(fails(AmlCause::Outside, scene, at)),
    }
}

/// Makes a field of what its source, its index and its size say. A6 at the opcode where the source
/// is no name, or the index or the size no integer literal.
pub fn make_field(
    alloc: Global,
    scene: &Scene<'_>,
    at: usize,
    from: Option<usize>,
    index: Option<u64>,
    size: Option<CreatedFieldSize>,
    machine: &mut Machine,
) -> Result<(), Halt>
    ensures means { (call : _) (log : Log) → Runs (went result)
        (make_field (setting_in scene.now call) at from index size)
        (now machine.old log) (now machine.new log) }
    ensures steps { machine.new.steps ≡ machine.old.steps }
{
    let Some(from) = from else {
        return Err(fails(AmlCause::Outside, scene, at));
    };
    let Some(index) = index else {
        return Err(fails(AmlCause::Outside, scene, at));
    };
    let Some(size) = size else {
        return Err(fails(AmlCause::Outside, scene, at));
    };
    let source = field_source(scene, at, link_of(scene, from), machine)?;
    let field = made_buffer_field(scene.width, source, size, index);
    contents::define_field(alloc, scene, field, machine)
}

/// How large a field is that has so many bits, where the number is a literal.
pub fn counted(bits: Option<u64>) -> Option<CreatedFieldSize>
    ensures { result ≡ option_map size.Bits bits }
{
    match bits {
        Some(bits) => Some(CreatedFieldSize::Bits(bits)),
        None => None,
    }
}
