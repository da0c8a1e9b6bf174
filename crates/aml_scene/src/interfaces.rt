// What `_OSI` answers (ACPI 6.5, 5.7.2).

ghost use Rattle.std.specs.Prelude.{◌≡◌, map};
ghost use Rattle.aml_values.specs.Values.{Int};
ghost use Rattle.aml_values.specs.Views.{view};
ghost use Rattle.aml_meaning.specs.Interfaces.{answered};
ghost use Rattle.aml_meaning.specs.Meaning.{interface_asked};
ghost use Rattle.aml_meaning.specs.Runs.{Runs, ruled};
ghost use Rattle.aml_namespace.specs.Names.{is_interface};
ghost use Rattle.aml_namespace.specs.Shows.{shown};
ghost use Rattle.aml_objects.specs.Widths.{bits_of};
ghost use Rattle.aml_machine.specs.Views.{value_of};
ghost use Rattle.aml_scene.specs.Tells.{place_in, setting_in, told};

use crate::halt::{Halt, Scene, fails};
use aml_meaning::AmlCause;
use aml_rules::truth;
use aml_values::Value;

/// Whether the system knows a text. A2 at the place of what is none.
fn answered(scene: &Scene<'_>, at: usize, value: &Value) -> Result<u64, Halt>
    ensures { let known = is_interface (shown scene.now.namespace.now) in
        told Int result
        ≡ ruled (answered known (bits_of scene.now.width)
        (place_in scene.now at) (view value.now)) }
{
    match value {
        Value::Str(text) => {
            let known = scene.namespace.has_interface(text.as_slice());
            Ok(truth(scene.width, known))
        }
        _ => Err(fails(AmlCause::Kind, scene, at)),
    }
}

/// What `_OSI` at a place answers of the values of its arguments, the first of which stands at
/// another. A6 at the former where they are not one, A2 at the latter where that is no string.
pub fn interface_asked(
    scene: &Scene<'_>,
    at: usize,
    from: usize,
    given: &[Value],
) -> Result<Option<Value>, Halt>
    ensures { (call : _) (s : _) → Runs (told value_of result)
        (interface_asked (setting_in scene.now call) at from (map view given.now)) s s }
{
    match given {
        [text] => {
            let said = answered(scene, from, text)?;
            Ok(Some(Value::Int(said)))
        }
        _ => Err(fails(AmlCause::Outside, scene, at)),
    }
}
