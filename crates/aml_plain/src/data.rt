// Literals of strings, buffers and packages.

ghost use Rattle.aml_contents.specs.BodyData.{body_data, computed_size};
ghost use Rattle.aml_operators.specs.Tree.{views};
ghost use Rattle.aml_meaning.specs.declared.action.Action.TheVariants as does;
ghost use Rattle.aml_meaning.specs.Meaning.{act};
ghost use Rattle.aml_meaning.specs.Runs.{Runs};
ghost use Rattle.aml_machine.specs.Views.{value_of};
ghost use Rattle.aml_plain.specs.Tells.{setting_of};
ghost use Rattle.aml_scene.specs.Tells.{told};

use crate::setting::Setting;
use aml_contents::{body_data, computed_size};
use aml_meaning::AmlCause;
use aml_operators::{Op, Term};
use aml_scene::halt::{Halt, fails};
use aml_values::Value;
use std::alloc::Global;

/// The value of a literal of a string, a buffer or a package. A6 at the first buffer or package in
/// it whose size is computed.
pub fn data_literal(
    alloc: Global,
    here: Setting<'_>,
    op: Op,
    at: usize,
    parts: &[Term],
) -> Result<Option<Value>, Halt>
    ensures { (around : _) (s : _) → Runs (told value_of result)
        (act (setting_of here.entry around) (does.Data op) at (views parts.now)) s s }
{
    match computed_size(op, at, parts) {
        Some(from) => Err(fails(AmlCause::Outside, here.scene, from)),
        None => {
            let value = body_data(
                alloc,
                here.scene.namespace,
                here.scene.table,
                here.scene.method,
                op,
                parts,
            )?;
            Ok(Some(value))
        }
    }
}
