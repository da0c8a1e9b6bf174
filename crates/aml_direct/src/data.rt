// Literals of strings, buffers and packages.

ghost use Rattle.std.specs.Prelude.{◌≡◌};
ghost use Rattle.aml_operators.specs.Shape.{part_letters};
ghost use Rattle.aml_meaning.specs.Actions.{action};
ghost use Rattle.aml_meaning.specs.declared.action.Action.TheVariants as does;
ghost use Rattle.aml_places.specs.Lies.{StandParts};
ghost use Rattle.aml_quick.specs.Settings.{count_of};
ghost use Rattle.aml_direct.specs.Tells.{Acts};

use crate::computed::computed_at;
use aml_literals::data_value;
use aml_meaning::AmlCause;
use aml_operators::Op;
use aml_quick::Here;
use aml_scene::halt::{Halt, fails};
use aml_values::Value;
use std::alloc::Global;

/// The value of a literal of a string, a buffer or a package, and the place behind it. A6 at the
/// first buffer or package in it whose size is computed.
pub fn data_literal(
    alloc: Global,
    here: Here<'_>,
    op: Op,
    own: usize,
    bytes: &[u8],
    at: usize,
) -> Result<(Option<Value>, usize), Halt>
    requires datum { action op ≡ does.Data op }
    requires there { StandParts (count_of here.scene.now) (part_letters op) bytes.now at }
    ensures { (around : _) (s : _) → Acts here.entry around
        (does.Data op) (part_letters op) bytes.now own at result s s }
{
    match computed_at(op, own, bytes, at) {
        Some(from) => Err(fails(AmlCause::Outside, here.scene, from)),
        None => {
            let scene = here.scene;
            let read = data_value(
                alloc,
                scene.namespace,
                scene.table,
                scene.method,
                op,
                bytes,
                at,
            )?;
            Ok((Some(read.0), read.1))
        }
    }
}
