// The kinds of literals of data in methods' bodies.

ghost use Rattle.std.specs.Prelude.{IfOk};
ghost use Rattle.aml_operators.specs.Tree.{views};
ghost use Rattle.aml_shapes.specs.Literals.{IsLiteral};
ghost use Rattle.aml_shapes.specs.Numbers.{Keeps};

use crate::numbering::Fixed;
use crate::table::ShapeTable;
use crate::walk::kind;
use aml_known::Known;
use aml_namespace::Width;
use aml_operators::{Op, Term};
use aml_paths::NoMemory;
use std::alloc::Global;

impl ShapeTable {
    /// The kind of what a literal of data in a body holds, by the literal's operator and its parts.
    /// The shapes of its packages are added where the table does not have them.
    pub fn intern(
        &mut self,
        alloc: Global,
        width: Width,
        op: Op,
        parts: &[Term],
    ) -> Result<Known, NoMemory>
        ensures known { IfOk result (IsLiteral self.new width op (views parts.now)) }
        ensures keeps { Keeps self.old self.new }
    {
        kind(alloc, self, width, op, parts)
    }

    /// The kind of what a literal of data in a body holds whose shapes the table has; of any other,
    /// memory is said to be wanted.
    pub fn find(
        &self,
        alloc: Global,
        width: Width,
        op: Op,
        parts: &[Term],
    ) -> Result<Known, NoMemory>
        ensures { IfOk result (IsLiteral self.now width op (views parts.now)) }
    {
        kind(alloc, &mut Fixed(self), width, op, parts)
    }
}
