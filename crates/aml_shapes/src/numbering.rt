// What gives shapes their numbers: a table that grows, or one that stays.

ghost use Rattle.std.specs.Prelude.{◌≡◌, ◌<◌, List, IfOk, length};
ghost use Rattle.aml_kinds.specs.Kinds.{Shape};
ghost use Rattle.aml_shapes.specs.Keys.{AreBelow, HasRoom, key_shape};
ghost use Rattle.aml_shapes.specs.Numbers.{IsNumber, Keeps, numbered};

use crate::key::ShapeKey;
use crate::table::ShapeTable;
use aml_paths::NoMemory;
use std::alloc::Global;

/// What gives shapes their numbers.
pub(crate) trait Numbering {
    /// The shapes by their numbers.
    ghost shapes: { Self → List Shape };

    /// That none is added.
    ghost stays: { Type 0 };

    /// The number of a shape, whose inner shapes have numbers. Where it has none, memory is said to
    /// be wanted.
    fn number_of(&mut self, alloc: Global, key: ShapeKey) -> Result<usize, NoMemory>
        requires room { HasRoom key }
        requires below { AreBelow (length (shapes self.old)) key.parts.items }
        ensures number { IfOk result (λ n.
            IsNumber (shapes self.new) n (key_shape (numbered (shapes self.new)) key)) }
        ensures keeps { Keeps (shapes self.old) (shapes self.new) }
        ensures stays { stays → shapes self.new ≡ shapes self.old };
}

impl Numbering for ShapeTable {
    ghost shapes = { λ t. t };

    ghost stays = { ⊥ };

    fn number_of(&mut self, alloc: Global, key: ShapeKey) -> Result<usize, NoMemory> {
        self.add(alloc, key)
    }
}

/// A table that stays as it is.
#[derive(Drop)]
pub(crate) struct Fixed<'a>(pub &'a ShapeTable);

impl Numbering for Fixed<'_> {
    ghost shapes = { λ t. t.0.now };

    ghost stays = { Unit {0} };

    fn number_of(&mut self, _alloc: Global, key: ShapeKey) -> Result<usize, NoMemory> {
        self.0.number(&key).ok_or(NoMemory)
    }
}
