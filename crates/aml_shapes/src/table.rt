// Shapes of packages, each under a number of its own.

ghost use Rattle.std.specs.Prelude.{◌≡◌, ◌<◌, ◌≤◌, [], IfOk, IfSome, None, OnErr, OnOk, length};
ghost use Rattle.std.specs.BTreeMap.{get};
ghost use Rattle.std.specs.Option.{option_map};
ghost use Rattle.aml_judged.specs.KindRules as rules;
ghost use Rattle.aml_kinds.specs.Kinds as kinds;
ghost use Rattle.aml_known.specs.Views.{AreApart, element_kind_of};
ghost use Rattle.aml_shapes.specs.Keys.{AreBelow, HasRoom, key_order, key_shape};
ghost use Rattle.aml_shapes.specs.Numbers.{IsNumber, Keeps, numbered};
ghost use Rattle.aml_shapes.specs.Tables.{IsPut, IsTable, Stands};

use crate::joined::joined_places;
use crate::kept::Kept;
use crate::key::ShapeKey;
use aml_known::{ElementKnown, ShapeNumber, Shapes};
use aml_paths::NoMemory;
use std::alloc::Global;
use std::collections::BTreeMap;
use std::marker::Model;

/// The shapes of packages in some tables and bodies, each kept once, under the number that counts
/// those kept before it. A number stands for its shape however the table grows.
#[derive(Drop)]
pub struct ShapeTable {
    shapes: Vec<Kept>,
    /// The number of each shape: an ordered map, so that whoever chooses the packages cannot make a
    /// look-up slow.
    numbers: BTreeMap<ShapeKey, usize>,
}

impl Model for ShapeTable {
    ghost use Rattle.std.specs.Prelude.{List};
    ghost use Rattle.std.specs.Coded.{coded_list};
    ghost use Rattle.aml_kinds.specs.Kinds as kinds;
    ghost use Rattle.aml_kinds.specs.StoredKinds.{shape_code};
    ghost use Rattle.aml_shapes.specs.Tables.{IsTable, shapes_kept};

    ghost Value = { List kinds.Shape };

    ghost coded = { coded_list shape_code };

    ghost view = { λ t. shapes_kept t.shapes.items };

    ghost invariant = { λ t. IsTable t.shapes.items t.numbers };
}

impl ShapeTable {
    /// A table without shapes.
    pub fn new(alloc: Global) -> ShapeTable
        ensures { result ≡ [] }
    {
        ShapeTable {
            shapes: Vec::new(alloc),
            numbers: BTreeMap::new(alloc),
        }
    }

    /// No two numbers stand for one shape.
    pub fn are_apart(&self)
        ensures { AreApart (numbered self.now) }
    {
        let _shapes = &self.shapes;
    }

    /// The number of a shape, where the table has it.
    pub(crate) fn number(&self, key: &ShapeKey) -> Option<usize>
        ensures { IfSome result (λ n.
            IsNumber self.now n (key_shape (numbered self.now) key.now)) }
    {
        looked_up(&self.numbers, key)
    }

    /// The number of a shape, which is added where the table does not have it.
    pub(crate) fn add(&mut self, alloc: Global, key: ShapeKey) -> Result<usize, NoMemory>
        requires room { HasRoom key }
        requires below { AreBelow (length self.old) key.parts.items }
        ensures number { IfOk result
            (λ n. IsNumber self.new n (key_shape (numbered self.new) key)) }
        ensures keeps { Keeps self.old self.new }
    {
        if let Some(number) = looked_up(&self.numbers, &key) {
            return Ok(number);
        }
        put(alloc, &mut self.shapes, &mut self.numbers, key)
    }

    /// The shape with a number, as it is kept.
    fn kept(&self, shape: ShapeNumber) -> Result<&Kept, NoMemory>
        ensures stands { IfOk result (λ kept. Stands self.now shape.0 kept.now) }
        ensures there { OnErr result (length self.now ≤ shape.0) }
    {
        match self.shapes.get(shape.0) {
            Some(kept) => Ok(kept),
            None => Err(NoMemory),
        }
    }
}

impl Shapes for ShapeTable {
    ghost numbered = { numbered };

    fn places(&self, shape: ShapeNumber) -> Result<u64, NoMemory>
        ensures count { IfOk result (λ count. count ≡ kinds.places (numbered self.now shape.0)) }
        ensures there { OnErr result (length self.now ≤ shape.0) }
    {
        let kept = self.kept(shape)?;
        Ok(kept.key.places)
    }

    fn place(&self, shape: ShapeNumber, number: u64) -> Result<Option<ElementKnown>, NoMemory>
        ensures place { IfOk result (λ place. option_map (element_kind_of (numbered self.now)) place
            ≡ rules.place_numbered (numbered self.now shape.0) number) }
        ensures there { OnErr result (length self.now ≤ shape.0) }
    {
        let kept = self.kept(shape)?;
        Ok(kept.key.place(number))
    }

    fn joined(&self, shape: ShapeNumber) -> Result<Option<ElementKnown>, NoMemory>
        ensures joined { IfOk result (λ place.
            option_map (element_kind_of (numbered self.now)) place
            ≡ rules.joined_places (numbered self.now shape.0)) }
        ensures there { OnErr result (length self.now ≤ shape.0) }
    {
        let kept = self.kept(shape)?;
        Ok(kept.joined)
    }
}

/// The number that a key has.
fn looked_up(numbers: &BTreeMap<ShapeKey, usize>, key: &ShapeKey) -> Option<usize>
    ensures { result ≡ get key_order numbers.now key.now }
{
    numbers.get(key).copied()
}

/// Puts a shape behind the others, which is not among them.
fn put(
    alloc: Global,
    shapes: &mut Vec<Kept>,
    numbers: &mut BTreeMap<ShapeKey, usize>,
    key: ShapeKey,
) -> Result<usize, NoMemory>
    requires table { IsTable shapes.old.items numbers.old }
    requires room { HasRoom key }
    requires below { AreBelow (length shapes.old.items) key.parts.items }
    requires absent { get key_order numbers.old key ≡ None }
    ensures table { IsTable shapes.new.items numbers.new }
    ensures number { IfOk result (λ n. n ≡ length shapes.old.items) }
    ensures put { OnOk result (IsPut shapes.old.items shapes.new.items key) }
    ensures stays { OnErr result (shapes.new.items ≡ shapes.old.items) }
{
    let joined = joined_places(&key);
    let copy = key.copied(alloc)?;
    let number = shapes.len();
    shapes.reserve(1)?;
    numbers.insert(key, number)?;
    shapes.push(Kept { key: copy, joined })?;
    Ok(number)
}
