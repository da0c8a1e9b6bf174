// Statements of bodies that were read once, and are handed on.

ghost use Rattle.std.specs.Prelude.{◌≡◌, IfOk, map};
ghost use Rattle.std.specs.Option.{option_map};
ghost use Rattle.aml_bodies.specs.Methods.{AreStatementsOf};
ghost use Rattle.aml_namespace.specs.Load.{Shown};
ghost use Rattle.aml_operators.specs.Tree.{view};
ghost use Rattle.aml_methods.specs.HandedOn.{AreTrees, tree_at};

use crate::by_number::{nothing_yet, put};
use aml_operators::Term;
use aml_paths::{NoMemory, ObjectId};
use std::alloc::Global;

/// So many bytes have the bodies at most, together, whose statements are handed on: a tree takes up
/// to 64 bytes of memory for each of them.
const HANDED_ON: usize = 65_536;

/// Statements of methods' bodies that were read, so that they need not be read again: of the first
/// bodies for which there is room.
#[derive(Drop)]
pub struct Trees {
    /// By the numbers of the methods' objects.
    pub bodies: Vec<Option<Vec<Term>>>,
    /// How many bytes further bodies may have.
    room: usize,
}

/// How many bytes statements have.
fn size_of(body: &[Term]) -> usize {
    match body {
        [first, .., last] => last.end.saturating_sub(first.at),
        [only] => only.end.saturating_sub(only.at),
        [] => 0,
    }
}

impl Trees {
    /// None yet, of a namespace with so many objects.
    ///
    /// # Errors
    ///
    /// `NoMemory`, where memory is wanted.
    pub fn new(alloc: Global, count: usize) -> Result<Trees, NoMemory>
        ensures { IfOk result (λ trees. (ns : Shown) → AreTrees ns trees.bodies.items) }
    {
        let bodies = nothing_yet(alloc, count)?;
        Ok(Trees {
            bodies,
            room: HANDED_ON,
        })
    }

    /// The statements of the method with a number, where they are handed on.
    #[must_use]
    pub fn find(&self, id: ObjectId) -> Option<&Vec<Term>>
        ensures { option_map (λ t. t.now) result ≡ tree_at self.now.bodies.items id.0 }
    {
        match self.bodies.get(id.0) {
            Some(Some(body)) => Some(body),
            _ => None,
        }
    }

    /// Takes a body's statements, where there is room for them.
    pub(crate) fn keep(&mut self, id: ObjectId, body: Vec<Term>)
        ensures { (ns : Shown) → AreTrees ns self.old.bodies.items →
            AreStatementsOf ns id.0 (map view body.items) → AreTrees ns self.new.bodies.items }
    {
        let size = size_of(&body);
        if size <= self.room {
            self.room -= size;
            put(&mut self.bodies, id, Some(body));
        }
    }
}
