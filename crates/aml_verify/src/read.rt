// What a verifier read.

ghost use Rattle.std.specs.Prelude.{◌≡◌, IsSome, Some};
ghost use Rattle.aml_bodies.specs.Kept.{AreAllKept, kept_at};
ghost use Rattle.aml_bodies.specs.TreeSets.{body_props};
ghost use Rattle.aml_namespace.specs.Shows.{shown};
ghost use Rattle.aml_verify.specs.Keeping.{AreHanded, AreMeant};

use aml_bodies::Kept;
use aml_methods::Trees;
use aml_namespace::Namespace;
use aml_paths::ObjectId;

/// A namespace, what is kept of its methods' bodies, each of which was read once, and the
/// statements of those for which there was room.
#[derive(Drop)]
pub struct Read<'a> {
    pub(crate) namespace: &'a Namespace<'a>,
    /// What is kept of the bodies that have a tree, by the numbers of their methods' objects.
    pub(crate) kept: Vec<Option<Kept>>,
    pub(crate) trees: Trees,
    ghost meant: { AreMeant (shown namespace.now) kept.items } by { Prim.hlevel body_props },
    ghost all: { AreAllKept (shown namespace.now) kept.items } by { Prim.hlevel body_props },
    ghost handed: { AreHanded (shown namespace.now) trees.bodies.items } by { Prim.hlevel body_props },
}

impl Read<'_> {
    /// What is kept of a body that has a tree.
    pub(crate) fn kept(&self, id: ObjectId) -> &Kept
        requires { IsSome (kept_at self.now.kept.items id.0) }
        ensures { kept_at self.now.kept.items id.0 ≡ Some result.now }
    {
        self.kept[id.0].as_ref().unwrap()
    }
}
