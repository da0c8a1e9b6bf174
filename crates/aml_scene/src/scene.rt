// Where a body stands.

ghost use Rattle.aml_namespace.specs.Names.{link_with_owns};
ghost use Rattle.aml_own_names.specs.OwnNamesSeen.{owns_seen};
ghost use Rattle.aml_namespace.specs.Shows.{shown};
ghost use Rattle.aml_bodies.specs.Links.{AreLinks};

use aml_bodies::Links;
use aml_namespace::{Namespace, Width};
use aml_own_names::OwnNames;
use aml_paths::ObjectId;

/// What stays the same while a body is evaluated.
#[derive(Clone, Copy)]
pub struct Scene<'a> {
    /// The number of its table.
    pub table: usize,
    /// The place there of its Method opcode.
    pub opcode: usize,
    /// How wide integers are.
    pub width: Width,
    /// Whose objects its names name.
    pub namespace: &'a Namespace<'a>,
    /// The method whose body it is, within which its names stand.
    pub method: ObjectId,
    /// The table's bytes up to the body's end, in which its names stand.
    pub bytes: &'a [u8],
    /// The names that the body makes itself.
    pub owns: &'a OwnNames,
    /// What its names mean, where that is looked up already.
    pub links: &'a Links,
    ghost meant: { AreLinks (link_with_owns (shown namespace.now).entries method.0 bytes.now
        (owns_seen owns.now)) links.now },
}
