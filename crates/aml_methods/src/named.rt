// What the names of a body mean.

ghost use Rattle.std.specs.Prelude.{◌≡◌};
ghost use Rattle.aml_bodies.specs.Links.{AreLinks};
ghost use Rattle.aml_namespace.specs.Names.{link_with_owns};
ghost use Rattle.aml_namespace.specs.Shows.{shown};
ghost use Rattle.aml_own_names.specs.OwnNamesSeen.{owns_seen};

use aml_bodies::Links;
use aml_namespace::{Link, Namespace};
use aml_own_names::OwnNames;
use aml_paths::ObjectId;

/// A body whose names were looked up, once each.
#[derive(Clone, Copy)]
pub struct Named<'n, 'b> {
    pub namespace: &'n Namespace<'n>,
    pub method: ObjectId,
    /// The table's bytes up to the body's end.
    pub bytes: &'n [u8],
    pub owns: &'b OwnNames,
    pub links: &'b Links,
    ghost meant: { AreLinks (link_with_owns (shown namespace.now).entries method.0 bytes.now
        (owns_seen owns.now)) links.now },
}

impl Named<'_, '_> {
    /// What the name at a place means. A place that is not kept is looked up: so nothing rests on
    /// all being kept.
    pub fn link(&self, at: usize) -> Link
        ensures { result ≡ link_with_owns (shown self.now.namespace.now).entries self.now.method.0
            self.now.bytes.now (owns_seen self.now.owns.now) at }
    {
        match self.links.at(at) {
            Some(link) => link,
            None => self
                .namespace
                .link_with_owns(self.method, self.bytes, self.owns, at),
        }
    }
}
