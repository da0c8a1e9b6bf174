// Where a body stands, and what may be called from it.

ghost use Rattle.aml_namespace.specs.Shows.{shown};
ghost use Rattle.aml_bodies.specs.Prepared.{AreSound};
ghost use Rattle.aml_bodies.specs.TreeSets.{body_props};

use aml_bodies::Bodies;
use aml_scene::scene::Scene;

/// Where a body stands, and what may be called from it.
#[derive(Clone, Copy)]
pub struct Setting<'a> {
    pub scene: &'a Scene<'a>,
    /// The bodies of the methods that may be called, where they are read already.
    pub bodies: &'a Bodies,
    /// How many methods more may be active in it.
    pub depth: u8,
    ghost sound: { AreSound (shown scene.now.namespace.now) bodies.now } by { Prim.hlevel body_props },
}
