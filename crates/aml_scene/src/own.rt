// What names mean in a method's body, and which of them it makes itself.

ghost use Rattle.std.specs.Prelude.{◌≡◌};
ghost use Rattle.aml_meaning.specs.Definitions.{is_own, makes_own};
ghost use Rattle.aml_meaning.specs.Methods.{is_lone};
ghost use Rattle.aml_scene.specs.Tells.{link_in, setting_in};

use crate::halt::Scene;
use aml_lex::name_there;
use aml_namespace::Link;

/// What the name at a place means. A place that is not kept is looked up: so nothing rests on all
/// being kept, and what is kept needs to be right alone.
pub fn link_of(scene: &Scene<'_>, at: usize) -> Link
    ensures { result ≡ link_in scene.now at }
{
    match scene.links.at(at) {
        Some(link) => link,
        None => scene
            .namespace
            .link_with_owns(scene.method, scene.bytes, scene.owns, at),
    }
}

/// Whether what a name means is an own name.
fn is_own(link: Link) -> bool
    ensures { result ≡ is_own link }
{
    match link {
        Link::Own(_) => true,
        _ => false,
    }
}

/// Whether the name at a place of some bytes is one segment without prefix.
fn is_lone(bytes: &[u8], at: usize) -> bool
    ensures { result ≡ is_lone bytes.now at }
{
    match name_there(bytes, at) {
        Some(name) => name.lone_segment().is_some(),
        None => false,
    }
}

/// Whether a definition makes an own name, by the place of its name.
pub fn makes_own(scene: &Scene<'_>, at: usize) -> bool
    ensures { (call : _) → result ≡ makes_own (setting_in scene.now call) at }
{
    is_lone(scene.bytes, at) && !is_own(link_of(scene, at))
}
