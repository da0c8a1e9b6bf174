//! How many terms a name takes in a method's body, by what it means where it stands (ACPI 6.5,
//! 20.2.5 and 5.3).
//!
//! The grammar counts with the own names that stand at each statement. Who reads terms straight
//! from the bytes asks what a name means, and has one count for the whole body: `specs/Counts` has
//! it, and the law that it is the grammar's.
#![tactic(auto)]

ghost use Rattle.std.specs.Prelude.{◌≡◌};
ghost use Rattle.aml_namespace.specs.Names.{args_of, link_args};
ghost use Rattle.aml_namespace.specs.Shows.{shown};
ghost use Rattle.aml_counts.specs.Counts.{OneCount};

use aml_namespace::{Link, Namespace, Object};

/// The statements of a method's body are terms by one count of what names take, which what they
/// mean tells: an own name takes none where it stands, a method as many as its arguments, `_OSI`
/// one, all else none; what means nothing as many as declarations tell.
pub fn links_tell_counts()
    ensures { OneCount }
{}

/// How many terms a name takes that means this. It takes no memory.
pub fn count(namespace: &Namespace<'_>, link: Link) -> usize
    ensures { result ≡ link_args (shown namespace.now) link }
{
    match link {
        Link::Method(id) => args_of(namespace.object(id)),
        Link::OsInterfaces => 1,
        _ => 0,
    }
}

/// How many terms the name of an object takes.
fn args_of(object: Option<Object>) -> usize
    ensures { result ≡ args_of object }
{
    match object {
        Some(Object::Method(method)) => usize::from(method.args),
        Some(Object::OsInterfaces) => 1,
        _ => 0,
    }
}
