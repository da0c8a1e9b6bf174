// The names that stand at the root before any definition (ACPI 6.5, 5.3.1 and 5.7).

ghost use Rattle.std.specs.Prelude.{◌≡◌, IfOk};
ghost use Rattle.aml_objects.specs.Kept.{entries_seen};
ghost use Rattle.aml_objects.specs.Predefined.{predefined_entries, predefined_objects};

use crate::object::{Content, DataName, Entry, Object, Source};
use crate::objects::Objects;
use aml_lex::NameSeg;
use aml_paths::ROOT;
use std::alloc::{AllocError, Global};

/// A name at the root.
fn named(bytes: [u8; 4], object: Object) -> (NameSeg, Object)
    ensures { result ≡ (record { bytes = bytes }, object) }
{
    (NameSeg { bytes }, object)
}

/// The predefined names in their order; the text of `_OS_` has so many bytes.
fn predefined_objects(os_length: u64) -> [(NameSeg, Object); 9]
    ensures { result ≡ predefined_objects os_length }
{
    let revision = DataName {
        content: Content::Integer,
        source: Source::Revision,
    };
    let os_name = DataName {
        content: Content::String(os_length),
        source: Source::OsName,
    };
    [
        named(*b"_GPE", Object::Scope),
        named(*b"_PR_", Object::Scope),
        named(*b"_SB_", Object::Scope),
        named(*b"_SI_", Object::Scope),
        named(*b"_TZ_", Object::Scope),
        named(*b"_REV", Object::Data(revision)),
        named(*b"_OSI", Object::OsInterfaces),
        named(*b"_OS_", Object::Data(os_name)),
        named(*b"_GL_", Object::GlobalLock),
    ]
}

/// The namespace before any definition.
pub fn predefined(alloc: Global, os_length: u64) -> Result<Objects, AllocError>
    ensures { IfOk result (λ objects. entries_seen objects ≡ predefined_entries os_length) }
{
    let mut objects = Objects::new(alloc);
    for (segment, object) in predefined_objects(os_length) {
        objects.push(ROOT, segment, Entry::Own(object))?;
    }
    Ok(objects)
}
