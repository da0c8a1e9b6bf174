// What a definition's name makes: one path more (ACPI 6.5, 5.3).

ghost use Rattle.std.specs.Prelude.{◌≡◌, ◌≤◌, ◌+◌, length, OnErr, OnOk, IfOk, IfSome};
ghost use Rattle.aml_lex.specs.Names.{name_of};
ghost use Rattle.aml_objects.specs.Enter.{aliased, entered, named_object, opened, scope_named};
ghost use Rattle.aml_objects.specs.Kept.{Answers, Makes, entries_seen, here_of};

use crate::fault::{LoadCause, LoadFault, refuse};
use crate::here::Here;
use crate::object::Entry;
use crate::objects::Objects;
use aml_lex::NameRef;
use aml_paths::ObjectId;

/// Adds a path under the name that stands at a place.
///
/// Faults, at that place: E301 where the path is there; E302 where its parent holds no names, or is
/// missing; E303 where there is no room. Or want of memory.
pub fn enter(
    here: Here<'_>,
    objects: &mut Objects,
    at: usize,
    name: &NameRef<'_>,
    entry: Entry,
) -> Result<(), LoadFault>
    requires { here.scope ≤ length (entries_seen objects.old) }
    ensures made { let entries = entries_seen objects.old in
        Makes result (entries_seen objects.new)
        (entered (here_of here.entry) entries at (name_of name.now) entry) }
    ensures grows { OnOk result
        (length (entries_seen objects.new) ≡ length (entries_seen objects.old) + 1) }
    ensures kept { OnErr result (entries_seen objects.new ≡ entries_seen objects.old) }
{
    match objects.place_for(here.scope, name) {
        Ok((parent, segment)) => Ok(objects.push(parent, segment, entry)?),
        Err(cause) => Err(refuse(cause, here.table, at)),
    }
}

/// The number of the object that a name names.
fn named_object(here: Here<'_>, objects: &Objects, name: &NameRef<'_>) -> Option<usize>
    requires { here.scope ≤ length (entries_seen objects.now) }
    ensures { let entries = entries_seen objects.now in
        result ≡ named_object (here_of here.entry) entries (name_of name.now) }
{
    objects.object_number(objects.resolve(here.scope, name)?)
}

/// Adds another path of an object that is there.
///
/// Faults: those of [`enter`], and behind them E304 at `source_at` where the source names nothing.
pub fn enter_alias(
    here: Here<'_>,
    objects: &mut Objects,
    source_at: usize,
    source: &NameRef<'_>,
    at: usize,
    name: &NameRef<'_>,
) -> Result<(), LoadFault>
    requires { here.scope ≤ length (entries_seen objects.old) }
    ensures made { let entries = entries_seen objects.old in
        Makes result (entries_seen objects.new)
        (aliased (here_of here.entry) entries source_at (name_of source.now) at
        (name_of name.now)) }
    ensures grows { OnOk result
        (length (entries_seen objects.new) ≡ length (entries_seen objects.old) + 1) }
    ensures kept { OnErr result (entries_seen objects.new ≡ entries_seen objects.old) }
{
    let (parent, segment) = match objects.place_for(here.scope, name) {
        Ok(place) => place,
        Err(cause) => return Err(refuse(cause, here.table, at)),
    };
    match named_object(here, objects, source) {
        Some(number) => Ok(objects.push(parent, segment, Entry::Alias(ObjectId(number)))?),
        None => Err(refuse(LoadCause::AliasMissing, here.table, source_at)),
    }
}

/// The number of the path that a Scope opens by a name.
///
/// Fault: E302, at that place, where the name opens none.
pub fn open(
    here: Here<'_>,
    objects: &Objects,
    at: usize,
    name: &NameRef<'_>,
) -> Result<usize, LoadFault>
    requires { here.scope ≤ length (entries_seen objects.now) }
    ensures opens { let entries = entries_seen objects.now in
        Answers (λ n. n) result (opened (here_of here.entry) entries at (name_of name.now)) }
    ensures there { IfOk result (λ n. n ≤ length (entries_seen objects.now)) }
{
    match opened_by(here, objects, name) {
        Some(number) => Ok(number),
        None => Err(refuse(LoadCause::ScopeMissing, here.table, at)),
    }
}

/// The number of the path that a name opens.
fn opened_by(here: Here<'_>, objects: &Objects, name: &NameRef<'_>) -> Option<usize>
    requires { here.scope ≤ length (entries_seen objects.now) }
    ensures opens { let entries = entries_seen objects.now in
        result ≡ scope_named (here_of here.entry) entries (name_of name.now) }
    ensures there { IfSome result (λ n. n ≤ length (entries_seen objects.now)) }
{
    objects.scope_opened(objects.resolve(here.scope, name)?)
}
