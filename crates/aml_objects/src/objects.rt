// What stands under the paths of a namespace (ACPI 6.5, 5.3).

ghost use Rattle.std.specs.Prelude.{◌≡◌, ◌≤◌, ◌<◌, ◌-◌, ◌^◌, suc, length, slice_get, option_and_then, OnOk, OnErr, IfOk, IfSome, None, ◌==◌, if◌then◌else◌, ◌++◌, ◌∷◌, []};
ghost use Rattle.std.specs.Option.{option_map};
ghost use Rattle.aml_lex.specs.Names.{name_of};
ghost use Rattle.aml_objects.specs.Enter.{checked_path, made_path};
ghost use Rattle.aml_objects.specs.Entries.{entry_numbered, holds_names, number_of, object_at, object_number, opened_by, own_object, owner, path_numbered, paths_in, scope_opened};
ghost use Rattle.aml_paths.specs.Paths.{number_below, path_at};
ghost use Rattle.aml_paths.specs.Printed.{path_in};
ghost use Rattle.aml_paths.specs.Resolve.{resolve, spelled};
ghost use Rattle.aml_paths.specs.Steps.{paths_seen};

use crate::fault::LoadCause;
use crate::object::{Entry, Object};
use aml_lex::{NameRef, NameSeg};
use aml_paths::{Lead, NoMemory, Paths, ROOT};
use std::alloc::{AllocError, Global};

/// The greatest number of paths, predefined ones among them.
const GREATEST_COUNT: usize = 65_535;

/// Paths in order of definition, and what stands under each.
#[derive(Drop)]
pub struct Objects {
    /// In order of definition.
    pub(crate) entries: Vec<Entry>,
    /// The root's path, and those of the entries in the same order.
    pub(crate) paths: Paths,
    ghost placed: { length (paths_seen paths) ≡ suc (length entries.items) },
}

impl Objects {
    ghost use Rattle.aml_objects.specs.Kept.{Places, entries_seen, path_below, path_kept};

    /// Nothing.
    pub(crate) fn new(alloc: Global) -> Objects
        ensures { entries_seen result ≡ [] }
    {
        Objects {
            entries: Vec::new(alloc),
            paths: Paths::new(alloc),
        }
    }

    /// The number of paths but the root's.
    #[tactic(auto, using(crate::proofs::Kept::kept_length))]
    pub fn len(&self) -> usize
        ensures { result ≡ length (entries_seen self.now) }
    {
        self.entries.len()
    }

    /// What stands under the path with this number, which counts the paths but the root's.
    fn entry(&self, number: usize) -> Option<Entry>
        ensures { result ≡ slice_get self.now.entries.items number }
    {
        self.entries.get(number).copied()
    }

    /// What stands under the path with this number, which counts the paths but the root's; None
    /// behind the last.
    #[tactic(auto, using(crate::proofs::Kept::kept_entry))]
    pub fn numbered(&self, number: usize) -> Option<Entry>
        ensures { result ≡ entry_numbered (entries_seen self.now) number }
    {
        self.entry(number)
    }

    /// The object with this number; None where it is the place of an alias, and behind the last.
    #[tactic(auto, using(crate::proofs::Kept::kept_object))]
    pub fn object(&self, number: usize) -> Option<Object>
        ensures { result ≡ object_at (entries_seen self.now) number }
    {
        own_object(self.entry(number)?)
    }

    /// The number of the object whose path has this number; the root has none.
    #[tactic(auto, using(crate::proofs::Kept::kept_owner))]
    pub fn object_number(&self, path: usize) -> Option<usize>
        ensures { result ≡ object_number (entries_seen self.now) path }
    {
        if path == ROOT {
            return None;
        }
        let number = path - 1;
        Some(owner(number, self.entry(number)?))
    }

    /// The number of the path in which the definitions stand that are made under the path with this
    /// number.
    pub(crate) fn scope_opened(&self, path: usize) -> Option<usize>
        ensures value { result ≡ scope_opened (entries_seen self.now) path }
        ensures there { IfSome result (λ n. n ≤ length (entries_seen self.now)) }
    {
        if path == ROOT {
            return Some(ROOT);
        }
        let number = self.object_number(path)?;
        opened_by(number, self.object(number)?)
    }

    /// The number of the path that is one segment below the path with this number.
    #[tactic(auto, using(crate::proofs::Kept::kept_below))]
    fn child(&self, path: usize, segment: NameSeg) -> Option<usize>
        ensures { result ≡
            number_below (paths_in (entries_seen self.now)) path (segment.bytes ∷ []) }
    {
        self.paths.child(path, segment)
    }

    /// The number of the path that a name names in the scope whose path has this number.
    #[tactic(auto, using(crate::proofs::Kept::kept_count, crate::proofs::Kept::kept_resolve))]
    pub(crate) fn resolve(&self, scope: usize, name: &NameRef<'_>) -> Option<usize>
        requires { scope ≤ length (entries_seen self.now) }
        ensures { let entries = entries_seen self.now in
            result ≡ resolve (number_of entries) (path_at (paths_in entries) scope)
            (name_of name.now) }
    {
        self.paths.resolve(scope, name)
    }

    /// The number of the path that a text prints; None where none prints so.
    #[tactic(auto, using(crate::proofs::Kept::kept_paths))]
    pub fn printed(&self, text: &[u8]) -> Option<usize>
        ensures { let entries = entries_seen self.now in
            result ≡ option_and_then (number_of entries) (path_in text.now) }
    {
        self.paths.printed(text)
    }

    /// The paths, the root's first.
    #[tactic(auto, using(crate::proofs::Kept::kept_paths))]
    pub fn paths(&self) -> &Paths
        ensures { paths_seen result.now ≡ paths_in (entries_seen self.now) }
    {
        &self.paths
    }

    /// The segments of the path with this number, which counts the paths but the root's; None
    /// behind the last.
    pub fn path(&self, alloc: Global, number: usize) -> Result<Option<Vec<NameSeg>>, NoMemory>
        ensures { IfOk result
            (λ path. option_map path_kept path ≡ path_numbered (entries_seen self.now) number) }
    {
        if number >= self.len() {
            return Ok(None);
        }
        match self.paths.path(alloc, number + 1) {
            Ok(path) => Ok(Some(path)),
            Err(_) => Err(NoMemory),
        }
    }

    /// Whether a path may be made: it must be new, its parent must hold names, and there must be
    /// room.
    fn checked(&self, parent: usize, segment: NameSeg) -> Result<(usize, NameSeg), LoadCause>
        requires { parent ≤ length (entries_seen self.now) }
        ensures { let entries = entries_seen self.now in
            Places entries result (checked_path entries (path_below entries parent segment)) }
    {
        if self.child(parent, segment).is_some() {
            return Err(LoadCause::Duplicate);
        }
        if self.scope_opened(parent).is_none() {
            return Err(LoadCause::ScopeMissing);
        }
        if self.len() >= GREATEST_COUNT {
            return Err(LoadCause::TooMany);
        }
        Ok((parent, segment))
    }

    /// A place for the path that a name makes in the scope whose path has this number.
    pub(crate) fn place_for(
        &self,
        scope: usize,
        name: &NameRef<'_>,
    ) -> Result<(usize, NameSeg), LoadCause>
        requires { scope ≤ length (entries_seen self.now) }
        ensures { let entries = entries_seen self.now in
            Places entries result
            (made_path entries (spelled (path_at (paths_in entries) scope) (name_of name.now))) }
    {
        match self.paths.lead(scope, name) {
            Lead::Nowhere => Err(LoadCause::ScopeMissing),
            Lead::At(path) => Err(already_there(path)),
            Lead::Below(parent, segment) => self.checked(parent, segment),
        }
    }

    /// Makes each search for a name short, once all paths are made.
    pub fn settle_chains(&mut self) -> Result<(), AllocError>
        ensures { entries_seen self.new ≡ entries_seen self.old }
    {
        self.paths.settle_chains()
    }

    /// Adds a path, which must be new, and what stands under it.
    #[tactic(auto, using(crate::proofs::Kept::kept_paths, crate::proofs::Kept::zip_push))]
    pub(crate) fn push(
        &mut self,
        parent: usize,
        segment: NameSeg,
        entry: Entry,
    ) -> Result<(), AllocError>
        requires there { parent ≤ length (entries_seen self.old) }
        requires new { let entries = entries_seen self.old in
            number_of entries (path_below entries parent segment) ≡ None }
        ensures ok { let entries = entries_seen self.old in
            OnOk result (entries_seen self.new ≡ entries
            ++ (path_below entries parent segment, entry) ∷ []) }
        ensures err { OnErr result (entries_seen self.new ≡ entries_seen self.old) }
    {
        self.entries.push(entry)?;
        match self.paths.add(parent, segment) {
            Ok(_) => Ok(()),
            Err(_) => {
                self.entries.pop();
                Err(AllocError)
            }
        }
    }
}

/// Why a path that is there already, with this number, cannot be made.
fn already_there(path: usize) -> LoadCause
    ensures { result ≡ (if path == 0 then LoadCause.ScopeMissing else LoadCause.Duplicate) }
{
    if path == ROOT {
        LoadCause::ScopeMissing
    } else {
        LoadCause::Duplicate
    }
}

/// The object that an entry is.
fn own_object(entry: Entry) -> Option<Object>
    ensures { result ≡ own_object entry }
{
    match entry {
        Entry::Own(object) => Some(object),
        Entry::Alias(_) => None,
    }
}

/// The number of the object of the entry with a number.
pub(crate) fn owner(number: usize, entry: Entry) -> usize
    ensures { result ≡ owner number entry }
{
    match entry {
        Entry::Own(_) => number,
        Entry::Alias(object) => object.0,
    }
}

/// Whether definitions may stand within an object.
fn holds_names(object: Object) -> bool
    ensures { result ≡ holds_names object }
{
    matches!(
        object,
        Object::Scope
            | Object::Device
            | Object::Processor
            | Object::PowerResource
            | Object::ThermalZone
    )
}

/// The number of the path that the object with this number opens, where it holds names.
fn opened_by(number: usize, object: Object) -> Option<usize>
    requires { number < 2 ^ 64 - 1 }
    ensures { result ≡ opened_by number (Some object) }
{
    if holds_names(object) {
        Some(number + 1)
    } else {
        None
    }
}
