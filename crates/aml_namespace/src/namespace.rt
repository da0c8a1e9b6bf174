// The namespace of loaded tables (ACPI 6.5, 5.3).

ghost use Rattle.std.specs.Prelude.{◌≡◌, ◌<◌, ◌==◌, [], length, map, Some, IsSome, IfOk};
ghost use Rattle.std.specs.Option.{ForNone, ForSome};
ghost use Rattle.aml_lex.specs.Names.{name_of};
ghost use Rattle.aml_namespace.specs.Bodies.{BodiesWithin, bytes_of};
ghost use Rattle.aml_arities.specs.Counted.{TellsAll};
ghost use Rattle.aml_objects.specs.Entries.{paths_in};
ghost use Rattle.aml_objects.specs.Kept.{entries_seen, owned_kept, path_kept};
ghost use Rattle.aml_objects.specs.LookUp.{methods_in, owned_paths};
ghost use Rattle.aml_namespace.specs.Names.{link_of, method_in};

use crate::inside::Inside;
use crate::link::Link;
use crate::load::load_tables;
use aml_arities::{Answered, Counted, External};
use aml_lex::{NameRef, NameSeg, name_there};
use aml_objects::predefined::predefined;
use aml_objects::{Entry, LoadFault, Method, Object, Objects, Width};
use aml_own_names::OwnNames;
use aml_paths::{NamePlace, NoMemory, ObjectId, Scope};
use aml_tree::{Term, TreeFault, read_body};
use std::alloc::{AllocError, Global};

/// What the operating system tells of itself.
#[derive(Clone, Copy, Debug)]
pub struct Host<'a> {
    /// The text of `_OS_`.
    pub os: &'a [u8],
    /// The texts of which `_OSI` tells that they are known.
    pub osi: &'a [&'a [u8]],
}

/// The objects that a DSDT and its SSDTs define, lent from their bytes.
#[derive(Drop)]
pub struct Namespace<'a> {
    /// In the order of loading.
    tables: Vec<&'a [u8]>,
    host: Host<'a>,
    width: Width,
    pub(crate) objects: Objects,
    /// The methods that the tables declare as others', in the order of the bytes.
    externals: Vec<External>,
    /// How many arguments those take, once `count_externals` has counted them.
    answered: Option<Answered>,
    methods: Vec<ObjectId>,
    ghost listed: { methods.items ≡ methods_in (entries_seen objects) },
    ghost told: { ForSome answered (λ a. let paths = paths_in (entries_seen objects) in
        TellsAll (map (λ t. t.now) tables.items) paths externals.items a.counted) },
    ghost bodies: { BodiesWithin (map (λ t. t.now) tables.items) (entries_seen objects) },
}

impl<'a> Namespace<'a> {
    ghost use Rattle.std.specs.Prelude.{Option, IfOk};
    ghost use Rattle.std.specs.Option.{option_map};
    ghost use Rattle.aml_tree.specs.Body.{trees_read};
    ghost use Rattle.aml_objects.specs.LookUp.{looked_up};
    ghost use Rattle.aml_namespace.specs.Names.{ReadsBodyOf, body_bytes, element_at, is_interface, link_at, link_with_owns, method_at};
    ghost use Rattle.aml_objects.specs.Entries.{entry_numbered, object_at, path_numbered};
    ghost use Rattle.aml_own_names.specs.OwnNamesSeen.{owns_seen};
    ghost use Rattle.aml_namespace.specs.PrintedObjects.{printed_object};
    ghost use Rattle.aml_objects.specs.Settled.{named_at};
    ghost use Rattle.aml_namespace.specs.Shows.{IsTold, Loads, bytes_in, shown};

    /// Loads a DSDT and any number of SSDTs behind it. Of each table: its header, then its whole
    /// module, then its definitions in the order of the bytes.
    ///
    /// Faults, each with the table's number and a place of at most the table's number of bytes:
    /// E101 to E104 of the table, at the place that `read_table` tells; E201 to E209 of its module,
    /// at the place that `read_module` tells; E301 at a name that is defined already; E302 at a
    /// name whose parent holds no names or is missing, and at the name of a Scope that opens none;
    /// E303 at a name behind 65,535 paths; E304 at the name of an alias's source that names
    /// nothing. Want of memory, E524, has neither. After a fault there is no namespace.
    #[tactic(auto, using(crate::proofs::Sound::bodies_within))]
    pub fn load(alloc: Global, tables: &[&'a [u8]], host: Host<'a>) -> Result<Self, LoadFault>
        requires { 0 < length tables.now }
        ensures loads { Loads (bytes_in tables.now) host.entry.os.now result }
        ensures interfaces { IfOk result
            (λ ns. (shown ns).interfaces ≡ bytes_in host.entry.osi.now) }
    {
        let mut objects = predefined(alloc, host.os.len() as u64)?;
        let loaded = match load_tables(alloc, tables, &mut objects) {
            Ok(loaded) => loaded,
            Err(fault) => return Err(fault),
        };
        objects.settle_chains()?;
        objects.settle(alloc, tables)?;
        let methods = objects.methods(alloc)?;
        Ok(Namespace {
            tables: Vec::from_slice(alloc, tables)?,
            host,
            width: Width::by_revision(loaded.revision),
            objects,
            externals: loaded.externals,
            answered: None,
            methods,
        })
    }

    /// Counts how many arguments the methods take that tables declare as others', and keeps it, so
    /// that `tree` need not count anew for each body that it reads. Who reads no body spares the
    /// memory, which may be many times that of the declarations.
    pub fn count_externals(&mut self, alloc: Global) -> Result<(), NoMemory>
        ensures { shown self.new ≡ shown self.old }
    {
        if self.answered.is_some() {
            return Ok(());
        }
        match self.counted(alloc) {
            Ok(answered) => {
                self.answered = answered;
                Ok(())
            }
            Err(_) => Err(NoMemory),
        }
    }

    /// The width of integers, by the DSDT's revision.
    pub fn width(&self) -> Width
        ensures { result ≡ (shown self.now).width }
    {
        self.width
    }

    /// The number of paths but the root's, and of the numbers that `path` and `entry` know.
    pub fn len(&self) -> usize
        ensures { result ≡ length (shown self.now).entries }
    {
        self.objects.len()
    }

    /// The object with this number; None at the number of an alias's path and past the last.
    pub fn object(&self, id: ObjectId) -> Option<Object>
        ensures { result ≡ object_at (shown self.now).entries id.0 }
    {
        self.objects.object(id.0)
    }

    /// What stands under the path with this number, an alias's among them; None past the last.
    pub fn entry(&self, id: ObjectId) -> Option<Entry>
        ensures { result ≡ entry_numbered (shown self.now).entries id.0 }
    {
        self.objects.numbered(id.0)
    }

    /// The method with this number; None where no method has it.
    pub fn method(&self, id: ObjectId) -> Option<Method>
        ensures { result ≡ method_at (shown self.now) id.0 }
    {
        method_in(self.object(id)?)
    }

    /// The numbers of all methods, in order of definition. `_OSI` is none of them.
    pub fn methods(&self) -> &[ObjectId]
        ensures { result.now ≡ methods_in (shown self.now).entries }
    {
        &self.methods
    }

    /// Every path in order of definition, its segments from the root on, with the number of its
    /// object: an alias's path has that of another.
    pub fn paths(&self, alloc: Global) -> Result<Vec<(Vec<NameSeg>, ObjectId)>, NoMemory>
        ensures { IfOk result
            (λ paths. map owned_kept paths.items ≡ owned_paths (shown self.now).entries) }
    {
        match self.objects.owned_paths(alloc) {
            Ok(paths) => Ok(paths),
            Err(_) => Err(NoMemory),
        }
    }

    /// The segments of the path with this number from the root on; None past the last.
    pub fn path(&self, alloc: Global, id: ObjectId) -> Result<Option<Vec<NameSeg>>, NoMemory>
        ensures { IfOk result
            (λ path. option_map path_kept path ≡ path_numbered (shown self.now).entries id.0) }
    {
        self.objects.path(alloc, id.0)
    }

    /// The number of the object whose path, or an alias's, a text prints: `\` and segments joined
    /// by `.`.
    #[tactic(auto, using(crate::proofs::PrintedObjects::found_printed))]
    pub fn find(&self, text: &[u8]) -> Option<ObjectId>
        ensures { option_map (λ id. id.0) result ≡
            printed_object (shown self.now).entries text.now }
    {
        let number = self.objects.object_number(self.objects.printed(text)?)?;
        Some(ObjectId(number))
    }

    /// The number of the object that a name names in a scope: a lone segment is searched upward,
    /// and every other name is exactly one path.
    pub fn lookup(&self, scope: Scope, name: &NameRef<'_>) -> Option<ObjectId>
        ensures { option_map (λ id. id.0) result
            ≡ looked_up (shown self.now).entries scope (name_of name.now) }
    {
        Some(ObjectId(self.objects.look_up(scope, name)?))
    }

    /// The number of the object that the name of a package element names at a place of these bytes,
    /// in the body of the method with this number. It is never an own name of the body.
    pub fn element(&self, id: ObjectId, bytes: &[u8], at: usize) -> Option<ObjectId>
        ensures { option_map (λ id. id.0) result
            ≡ element_at (shown self.now).entries id.0 bytes.now at }
    {
        let name = name_there(bytes, at)?;
        self.lookup(Scope::At(id), &name)
    }

    /// What the name at a place of these bytes means in the body of the method with this number,
    /// its own names apart.
    pub fn link(&self, id: ObjectId, bytes: &[u8], at: usize) -> Link
        ensures { result ≡ link_at (shown self.now).entries id.0 bytes.now at }
    {
        match self.element(id, bytes, at) {
            Some(named) => link_of(named.0, self.object(named)),
            None => Link::Missing,
        }
    }

    /// What the name at a place of these bytes, which is no package element, means in the body of
    /// the method with this number: one segment without prefix is the own name of the body that
    /// stands there, and any other name what it names in the namespace.
    pub fn link_with_owns(&self, id: ObjectId, bytes: &[u8], owns: &OwnNames, at: usize) -> Link
        ensures { result
            ≡ link_with_owns (shown self.now).entries id.0 bytes.now (owns_seen owns.now) at }
    {
        match owns.own_at(bytes, at) {
            Some(number) => Link::Own(number),
            None => self.link(id, bytes, at),
        }
    }

    /// The bytes of the table with this number.
    fn table(&self, number: usize) -> &[u8]
        requires { number < length (shown self.now).tables }
        ensures { result.now ≡ bytes_of (shown self.now).tables number }
    {
        self.tables[number]
    }

    /// The bytes of the table with this number, in the order of loading; none past the last.
    pub fn table_bytes(&self, number: usize) -> &[u8]
        ensures { result.now ≡ bytes_of (shown self.now).tables number }
    {
        if number < self.tables.len() {
            self.table(number)
        } else {
            &[]
        }
    }

    /// The text of `_OS_`.
    pub fn os_name(&self) -> &[u8]
        ensures { result.now ≡ (shown self.now).os }
    {
        self.host.os
    }

    /// Whether `_OSI` knows a text.
    pub fn has_interface(&self, text: &[u8]) -> bool
        ensures { result ≡ is_interface (shown self.now) text.now }
    {
        for known in self.host.osi {
            if *known == text {
                return true;
            }
        }
        false
    }

    /// The number of the object that the name at a place of a table names, from the scope in which
    /// it stands; None where nothing has the name, and where no name stands there.
    pub fn named_at(&self, name: NamePlace) -> Option<ObjectId>
        ensures { let ns = shown self.now in result ≡ named_at ns.tables ns.entries name }
    {
        self.objects.named_at(&self.tables, name)
    }

    /// The bytes in which a method's body stands, up to its end.
    pub fn body_bytes(&self, id: ObjectId) -> &[u8]
        requires { IsSome (method_at (shown self.now) id.0) }
        ensures { let ns = shown self.now in
            (m : Method) → method_at ns id.0 ≡ Some m → result.now ≡ body_bytes ns m }
    {
        let method = self.method(id).unwrap();
        &self.table(method.table)[..method.body.end]
    }

    /// The statements of a method's body: a name takes as many terms as the method that it names
    /// has arguments.
    ///
    /// Faults: E201 to E208, each with a place in the method's table, from the body's first byte to
    /// its end; want of memory, E524.
    pub fn tree(&self, alloc: Global, id: ObjectId) -> Result<Vec<Term>, TreeFault>
        requires { IsSome (method_at (shown self.now) id.0) }
        ensures { let ns = shown self.now in
            (m : Method) → method_at ns id.0 ≡ Some m → ReadsBodyOf ns id.0 m (trees_read result) }
    {
        match &self.answered {
            Some(_) => self.tree_with(alloc, id, &self.answered),
            None => {
                let answered = self.counted(alloc)?;
                self.tree_with(alloc, id, &answered)
            }
        }
    }

    /// What declarations tell of the paths; None where there is none.
    fn counted(&self, alloc: Global) -> Result<Option<Answered>, AllocError>
        ensures untold { IfOk result
            (λ answered. ForNone answered ((shown self.now).externals ≡ [])) }
        ensures told { IfOk result (λ answered. ForSome answered (IsTold (shown self.now))) }
    {
        declared_counts(alloc, &self.objects, &self.tables, &self.externals)
    }

    /// The statements of a method's body, from what declarations tell of the paths.
    fn tree_with(
        &self,
        alloc: Global,
        id: ObjectId,
        answered: &Option<Answered>,
    ) -> Result<Vec<Term>, TreeFault>
        requires there { IsSome (method_at (shown self.now) id.0) }
        requires untold { ForNone answered.now ((shown self.now).externals ≡ []) }
        requires told { ForSome answered.now (IsTold (shown self.now)) }
        ensures { let ns = shown self.now in
            (m : Method) → method_at ns id.0 ≡ Some m → ReadsBodyOf ns id.0 m (trees_read result) }
    {
        let method = self.method(id).unwrap();
        let inside = Inside {
            namespace: self,
            answered,
            method: id.0,
        };
        read_body(alloc, self.table(method.table), method.body, &inside)
    }
}

/// What declarations tell of the paths of a namespace; None where there is none.
fn declared_counts(
    alloc: Global,
    objects: &Objects,
    tables: &[&[u8]],
    externals: &[External],
) -> Result<Option<Answered>, AllocError>
    ensures untold { IfOk result (λ answered. ForNone answered (externals.now ≡ [])) }
    ensures told { let paths = paths_in (entries_seen objects.now) in
        IfOk result (λ answered. ForSome answered
        (λ a. TellsAll (map (λ t. t.now) tables.now) paths externals.now a.counted)) }
{
    if externals.is_empty() {
        return Ok(None);
    }
    let counted = Counted::of(alloc, objects.paths(), tables, externals)?;
    Ok(Some(Answered::of(alloc, counted)?))
}

/// What the name of the object with this number means in a body.
fn link_of(number: usize, object: Option<Object>) -> Link
    ensures { result ≡ link_of number object }
{
    let id = ObjectId(number);
    match object {
        Some(Object::Method(_)) => Link::Method(id),
        Some(Object::OsInterfaces) => Link::OsInterfaces,
        Some(Object::Data(_)) => Link::Data(id),
        Some(Object::Field(_)) => Link::Field(id),
        Some(Object::BufferField(_)) => Link::BufferField(id),
        Some(_) => Link::Object(id),
        None => Link::Missing,
    }
}

/// The method that an object is.
fn method_in(object: Object) -> Option<Method>
    ensures { result ≡ method_in object }
{
    match object {
        Object::Method(method) => Some(method),
        _ => None,
    }
}
