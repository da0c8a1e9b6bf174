// What objects name, found once all tables are loaded (ACPI 6.5, 19.6, Field and its kin,
// CreateField and its kin).

ghost use Rattle.std.specs.Prelude.{◌≡◌, map, OnErr, OnOk};
ghost use Rattle.aml_objects.specs.Settled.{found, found_entry, found_object, found_through, named_at, settled};

use crate::object::{CreatedField, Entry, Field, Object, Reference, Through};
use crate::objects::Objects;
use aml_lex::name_there;
use aml_paths::{NamePlace, ObjectId};
use std::alloc::{AllocError, Global};

impl Objects {
    ghost use Rattle.aml_objects.specs.Kept.{entries_seen};

    /// The object that the name at a place names, from the scope in which it stands; None where it
    /// names nothing.
    pub fn named_at(&self, tables: &[&[u8]], name: NamePlace) -> Option<ObjectId>
        ensures { result ≡ named_at (map (λ t. t.now) tables.now) (entries_seen self.now) name }
    {
        let spelled = name_there(tables.get(name.table)?, name.at)?;
        Some(ObjectId(self.look_up(name.scope, &spelled)?))
    }

    fn found(&self, tables: &[&[u8]], reference: Reference) -> Reference
        ensures { result ≡
            found (named_at (map (λ t. t.now) tables.now) (entries_seen self.now)) reference }
    {
        Reference {
            name: reference.name,
            object: self.named_at(tables, reference.name),
        }
    }

    fn found_through(&self, tables: &[&[u8]], through: Through) -> Through
        ensures { result ≡
            found_through (named_at (map (λ t. t.now) tables.now) (entries_seen self.now)) through }
    {
        match through {
            Through::Region(region) => Through::Region(self.found(tables, region)),
            Through::Index { index, data } => Through::Index {
                index: self.found(tables, index),
                data: self.found(tables, data),
            },
            Through::Bank {
                region,
                bank,
                value,
            } => Through::Bank {
                region: self.found(tables, region),
                bank: self.found(tables, bank),
                value,
            },
        }
    }

    fn found_object(&self, tables: &[&[u8]], object: Object) -> Object
        ensures { result ≡
            found_object (named_at (map (λ t. t.now) tables.now) (entries_seen self.now)) object }
    {
        match object {
            Object::Field(field) => Object::Field(Field {
                through: self.found_through(tables, field.through),
                ..field
            }),
            Object::BufferField(field) => Object::BufferField(CreatedField {
                source: self.found(tables, field.source),
                ..field
            }),
            other => other,
        }
    }

    fn found_entry(&self, tables: &[&[u8]], entry: Entry) -> Entry
        ensures { result ≡
            found_entry (named_at (map (λ t. t.now) tables.now) (entries_seen self.now)) entry }
    {
        match entry {
            Entry::Own(object) => Entry::Own(self.found_object(tables, object)),
            Entry::Alias(id) => Entry::Alias(id),
        }
    }

    /// Finds what the objects name, once all tables are loaded.
    pub fn settle(&mut self, alloc: Global, tables: &[&[u8]]) -> Result<(), AllocError>
        ensures ok { let made = entries_seen self.old in
            OnOk result (entries_seen self.new ≡ settled (map (λ t. t.now) tables.now) made) }
        ensures err { OnErr result (entries_seen self.new ≡ entries_seen self.old) }
    {
        let mut entries = Vec::with_capacity(alloc, self.entries.len())?;
        for entry in &self.entries {
            entries.push(self.found_entry(tables, *entry))?;
        }
        self.entries = entries;
        Ok(())
    }
}
