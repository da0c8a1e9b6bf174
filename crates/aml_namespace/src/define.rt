// What a module's terms make, in the order of the bytes (ACPI 6.5, 5.3 and 19.6).

ghost use Rattle.std.specs.Prelude.{◌≡◌, ◌≤◌, ◌++◌, length, OnOk, OnErr, Err};
ghost use Rattle.aml_operators.specs.declared.row.Code.TheVariants as code;
ghost use Rattle.aml_operators.specs.Shape.{AreShaped, IsShaped};
ghost use Rattle.aml_operators.specs.Tree.{view, views};
ghost use Rattle.aml_namespace.specs.Define.{alias_entered, all_defined, bank_fields, defined, field_entered, fields_from, flat, holding, index_fields, object_entered, region_fields, reopening};
ghost use Rattle.aml_namespace.specs.Externals.{all_declared, declared, declared_flat, declared_holding, declared_method, declared_reopening};
ghost use Rattle.aml_namespace.specs.FieldLists.{list_start};
ghost use Rattle.aml_objects.specs.Kept.{Makes, entries_seen, here_of};
ghost use Rattle.aml_namespace.specs.Parts.{HasParts};

use crate::fields::Cursor;
use crate::made::{name_place, object_of, reference};
use aml_arities::External;
use aml_lex::name_there;
use aml_objects::enter::{enter, enter_alias, open};
use aml_objects::{Entry, Field, Here, LoadFault, Object, Objects, Through};
use aml_operators::{Op, Term, first_and_rest, literal_of, number_in, three, two};

/// The object type of methods.
const METHOD_TYPE: u64 = 8;

/// Adds the object that a name at a place makes, if there is one.
fn enter_object(
    here: Here<'_>,
    objects: &mut Objects,
    made: Option<(usize, Object)>,
) -> Result<(), LoadFault>
    requires { here.scope ≤ length (entries_seen objects.old) }
    ensures made { let entries = entries_seen objects.old in
        Makes result (entries_seen objects.new) (object_entered (here_of here.entry) entries made) }
    ensures grows { OnOk result
        (length (entries_seen objects.old) ≤ length (entries_seen objects.new)) }
{
    let Some((at, object)) = made else {
        return Ok(());
    };
    match name_there(here.bytes, at) {
        Some(name) => enter(here, objects, at, &name, Entry::Own(object)),
        None => Ok(()),
    }
}

/// Adds the field that an item of a field list makes, if it makes one.
fn enter_field(
    here: Here<'_>,
    objects: &mut Objects,
    made: Option<(usize, Field)>,
) -> Result<(), LoadFault>
    requires { here.scope ≤ length (entries_seen objects.old) }
    ensures made { let entries = entries_seen objects.old in
        Makes result (entries_seen objects.new) (field_entered (here_of here.entry) entries made) }
    ensures grows { OnOk result
        (length (entries_seen objects.old) ≤ length (entries_seen objects.new)) }
{
    match made {
        Some((at, field)) => enter_object(here, objects, Some((at, Object::Field(field)))),
        None => Ok(()),
    }
}

/// Adds the fields of a field list.
#[tactic(auto, using(crate::proofs::Shapes::shaped_item))]
fn enter_fields(
    here: Here<'_>,
    objects: &mut Objects,
    through: Through,
    flags: u64,
    items: &[Term],
) -> Result<(), LoadFault>
    requires there { here.scope ≤ length (entries_seen objects.old) }
    requires shaped { AreShaped code.Module (views items.now) }
    ensures made { let entries = entries_seen objects.old in
        Makes result (entries_seen objects.new)
        (fields_from (here_of here.entry) through (list_start flags) entries (views items.now)) }
    ensures grows { OnOk result
        (length (entries_seen objects.old) ≤ length (entries_seen objects.new)) }
{
    let mut cursor = Cursor::at_start(flags);
    for item in items {
        enter_field(here, objects, cursor.field_of(through, item))?;
        cursor = cursor.behind(item);
    }
    Ok(())
}

/// Adds another path of an object: the names of the object and of the path stand at these places.
fn define_alias(
    here: Here<'_>,
    objects: &mut Objects,
    source_at: usize,
    at: usize,
) -> Result<(), LoadFault>
    requires { here.scope ≤ length (entries_seen objects.old) }
    ensures made { let entries = entries_seen objects.old in
        Makes result (entries_seen objects.new)
        (alias_entered (here_of here.entry) entries source_at at) }
    ensures grows { OnOk result
        (length (entries_seen objects.old) ≤ length (entries_seen objects.new)) }
{
    match (
        name_there(here.bytes, source_at),
        name_there(here.bytes, at),
    ) {
        (Some(source), Some(name)) => enter_alias(here, objects, source_at, &source, at, &name),
        _ => Ok(()),
    }
}

/// Adds the fields of a Field.
fn define_fields(here: Here<'_>, objects: &mut Objects, parts: &[Term]) -> Result<(), LoadFault>
    requires there { here.scope ≤ length (entries_seen objects.old) }
    requires many { 2 ≤ length parts.now }
    requires shaped { AreShaped code.Module (views parts.now) }
    ensures made { let entries = entries_seen objects.old in
        Makes result (entries_seen objects.new)
        (region_fields (here_of here.entry) entries (views parts.now)) }
    ensures grows { OnOk result
        (length (entries_seen objects.old) ≤ length (entries_seen objects.new)) }
{
    let (region, rest) = first_and_rest(parts);
    let (flags, items) = first_and_rest(rest);
    let through = Through::Region(reference(here, region));
    enter_fields(here, objects, through, number_in(flags), items)
}

/// Adds the fields of an IndexField.
fn define_index_fields(
    here: Here<'_>,
    objects: &mut Objects,
    parts: &[Term],
) -> Result<(), LoadFault>
    requires there { here.scope ≤ length (entries_seen objects.old) }
    requires many { 3 ≤ length parts.now }
    requires shaped { AreShaped code.Module (views parts.now) }
    ensures made { let entries = entries_seen objects.old in
        Makes result (entries_seen objects.new)
        (index_fields (here_of here.entry) entries (views parts.now)) }
    ensures grows { OnOk result
        (length (entries_seen objects.old) ≤ length (entries_seen objects.new)) }
{
    let (index, rest) = first_and_rest(parts);
    let (source, rest) = first_and_rest(rest);
    let (flags, items) = first_and_rest(rest);
    let through = Through::Index {
        index: reference(here, index),
        data: reference(here, source),
    };
    enter_fields(here, objects, through, number_in(flags), items)
}

/// Adds the fields of a BankField.
fn define_bank_fields(
    here: Here<'_>,
    objects: &mut Objects,
    parts: &[Term],
) -> Result<(), LoadFault>
    requires there { here.scope ≤ length (entries_seen objects.old) }
    requires many { 4 ≤ length parts.now }
    requires shaped { AreShaped code.Module (views parts.now) }
    ensures made { let entries = entries_seen objects.old in
        Makes result (entries_seen objects.new)
        (bank_fields (here_of here.entry) entries (views parts.now)) }
    ensures grows { OnOk result
        (length (entries_seen objects.old) ≤ length (entries_seen objects.new)) }
{
    let (region, rest) = first_and_rest(parts);
    let (bank, rest) = first_and_rest(rest);
    let (value, rest) = first_and_rest(rest);
    let (flags, items) = first_and_rest(rest);
    let through = Through::Bank {
        region: reference(here, region),
        bank: reference(here, bank),
        value: literal_of(value),
    };
    enter_fields(here, objects, through, number_in(flags), items)
}

/// What an External declares, where that is a method.
#[tactic(auto, using(aml_operators::proofs::Views::view_out, aml_operators::proofs::PartsOf::part_count))]
fn declare(here: Here<'_>, externals: &mut Vec<External>, parts: &[Term]) -> Result<(), LoadFault>
    requires { length parts.now ≡ 3 }
    ensures declares { let more = declared_method (here_of here.entry) (views parts.now) in
        OnOk result (externals.new.items ≡ externals.old.items ++ more) }
    ensures no_refusal { OnErr result (result ≡ Err LoadFault.NoMemory) }
{
    let (name, kind, args) = three(parts);
    if number_in(kind) != METHOD_TYPE {
        return Ok(());
    }
    externals.push(External {
        name: name_place(here, name),
        args: (number_in(args) % 256) as u8,
    })?;
    Ok(())
}

/// What a term makes that has no terms within.
#[tactic(auto, using(crate::proofs::Shapes::least_parts, aml_operators::proofs::PartsOf::part_count, aml_operators::proofs::Views::view_out))]
fn define_flat(
    here: Here<'_>,
    objects: &mut Objects,
    externals: &mut Vec<External>,
    op: Op,
    at: usize,
    parts: &[Term],
) -> Result<(), LoadFault>
    requires there { here.scope ≤ length (entries_seen objects.old) }
    requires has { HasParts op (views parts.now) }
    requires shaped { AreShaped code.Module (views parts.now) }
    ensures made { let entries = entries_seen objects.old in
        Makes result (entries_seen objects.new)
        (flat (here_of here.entry) entries op at (views parts.now)) }
    ensures grows { OnOk result
        (length (entries_seen objects.old) ≤ length (entries_seen objects.new)) }
    ensures declares { let more = declared_flat (here_of here.entry) op (views parts.now) in
        OnOk result (externals.new.items ≡ externals.old.items ++ more) }
{
    match op {
        Op::Alias => {
            let (source, alias) = two(parts);
            define_alias(here, objects, source.at, alias.at)
        }
        Op::Field => define_fields(here, objects, parts),
        Op::IndexField => define_index_fields(here, objects, parts),
        Op::BankField => define_bank_fields(here, objects, parts),
        Op::External => declare(here, externals, parts),
        _ => enter_object(here, objects, object_of(here, op, at, parts)),
    }
}

/// What stands within a new object that holds names.
#[cycle(define)]
fn define_within(
    here: Here<'_>,
    objects: &mut Objects,
    externals: &mut Vec<External>,
    made: Object,
    name: &Term,
    body: &[Term],
) -> Result<(), LoadFault>
    requires there { here.scope ≤ length (entries_seen objects.old) }
    requires shaped { AreShaped code.Module (views body.now) }
    ensures made { let entries = entries_seen objects.old in
        Makes result (entries_seen objects.new)
        (holding (here_of here.entry) entries made (view name.now)
        (λ inner es. all_defined inner es (views body.now))) }
    ensures grows { OnOk result
        (length (entries_seen objects.old) ≤ length (entries_seen objects.new)) }
    ensures declares { let entries = entries_seen objects.old in
        OnOk result (externals.new.items ≡ externals.old.items
        ++ declared_holding (here_of here.entry) entries made (view name.now)
        (λ inner es. all_declared inner es (views body.now))) }
{
    let Some(path) = name_there(here.bytes, name.at) else {
        return Ok(());
    };
    enter(here, objects, name.at, &path, Entry::Own(made))?;
    let inner = Here {
        table: here.table,
        bytes: here.bytes,
        scope: objects.len(),
    };
    define_all(inner, objects, externals, body)
}

/// What stands within a scope that is opened again.
#[cycle(define)]
fn define_reopened(
    here: Here<'_>,
    objects: &mut Objects,
    externals: &mut Vec<External>,
    name: &Term,
    body: &[Term],
) -> Result<(), LoadFault>
    requires there { here.scope ≤ length (entries_seen objects.old) }
    requires shaped { AreShaped code.Module (views body.now) }
    ensures made { let entries = entries_seen objects.old in
        Makes result (entries_seen objects.new)
        (reopening (here_of here.entry) entries (view name.now)
        (λ inner. all_defined inner entries (views body.now))) }
    ensures grows { OnOk result
        (length (entries_seen objects.old) ≤ length (entries_seen objects.new)) }
    ensures declares { let entries = entries_seen objects.old in
        OnOk result (externals.new.items ≡ externals.old.items
        ++ declared_reopening (here_of here.entry) entries (view name.now)
        (λ inner. all_declared inner entries (views body.now))) }
{
    let Some(path) = name_there(here.bytes, name.at) else {
        return Ok(());
    };
    let scope = open(here, objects, name.at, &path)?;
    let inner = Here {
        table: here.table,
        bytes: here.bytes,
        scope,
    };
    define_all(inner, objects, externals, body)
}

/// What a term makes.
#[cycle(define)]
#[tactic(auto, using(crate::proofs::Shapes::least_parts, aml_operators::proofs::Views::view_out))]
fn define(
    here: Here<'_>,
    objects: &mut Objects,
    externals: &mut Vec<External>,
    term: &Term,
) -> Result<(), LoadFault>
    requires there { here.scope ≤ length (entries_seen objects.old) }
    requires shaped { IsShaped code.Module (view term.now) }
    ensures made { let entries = entries_seen objects.old in
        Makes result (entries_seen objects.new)
        (defined (here_of here.entry) entries (view term.now)) }
    ensures grows { OnOk result
        (length (entries_seen objects.old) ≤ length (entries_seen objects.new)) }
    ensures declares { OnOk result (externals.new.items ≡ externals.old.items
        ++ declared (here_of here.entry) (entries_seen objects.old) (view term.now)) }
{
    let parts = &term.parts[..];
    match term.op {
        Op::Scope => {
            let (name, body) = first_and_rest(parts);
            define_reopened(here, objects, externals, name, body)
        }
        Op::Device => {
            let (name, body) = first_and_rest(parts);
            define_within(here, objects, externals, Object::Device, name, body)
        }
        Op::ThermalZone => {
            let (name, body) = first_and_rest(parts);
            define_within(here, objects, externals, Object::ThermalZone, name, body)
        }
        Op::PowerResource => {
            let (name, rest) = first_and_rest(parts);
            let (_, rest) = first_and_rest(rest);
            let (_, body) = first_and_rest(rest);
            define_within(here, objects, externals, Object::PowerResource, name, body)
        }
        Op::Processor => {
            let (name, rest) = first_and_rest(parts);
            let (_, rest) = first_and_rest(rest);
            let (_, rest) = first_and_rest(rest);
            let (_, body) = first_and_rest(rest);
            define_within(here, objects, externals, Object::Processor, name, body)
        }
        op => define_flat(here, objects, externals, op, term.at, parts),
    }
}

/// What terms make, one behind the other.
#[cycle(define)]
#[tactic(auto, using(crate::proofs::Shapes::shaped_item, crate::proofs::Weights::lighter_item))]
pub(crate) fn define_all(
    here: Here<'_>,
    objects: &mut Objects,
    externals: &mut Vec<External>,
    terms: &[Term],
) -> Result<(), LoadFault>
    requires there { here.scope ≤ length (entries_seen objects.old) }
    requires shaped { AreShaped code.Module (views terms.now) }
    ensures made { let entries = entries_seen objects.old in
        Makes result (entries_seen objects.new)
        (all_defined (here_of here.entry) entries (views terms.now)) }
    ensures grows { OnOk result
        (length (entries_seen objects.old) ≤ length (entries_seen objects.new)) }
    ensures declares { OnOk result (externals.new.items ≡ externals.old.items
        ++ all_declared (here_of here.entry) (entries_seen objects.old) (views terms.now)) }
{
    for term in terms {
        define(here, objects, externals, term)?;
    }
    Ok(())
}
