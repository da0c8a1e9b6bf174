// What data holds, by its term (ACPI 6.5, 19.6, Name, Buffer and Package).

ghost use Rattle.std.specs.Prelude.{◌≡◌, ◌-◌, ◌++◌, IfOk, length, map, replicate, take};
ghost use Rattle.aml_operators.specs.Tree.{view, views};
ghost use Rattle.aml_namespace.specs.Shows.{shown};
ghost use Rattle.aml_values.specs.Values.{Pkg, Unset, none};
ghost use Rattle.aml_values.specs.Views as seen;
ghost use Rattle.aml_contents.specs.FirstContents.{bytes_in, counted, elements_behind, elements_in, element_in, filled, first_bytes, initialiser_in, named, number_of, text_in, value_in, value_of, value_told};

use aml_lex::bytes_between;
use aml_namespace::{Content, Namespace, Width, content_in};
use aml_operators::{Op, Term, behind_first, literal_in};
use aml_paths::{NamePlace, NoMemory, ObjectId, Scope};
use aml_values::{Bytes, Element, Package, Value};
use std::alloc::Global;

/// Where data stands.
#[derive(Clone, Copy)]
pub(crate) struct Site {
    /// The number of its table.
    pub table: usize,
    /// The scope from which its names are looked up.
    pub scope: Scope,
}

/// The bytes of the first of some parts.
fn first_bytes<'a>(bytes: &'a [u8], parts: &[Term]) -> &'a [u8]
    ensures { result.now ≡ first_bytes bytes.now (views parts.now) }
{
    match parts {
        [part, ..] => bytes_between(bytes, part.at, part.end),
        [] => &[],
    }
}

/// The bytes of a buffer's initialiser, by its parts.
fn initialiser_in<'a>(bytes: &'a [u8], parts: &[Term]) -> &'a [u8]
    ensures { result.now ≡ initialiser_in bytes.now (views parts.now) }
{
    match parts {
        [_, rest @ ..] => first_bytes(bytes, rest),
        [] => &[],
    }
}

/// The characters of a string, by its parts.
fn text_in<'a>(bytes: &'a [u8], parts: &[Term]) -> &'a [u8]
    ensures { result.now ≡ text_in bytes.now (views parts.now) }
{
    match parts {
        [text, ..] => bytes_between(bytes, text.at, text.end.saturating_sub(1)),
        [] => &[],
    }
}

/// The bytes of a buffer's initialiser, and the characters of a string.
fn bytes_in<'a>(bytes: &'a [u8], op: Op, parts: &[Term]) -> &'a [u8]
    ensures { result.now ≡ bytes_in bytes.now op (views parts.now) }
{
    match op {
        Op::Buffer => initialiser_in(bytes, parts),
        Op::String => text_in(bytes, parts),
        _ => &[],
    }
}

/// The number of an integer literal, and 0 of any other term.
fn number_of(op: Op, parts: &[Term]) -> u64
    ensures { result ≡ number_of op (views parts.now) }
{
    literal_in(op, parts).unwrap_or(0)
}

/// So many bytes: the first of these, and zeros behind them.
pub fn filled(alloc: Global, size: u64, bytes: &[u8]) -> Result<Bytes, NoMemory>
    ensures { IfOk result (λ made. made ≡ filled size bytes.now) }
{
    let mut items = Vec::from_slice(alloc, bytes)?;
    items.resize(size as usize, 0)?;
    Ok(Bytes::new(items))
}

/// Unset elements behind some, so that there are so many.
#[tactic(auto, using(crate::proofs::FirstValues::unset_more))]
fn with_unset(elements: Vec<Element>, size: u64) -> Result<Vec<Element>, NoMemory>
    ensures { IfOk result (λ es. map seen.element es.items ≡
        map seen.element elements.items ++ replicate (size - length elements.items) Unset) }
{
    let mut made = elements;
    'unset: for _ in made.len()..size as usize {
        made.push(Element::Unset)?;
    }
    Ok(made)
}

/// A package of these elements. No more of them stand in one another than a term has levels.
pub fn package_of(elements: Vec<Element>) -> Result<Value, NoMemory>
    ensures { IfOk result (λ v. seen.view v ≡ Pkg (seen.elements_of elements.items)) }
{
    match Package::new(elements) {
        Ok(package) => Ok(Value::Pkg(package)),
        Err(_) => Err(NoMemory),
    }
}

/// A value of which it is told what it is, made of a number or of bytes; a package has no element
/// that is set.
#[tactic(auto, using(crate::proofs::FirstValues::unset_counted))]
pub(crate) fn plain_value(
    alloc: Global,
    width: Width,
    told: Content,
    number: u64,
    bytes: &[u8],
) -> Result<Value, NoMemory>
    ensures { IfOk result (λ v. seen.view v ≡ value_told width told number bytes.now none) }
{
    match told {
        Content::Integer => Ok(Value::Int(width.wrapped(number))),
        Content::Buffer(size) => Ok(Value::Buf(filled(alloc, size, bytes)?)),
        Content::String(size) => Ok(Value::Str(filled(alloc, size, bytes)?)),
        Content::Package(size) => package_of(with_unset(Vec::new(alloc), size)?),
    }
}

/// The value of a term of which it is told what it is.
#[tactic(auto, using(aml_operators::proofs::Views::view_out))]
pub(crate) fn value_in(
    alloc: Global,
    namespace: &Namespace<'_>,
    site: Site,
    told: Content,
    term: &Term,
) -> Result<Value, NoMemory>
    ensures { IfOk result (λ v. seen.view v ≡
        value_in (shown namespace.now) site.table site.scope told (view term.now)) }
{
    match term.op {
        Op::Package | Op::VarPackage => {
            value_of(alloc, namespace, site, told, term.op, &term.parts)
        }
        _ => {
            let bytes = bytes_in(namespace.table_bytes(site.table), term.op, &term.parts);
            let number = number_of(term.op, &term.parts);
            plain_value(alloc, namespace.width(), told, number, bytes)
        }
    }
}

/// The value of a term that may have elements, by its operator and its parts.
#[cycle(first_data)]
pub(crate) fn value_of(
    alloc: Global,
    namespace: &Namespace<'_>,
    site: Site,
    told: Content,
    op: Op,
    parts: &[Term],
) -> Result<Value, NoMemory>
    ensures { IfOk result (λ v. seen.view v ≡
        value_of (shown namespace.now) site.table site.scope told op (views parts.now)) }
{
    match told {
        Content::Package(size) => {
            package_of(elements_behind(alloc, namespace, site, size, parts)?)
        }
        _ => {
            let bytes = bytes_in(namespace.table_bytes(site.table), op, parts);
            plain_value(alloc, namespace.width(), told, number_of(op, parts), bytes)
        }
    }
}

/// So many elements of a package: what stands behind its number of them, and unset ones.
#[cycle(first_data)]
#[tactic(auto, using(crate::proofs::FirstValues::counted_behind, crate::proofs::FirstValues::lighter_kept))]
fn elements_behind(
    alloc: Global,
    namespace: &Namespace<'_>,
    site: Site,
    size: u64,
    parts: &[Term],
) -> Result<Vec<Element>, NoMemory>
    ensures { IfOk result (λ es. seen.elements_of es.items ≡
        counted size (elements_behind (shown namespace.now) site.table site.scope
        (views parts.now))) }
{
    let terms = behind_first(parts);
    let kept = first_terms(terms, size);
    let elements = elements_in(alloc, namespace, site, kept)?;
    with_unset(elements, size)
}

/// The elements that terms are.
#[cycle(first_data)]
#[tactic(auto, using(aml_namespace::proofs::Weights::lighter_item))]
fn elements_in(
    alloc: Global,
    namespace: &Namespace<'_>,
    site: Site,
    terms: &[Term],
) -> Result<Vec<Element>, NoMemory>
    ensures { IfOk result (λ es. map seen.element es.items ≡
        map (λ t. element_in (shown namespace.now) site.table site.scope (view t)) terms.now) }
{
    let mut made = Vec::new(alloc);
    for term in terms {
        let element = element_in(alloc, namespace, site, term)?;
        made.push(element)?;
    }
    Ok(made)
}

/// The element that a term is: a name, with what it names, or a value.
#[cycle(first_data)]
#[tactic(auto, using(aml_operators::proofs::Views::view_out))]
fn element_in(
    alloc: Global,
    namespace: &Namespace<'_>,
    site: Site,
    term: &Term,
) -> Result<Element, NoMemory>
    ensures { IfOk result (λ e. seen.element e ≡
        element_in (shown namespace.now) site.table site.scope (view term.now)) }
{
    match term.op {
        Op::NameString => Ok(Element::Name(named(namespace, site, term.at))),
        _ => {
            let told = content_in(term.op, &term.parts);
            let value = value_of(alloc, namespace, site, told, term.op, &term.parts)?;
            Ok(Element::Value(value))
        }
    }
}

/// What the name at a place names.
fn named(namespace: &Namespace<'_>, site: Site, at: usize) -> Option<ObjectId>
    ensures { result ≡ named (shown namespace.now) site.table site.scope at }
{
    namespace.named_at(NamePlace {
        table: site.table,
        at,
        scope: site.scope,
    })
}

/// So many terms, or all where there are fewer.
fn first_terms(terms: &[Term], size: u64) -> &[Term]
    ensures { result.now ≡ take size terms.now }
{
    &terms[..terms.len().min(size as usize)]
}
