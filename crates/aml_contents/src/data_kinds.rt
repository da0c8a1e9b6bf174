// Whether what data holds is of a kind, by its bytes alone: no term and no value is made, so that
// no memory is taken.

ghost use Rattle.std.specs.Prelude.{◌≡◌, ◌≤◌, ◌<◌, ◌∷◌, ◌&&◌, ◌||◌, [], IfSome, length, nat_le};
ghost use Rattle.aml_operators.specs.Tree.{Tree};
ghost use Rattle.aml_operators.specs.declared.row.Code.TheVariants as code;
ghost use Rattle.aml_operators.specs.declared.row.Spot.TheVariants as spot;
ghost use Rattle.aml_tree.specs.Body.{no_arguments};
ghost use Rattle.aml_tree.specs.Data.{data_at};
ghost use Rattle.aml_tree.specs.Reading.{term_at, terms_until};
ghost use Rattle.aml_namespace.specs.Shows.{shown};
ghost use Rattle.aml_kinds.specs.KindViews.{element_kind, shape_of};
ghost use Rattle.aml_kinds.specs.Kinds.{Anything, bare};
ghost use Rattle.aml_kinds.specs.SameKinds.{same_element_kind, same_shape};
ghost use Rattle.aml_contents.specs.DataKinds.{counted_places, data_shape, element_compared, elements_compared, leaf_place, place_at, seen, source_shape, unset_from, wanted_shape, wants_package};
ghost use Rattle.aml_contents.specs.FirstContents.{data_in, term_or_zero};

use aml_kinds::{ElementKind, Kind, element_kinds_match};
use aml_namespace::{Namespace, Source, Width};
use aml_tree::{Head, Span, data_head, element_head};
use aml_values::MOST_NESTED;

/// The kind of an element that is no package, by how it begins.
fn leaf_place(width: Width, head: Head) -> ElementKind
    ensures { element_kind result ≡ leaf_place width head }
{
    match head {
        Head::Name => ElementKind::Name,
        Head::Integer(number) => ElementKind::Value(Kind::Int(width.wrapped(number))),
        Head::Buffer(size) => ElementKind::Value(Kind::Buf(size)),
        Head::String(size) => ElementKind::Value(Kind::Str(size)),
        Head::Package { .. } => ElementKind::Unset,
    }
}

/// The place with a number; the unset one where there is none.
fn place_at<'a>(places: &'a [ElementKind], number: usize, unset: &'a ElementKind) -> &'a ElementKind
    requires { element_kind unset.now ≡ Anything }
    ensures { element_kind result.now ≡ place_at (shape_of places.now) number }
{
    if number < places.len() {
        &places[number]
    } else {
        unset
    }
}

/// The places that an element has to have, where it has to be a package.
fn wanted_places(wanted: &ElementKind) -> &[ElementKind]
    ensures { shape_of result.now ≡ wanted_shape (element_kind wanted.now) }
{
    match wanted {
        ElementKind::Value(Kind::Pkg(shape)) => shape.places(),
        _ => &[],
    }
}

/// Whether an element that has these places as a package has to be one.
fn is_wanted_package(has_places: bool, wanted: &ElementKind) -> bool
    ensures { result ≡ (has_places && wants_package (element_kind wanted.now)) }
{
    has_places && matches!(wanted, ElementKind::Value(Kind::Pkg(_)))
}

/// Whether a place is unset.
fn is_unset(place: &ElementKind) -> bool
    ensures { result ≡ same_element_kind (element_kind place.now) Anything }
{
    matches!(place, ElementKind::Unset)
}

/// Whether the places from a number on are unset.
fn are_unset(places: &[ElementKind], from: usize) -> bool
    ensures { result ≡ unset_from (shape_of places.now) from }
{
    for i in from..places.len() {
        if !is_unset(&places[i]) {
            return false;
        }
    }
    true
}

/// Whether the places before a number are right, and those from it on are unset.
fn is_rest_unset(before: bool, places: &[ElementKind], from: usize) -> bool
    ensures { result ≡ (before && unset_from (shape_of places.now) from) }
{
    before && are_unset(places, from)
}

/// Whether these places are those of a package that tells so many elements and has none.
fn no_elements(places: &[ElementKind], count: u64) -> bool
    ensures { result ≡ same_shape (shape_of places.now) (counted_places count bare) }
{
    is_rest_unset(places.len() as u64 == count, places, 0)
}

/// Whether the elements up to this one have their places: one that is dropped has none.
fn is_same_so_far(before: bool, this: bool, count: usize, number: usize) -> bool
    ensures { result ≡ (before && (this || nat_le count number)) }
{
    before && (this || count <= number)
}

/// Where the element at a place ends, and whether it is of just this kind. None where reading it
/// meets a fault.
#[cycle(data_kind)]
fn element(
    width: Width,
    wanted: &ElementKind,
    own: usize,
    bytes: &[u8],
    at: usize,
    depth: u8,
) -> Option<(usize, bool)>
    ensures gives { result ≡ seen (element_compared width (element_kind wanted.now))
        (term_at code.Module no_arguments depth own spot.Element bytes.now at) }
    ensures ahead { IfSome result (λ r. at < r.0) }
    ensures within { IfSome result (λ r. r.0 ≤ length bytes.now) }
{
    if depth == 0 {
        return None;
    }
    let (head, stop) = element_head(own, bytes, at, depth)?;
    match head {
        Head::Package { count, start } => {
            let places = wanted_places(wanted);
            let inside = &bytes[..stop];
            let (end, same) = elements(width, places, count, at, inside, start, depth - 1)?;
            Some((end, is_wanted_package(same, wanted)))
        }
        _ => Some((stop, element_kinds_match(wanted, &leaf_place(width, head)))),
    }
}

/// Where the elements of a package end, which stand behind its number of them, and whether so many
/// of them have just these places: unset ones are missing, and further elements are dropped. None
/// where reading one of them meets a fault, also where it is dropped.
#[cycle(data_kind)]
fn elements(
    width: Width,
    places: &[ElementKind],
    count: u64,
    own: usize,
    bytes: &[u8],
    start: usize,
    depth: u8,
) -> Option<(usize, bool)>
    requires { start ≤ length bytes.now }
    ensures gives { (number : Tree) → result ≡ seen
        (elements_compared width count (shape_of places.now)) (terms_until no_arguments
        (term_at code.Module no_arguments depth) own spot.Element bytes.now (length bytes.now)
        (number ∷ []) start) }
    ensures ahead { IfSome result (λ r. start ≤ r.0) }
    ensures within { IfSome result (λ r. r.0 ≤ length bytes.now) }
{
    let unset = ElementKind::Unset;
    let mut at = start;
    let mut i = 0;
    let mut same = places.len() as u64 == count;
    while at < bytes.len() {
        let wanted = place_at(places, i, &unset);
        let (next, fits) = element(width, wanted, own, bytes, at, depth)?;
        same = is_same_so_far(same, fits, places.len(), i);
        at = next;
        i += 1;
    }
    Some((at, is_rest_unset(same, places, i)))
}

/// Whether the data at a place has just these places as a package of so many elements. What is no
/// package, and what cannot be read, has no elements.
fn is_data_shape(width: Width, places: &[ElementKind], count: u64, bytes: &[u8], at: usize) -> bool
    ensures { result ≡ same_shape (shape_of places.now)
        (counted_places count (data_shape width (term_or_zero (data_at bytes.now at)))) }
{
    let Some((head, stop)) = data_head(bytes, at) else {
        return no_elements(places, count);
    };
    match head {
        Head::Package { count: _, start } => {
            let inside = &bytes[..stop];
            match elements(width, places, count, at, inside, start, MOST_NESTED - 1) {
                Some((_, same)) => same,
                None => no_elements(places, count),
            }
        }
        _ => no_elements(places, count),
    }
}

/// The same of what stands in a part of some bytes.
fn is_span_shape(width: Width, places: &[ElementKind], count: u64, bytes: &[u8], span: Span) -> bool
    ensures { result ≡ same_shape (shape_of places.now)
        (counted_places count (data_shape width (data_in bytes.now span))) }
{
    if span.is_within(bytes) {
        is_data_shape(width, places, count, &bytes[..span.end], span.at)
    } else {
        no_elements(places, count)
    }
}

/// The same of what a name's first content comes from.
pub(crate) fn is_source_shape(
    namespace: &Namespace<'_>,
    places: &[ElementKind],
    count: u64,
    source: Source,
) -> bool
    ensures { result ≡ same_shape (shape_of places.now)
        (counted_places count (source_shape (shown namespace.now) source)) }
{
    match source {
        Source::Term {
            table,
            span,
            scope: _,
        } => {
            let bytes = namespace.table_bytes(table);
            is_span_shape(namespace.width(), places, count, bytes, span)
        }
        Source::Revision | Source::OsName => no_elements(places, count),
    }
}
