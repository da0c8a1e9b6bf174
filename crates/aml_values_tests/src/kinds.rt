// Values against kinds and kinds against kinds, each row written by hand from the definitions.

use aml_kinds::{
    ElementKind, Kind, Shape, copy_kind, element_kinds_match, fits, fits_what_it_lies_within,
    is_same_kind, is_within, join, join_associates, join_commutes, join_elements, join_stays,
};
use aml_paths::{NoMemory, ObjectId};
use aml_values::{Bytes, Element, Package, Value, copy, is_same_value};
use std::alloc::{AllocError, Global};
use std::test::Fail;

/// What a value of a row is.
#[derive(Clone, Copy)]
pub(crate) enum Sample {
    Int(u64),
    /// A buffer of so many bytes.
    Buf(usize),
    /// A string of so many bytes.
    Str(usize),
    /// A package of so many unset elements.
    Unset(usize),
    /// A package of this integer alone.
    OfInt(u64),
    /// A package of a package of this integer alone.
    OfOfInt(u64),
    /// A package of a buffer of so many bytes alone.
    OfBuf(usize),
    /// A package of a name alone.
    OfName(Option<ObjectId>),
    /// A package of 9 and a name.
    NineAndName,
    /// A package of 9 and an unset element.
    NineAndUnset,
    /// So many packages in one another, the innermost without elements.
    Nested(usize),
}

/// What a kind of a row is.
#[derive(Clone, Copy)]
enum Form {
    Int(u64),
    Buf(u64),
    Str(u64),
    /// A shape of so many unset places.
    Unset(usize),
    /// A shape of an integer's place alone.
    OfInt(u64),
    /// A shape of such a shape alone.
    OfOfInt(u64),
    /// A shape of a package's place alone, of any shape.
    OfAny,
    /// A shape of a name's place alone.
    OfName,
    /// A shape of the places of 9 and a name.
    NineAndName,
    /// So many shapes in one another, the innermost without places.
    Nested(usize),
    AnyPkg,
    Mixed,
}

fn bytes(alloc: Global, count: usize) -> Result<Bytes, AllocError> {
    Ok(Bytes::new(vec![in alloc; 7; count]?))
}

fn buffer(alloc: Global, count: usize) -> Result<Value, AllocError> {
    Ok(Value::Buf(bytes(alloc, count)?))
}

fn string(alloc: Global, count: usize) -> Result<Value, AllocError> {
    Ok(Value::Str(bytes(alloc, count)?))
}

/// A package of these elements, none too deep.
fn package(elements: Vec<Element>) -> Result<Value, AllocError> {
    match Package::new(elements) {
        Ok(made) => Ok(Value::Pkg(made)),
        Err(_) => Err(AllocError),
    }
}

/// A shape of these places, none too deep.
fn shape(places: Vec<ElementKind>) -> Result<Kind, AllocError> {
    match Shape::new(places) {
        Ok(made) => Ok(Kind::Pkg(made)),
        Err(_) => Err(AllocError),
    }
}

/// The package of this element alone.
fn package_of(alloc: Global, element: Element) -> Result<Value, AllocError> {
    package(vec![in alloc; element]?)
}

/// The shape of this place alone.
fn shape_of(alloc: Global, place: ElementKind) -> Result<Kind, AllocError> {
    shape(vec![in alloc; place]?)
}

/// The package of as many unset elements.
fn unset(alloc: Global, count: usize) -> Result<Value, AllocError> {
    let mut elements = Vec::new(alloc);
    for _ in 0..count {
        elements.push(Element::Unset)?;
    }
    package(elements)
}

/// The shape of as many unset places.
fn unset_places(alloc: Global, count: usize) -> Result<Kind, AllocError> {
    let mut places = Vec::new(alloc);
    for _ in 0..count {
        places.push(ElementKind::Unset)?;
    }
    shape(places)
}

/// A value in so many packages.
fn packed(alloc: Global, value: Value, count: usize) -> Result<Value, AllocError> {
    let mut value = value;
    for _ in 0..count {
        value = package_of(alloc, Element::Value(value))?;
    }
    Ok(value)
}

/// A kind in so many shapes.
fn shaped(alloc: Global, kind: Kind, count: usize) -> Result<Kind, AllocError> {
    let mut kind = kind;
    for _ in 0..count {
        kind = shape_of(alloc, ElementKind::Value(kind))?;
    }
    Ok(kind)
}

/// The package of 9 and this element.
fn nine_and(alloc: Global, element: Element) -> Result<Value, AllocError> {
    package(vec![in alloc; Element::Value(Value::Int(9)), element]?)
}

/// The shape of the places of 9 and this one.
fn nine_and_place(alloc: Global, place: ElementKind) -> Result<Kind, AllocError> {
    shape(vec![in alloc; ElementKind::Value(Kind::Int(9)), place]?)
}

pub(crate) fn value_of(alloc: Global, sample: Sample) -> Result<Value, AllocError> {
    match sample {
        Sample::Int(number) => Ok(Value::Int(number)),
        Sample::Buf(count) => buffer(alloc, count),
        Sample::Str(count) => string(alloc, count),
        Sample::Unset(count) => unset(alloc, count),
        Sample::OfInt(number) => packed(alloc, Value::Int(number), 1),
        Sample::OfOfInt(number) => packed(alloc, Value::Int(number), 2),
        Sample::OfBuf(count) => packed(alloc, buffer(alloc, count)?, 1),
        Sample::OfName(name) => package_of(alloc, Element::Name(name)),
        Sample::NineAndName => nine_and(alloc, Element::Name(None)),
        Sample::NineAndUnset => nine_and(alloc, Element::Unset),
        Sample::Nested(count) => packed(alloc, unset(alloc, 0)?, count.saturating_sub(1)),
    }
}

fn kind_of(alloc: Global, form: Form) -> Result<Kind, AllocError> {
    match form {
        Form::Int(greatest) => Ok(Kind::Int(greatest)),
        Form::Buf(count) => Ok(Kind::Buf(count)),
        Form::Str(count) => Ok(Kind::Str(count)),
        Form::Unset(count) => unset_places(alloc, count),
        Form::OfInt(greatest) => shaped(alloc, Kind::Int(greatest), 1),
        Form::OfOfInt(greatest) => shaped(alloc, Kind::Int(greatest), 2),
        Form::OfAny => shaped(alloc, Kind::AnyPkg, 1),
        Form::OfName => shape_of(alloc, ElementKind::Name),
        Form::NineAndName => nine_and_place(alloc, ElementKind::Name),
        Form::Nested(count) => shaped(alloc, unset_places(alloc, 0)?, count.saturating_sub(1)),
        Form::AnyPkg => Ok(Kind::AnyPkg),
        Form::Mixed => Ok(Kind::Mixed),
    }
}

/// Whether a value fits a kind.
fn does_fit(alloc: Global, sample: Sample, form: Form) -> Result<bool, AllocError> {
    let value = value_of(alloc, sample)?;
    Ok(fits(&value, &kind_of(alloc, form)?))
}

/// An x for each kind that a value fits, a dot for each other.
fn marks(alloc: Global, sample: Sample, forms: &[Form]) -> Result<String, AllocError> {
    let mut marks = String::new(alloc);
    for form in forms {
        let mark = if does_fit(alloc, sample, *form)? {
            'x'
        } else {
            '.'
        };
        marks.push(mark)?;
    }
    Ok(marks)
}

#[test]
fn values_fit(rt: HostRuntime) -> Result<(), Fail> {
    let columns: &[Form] = &[
        Form::Int(255),
        Form::Buf(2),
        Form::Str(2),
        Form::OfInt(9),
        Form::OfName,
        Form::Unset(1),
        Form::NineAndName,
        Form::Unset(0),
        Form::AnyPkg,
        Form::Mixed,
    ];
    let rows: &[(Sample, &str)] = &[
        (Sample::Int(0), "x........x"),
        (Sample::Int(255), "x........x"),
        (Sample::Int(256), ".........x"),
        (Sample::Int(u64::MAX), ".........x"),
        (Sample::Buf(0), ".........x"),
        (Sample::Buf(1), ".........x"),
        (Sample::Buf(2), ".x.......x"),
        (Sample::Buf(3), ".........x"),
        (Sample::Str(1), ".........x"),
        (Sample::Str(2), "..x......x"),
        (Sample::Str(3), ".........x"),
        (Sample::Unset(0), ".......xxx"),
        (Sample::OfInt(9), "...x.x..xx"),
        (Sample::OfInt(10), ".....x..xx"),
        (Sample::OfBuf(2), ".....x..xx"),
        (Sample::OfName(None), "....xx..xx"),
        (Sample::OfName(Some(ObjectId(3))), "....xx..xx"),
        (Sample::Unset(1), ".....x..xx"),
        (Sample::Unset(2), "........xx"),
        (Sample::NineAndName, "......x.xx"),
        (Sample::NineAndUnset, "........xx"),
    ];
    for (sample, row) in rows {
        let found = marks(rt.alloc(), *sample, columns)?;
        assert_eq!(rt; found.as_str(), *row);
    }
    Ok(())
}

/// Packages in packages, and packages of more elements than any package of a kind has.
#[test]
fn packages_fit(rt: HostRuntime) -> Result<(), Fail> {
    let rows: &[(Sample, Form, bool)] = &[
        (Sample::OfOfInt(9), Form::OfOfInt(9), true),
        (Sample::OfOfInt(9), Form::OfOfInt(8), false),
        (Sample::OfOfInt(9), Form::OfAny, true),
        (Sample::Unset(65_535), Form::AnyPkg, true),
        (Sample::Unset(65_536), Form::AnyPkg, false),
        (Sample::Unset(65_536), Form::Mixed, true),
        (Sample::Unset(65_536), Form::Unset(65_536), true),
        (Sample::Unset(65_535), Form::Unset(65_536), false),
    ];
    for (i, (sample, form, fitting)) in rows.iter().enumerate() {
        assert!(rt;
            does_fit(rt.alloc(), *sample, *form)? == *fitting,
            "row {i}"
        );
    }
    Ok(())
}

/// How two kinds lie: `=` the same, each within the other; `<` the first within the second; a dot
/// neither; `?` what may not be.
fn order(alloc: Global, first: Form, second: Form) -> Result<char, AllocError> {
    let first = kind_of(alloc, first)?;
    let second = kind_of(alloc, second)?;
    match (is_same_kind(&first, &second), is_within(&first, &second)) {
        (true, true) => Ok('='),
        (false, true) => Ok('<'),
        (false, false) => Ok('.'),
        (true, false) => Ok('?'),
    }
}

#[test]
fn kinds_lie_within(rt: HostRuntime) -> Result<(), Fail> {
    let rows: &[(Form, Form, char)] = &[
        (Form::OfOfInt(9), Form::OfAny, '.'),
        (Form::Unset(65_536), Form::AnyPkg, '<'),
        (Form::Nested(64), Form::Nested(64), '='),
    ];
    for (first, second, wanted) in rows {
        assert_eq!(rt; order(rt.alloc(), *first, *second)?, *wanted);
    }
    Ok(())
}

/// The letters of the kinds that are joined.
const LETTERS: &[(char, Form)] = &[
    ('i', Form::Int(3)),
    ('I', Form::Int(9)),
    ('b', Form::Buf(2)),
    ('B', Form::Buf(3)),
    ('s', Form::Str(2)),
    ('S', Form::Str(3)),
    ('p', Form::OfInt(9)),
    ('P', Form::OfName),
    ('*', Form::AnyPkg),
    ('m', Form::Mixed),
];

/// The letter of a kind, or `?`.
fn letter_of(kind: &Kind) -> char {
    match kind {
        Kind::Int(3) => 'i',
        Kind::Int(9) => 'I',
        Kind::Buf(2) => 'b',
        Kind::Buf(3) => 'B',
        Kind::Str(2) => 's',
        Kind::Str(3) => 'S',
        Kind::Pkg(shape) => match shape.places() {
            [ElementKind::Value(Kind::Int(9))] => 'p',
            [ElementKind::Name] => 'P',
            _ => '?',
        },
        Kind::AnyPkg => '*',
        Kind::Mixed => 'm',
        _ => '?',
    }
}

/// The letter of the join of two kinds.
fn joined(alloc: Global, first: Form, second: Form) -> Result<char, Fail> {
    let first = kind_of(alloc, first)?;
    let second = kind_of(alloc, second)?;
    Ok(letter_of(&join(alloc, &first, &second)?))
}

/// How a kind lies to each of the letters.
fn orders_of(alloc: Global, form: Form) -> Result<String, AllocError> {
    let mut orders = String::new(alloc);
    for (_, other) in LETTERS {
        orders.push(order(alloc, form, *other)?)?;
    }
    Ok(orders)
}

/// The letters of what a kind is joined to with each.
fn joins_of(alloc: Global, form: Form) -> Result<String, Fail> {
    let mut joins = String::new(alloc);
    for (_, other) in LETTERS {
        joins.push(joined(alloc, form, *other)?)?;
    }
    Ok(joins)
}

#[test]
fn kinds_are_joined(rt: HostRuntime) -> Result<(), Fail> {
    let rows: &[(&str, &str)] = &[
        ("=<.......<", "iImmmmmmmm"),
        (".=.......<", "IImmmmmmmm"),
        ("..=......<", "mmbmmmmmmm"),
        ("...=.....<", "mmmBmmmmmm"),
        ("....=....<", "mmmmsmmmmm"),
        (".....=...<", "mmmmmSmmmm"),
        ("......=.<<", "mmmmmmp**m"),
        (".......=<<", "mmmmmm*P*m"),
        ("........=<", "mmmmmm***m"),
        (".........=", "mmmmmmmmmm"),
    ];
    for ((_, form), (orders, joins)) in LETTERS.iter().zip(rows) {
        assert_eq!(rt; orders_of(rt.alloc(), *form)?.as_str(), *orders);
        assert_eq!(rt; joins_of(rt.alloc(), *form)?.as_str(), *joins);
    }
    Ok(())
}

/// The places of `places_are_joined`, by their letters.
fn place_named(letter: char) -> ElementKind {
    match letter {
        'i' => ElementKind::Value(Kind::Int(3)),
        'I' => ElementKind::Value(Kind::Int(9)),
        'm' => ElementKind::Value(Kind::Mixed),
        'n' => ElementKind::Name,
        _ => ElementKind::Unset,
    }
}

/// The letter of a place, or `?`.
fn letter_of_place(place: &ElementKind) -> char {
    match place {
        ElementKind::Value(Kind::Int(3)) => 'i',
        ElementKind::Value(Kind::Int(9)) => 'I',
        ElementKind::Value(Kind::Mixed) => 'm',
        ElementKind::Name => 'n',
        ElementKind::Unset => 'u',
        _ => '?',
    }
}

/// The letters of what a place is joined to with each.
fn places_joined(alloc: Global, letter: char) -> Result<String, Fail> {
    let mut letters = String::new(alloc);
    for other in "iImnu".chars() {
        let joined = join_elements(alloc, &place_named(letter), &place_named(other))?;
        letters.push(letter_of_place(&joined))?;
    }
    Ok(letters)
}

/// How a place lies to each: `=` the same; a dot another.
fn places_matched(alloc: Global, letter: char) -> Result<String, AllocError> {
    let mut marks = String::new(alloc);
    for other in "iImnu".chars() {
        let is_same = element_kinds_match(&place_named(letter), &place_named(other));
        marks.push(if is_same { '=' } else { '.' })?;
    }
    Ok(marks)
}

#[test]
fn places_are_joined(rt: HostRuntime) -> Result<(), Fail> {
    let rows: &[(char, &str, &str)] = &[
        ('i', "=....", "iImnu"),
        ('I', ".=...", "IImnu"),
        ('m', "..=..", "mmmnu"),
        ('n', "...=.", "nnnnu"),
        ('u', "....=", "uuuuu"),
    ];
    for (letter, same, row) in rows {
        let found = places_joined(rt.alloc(), *letter)?;
        assert_eq!(rt; found.as_str(), *row);
        assert_eq!(rt; places_matched(rt.alloc(), *letter)?.as_str(), *same);
    }
    Ok(())
}

/// Whether a value's copy is the same.
fn is_copied(alloc: Global, sample: Sample) -> Result<bool, Fail> {
    let value = value_of(alloc, sample)?;
    let again = copy(alloc, &value)?;
    Ok(is_same_value(&value, &again))
}

/// Whether a kind's copy is the same.
fn is_kind_copied(alloc: Global, form: Form) -> Result<bool, Fail> {
    let kind = kind_of(alloc, form)?;
    let again = copy_kind(alloc, &kind)?;
    Ok(is_same_kind(&kind, &again))
}

/// How many elements come back where an unset one and a value are too deep for a package.
fn refused_of(alloc: Global, sample: Sample) -> Result<Option<usize>, AllocError> {
    let value = value_of(alloc, sample)?;
    match Package::new(vec![in alloc; Element::Unset, Element::Value(value)]?) {
        Ok(_) => Ok(None),
        Err(back) => Ok(Some(back.len())),
    }
}

/// The same of a kind alone and a shape.
fn places_refused_of(alloc: Global, form: Form) -> Result<Option<usize>, AllocError> {
    let kind = kind_of(alloc, form)?;
    match Shape::new(vec![in alloc; ElementKind::Value(kind)]?) {
        Ok(_) => Ok(None),
        Err(back) => Ok(Some(back.len())),
    }
}

#[test]
fn depths(rt: HostRuntime) -> Result<(), Fail> {
    let rows: &[(usize, Option<usize>, Option<usize>)] = &[
        (63, None, None),
        (64, Some(2), Some(1)),
    ];
    for (depth, elements, places) in rows {
        let refused = refused_of(rt.alloc(), Sample::Nested(*depth))?;
        let places_refused = places_refused_of(rt.alloc(), Form::Nested(*depth))?;
        assert_eq!(rt; (refused, places_refused), (*elements, *places));
    }
    Ok(())
}

#[test]
fn copies_of_the_deepest(rt: HostRuntime) -> Result<(), Fail> {
    let is_value_copied = is_copied(rt.alloc(), Sample::Nested(64))?;
    assert!(rt; is_value_copied && is_kind_copied(rt.alloc(), Form::Nested(64))?);
    Ok(())
}

/// A package of each kind of element, with another in it.
fn deep_value(alloc: Global) -> Result<Value, AllocError> {
    let name = Element::Name(Some(ObjectId(3)));
    let text = Element::Value(string(alloc, 4)?);
    let inner = Element::Value(package(vec![in alloc; name, text]?)?);
    let bytes = Element::Value(buffer(alloc, 5)?);
    let number = Element::Value(Value::Int(17));
    let unread = Element::Name(None);
    package(vec![in alloc; inner, bytes, number, Element::Unset, unread]?)
}

/// A shape of each kind of place, with another in it.
fn deep_shape(alloc: Global) -> Result<Kind, AllocError> {
    let inner = ElementKind::Value(kind_of(alloc, Form::OfInt(9))?);
    let bytes = ElementKind::Value(Kind::Buf(5));
    shape(vec![in alloc; inner, bytes, ElementKind::Name, ElementKind::Unset]?)
}

/// Also for a run in which an allocation fails: the copy is then asked for again, and is the same
/// as what was copied.
#[test]
fn want_of_memory_in_copies(rt: HostRuntime) -> Result<(), Fail> {
    let alloc = rt.alloc();
    let value = match deep_value(alloc) {
        Ok(value) => value,
        Err(AllocError) => deep_value(alloc)?,
    };
    let again = match copy(alloc, &value) {
        Ok(again) => again,
        Err(NoMemory) => copy(alloc, &value)?,
    };
    assert!(rt; is_same_value(&value, &again));
    Ok(())
}

/// The same for kinds, and for the join of a kind with itself.
#[test]
fn want_of_memory_in_joins(rt: HostRuntime) -> Result<(), Fail> {
    let alloc = rt.alloc();
    let kind = match deep_shape(alloc) {
        Ok(kind) => kind,
        Err(AllocError) => deep_shape(alloc)?,
    };
    let again = match copy_kind(alloc, &kind) {
        Ok(again) => again,
        Err(NoMemory) => copy_kind(alloc, &kind)?,
    };
    let joined = match join(alloc, &kind, &again) {
        Ok(joined) => joined,
        Err(NoMemory) => join(alloc, &kind, &again)?,
    };
    assert!(rt; is_same_kind(&kind, &joined));
    Ok(())
}

/// Whether two values are the same.
fn are_same(alloc: Global, first: Sample, second: Sample) -> Result<bool, AllocError> {
    let value = value_of(alloc, first)?;
    Ok(is_same_value(&value, &value_of(alloc, second)?))
}

#[test]
fn different_values(rt: HostRuntime) -> Result<(), Fail> {
    let name = Sample::OfName(Some(ObjectId(3)));
    let rows: &[(Sample, Sample)] = &[
        (name, Sample::OfName(Some(ObjectId(4)))),
        (name, Sample::OfName(None)),
        (Sample::OfName(None), Sample::Unset(1)),
        (Sample::Int(4), Sample::Int(5)),
        (Sample::Buf(4), Sample::Str(4)),
        (Sample::Buf(4), Sample::Buf(5)),
        (Sample::Unset(1), Sample::Unset(2)),
        (Sample::Nested(64), Sample::Nested(63)),
    ];
    for (i, (first, second)) in rows.iter().enumerate() {
        assert!(rt; !are_same(rt.alloc(), *first, *second)?, "row {i}");
    }
    Ok(())
}

#[test]
fn parts_of_bytes(rt: HostRuntime) -> Result<(), Fail> {
    let made = Bytes::new(vec![in rt.alloc(); 1, 2, 3]?);
    assert_eq!(rt; made.len(), 3);
    assert_eq!(rt; made.as_slice(), [1, 2, 3].as_slice());
    assert_eq!(rt; made.into_vec().len(), 3);
    Ok(())
}

/// A package's length, its depth, and how many elements it lends and gives back.
fn parts_of_package(package: Package) -> [usize; 4] {
    let (length, depth) = (package.len(), package.depth());
    let lent = package.elements().len();
    [length, depth, lent, package.into_elements().len()]
}

/// The same of a shape and its places.
fn parts_of_shape(shape: Shape) -> [usize; 4] {
    let (length, depth) = (shape.len(), shape.depth());
    let lent = shape.places().len();
    [length, depth, lent, shape.into_places().len()]
}

#[test]
fn parts(rt: HostRuntime) -> Result<(), Fail> {
    let found = match unset(rt.alloc(), 5)? {
        Value::Pkg(package) => parts_of_package(package),
        _ => [0; 4],
    };
    assert_eq!(rt; found, [5, 1, 5, 5]);
    let found = match unset_places(rt.alloc(), 1)? {
        Kind::Pkg(shape) => parts_of_shape(shape),
        _ => [0; 4],
    };
    assert_eq!(rt; found, [1, 1, 1, 1]);
    Ok(())
}

#[test]
fn laws() {
    fits_what_it_lies_within();
    join_commutes();
    join_associates();
    join_stays();
}
