// The definitions of tables over again, to tell of one that was refused which others it met (ACPI
// 6.5, 5.3).

ghost use Rattle.std.specs.Prelude.{◌≡◌, ◌∷◌, ◌++◌, [], IfOk, IfSome, OnOk, Some, map, true, vec_items, vec_len};
ghost use Rattle.std.specs.Option.{option_map};
ghost use Rattle.acpi_notes.specs.Definitions.{EndsIn, HaveOneSegment, IsEndAt, IsFirst, IsRepeat, is_predefined, last_segment, place_of};

use aml_lex::{NameRef, NameSeg, name_there};
use aml_tree::{Op, Term, TreeFault, read_module};
use std::alloc::{AllocError, Global};
use std::collections::BTreeMap;

/// The most packages of definitions in one another, by the depth of terms.
const DEEPEST: u8 = 64;

/// The most steps upward in searches, so that whoever chooses the names cannot spoil the time.
const MOST_STEPS: u64 = 10_000_000;

/// A byte of a table, both numbered from 0.
#[derive(Clone, Copy, Debug, PartialEq, Eq)]
pub(crate) struct Place {
    pub table: usize,
    pub at: usize,
}

/// What a refused definition met.
#[derive(Debug, Drop)]
pub(crate) enum Found {
    /// The path is there already: of a definition before, or predefined.
    Twice { path: String, first: Option<Place> },
    /// What is named is not there, or holds no names.
    Nothing { wanted: String },
}

/// A path that a definition made.
#[derive(Clone, Copy)]
struct Known {
    /// The number of the path above.
    above: usize,
    segment: NameSeg,
    /// Where its name stands, of a predefined one nowhere.
    place: Option<Place>,
    /// The number of the first path of its object.
    object: usize,
    /// Whether names may stand below it.
    holds: bool,
}

/// The paths so far, the root's first.
#[derive(Drop)]
struct Paths {
    alloc: Global,
    known: Vec<Known>,
    below: BTreeMap<(usize, NameSeg), usize>,
    /// The definition that was refused.
    refused: Place,
    /// How many steps upward may still be made.
    left: u64,
}

/// Why the definitions end.
#[derive(Drop)]
enum End {
    NoMemory,
    Met(Found),
    /// At another place than the refused one.
    Elsewhere,
}

impl From<AllocError> for End {
    fn from(_error: AllocError) -> End {
        End::NoMemory
    }
}

/// What stands around a definition.
#[derive(Clone, Copy)]
struct Around<'a> {
    table: usize,
    bytes: &'a [u8],
    /// The number of the path within which it stands.
    scope: usize,
    /// How many packages more may stand in one another.
    depth: u8,
}

/// A name that stands at a place.
#[derive(Clone, Copy)]
struct Named<'a> {
    name: NameRef<'a>,
    place: Place,
}

const ROOT: Known = Known {
    above: 0,
    segment: NameSeg { bytes: *b"____" },
    place: None,
    object: 0,
    holds: true,
};

const PREDEFINED: [([u8; 4], bool); 9] = [
    (*b"_GPE", true),
    (*b"_PR_", true),
    (*b"_SB_", true),
    (*b"_SI_", true),
    (*b"_TZ_", true),
    (*b"_REV", false),
    (*b"_OSI", false),
    (*b"_OS_", false),
    (*b"_GL_", false),
];

impl Paths {
    fn predefined(alloc: Global, refused: Place) -> Result<Paths, AllocError> {
        let mut paths = Paths {
            alloc,
            known: Vec::new(alloc),
            below: BTreeMap::new(alloc),
            refused,
            left: MOST_STEPS,
        };
        paths.known.push(ROOT)?;
        for (bytes, holds) in PREDEFINED {
            paths.add(0, NameSeg { bytes }, None, holds)?;
        }
        Ok(paths)
    }

    fn add(
        &mut self,
        above: usize,
        segment: NameSeg,
        place: Option<Place>,
        holds: bool,
    ) -> Result<(), AllocError>
        ensures { OnOk result (self.new.known.items ≡ self.old.known.items ++ record {
          above = above;
          segment = segment;
          place = place;
          holds = holds;
          object = vec_len self.old.known;
        } ∷ []) }
    {
        let number = self.known.len();
        self.below.insert((above, segment), number)?;
        self.known.push(Known {
            above,
            segment,
            place,
            object: number,
            holds,
        })?;
        Ok(())
    }

    fn above(&self, path: usize) -> Option<usize> {
        match path {
            0 => None,
            _ => Some(self.known.get(path)?.above),
        }
    }

    fn step(&self, path: usize, segment: NameSeg) -> Option<usize> {
        self.below.get(&(path, segment)).copied()
    }

    /// Where a name begins: at the root, or so many paths up.
    fn start(&self, scope: usize, name: &NameRef<'_>) -> Option<usize> {
        let mut path = if name.rooted() { 0 } else { scope };
        for _ in 0..name.parents() {
            path = self.above(path)?;
        }
        Some(path)
    }

    /// The path that the first so many segments of a name spell, without search.
    fn spelled(&self, scope: usize, name: &NameRef<'_>, count: usize) -> Option<usize> {
        let mut path = self.start(scope, name)?;
        for i in 0..count.min(name.segs()) {
            path = self.step(path, name.seg(i))?;
        }
        Some(path)
    }

    /// The path that a name names, a lone segment by search upward.
    fn resolved(&mut self, scope: usize, name: &NameRef<'_>) -> Option<usize> {
        let Some(segment) = name.lone_segment() else {
            return self.spelled(scope, name, name.segs());
        };
        let mut path = scope;
        while self.left > 0 {
            if let Some(found) = self.step(path, segment) {
                return Some(found);
            }
            path = self.above(path)?;
            self.left -= 1;
        }
        None
    }

    /// The text of a path.
    fn path_text(&self, path: usize) -> Result<String, AllocError> {
        let mut segments = Vec::new(self.alloc);
        let mut here = path;
        for _ in 0..self.known.len() {
            let Some(known) = self.known.get(here) else {
                break;
            };
            if here == 0 {
                break;
            }
            segments.push(known.segment)?;
            here = known.above;
        }
        let mut text = String::from_str(self.alloc, "\\")?;
        for (i, segment) in segments.iter().rev().enumerate() {
            if i > 0 {
                text.push('.')?;
            }
            push_segment(&mut text, *segment)?;
        }
        Ok(text)
    }

    /// A path and the first so many segments of a name below it, as text.
    fn wanted_text(
        &self,
        scope: usize,
        name: &NameRef<'_>,
        count: usize,
    ) -> Result<String, AllocError> {
        let Some(start) = self.start(scope, name) else {
            return String::from_str(self.alloc, "a path above the root");
        };
        let mut text = self.path_text(start)?;
        for i in 0..count.min(name.segs()) {
            if text.len() > 1 {
                text.push('.')?;
            }
            push_segment(&mut text, name.seg(i))?;
        }
        Ok(text)
    }

    /// How the definitions end at a place, if that is the refused one.
    fn end(&self, place: Place, found: Found) -> End
        ensures { IsEndAt self.now.refused place found result }
    {
        if place == self.refused {
            return End::Met(found);
        }
        End::Elsewhere
    }

    /// Ends the definitions where what a name spells by its first so many segments is not there.
    fn miss(&self, scope: usize, named: &Named<'_>, count: usize) -> End {
        match self.wanted_text(scope, &named.name, count) {
            Ok(wanted) => self.end(named.place, Found::Nothing { wanted }),
            Err(_) => End::NoMemory,
        }
    }

    /// Ends the definitions where a path is there already.
    fn repeat(&self, named: &Named<'_>, path: usize) -> End
        ensures { IsRepeat self.now.known.items path result }
    {
        let first = match self.known.get(path) {
            Some(known) => known.place,
            None => None,
        };
        match self.path_text(path) {
            Ok(path) => self.end(named.place, Found::Twice { path, first }),
            Err(_) => End::NoMemory,
        }
    }

    /// Makes the path of a name.
    fn enter(&mut self, scope: usize, named: &Named<'_>, holds: bool) -> Result<usize, End>
        ensures { IfOk result (λ number.
            place_of self.new.known.items number ≡ Some named.now.place) }
    {
        let count = named.name.segs();
        if count == 0 {
            return Err(match self.start(scope, &named.name) {
                Some(path) if path > 0 => self.repeat(named, path),
                _ => self.miss(scope, named, 0),
            });
        }
        let Some(above) = self.spelled(scope, &named.name, count - 1) else {
            return Err(self.miss(scope, named, count - 1));
        };
        let segment = named.name.seg(count - 1);
        if let Some(path) = self.step(above, segment) {
            return Err(self.repeat(named, path));
        }
        match self.known.get(above) {
            Some(known) if known.holds => {}
            _ => return Err(self.miss(scope, named, count - 1)),
        }
        let number = self.known.len();
        self.add(above, segment, Some(named.place), holds)?;
        Ok(number)
    }

    /// The path that a Scope opens.
    fn open(&mut self, scope: usize, named: &Named<'_>) -> Result<usize, End> {
        let count = named.name.segs();
        let Some(path) = self.resolved(scope, &named.name) else {
            return Err(self.miss(scope, named, count));
        };
        let object = match self.known.get(path) {
            Some(known) => known.object,
            None => path,
        };
        match self.known.get(object) {
            Some(known) if known.holds => Ok(object),
            _ => Err(self.miss(scope, named, count)),
        }
    }

    /// Makes another path of an object, which is missed only where the path may be made. The root
    /// is no object.
    fn alias(&mut self, scope: usize, source: &Named<'_>, named: &Named<'_>) -> Result<(), End> {
        let found = match self.resolved(scope, &source.name) {
            Some(path) if path > 0 => self.known.get(path).copied(),
            _ => None,
        };
        let holds = match found {
            Some(known) => known.holds,
            None => false,
        };
        let number = self.enter(scope, named, holds)?;
        let Some(found) = found else {
            return Err(self.miss(scope, source, source.name.segs()));
        };
        if let Some(known) = self.known.get_mut(number) {
            known.object = found.object;
        }
        Ok(())
    }

    /// What a term makes.
    #[cycle(define)]
    fn define(&mut self, around: Around<'_>, term: &Term) -> Result<(), End> {
        match term.op {
            Op::Scope => {
                let Some(named) = named_first(around, term) else {
                    return Ok(());
                };
                let scope = self.open(around.scope, &named)?;
                self.define_all(within(around, scope), &term.parts)
            }
            Op::Device | Op::Processor | Op::PowerResource | Op::ThermalZone => {
                let Some(named) = named_first(around, term) else {
                    return Ok(());
                };
                let scope = self.enter(around.scope, &named, true)?;
                self.define_all(within(around, scope), &term.parts)
            }
            _ => self.define_flat(around, term),
        }
    }

    /// What a term makes that has no definitions within.
    fn define_flat(&mut self, around: Around<'_>, term: &Term) -> Result<(), End> {
        match term.op {
            Op::Field | Op::IndexField | Op::BankField => self.define_fields(around, &term.parts),
            Op::Alias => self.define_alias(around, &term.parts),
            op if names_first(op) => self.define_name(around, named_first(around, term)),
            op if names_last(op) => self.define_name(around, named_last(around, term)),
            _ => Ok(()),
        }
    }

    fn define_name(&mut self, around: Around<'_>, named: Option<Named<'_>>) -> Result<(), End> {
        if let Some(named) = named {
            self.enter(around.scope, &named, false)?;
        }
        Ok(())
    }

    fn define_alias(&mut self, around: Around<'_>, parts: &[Term]) -> Result<(), End> {
        let [source, alias] = parts else {
            return Ok(());
        };
        match (named_at(around, source.at), named_at(around, alias.at)) {
            (Some(source), Some(named)) => self.alias(around.scope, &source, &named),
            _ => Ok(()),
        }
    }

    fn define_fields(&mut self, around: Around<'_>, parts: &[Term]) -> Result<(), End> {
        for item in parts {
            if item.op == Op::NamedField {
                self.define_name(around, named_first(around, item))?;
            }
        }
        Ok(())
    }

    /// What terms make, one behind the other.
    #[cycle(define)]
    fn define_all(&mut self, around: Around<'_>, terms: &[Term]) -> Result<(), End> {
        if around.depth == 0 {
            return Ok(());
        }
        let inner = Around {
            depth: around.depth - 1,
            ..around
        };
        for term in terms {
            self.define(inner, term)?;
        }
        Ok(())
    }
}

/// Adds the four characters of a segment.
fn push_segment(text: &mut String, segment: NameSeg) -> Result<(), AllocError> {
    for byte in segment.bytes {
        text.push(char::from(byte))?;
    }
    Ok(())
}

/// The same within another path.
fn within(around: Around<'_>, scope: usize) -> Around<'_> {
    Around { scope, ..around }
}

fn named_at<'a>(around: Around<'a>, at: usize) -> Option<Named<'a>> {
    let name = name_there(around.bytes, at)?;
    let place = Place {
        table: around.table,
        at,
    };
    Some(Named { name, place })
}

fn named_first<'a>(around: Around<'a>, term: &Term) -> Option<Named<'a>> {
    named_at(around, term.parts.first()?.at)
}

fn named_last<'a>(around: Around<'a>, term: &Term) -> Option<Named<'a>> {
    named_at(around, term.parts.last()?.at)
}

/// Whether a definition's first part is its name, and it holds no others.
fn names_first(op: Op) -> bool {
    matches!(
        op,
        Op::Name | Op::Method | Op::Mutex | Op::Event | Op::OperationRegion | Op::DataTableRegion
    )
}

/// Whether a definition's last part is its name.
fn names_last(op: Op) -> bool {
    matches!(
        op,
        Op::CreateBitField
            | Op::CreateByteField
            | Op::CreateWordField
            | Op::CreateDWordField
            | Op::CreateQWordField
            | Op::CreateField
    )
}

/// The last segment of the name that stands at a place.
fn last_segment(tables: &[Vec<u8>], place: Place) -> Option<NameSeg>
    ensures { option_map (λ segment. segment.bytes) result
        ≡ last_segment (map vec_items tables.now) place.table place.at }
{
    let bytes = tables.get(place.table)?;
    let name = name_there(bytes, place.at)?;
    let count = name.segs();
    if count == 0 {
        return None;
    }
    Some(name.seg(count - 1))
}

/// Whether a path is there from the beginning.
fn is_predefined(path: &str) -> bool
    ensures { result ≡ is_predefined path.now }
{
    path == "\\_GPE"
        || path == "\\_PR_"
        || path == "\\_SB_"
        || path == "\\_SI_"
        || path == "\\_TZ_"
        || path == "\\_REV"
        || path == "\\_OSI"
        || path == "\\_OS_"
        || path == "\\_GL_"
}

/// Whether a path ends in a segment, where there is one.
fn ends_in(path: &[u8], segment: Option<NameSeg>) -> bool
    ensures { result ≡ true → EndsIn (option_map (λ segment. segment.bytes) segment) path.now }
{
    match segment {
        Some(segment) => path.ends_with(&segment.bytes),
        None => true,
    }
}

/// Whether a path ends in the last segment of the name that stands at its first place, which is
/// that of the refused name where it has one.
fn is_first(tables: &[Vec<u8>], path: &[u8], refused: Option<NameSeg>, first: Place) -> bool
    ensures { result ≡ true → IsFirst (map vec_items tables.now) path.now
        (option_map (λ segment. segment.bytes) refused) (Some first) }
{
    let segment = last_segment(tables, first);
    let is_same = match refused {
        Some(_) => segment == refused,
        None => true,
    };
    is_same && ends_in(path, segment)
}

/// Whether a path that is defined twice ends in the last segments of both names; and whether one
/// that no table defines is predefined.
fn have_one_segment(tables: &[Vec<u8>], refused: Place, found: &Found) -> bool
    ensures { result ≡ true → HaveOneSegment (map vec_items tables.now) refused found.now }
{
    match found {
        Found::Twice { path, first } => {
            let segment = last_segment(tables, refused);
            let known = match first {
                Some(first) => is_first(tables, path.as_bytes(), segment, *first),
                None => is_predefined(path.as_str()),
            };
            known && ends_in(path.as_bytes(), segment)
        }
        Found::Nothing { wanted: _ } => true,
    }
}

/// What the definition met that a load refused, of the tables of that load; None where they have no
/// such definition.
pub(crate) fn find_again(
    alloc: Global,
    tables: &[Vec<u8>],
    refused: Place,
) -> Result<Option<Found>, AllocError>
    ensures { IfOk result (λ found.
        IfSome found (HaveOneSegment (map vec_items tables.now) refused)) }
{
    match define_tables(alloc, tables, refused)? {
        Some(found) if have_one_segment(tables, refused, &found) => Ok(Some(found)),
        _ => Ok(None),
    }
}

/// Goes over the definitions up to the refused one.
fn define_tables(
    alloc: Global,
    tables: &[Vec<u8>],
    refused: Place,
) -> Result<Option<Found>, AllocError> {
    let mut paths = Paths::predefined(alloc, refused)?;
    for (table, bytes) in tables.iter().enumerate() {
        let terms = match read_module(alloc, bytes) {
            Ok(terms) => terms,
            Err(TreeFault::NoMemory) => return Err(AllocError),
            Err(TreeFault::Refused(_)) => return Ok(None),
        };
        let around = Around {
            table,
            bytes,
            scope: 0,
            depth: DEEPEST,
        };
        match paths.define_all(around, &terms) {
            Ok(()) => {}
            Err(End::Met(found)) => return Ok(Some(found)),
            Err(End::NoMemory) => return Err(AllocError),
            Err(End::Elsewhere) => return Ok(None),
        }
    }
    Ok(None)
}
