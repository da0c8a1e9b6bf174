// Where a term ends that is not evaluated yet (ACPI 6.5, 20.2.5). A name in it takes as many terms
// as what it means, and one that means nothing as many as are kept of its body.

ghost use Rattle.std.specs.Prelude.{◌≡◌, ◌≤◌, ◌<◌, None, length};
ghost use Rattle.aml_lex.specs.NameStrings.{NameString};
ghost use Rattle.aml_lex.specs.Reading.{name_string_at};
ghost use Rattle.aml_operators.specs.declared.row.Letter.{Letter};
ghost use Rattle.aml_operators.specs.Tree.{stop_of};
ghost use Rattle.aml_tree.specs.OperatorAt.{op_there};
ghost use Rattle.aml_places.specs.Lies.{Lies, LieArguments, LieParts, StandParts, Stands};
ghost use Rattle.aml_direct.specs.Past.{PieceLies, StandArguments};
ghost use Rattle.aml_quick.specs.Settings.{count_of};

use aml_counts::count;
use aml_lex::pkg_length;
use aml_namespace::Link;
use aml_operators::{Code, Letter, Naming, Piece, Spot, naming_of, row_of};
use aml_places::{name_end, package, past_else, text_end};
use aml_scene::own::link_of;
use aml_scene::scene::Scene;
use aml_tree::op_at;

/// How many terms the name at a place takes, where it is called.
fn taken(scene: &Scene<'_>, at: usize) -> usize
    ensures { (name : NameString) → result ≡ count_of scene.now name at }
{
    match link_of(scene, at) {
        Link::Missing => scene.links.taken_at(at),
        link => count(scene.namespace, link),
    }
}

/// The place behind the term that stands at a place of some sort.
#[cycle(past)]
pub fn past(scene: &Scene<'_>, spot: Spot, bytes: &[u8], at: usize) -> usize
    requires { Stands (Lies (count_of scene.now) spot) bytes.now at }
    ensures is { (t : _) → Lies (count_of scene.now) spot bytes.now at t → stop_of t ≡ result }
    ensures ahead { at < result }
{
    match op_at(bytes, at) {
        Some((op, next)) => past_parts(scene, row_of(op).letters, bytes, next),
        None => past_name(scene, spot, bytes, at),
    }
}

/// The same of a name.
#[cycle(past)]
fn past_name(scene: &Scene<'_>, spot: Spot, bytes: &[u8], at: usize) -> usize
    requires name { op_there bytes.now at ≡ None }
    requires stands { Stands (Lies (count_of scene.now) spot) bytes.now at }
    ensures is { (t : _) → Lies (count_of scene.now) spot bytes.now at t → stop_of t ≡ result }
    ensures ahead { at < result }
{
    let next = name_end(bytes, at);
    match naming_of(Code::Body, spot) {
        Naming::Invoked => past_arguments(scene, taken(scene, at), bytes, next),
        _ => next,
    }
}

/// The place behind so many arguments.
#[cycle(past)]
fn past_arguments(scene: &Scene<'_>, number: usize, bytes: &[u8], from: usize) -> usize
    requires { StandArguments (count_of scene.now) number bytes.now from }
    ensures is { (stop : _) (ts : _) → LieArguments (count_of scene.now) bytes.now from stop ts →
        length ts ≡ number → stop ≡ result }
    ensures ahead { from ≤ result }
{
    let mut at = from;
    'arguments: for _ in 0..number {
        at = past(scene, Spot::Term, bytes, at);
    }
    at
}

/// The place behind the parts that go by these letters.
#[cycle(past)]
fn past_parts(scene: &Scene<'_>, letters: &[Letter], bytes: &[u8], at: usize) -> usize
    requires stands { StandParts (count_of scene.now) letters.now bytes.now at }
    requires within { at ≤ length bytes.now }
    ensures is { (own : _) (stop : _) (parts : _) →
        LieParts (count_of scene.now) letters.now bytes.now own at stop parts → stop ≡ result }
    ensures ahead { at ≤ result }
{
    match letters {
        [] => at,
        [Letter::One(piece), rest @ ..] => {
            let next = past_piece(scene, *piece, bytes, at);
            past_parts(scene, rest, bytes, next)
        }
        [Letter::Sized(_limit), rest @ ..] => {
            let next = past(scene, Spot::Size, bytes, at);
            past_parts(scene, rest, bytes, next)
        }
        [Letter::Package, rest @ ..] => {
            let (end, next) = package(bytes, at);
            past_parts(scene, rest, &bytes[..end], next)
        }
        [Letter::Branch, rest @ ..] => {
            let (end, next) = package(bytes, at);
            let inside = past_parts(scene, rest, &bytes[..end], next);
            past_else(bytes, inside)
        }
        [Letter::Terms(_spot), ..] => bytes.len(),
        [Letter::Fields, ..] => bytes.len(),
        [Letter::Bytes, ..] => bytes.len(),
    }
}

/// The place behind one part.
#[cycle(past)]
fn past_piece(scene: &Scene<'_>, piece: Piece, bytes: &[u8], at: usize) -> usize
    requires { Stands (PieceLies (count_of scene.now) piece) bytes.now at }
    ensures is { (t : _) → PieceLies (count_of scene.now) piece bytes.now at t →
        stop_of t ≡ result }
    ensures ahead { at < result }
{
    match piece {
        Piece::Term(spot) => past(scene, spot, bytes, at),
        Piece::NameString => name_end(bytes, at),
        Piece::Number(size) => at + size.size(),
        Piece::Bits => match pkg_length(bytes, at) {
            Ok((_, stop)) => stop,
            Err(_) => unreachable!(),
        },
        Piece::Text => text_end(bytes, at),
        Piece::Connection => {
            if bytes[at] == 0x11 {
                past(scene, Spot::Connection, bytes, at)
            } else {
                name_end(bytes, at)
            }
        }
    }
}
