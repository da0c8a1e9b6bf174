// Where in a literal of data a size is computed (ACPI 6.5, 19.6, Buffer and Package).

ghost use Rattle.std.specs.Prelude.{◌≡◌, ◌≤◌, ◌<◌, ℕ, length, Option, IfNone, IfSome};
ghost use Rattle.aml_literals.specs.There.{PartsThere, computed_in};
ghost use Rattle.aml_operators.specs.Literal.{literal_of};
ghost use Rattle.aml_operators.specs.Tree.{stop_of, trees};
ghost use Rattle.aml_contents.specs.BodyData.{computed_size, first_computed};
ghost use Rattle.aml_meaning.specs.Actions.{action};
ghost use Rattle.aml_meaning.specs.declared.action.Action.TheVariants as does;
ghost use Rattle.aml_direct.specs.Data.{ElementLies, ElementsLie, SizeLies};

use aml_literals::literal_number;
use aml_meaning::{Action, action_of};
use aml_operators::Op;
use aml_places::{name_end, package, text_end};
use aml_tree::op_at;

/// The place behind the integer literal that stands at a place as a size; none where what stands
/// there is computed.
fn past_literal(bytes: &[u8], at: usize) -> Option<usize>
    requires { SizeLies bytes.now at }
    ensures told { IfSome result (λ stop. (s : SizeLies bytes.now at) →
        (literal_of s.tree ≡ Option.None → ⊥) × (stop_of s.tree ≡ stop)) }
    ensures computed { IfNone result
        ((s : SizeLies bytes.now at) → literal_of s.tree ≡ Option.None) }
{
    let Some((op, next)) = op_at(bytes, at) else {
        return None;
    };
    match action_of(op) {
        Action::Literal(_) => Some(literal_number(op, bytes, next).1),
        _ => None,
    }
}

/// The place behind a literal of data whose parts stand behind its opcode.
fn past_data(op: Op, bytes: &[u8], at: usize) -> usize
    requires datum { action op ≡ does.Data op }
    requires there { PartsThere op bytes.now at }
    ensures is { (p : PartsThere op bytes.now at) → p.stop ≡ result }
    ensures ahead { at < result }
    ensures within { result ≤ length bytes.now }
{
    match op {
        Op::String => text_end(bytes, at),
        _ => package(bytes, at).0,
    }
}

/// Where in a literal of data, whose opcode stands at a place and whose parts behind it, the first
/// buffer or package of computed size begins, in the order of the bytes; none where each size is an
/// integer literal. It takes no memory.
#[cycle(computed)]
pub fn computed_at(op: Op, own: usize, bytes: &[u8], at: usize) -> Option<usize>
    requires datum { action op ≡ does.Data op }
    requires there { PartsThere op bytes.now at }
    ensures { (p : PartsThere op bytes.now at) → result ≡ computed_size op own (trees p.parts) }
{
    if let Op::String = op {
        return None;
    }
    let (stop, next) = package(bytes, at);
    let inside = &bytes[..stop];
    match op {
        Op::Package => first_computed(inside, next + 1),
        Op::Buffer => match past_literal(inside, next) {
            Some(_) => None,
            None => Some(own),
        },
        _ => match past_literal(inside, next) {
            Some(start) => first_computed(inside, start),
            None => Some(own),
        },
    }
}

/// The same in the elements that fill the bytes from a place on.
#[cycle(computed)]
fn first_computed(bytes: &[u8], start: usize) -> Option<usize>
    requires { ElementsLie bytes.now start }
    ensures { (e : ElementsLie bytes.now start) → result ≡ first_computed (trees e.parts) }
{
    let mut at = start;
    'elements: while at < bytes.len() {
        let (from, next) = computed_in(bytes, at);
        if from.is_some() {
            return from;
        }
        at = next;
    }
    None
}

/// The same in the element at a place, and the place behind it.
#[cycle(computed)]
fn computed_in(bytes: &[u8], at: usize) -> (Option<usize>, usize)
    requires { ElementLies bytes.now at }
    ensures is { (e : ElementLies bytes.now at) → result.0 ≡ computed_in e.tree }
    ensures place { (e : ElementLies bytes.now at) → stop_of e.tree ≡ result.1 }
    ensures ahead { at < result.1 }
{
    let Some((op, next)) = op_at(bytes, at) else {
        return (None, name_end(bytes, at));
    };
    match action_of(op) {
        Action::Data(_) => (computed_at(op, at, bytes, next), past_data(op, bytes, next)),
        _ => (None, literal_number(op, bytes, next).1),
    }
}
