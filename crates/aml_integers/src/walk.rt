// The walk over a body.

ghost use Rattle.std.specs.Prelude.{◌≡◌, ◌&&◌, Bool, ℕ};
ghost use Rattle.aml_operators.specs.Tree.{view, views};
ghost use Rattle.aml_meaning.specs.Within.{Callee, Methods};
ghost use Rattle.aml_meaning.specs.declared.action.Action.TheVariants as does;
ghost use Rattle.aml_known.specs.Views.{kinds_of};
ghost use Rattle.aml_judged.specs.Integers.{are_integers, integers, integers_by, integers_in};
ghost use Rattle.aml_integers.specs.Known.{body_in, IsAround, marked, methods_in};

use crate::names::{are_integers, asked, called, makes_nothing, name};
use aml_findings::Around;
use aml_known::Known;
use aml_meaning::{Action, Conversion, action_of, definition_of};
use aml_operators::Term;

/// Whether a term evaluates integers alone.
#[cycle(integers)]
fn term_alone<A: Around>(here: &A, only: &[bool], term: &Term) -> bool
    ensures { result ≡ integers (methods_in (A.around here.now)) (body_in (A.around here.now))
        (A.around here.now).kinds.shared (marked only.now) (view term.now) }
{
    let parts = term.parts.as_slice();
    if !makes_nothing(definition_of(term.op)) {
        return false;
    }
    alone_by(here, only, action_of(term.op), term.at, parts)
}

/// Whether a term does, by what its operator does.
#[cycle(integers)]
fn alone_by<A: Around>(here: &A, only: &[bool], action: Action, at: usize, parts: &[Term]) -> bool
    ensures { result ≡ integers_by (methods_in (A.around here.now)) (body_in (A.around here.now))
        (A.around here.now).kinds.shared (marked only.now) action at (views parts.now) }
{
    match action {
        Action::Data(_)
        | Action::Concatenate
        | Action::SizeOf
        | Action::Dereference
        | Action::Index
        | Action::Convert(Conversion::ToBuffer) => false,
        Action::Name => name(here, here.link(at)),
        Action::Invoke => call_alone(here, only, parts),
        Action::CondRefOf => condition_alone(here, parts),
        Action::Notify => notice_alone(here, only, parts),
        Action::Acquire | Action::Release => true,
        _ => all_alone(here, only, parts),
    }
}

/// Whether a name with its arguments does.
#[cycle(integers)]
fn call_alone<A: Around>(here: &A, only: &[bool], parts: &[Term]) -> bool
    ensures { (at : ℕ) → result ≡ integers_by (methods_in (A.around here.now))
        (body_in (A.around here.now)) (A.around here.now).kinds.shared (marked only.now)
        does.Invoke at (views parts.now) }
{
    match parts {
        [name, arguments @ ..] => {
            if !called(here, only, here.link(name.at)) {
                return false;
            }
            all_alone(here, only, arguments)
        }
        [] => true,
    }
}

/// Whether CondRefOf does.
fn condition_alone<A: Around>(here: &A, parts: &[Term]) -> bool
    ensures { (only : ℕ → Bool) (at : ℕ) → result ≡ integers_by (methods_in (A.around here.now))
        (body_in (A.around here.now)) (A.around here.now).kinds.shared only
        does.CondRefOf at (views parts.now) }
{
    match parts {
        [name, ..] => asked(here, here.link(name.at)),
        [] => true,
    }
}

/// Whether Notify does, of which the object that it tells has no value.
#[cycle(integers)]
fn notice_alone<A: Around>(here: &A, only: &[bool], parts: &[Term]) -> bool
    ensures { (at : ℕ) → result ≡ integers_by (methods_in (A.around here.now))
        (body_in (A.around here.now)) (A.around here.now).kinds.shared (marked only.now)
        does.Notify at (views parts.now) }
{
    match parts {
        [_, values @ ..] => all_alone(here, only, values),
        [] => true,
    }
}

/// Whether terms all do.
#[cycle(integers)]
fn all_alone<A: Around>(here: &A, only: &[bool], terms: &[Term]) -> bool
    ensures { result ≡ integers_in (methods_in (A.around here.now)) (body_in (A.around here.now))
        (A.around here.now).kinds.shared (marked only.now) (views terms.now) }
{
    'terms: for term in terms {
        if !term_alone(here, only, term) {
            return false;
        }
    }
    true
}

/// Whether a method with arguments of these kinds evaluates integers alone, by its body and by
/// which of the methods that it calls do. It takes no memory.
#[must_use]
pub fn integers_alone<A: Around>(here: &A, only: &[bool], args: &[Known], body: &[Term]) -> bool
    ensures { (methods : Methods) (m : Callee) → IsAround (A.around here.now) methods m →
        result ≡ (are_integers (kinds_of (A.numbered here.now) args.now)
        && integers_in methods m (A.around here.now).kinds.shared (marked only.now)
        (views body.now)) }
{
    if !are_integers(args) {
        return false;
    }
    all_alone(here, only, body)
}
