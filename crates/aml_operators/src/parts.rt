// The parts of a term, as many as its operator's letters name.

ghost use Rattle.std.specs.Prelude.{◌≡◌, ◌+◌, ◌<◌, drop, length};
ghost use Rattle.aml_operators.specs.Tree.{first_at, more, none, rest_of, size_in, view, views};

use crate::term::Term;

/// The only part.
pub fn one(parts: &[Term]) -> &Term
    requires { length parts.now ≡ 1 }
    ensures { views parts.now ≡ more (view result.now) none }
{
    match parts {
        [a] => a,
        _ => unreachable!(),
    }
}

/// Both parts.
pub fn two(parts: &[Term]) -> (&Term, &Term)
    requires { length parts.now ≡ 2 }
    ensures { views parts.now ≡ more (view result.0.now) (more (view result.1.now) none) }
{
    match parts {
        [a, b] => (a, b),
        _ => unreachable!(),
    }
}

/// All three parts.
pub fn three(parts: &[Term]) -> (&Term, &Term, &Term)
    requires { length parts.now ≡ 3 }
    ensures { views parts.now ≡
        more (view result.0.now) (more (view result.1.now) (more (view result.2.now) none)) }
{
    match parts {
        [a, b, c] => (a, b, c),
        _ => unreachable!(),
    }
}

/// All four parts.
pub fn four(parts: &[Term]) -> (&Term, &Term, &Term, &Term)
    requires { length parts.now ≡ 4 }
    ensures { views parts.now ≡ more (view result.0.now) (more (view result.1.now)
        (more (view result.2.now) (more (view result.3.now) none))) }
{
    match parts {
        [a, b, c, d] => (a, b, c, d),
        _ => unreachable!(),
    }
}

/// The first part, and those behind it.
pub fn first_and_rest(parts: &[Term]) -> (&Term, &[Term])
    requires { 0 < length parts.now }
    ensures views { views parts.now ≡ more (view result.0.now) (views result.1.now) }
    ensures length { length parts.now ≡ length result.1.now + 1 }
{
    match parts {
        [first, rest @ ..] => (first, rest),
        [] => unreachable!(),
    }
}

/// The place of the first part; None where there is none.
#[tactic(auto, using(crate::proofs::Views::view_out))]
pub fn first_place(parts: &[Term]) -> Option<usize>
    ensures { result ≡ first_at (views parts.now) }
{
    match parts {
        [first, ..] => Some(first.at),
        [] => None,
    }
}

/// The parts behind the first; none where there is no first.
pub fn behind_first(parts: &[Term]) -> &[Term]
    ensures parts { result.now ≡ drop 1 parts.now }
    ensures views { views result.now ≡ rest_of (views parts.now) }
{
    match parts {
        [_, rest @ ..] => rest,
        [] => &[],
    }
}

/// The number of bytes of a part.
#[tactic(auto, using(crate::proofs::Views::view_out))]
pub fn size_in(term: &Term) -> u64
    ensures { result ≡ size_in (view term.now) }
{
    term.end.saturating_sub(term.at) as u64
}
