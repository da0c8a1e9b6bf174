// Which statement a body's steps become too many with: for people, no rule asks.

ghost use Rattle.std.specs.Prelude.{◌≡◌};
ghost use Rattle.aml_walk.specs.Reached.{reached_with};

use aml_judging::progress::MOST_STEPS;

/// The statement with which the steps of its block reach 2^63, by its place, behind the one at a
/// place: by what was told before that, and what within it, and by the steps of its block before it
/// and with it.
pub(crate) fn reached_with(
    was: Option<usize>,
    inner: Option<usize>,
    at: usize,
    before: u64,
    after: u64,
) -> Option<usize>
    ensures { result ≡ reached_with was inner at before after }
{
    if was.is_some() {
        return was;
    }
    if before < MOST_STEPS && after >= MOST_STEPS {
        return Some(inner.unwrap_or(at));
    }
    None
}
