// What is said of a method.

ghost use Rattle.std.specs.Prelude.{◌≡◌, ℕ};
ghost use Rattle.std.specs.Option.{option_map};
ghost use Rattle.aml_kinds.specs.Kinds.{Shape};
ghost use Rattle.aml_known.specs.Views.{accepted_of};
ghost use Rattle.aml_verify.specs.Said.{accepted_by, verdict_at};

use aml_causes::Refusal;
use aml_findings::Finding;
use aml_known::Accepted;
use aml_tree::Refusal as Unread;

/// What is said of a method before it runs.
#[derive(Debug, Drop)]
pub enum Verdict {
    /// It is accepted: it meets no AML error, and takes at most so many steps.
    Accepted(Accepted),
    /// It is refused, by the first cause that is met, with what was found there and what was
    /// wanted.
    Refused(Refusal, Finding),
    /// Its body, in the table with this number, cannot be read.
    Unreadable { table: usize, refusal: Unread },
}

/// What a caller sees of a method, where it is judged and accepted.
pub(crate) fn accepted_at(verdicts: &[Option<Verdict>], number: usize) -> Option<&Accepted>
    ensures { (shapes : ℕ → Shape) → option_map (λ a. accepted_of shapes a.now) result
        ≡ accepted_by shapes (verdict_at verdicts.now number) }
{
    match verdicts.get(number) {
        Some(Some(Verdict::Accepted(accepted))) => Some(accepted),
        _ => None,
    }
}
