// What may be stored into a name, and what may be notified (ACPI 6.5, 19.6, Store, Notify).

ghost use Rattle.std.specs.Prelude.{◌≡◌, ℕ};
ghost use Rattle.aml_kinds.specs.Kinds.{Shape};
ghost use Rattle.aml_judged.specs.KindRules as rule;
ghost use Rattle.aml_known.specs.Views.{kind_of};
ghost use Rattle.aml_rules.specs.Tells.{place_of};
ghost use Rattle.aml_kind_rules.specs.Tells.{told};

use crate::refused::refused;
use aml_causes::{Cause, Refusal};
use aml_known::Known;
use aml_rules::Place;

/// Whether what is of a kind may be stored into a data name of another; a package may not.
pub fn may_replace(kind: Known, old: Known) -> bool
    ensures { (shapes : ℕ → Shape) →
        result ≡ rule.may_replace (kind_of shapes kind) (kind_of shapes old) }
{
    match (kind, old) {
        (Known::Int(a), Known::Int(b)) => a <= b,
        (Known::Buf(a), Known::Buf(b)) => a == b,
        (Known::Str(a), Known::Str(b)) => a == b,
        _ => false,
    }
}

/// What may be notified is wanted. V3 at its place where it may not.
pub fn notice_kind(place: Place, may: bool) -> Result<(), Refusal>
    ensures { told (λ u. u) result ≡ rule.notice_kind (place_of place) may }
{
    if may {
        Ok(())
    } else {
        Err(refused(Cause::WrongKind, place))
    }
}
