// A cause at a place, and judgements that stop by it.

ghost use Rattle.std.specs.Prelude.{◌≡◌, ℕ, Result};
ghost use Rattle.aml_judged.specs.Causes as causes;
ghost use Rattle.aml_kinds.specs.Kinds.{Kind, Shape};
ghost use Rattle.aml_known.specs.Views.{kind_of};
ghost use Rattle.aml_rules.specs.Tells.{place_of};
ghost use Rattle.aml_kind_rules.specs.Tells.{Obeys, refusal_at, told};

use aml_causes::{Cause, Refusal};
use aml_known::{Known, Stop};
use aml_rules::Place;

/// A cause at a place, and judgements that stop by it.
pub fn refused(why: Cause, place: Place) -> Refusal
    ensures { result ≡ refusal_at why (place_of place) }
{
    Refusal {
        table: place.table,
        at: place.at,
        why,
    }
}

/// A rule's answer, where judging may also stop for want of memory.
pub fn or_stop(answer: Result<Known, Refusal>) -> Result<Known, Stop>
    ensures { (shapes : ℕ → Shape) (rule : Result Kind causes.Refusal) →
        told (kind_of shapes) answer ≡ rule → Obeys (kind_of shapes) result rule }
{
    match answer {
        Ok(kind) => Ok(kind),
        Err(refusal) => Err(Stop::Refused(refusal)),
    }
}
