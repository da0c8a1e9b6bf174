// The log that a world keeps.

ghost use Rattle.std.specs.Prelude.{◌≡◌};
ghost use Rattle.aml_regions.specs.EventViews.{event_of, events_of};
ghost use Rattle.aml_regions.specs.Worlds.{CountsRefusal, MakesEvent, counted};

use crate::event::Event;
use aml_paths::NoMemory;

/// Makes an event, or counts a refusal.
#[tactic(auto, using(crate::proofs::EventViews::one_more))]
pub(crate) fn make(
    events: &mut Vec<Event>,
    refusals: &mut u64,
    event: Event,
) -> Result<(), NoMemory>
    ensures event { MakesEvent result (λ _. event_of event)
        (events_of events.old.items) (events_of events.new.items) }
    ensures refusal { CountsRefusal result refusals.old refusals.new }
{
    match events.push(event) {
        Ok(()) => Ok(()),
        Err(_) => Err(refuse(refusals)),
    }
}

/// Counts a refusal.
pub(crate) fn refuse(refusals: &mut u64) -> NoMemory
    ensures { refusals.new ≡ counted refusals.old }
{
    *refusals = refusals.saturating_add(1);
    NoMemory
}
