// Which methods reach each other.

ghost use Rattle.std.specs.Prelude.{◌≡◌, ◌<◌, ℕ, true, IfOk};
ghost use Rattle.aml_calls.specs.Chains.{is_among};
ghost use Rattle.aml_calls.specs.Pairs.{calls_in, named, numbers, PlacesAre};
ghost use Rattle.aml_components.specs.Components.{AreComponents, are_together};
ghost use Rattle.aml_components.specs.Search.{AreFound, mark_at};

use crate::search::{Mark, mark_of, marks_of};
use aml_calls::{Calls, Pair, places_of, room_for};
use aml_paths::{NoMemory, ObjectId};
use std::alloc::{AllocError, Global};

/// The components of the graph of calls: methods that reach each other.
#[derive(Drop)]
pub struct Components {
    /// By the method's number.
    marks: Vec<Mark>,
}

/// The marks of all methods that pairs name, with room for so many numbers.
fn found(alloc: Global, pairs: &[Pair], room: usize) -> Result<Vec<Mark>, AllocError>
    requires { (k : ℕ) → is_among k (named pairs.now) ≡ true → k < room }
    ensures { IfOk result (λ marks. AreFound (calls_in pairs.now) room marks.items) }
{
    let places = places_of(alloc, pairs, room)?;
    marks_of(
        alloc,
        &Calls {
            pairs,
            places: &places,
        },
        room,
    )
}

impl Components {
    /// The components of the methods that pairs of a method and those that it calls name. Of
    /// several pairs of one method the first counts, and a method without a pair calls none. Time
    /// and memory go with the number of pairs, the number of callees and the greatest number of a
    /// method.
    ///
    /// # Errors
    ///
    /// `NoMemory`, where memory is wanted.
    pub fn of(alloc: Global, pairs: &[(ObjectId, Vec<ObjectId>)]) -> Result<Components, NoMemory>
        ensures { IfOk result (AreComponents pairs.now) }
    {
        let Some(room) = room_for(pairs) else {
            return Err(NoMemory);
        };
        match found(alloc, pairs, room) {
            Ok(marks) => Ok(Components { marks }),
            Err(_) => Err(NoMemory),
        }
    }

    /// Whether chains of calls lead from each of two methods to the other; a method alone is a
    /// chain. Where one of them calls the other, this is whether that reaches the one. A method
    /// that no pair names reaches itself alone.
    #[must_use]
    pub fn reach_each_other(&self, one: ObjectId, other: ObjectId) -> bool
        ensures { result ≡ are_together self.now one.0 other.0 }
    {
        match (mark_of(&self.marks, one), mark_of(&self.marks, other)) {
            (Mark::Closed(a), Mark::Closed(b)) => a == b,
            _ => one.0 == other.0,
        }
    }
}
