// Which methods call which, so that no list of pairs is searched.

ghost use Rattle.std.specs.Prelude.{◌≡◌, ◌<◌, ◌≤◌, ℕ, true, slice_get, IfOk, IfSome};
ghost use Rattle.aml_calls.specs.Chains.{is_among};
ghost use Rattle.aml_calls.specs.Pairs.{callees, calls_in, named, numbers, PlacesAre};

use aml_paths::ObjectId;
use std::alloc::{AllocError, Global};

/// A method and those that it calls.
pub type Pair = (ObjectId, Vec<ObjectId>);

/// Pairs, and where each method's pair stands among them.
#[derive(Clone, Copy)]
pub struct Calls<'a> {
    pub pairs: &'a [Pair],
    /// The place of each method's pair by the method's number. Where it has none, no pair stands
    /// there.
    pub places: &'a [usize],
}

impl Calls<'_> {
    /// The methods that a method calls.
    pub fn of(&self, method: ObjectId) -> &[ObjectId]
        requires { PlacesAre self.now.pairs.now self.now.places.now }
        ensures { numbers result.now ≡ calls_in self.now.pairs.now method.0 }
    {
        match self.places.get(method.0).copied() {
            Some(place) => self.at(place),
            None => &[],
        }
    }

    /// The methods that the method of a pair calls, if there is a pair.
    fn at(&self, place: usize) -> &[ObjectId]
        ensures { numbers result.now ≡ callees (slice_get self.now.pairs.now place) }
    {
        if place < self.pairs.len() {
            &self.pairs[place].1
        } else {
            &[]
        }
    }
}

/// Room for a number too. None where no table has so much.
pub fn room_above(room: usize, number: usize) -> Option<usize>
    ensures { IfSome result (λ more. (room ≤ more) × (number < more)) }
{
    if number < room {
        Some(room)
    } else {
        number.checked_add(1)
    }
}

/// Room for the numbers of some methods too.
fn room_for_all(room: usize, methods: &[ObjectId]) -> Option<usize>
    ensures { IfSome result (λ more. (room ≤ more)
        × ((k : ℕ) → is_among k (numbers methods.now) ≡ true → k < more)) }
{
    let mut more = room;
    'methods: for method in methods {
        more = room_above(more, method.0)?;
    }
    Some(more)
}

/// How many numbers there are up to the greatest that pairs name. None where no table has so many.
pub fn room_for(pairs: &[Pair]) -> Option<usize>
    ensures { IfSome result (λ room. (k : ℕ) → is_among k (named pairs.now) ≡ true → k < room) }
{
    let mut room = 0usize;
    'pairs: for pair in pairs {
        room = room_above(room, pair.0.0)?;
        room = room_for_all(room, &pair.1)?;
    }
    Some(room)
}

/// The place of each method's pair, by the method's number.
pub fn places_of(alloc: Global, pairs: &[Pair], room: usize) -> Result<Vec<usize>, AllocError>
    requires { (k : ℕ) → is_among k (named pairs.now) ≡ true → k < room }
    ensures { IfOk result (λ places. PlacesAre pairs.now places.items) }
{
    let mut places = vec![in alloc; pairs.len(); room]?;
    let mut i = pairs.len();
    'places: while i > 0 {
        i -= 1;
        places[pairs[i].0.0] = i;
    }
    Ok(places)
}
