// Whether a chain of calls leads from one method to another.

ghost use Rattle.std.specs.Prelude.{◌≡◌, ◌<◌, ℕ, List, true, [], vec_len, IfOk, OnOk};
ghost use Rattle.aml_calls.specs.Chains.{is_among};
ghost use Rattle.aml_calls.specs.Pairs.{AnswersReach, calls_in, named, numbers, PlacesAre};
ghost use Rattle.aml_calls.specs.Spread.{is_seen, LooksAt, SpreadsOn};

use crate::calls::{Calls, Pair, places_of, room_above, room_for};
use aml_paths::{NoMemory, ObjectId};
use std::alloc::{AllocError, Global};

/// What is reached so far, and of which the callees were not looked at yet.
#[derive(Drop)]
struct Spread {
    seen: Vec<bool>,
    waiting: Vec<ObjectId>,
}

/// Whether a method is reached so far.
fn is_seen(seen: &[bool], method: ObjectId) -> bool
    ensures { result ≡ is_seen seen.now method.0 }
{
    seen.get(method.0).copied().unwrap_or(false)
}

impl Spread {
    /// Nothing but one method is reached.
    fn new(alloc: Global, room: usize, from: ObjectId) -> Result<Spread, AllocError>
        requires { from.0 < room }
        ensures { IfOk result (λ s. (calls : ℕ → List ℕ) (all : List ℕ) →
            ((k : ℕ) → is_among k all ≡ true → k < room) →
            SpreadsOn calls all from.0 (numbers s.waiting.items) s) }
    {
        let mut seen = vec![in alloc; false; room]?;
        seen[from.0] = true;
        let mut waiting = Vec::new(alloc);
        waiting.push(from)?;
        Ok(Spread { seen, waiting })
    }

    /// Some methods are reached too; those that were not wait from now on.
    fn look(&mut self, row: &[ObjectId]) -> Result<(), AllocError>
        requires { (j : ℕ) → is_among j (numbers row.now) ≡ true → j < vec_len self.old.seen }
        ensures { OnOk result (LooksAt (numbers row.now) self.old self.new) }
    {
        'row: for callee in row {
            if !is_seen(&self.seen, *callee) {
                self.waiting.push(*callee)?;
                self.seen[callee.0] = true;
            }
        }
        Ok(())
    }

    /// Looks at the callees of all that wait.
    fn spread(&mut self, calls: &Calls<'_>, from: ObjectId) -> Result<(), AllocError>
        requires places { PlacesAre calls.now.pairs.now calls.now.places.now }
        requires spreads { SpreadsOn (calls_in calls.now.pairs.now) (named calls.now.pairs.now)
            from.0 (numbers self.old.waiting.items) self.old }
        ensures { OnOk result (SpreadsOn (calls_in calls.now.pairs.now)
            (named calls.now.pairs.now) from.0 [] self.new) }
    {
        'waiting: while let Some(method) = self.waiting.pop() {
            self.look(calls.of(method))?;
        }
        Ok(())
    }
}

/// Whether a chain leads from one method to another, with room for so many numbers.
fn reached(
    alloc: Global,
    pairs: &[Pair],
    room: usize,
    from: ObjectId,
    to: ObjectId,
) -> Result<bool, AllocError>
    requires room { (k : ℕ) → is_among k (named pairs.now) ≡ true → k < room }
    requires from { from.0 < room }
    ensures { IfOk result (AnswersReach pairs.now from.0 to.0) }
{
    let places = places_of(alloc, pairs, room)?;
    let mut spread = Spread::new(alloc, room, from)?;
    spread.spread(
        &Calls {
            pairs,
            places: &places,
        },
        from,
    )?;
    Ok(is_seen(&spread.seen, to))
}

/// Whether a chain of methods, each of which calls the next, begins with one method and ends with
/// another, by pairs of a method and those that it calls; a method alone is such a chain. Of
/// several pairs of one method the first counts, and a method without a pair calls none. Time and
/// memory go with the number of pairs, the number of callees and the greatest number of a method.
///
/// # Errors
///
/// `NoMemory`, where memory is wanted.
pub fn reaches(
    alloc: Global,
    pairs: &[(ObjectId, Vec<ObjectId>)],
    from: ObjectId,
    to: ObjectId,
) -> Result<bool, NoMemory>
    ensures { IfOk result (AnswersReach pairs.now from.0 to.0) }
{
    let Some(room) = room_for(pairs) else {
        return Err(NoMemory);
    };
    let Some(room) = room_above(room, from.0) else {
        return Err(NoMemory);
    };
    match reached(alloc, pairs, room, from, to) {
        Ok(answer) => Ok(answer),
        Err(_) => Err(NoMemory),
    }
}
