// Chains of paths: on a chain each path stands one segment below the one before it.

ghost use Rattle.std.specs.Prelude.{◌≡◌, ◌<◌, ℕ, length, slice_get, Some, OnOk, IfOk, IsTrue};
ghost use Rattle.aml_paths.specs.Steps.{paths_seen};

use crate::paths::{Paths, ROOT};
use std::alloc::{AllocError, Global};

/// Where a path stands.
#[derive(Clone, Copy, Debug)]
pub struct Spot {
    /// The number of the first path on its chain.
    pub top: usize,
    /// How many segments it has.
    pub depth: usize,
    /// How many chains are above its own on the way to the root.
    pub changes: usize,
}

/// Whether this number stands at this place.
pub(crate) fn holds(numbers: &[usize], place: usize, number: usize) -> bool
    ensures { IsTrue result → slice_get numbers.now place ≡ Some number }
{
    match numbers.get(place) {
        Some(found) => *found == number,
        None => false,
    }
}

/// Notes of the next path, which will have this number, that it is the last on the chain with this
/// top. Of no path before it is more said than was, also where this wants memory.
pub(crate) fn note_last(lasts: &mut Vec<usize>, top: usize, number: usize) -> Result<(), AllocError>
    ensures kept { (t : ℕ) (i : ℕ) → slice_get lasts.new.items t ≡ Some i → i < number
        → slice_get lasts.old.items t ≡ Some i }
    ensures noted { OnOk result ((i : ℕ) → slice_get lasts.new.items top ≡ Some i → i ≡ number) }
{
    // The root is made without memory, so that its place comes with the first path below it.
    'reach: while lasts.len() <= number {
        lasts.push(number)?;
    }
    if top < lasts.len() {
        lasts[top] = number;
    }
    Ok(())
}

impl Paths {
    /// How many paths each path begins, itself among them.
    fn counts_begun(&self, alloc: Global) -> Result<Vec<usize>, AllocError>
        ensures { IfOk result (λ counts. length counts.items ≡ length (paths_seen self.now)) }
    {
        let mut counts = vec![in alloc; 1usize; self.len()]?;
        let mut number = self.len();
        while number > 1 {
            number -= 1;
            let parent = self.last_step(number).parent;
            counts[parent] = counts[parent].saturating_add(counts[number]);
        }
        Ok(counts)
    }

    /// Of each path, the number of the path one segment below it that begins the most paths; the
    /// root's where none is.
    pub(crate) fn heaviest_below(&self, alloc: Global) -> Result<Vec<usize>, AllocError> {
        let counts = self.counts_begun(alloc)?;
        let mut most = vec![in alloc; 0usize; self.len()]?;
        let mut heaviest = vec![in alloc; ROOT; self.len()]?;
        for number in 1..self.len() {
            let parent = self.last_step(number).parent;
            if counts[number] > most[parent] {
                most[parent] = counts[number];
                heaviest[parent] = number;
            }
        }
        Ok(heaviest)
    }
}
