// How long the longest chains of calls are.

ghost use Rattle.std.specs.Prelude.{◌≡◌, ◌<◌, ℕ, true, min, suc, nat_le, IfOk};
ghost use Rattle.aml_calls.specs.Chains.{is_among};
ghost use Rattle.aml_calls.specs.Pairs.{calls_in, IsCallOrder, named, numbers, PlacesAre};
ghost use Rattle.aml_components.specs.Heights.{AreHeights, are_low, BeginsWith, height_at, is_short_in, MayRaise, Tells, too_long};

use aml_calls::{Calls, Pair, places_of, room_for};
use aml_paths::{NoMemory, ObjectId};
use std::alloc::{AllocError, Global};

/// What is kept of a chain that is longer than 64 methods, or as long as one likes.
const TOO_LONG: u8 = 65;

/// How long the longest chain is that begins with each method, up to 64 methods.
#[derive(Drop)]
pub struct Heights {
    /// By the method's number, held at 65. What has none here calls none.
    heights: Vec<u8>,
}

/// The height of a method.
fn height_of(heights: &[u8], method: ObjectId) -> u8
    ensures { result ≡ height_at heights.now method.0 }
{
    heights.get(method.0).copied().unwrap_or(1)
}

/// The greatest height of some methods.
fn greatest(heights: &[u8], methods: &[ObjectId]) -> u8
    ensures { (d : ℕ) → nat_le result d ≡ are_low heights.now d (numbers methods.now) }
{
    let mut most = 0u8;
    'methods: for method in methods {
        most = most.max(height_of(heights, *method));
    }
    most
}

/// One more than a height, held at 65.
fn above(height: u8) -> u8
    ensures { result ≡ min (suc height) too_long }
{
    if height < TOO_LONG {
        height + 1
    } else {
        TOO_LONG
    }
}

/// Heights where some methods have too long chains, and the others call none.
fn first_heights(alloc: Global, endless: &[ObjectId], room: usize) -> Result<Vec<u8>, AllocError>
    requires { (k : ℕ) → is_among k (numbers endless.now) ≡ true → k < room }
    ensures { IfOk result (λ v. BeginsWith (numbers endless.now) room v.items) }
{
    let mut heights = vec![in alloc; 1u8; room]?;
    'endless: for method in endless {
        heights[method.0] = TOO_LONG;
    }
    Ok(heights)
}

/// Gives each method its height, behind those that it calls.
fn raise(heights: &mut [u8], calls: &Calls<'_>, ordered: &[ObjectId])
    requires places { PlacesAre calls.now.pairs.now calls.now.places.now }
    requires may { MayRaise (calls_in calls.now.pairs.now) (numbers ordered.now) heights.old }
    ensures { (k : ℕ) → Tells (calls_in calls.now.pairs.now) heights.new k }
{
    'ordered: for method in ordered {
        heights[method.0] = above(greatest(heights, calls.of(*method)));
    }
}

/// The heights of all methods that pairs name, with room for so many numbers.
fn raised(
    alloc: Global,
    pairs: &[Pair],
    order: (&[ObjectId], &[ObjectId]),
    room: usize,
) -> Result<Vec<u8>, AllocError>
    requires order { IsCallOrder pairs.now (numbers order.0.now) (numbers order.1.now) }
    requires room { (k : ℕ) → is_among k (named pairs.now) ≡ true → k < room }
    ensures { IfOk result (λ v. (k : ℕ) → Tells (calls_in pairs.now) v.items k) }
{
    let places = places_of(alloc, pairs, room)?;
    let mut heights = first_heights(alloc, order.1, room)?;
    raise(
        &mut heights,
        &Calls {
            pairs,
            places: &places,
        },
        order.0,
    );
    Ok(heights)
}

impl Heights {
    /// How long chains of calls are that begin with each method. Each of the methods that pairs
    /// name stands in `ordered` behind all that it calls, or in `others`, where a chain that begins
    /// with it has a cycle, as `call_order` answers them. Time and memory go with the number of
    /// pairs, the number of callees and the greatest number of a method.
    ///
    /// # Errors
    ///
    /// `NoMemory`, where memory is wanted.
    pub fn of(
        alloc: Global,
        pairs: &[(ObjectId, Vec<ObjectId>)],
        ordered: &[ObjectId],
        others: &[ObjectId],
    ) -> Result<Heights, NoMemory>
        requires { IsCallOrder pairs.now (numbers ordered.now) (numbers others.now) }
        ensures { IfOk result (AreHeights pairs.now) }
    {
        let Some(room) = room_for(pairs) else {
            return Err(NoMemory);
        };
        match raised(alloc, pairs, (ordered, others), room) {
            Ok(heights) => Ok(Heights { heights }),
            Err(_) => Err(NoMemory),
        }
    }

    /// Whether no chain of calls that begins with a method has more methods than so many, which are
    /// at most 64; above that, chains with a cycle and longer ones are taken to have 65. A method
    /// that no pair names calls none.
    #[must_use]
    pub fn is_short(&self, method: ObjectId, most: u8) -> bool
        ensures { result ≡ is_short_in self.now most method.0 }
    {
        height_of(&self.heights, method) <= most
    }
}
