// What stands under the numbers of objects.

ghost use Rattle.std.specs.Prelude.{◌≡◌, ℕ, IfOk, None, length, slice_get, slice_set, unwrap_or};

use aml_paths::{NoMemory, ObjectId};
use std::alloc::Global;

/// Nothing yet, for so many objects.
///
/// # Errors
///
/// `NoMemory`, where memory is wanted.
pub fn nothing_yet<T: Drop>(alloc: Global, count: usize) -> Result<Vec<Option<T>>, NoMemory>
    ensures count { IfOk result (λ places. length places.items ≡ count) }
    ensures none { IfOk result (λ places. (k : ℕ) →
        unwrap_or (slice_get places.items k) None ≡ None) }
{
    let Ok(mut places) = Vec::with_capacity(alloc, count) else {
        return Err(NoMemory);
    };
    for _ in 0..count {
        match places.push(None) {
            Ok(()) => {}
            Err(_) => return Err(NoMemory),
        }
    }
    Ok(places)
}

/// Puts something under an object's number, where there is a place for it.
pub fn put<T: Drop>(places: &mut Vec<T>, id: ObjectId, one: T)
    ensures { places.new.items ≡ slice_set places.old.items id.0 one }
{
    if id.0 < places.len() {
        places[id.0] = one;
    }
}
