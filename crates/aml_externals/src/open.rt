// Dead Ifs made Scopes, in place.

ghost use Rattle.std.specs.Prelude.{◌≡◌, ◌≤◌, ◌<◌, length};
ghost use Rattle.aml_externals.specs.Opened.{opened, dead_in};

use crate::step::{Step, step_at};

/// The opcode of a Scope.
pub(crate) const SCOPE: u8 = 0x10;

/// Opens the dead Ifs of a list of definitions, in which at most so many stand one in another, and
/// answers how many there were.
pub(crate) fn open_list(list: &mut [u8], depth: u8) -> usize
    ensures gives { (list.new, result) ≡ opened depth list.old }
    ensures few { result ≤ length list.old }
{
    if depth == 0 {
        return 0;
    }
    let mut at = 0;
    let mut count = 0;
    while at < list.len() {
        match step_at(list, at, depth) {
            Step::Dead(size) => {
                list[at] = SCOPE;
                count += 1;
                at += size;
            }
            Step::Enter(from, size) => {
                count += open_list(&mut list[at + from..at + size], depth - 1);
                at += size;
            }
            Step::Over(size) => at += size,
            Step::Stop => return count,
        }
    }
    count
}

/// Whether a dead If begins at such a place of a list.
pub(crate) fn is_dead_in(list: &[u8], place: usize, depth: u8) -> bool
    ensures { result ≡ dead_in depth list.now place }
{
    if depth == 0 {
        return false;
    }
    let mut at = 0;
    let mut left = place;
    while at < list.len() {
        match step_at(list, at, depth) {
            Step::Dead(size) => {
                if left < size {
                    return left == 0;
                }
                at += size;
                left -= size;
            }
            Step::Enter(from, size) => {
                if left < size {
                    return from <= left
                        && is_dead_in(&list[at + from..at + size], left - from, depth - 1);
                }
                at += size;
                left -= size;
            }
            Step::Over(size) => {
                if left < size {
                    return false;
                }
                at += size;
                left -= size;
            }
            Step::Stop => return false,
        }
    }
    false
}
