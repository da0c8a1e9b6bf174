// The locals or the arguments: of each a kind, or none where it may be unset.

ghost use Rattle.std.specs.Prelude.{◌≡◌, ◌<◌, ℕ, Bool, Some, false, if◌then◌else◌, length, slice_get, slice_set, unwrap_or};
ghost use Rattle.aml_kinds.specs.Kinds.{Shape};
ghost use Rattle.aml_judged.specs.Known as judged;
ghost use Rattle.aml_objects.specs.Widths.{bits_of};
ghost use Rattle.aml_known.specs.Views.{AreApart, held_kind, kind_of, slot_of, slots_of};

use crate::known::Known;
use aml_namespace::Width;

/// A kind, or none of what may be unset.
pub type Slot = Option<Known>;

/// The kind of what stands in a slot; none where it may be unset, and where there is no such slot.
pub fn kind_at(slots: &[Slot], number: u8) -> Option<Known>
    ensures { (shapes : ℕ → Shape) → slot_of shapes result
        ≡ held_kind (slice_get (slots_of shapes slots.now) number) }
{
    match slots.get(usize::from(number)) {
        Some(slot) => *slot,
        None => None,
    }
}

/// Puts a kind into a slot.
pub fn set_kind(slots: &mut [Slot], number: u8, kind: Known)
    ensures { (shapes : ℕ → Shape) → slots_of shapes slots.new
        ≡ slice_set (slots_of shapes slots.old) number (Some (kind_of shapes kind)) }
{
    let place = usize::from(number);
    if place < slots.len() {
        slots[place] = Some(kind);
    }
}

/// What is known of a slot that is as the one or as the other.
fn join_slot(j: Slot, k: Slot) -> Slot
    ensures { (shapes : ℕ → Shape) → AreApart shapes →
        slot_of shapes result ≡ judged.join_slot (slot_of shapes j) (slot_of shapes k) }
{
    match (j, k) {
        (Some(j), Some(k)) => Some(j.join(k)),
        _ => None,
    }
}

/// Joins to slots those of another end.
pub fn join_slots(slots: &mut [Slot], others: &[Slot])
    requires { length slots.old ≡ length others.now }
    ensures { (shapes : ℕ → Shape) → AreApart shapes → slots_of shapes slots.new
        ≡ judged.join_slots (slots_of shapes slots.old) (slots_of shapes others.now) }
{
    for i in 0..slots.len() {
        slots[i] = join_slot(slots[i], others[i]);
    }
}

/// Whether a slot is within another; everything is within what may be unset.
fn is_slot_within(j: Slot, k: Slot) -> bool
    ensures { (shapes : ℕ → Shape) → AreApart shapes →
        result ≡ judged.slot_within (slot_of shapes j) (slot_of shapes k) }
{
    match (j, k) {
        (_, None) => true,
        (Some(j), Some(k)) => j.is_within(k),
        (None, Some(_)) => false,
    }
}

/// Whether slots are within others, one by one.
pub fn are_within(slots: &[Slot], others: &[Slot]) -> bool
    ensures { (shapes : ℕ → Shape) → AreApart shapes → result
        ≡ judged.slots_within (slots_of shapes slots.now) (slots_of shapes others.now) }
{
    match others {
        [] => true,
        [k, ks @ ..] => match slots {
            [] => false,
            [j, js @ ..] => is_slot_within(*j, *k) && are_within(js, ks),
        },
    }
}

/// Whether there is a mark at a number.
fn is_marked(marks: &[bool], number: usize) -> bool
    ensures { result ≡ unwrap_or (slice_get marks.now number) false }
{
    match marks.get(number) {
        Some(mark) => *mark,
        None => false,
    }
}

/// A slot, which may be a target in a loop: then an integer may be any.
fn widened_if(is_target: bool, slot: Slot, width: Width) -> Slot
    ensures { (shapes : ℕ → Shape) → slot_of shapes result ≡ (if is_target
        then judged.widened_slot (bits_of width) (slot_of shapes slot) else slot_of shapes slot) }
{
    match slot {
        Some(Known::Int(_)) if is_target => Some(Known::Int(width.greatest())),
        _ => slot,
    }
}

/// Widens the slots that are targets in a loop, which are told by their numbers.
pub fn widen(slots: &mut [Slot], targets: &[bool], width: Width)
    ensures { (shapes : ℕ → Shape) (is : ℕ → Bool) →
        ((i : ℕ) → i < length slots.old → is i ≡ unwrap_or (slice_get targets.now i) false) →
        slots_of shapes slots.new
        ≡ judged.widened is (bits_of width) 0 (slots_of shapes slots.old) }
{
    for i in 0..slots.len() {
        slots[i] = widened_if(is_marked(targets, i), slots[i], width);
    }
}

/// A slot whose greatest integer is no more than a number, where it has an integer kind.
fn lowered(slot: Slot, most: u64) -> Slot
    ensures { (shapes : ℕ → Shape) →
        slot_of shapes result ≡ judged.lower_slot (slot_of shapes slot) most }
{
    match slot {
        Some(Known::Int(greatest)) => Some(Known::Int(greatest.min(most))),
        _ => slot,
    }
}

/// Makes the greatest integer of a slot no more than a number, where it has an integer kind.
pub fn lower(slots: &mut [Slot], number: u8, most: u64)
    ensures { (shapes : ℕ → Shape) → slots_of shapes slots.new
        ≡ judged.lower (slots_of shapes slots.old) number most }
{
    let place = usize::from(number);
    if place < slots.len() {
        slots[place] = lowered(slots[place], most);
    }
}
