ghost use Rattle.std.specs.Prelude.{◌≡◌, ℕ, [], ◌∷◌, ◌+◌, ◌<◌, ◌^◌, length, drop, slice_index, IfSome, IfNone};
ghost use Rattle.lan_levels.specs.PlainSlots.{plain_slot};
ghost use Rattle.lan_levels.specs.BadSlots.{slots_at};
ghost use Rattle.lan_levels.specs.Taken.{left_at, Step, IsUnread};

use crate::slot::{Slot, SlotRun};

/// The next slot of a leaf that is not taken yet.
pub fn next_slot<'a>(runs: &[SlotRun<'a>], places: &[usize], leaf: usize) -> Option<Slot<'a>>
    requires { length places.now ≡ length runs.now }
    ensures none { IfNone result (left_at runs.now places.now leaf ≡ []) }
    ensures some { IfSome result (λ s. left_at runs.now places.now leaf ≡ plain_slot s ∷ drop (slice_index places.now leaf + 1) (slots_at runs.now leaf)) }
    ensures within { IfSome result (λ s. leaf < length runs.now) }
    ensures small { IfSome result (λ s. slice_index places.now leaf < 2 ^ 63) }
{
    let run = runs.get(leaf)?;
    let slot = run.slots.as_slice().get(places[leaf])?;
    Some(*slot)
}

/// Takes the next slot of a leaf.
pub fn take_slot<'a>(runs: &[SlotRun<'a>], places: &mut [usize], leaf: usize) -> Option<Slot<'a>>
    requires { length places.old ≡ length runs.now }
    ensures none { IfNone result (left_at runs.now places.old leaf ≡ []) }
    ensures step { IfSome result (λ s. Step leaf (left_at runs.now places.old) (left_at runs.now places.new) (plain_slot s)) }
    ensures within { IfSome result (λ s. leaf < length runs.now) }
{
    let slot = next_slot(runs, places, leaf)?;
    places[leaf] += 1;
    Some(slot)
}

/// The first leaf in which slots are left.
pub fn unread(runs: &[SlotRun<'_>], places: &[usize]) -> Option<u32>
    requires { length places.now ≡ length runs.now }
    ensures none { IfNone result ((j : ℕ) → left_at runs.now places.now j ≡ []) }
    ensures some { IfSome result (IsUnread runs.now (left_at runs.now places.now)) }
{
    for (leaf, run) in runs.iter().enumerate() {
        if next_slot(runs, places, leaf).is_some() {
            return Some(run.leaf);
        }
    }
    None
}
