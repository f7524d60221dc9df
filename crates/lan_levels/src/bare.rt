ghost use Rattle.std.specs.Prelude.{◌≡◌, ◌↔◌, ◌+◌, ◌<◌, ◌≤◌, length, IfOk, IfErr, IsTrue};
ghost use Rattle.lan_model.specs.Plain.{plain_field, plain_fields};
ghost use Rattle.lan_levels.specs.PlainSlots.{nothing, plain_piece, plain_slot};
ghost use Rattle.lan_levels.specs.SlotsOf as slots;
ghost use Rattle.lan_levels.specs.EachLeaf.{first_depth, leaf_count, leaf_count_of};
ghost use Rattle.lan_levels.specs.Taken.{left_at, IsShallow, AreShallow, MarkIs, StateMark, bare_state, TookBare, IsNotBare, TookEachBare, SomeIsNotBare};

use crate::cursor::{next_slot, take_slot};
use crate::slot::{Piece, Slot, SlotRun, State};
use lan_model::{Field, Ty};

/// What the next slot in the first leaf of a list or struct says of it.
#[derive(Clone, Copy, Debug, PartialEq, Eq)]
pub enum Mark {
    Null,
    Empty,
    /// Anything else, or no slot at all.
    Inside,
}

/// What the next slot says of the list or struct that `child` is the item or first member of.
pub fn mark_at(child: &Field, runs: &[SlotRun<'_>], places: &[usize], leaf: usize) -> Mark
    requires { length places.now ≡ length runs.now }
    ensures { MarkIs (first_depth (plain_field child.now) + 1) (left_at runs.now places.now leaf) result }
{
    match next_slot(runs, places, leaf) {
        Some(slot) => mark_of(slot.state, child),
        None => Mark::Inside,
    }
}

fn mark_of(state: State, child: &Field) -> Mark
    ensures { StateMark (first_depth (plain_field child.now) + 1) state result }
{
    match state {
        State::Null(k) if is_around(child, k) => Mark::Null,
        State::Empty(k) if is_around(child, k) => Mark::Empty,
        _ => Mark::Inside,
    }
}

/// Whether the layer just outside the field has the number `k` in the field's first leaf.
fn is_around(field: &Field, k: u8) -> bool
    ensures { IsTrue result ↔ (k ≡ first_depth (plain_field field.now) + 1) }
{
    k > 0 && has_inside(field, k - 1)
}

/// Whether the first leaf has so many layers inside the field's own.
fn has_inside(field: &Field, layers: u8) -> bool
    ensures { IsTrue result ↔ (layers ≡ first_depth (plain_field field.now)) }
{
    match &field.ty {
        Ty::List(item) => layers > 0 && has_inside(item.get(), layers - 1),
        Ty::Struct(members) => match members.as_slice() {
            [] => layers == 0,
            [first, ..] => layers > 0 && has_inside(first, layers - 1),
        },
        _ => layers == 0,
    }
}

/// Takes the one slot of a null or empty layer, `below` layers outside the field, from each leaf
/// of the field, and gives the place after them, or else the number of a leaf without it.
#[cycle(bare)]
pub fn bare_at(
    field: &Field,
    empty: bool,
    below: u8,
    lists: u16,
    leaf: usize,
    runs: &[SlotRun<'_>],
    places: &mut [usize],
) -> Result<usize, u32>
    requires shallow { IsShallow (plain_field field.now) below }
    requires lists { lists ≤ below + 16 }
    requires places { length places.old ≡ length runs.now }
    ensures ok { IfOk result (λ past. TookBare (plain_field field.now) empty below lists leaf (left_at runs.now places.old) (left_at runs.now places.new)) }
    ensures past { IfOk result (λ past. past ≡ leaf + leaf_count (plain_field field.now)) }
    ensures err { IfErr result (IsNotBare (plain_field field.now) empty below lists leaf (left_at runs.now places.old)) }
{
    match &field.ty {
        Ty::List(item) => bare_at(item.get(), empty, below + 1, lists + 1, leaf, runs, places),
        Ty::Struct(members) => bare_members(
            members.as_slice(),
            empty,
            below + 1,
            lists,
            leaf,
            runs,
            places,
        ),
        _ => match take_slot(runs, places, leaf) {
            Some(slot) if is_bare_slot(slot, empty, below, lists) => Ok(leaf + 1),
            _ => Err(field.id),
        },
    }
}

/// The same of each member of a struct.
#[cycle(bare)]
pub fn bare_members(
    members: &[Field],
    empty: bool,
    below: u8,
    lists: u16,
    leaf: usize,
    runs: &[SlotRun<'_>],
    places: &mut [usize],
) -> Result<usize, u32>
    requires shallow { AreShallow (plain_fields members.now) below }
    requires lists { lists ≤ below + 16 }
    requires places { length places.old ≡ length runs.now }
    ensures ok { IfOk result (λ past. TookEachBare (plain_fields members.now) empty below lists leaf (left_at runs.now places.old) (left_at runs.now places.new)) }
    ensures past { IfOk result (λ past. past ≡ leaf + leaf_count_of (plain_fields members.now)) }
    ensures err { IfErr result (SomeIsNotBare (plain_fields members.now) empty below lists leaf (left_at runs.now places.old)) }
{
    let mut next = leaf;
    for member in members {
        next = bare_at(member, empty, below, lists, next, runs, places)?;
    }
    Ok(next)
}

fn is_bare_slot(slot: Slot<'_>, empty: bool, layer: u8, rep: u16) -> bool
    ensures { IsTrue result ↔ (plain_slot slot.entry ≡ slots.slot rep (bare_state empty layer) nothing) }
{
    let state = if empty {
        State::Empty(layer)
    } else {
        State::Null(layer)
    };
    slot.rep == rep && slot.state == state && is_nothing(slot.value)
}

fn is_nothing(value: Piece<'_>) -> bool
    ensures { IsTrue result ↔ (plain_piece value.entry ≡ nothing) }
{
    match value {
        Piece::Nothing => true,
        _ => false,
    }
}
