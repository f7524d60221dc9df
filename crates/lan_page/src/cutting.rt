// Where pages of slots end.
ghost use Rattle.std.specs.Prelude.{◌≡◌, ◌+◌, ◌-◌, ◌^◌, ◌<◌, ◌≤◌, ◌==◌, ◌&&◌, ◌||◌, nat_le, cond, ◌∷◌, length, take, drop};
ghost use Rattle.lan_model.specs.Leaves.{plain_leaf};
ghost use Rattle.lan_model.specs.Plain.{plain_type};
ghost use Rattle.lan_levels.specs.PlainSlots.{plain_piece, plain_slot};
ghost use Rattle.lan_levels.specs.PagesWritten.{value_size, slot_size, cut_pages};
ghost use Rattle.lan_levels.specs.SlotsOf.{lists_in};
ghost use Rattle.lan_levels.specs.ZipForm.{value_form, kind_of, leaf_form};
ghost use Rattle.lan_levels.specs.ZipSlots.{starts};

use lan_levels::{Piece, Slot, SlotBuf, ValueForm, is_bare, lists_in};
use lan_model::{Leaf, Primitive, Ty, width};

// A page with so many slots is long enough.
const MOST_SLOTS: u64 = 32_768;

// A page with so many bytes of values is long enough.
const MOST_VALUES: u64 = 1 << 20;

// How a value of the type stands in a slot.
fn value_form(ty: &Ty) -> ValueForm
    ensures { result ≡ value_form (plain_type ty.now) (kind_of (plain_type ty.now)) }
{
    match ty {
        Ty::Bits(Primitive::Bool) => ValueForm::Bool,
        Ty::Bits(primitive) => ValueForm::Fixed(u64::from(width(*primitive)) / 8),
        Ty::Vector(primitive, count) => {
            ValueForm::Fixed(u64::from(*count) * u64::from(width(*primitive)) / 8)
        }
        _ => ValueForm::Variable,
    }
}

// How many bytes a value counts, or more than a page may have.
fn value_size(form: ValueForm, value: Piece<'_>) -> u64
    ensures { result ≡ value_size form (plain_piece value.entry) }
{
    match form {
        ValueForm::Bool => 1,
        ValueForm::Fixed(size) => size,
        ValueForm::Variable => match value {
            Piece::Bytes(bytes) => bytes.len() as u64,
            _ => 0,
        },
    }
}

// How many bytes the value of a slot counts.
fn slot_size(leaf: &Leaf, slot: Slot<'_>) -> u64
    ensures { result ≡ slot_size (leaf_form (plain_leaf leaf.now)) (plain_slot slot.entry) }
{
    if is_bare(leaf, slot.state) {
        return 0;
    }
    value_size(value_form(&leaf.ty), slot.value)
}

// Whether a page with so many slots and bytes of values ends before a slot.
fn ends_before(lists: u16, rep: u16, count: u64, size: u64) -> bool
    ensures { result ≡ (((lists == 0) || (rep == lists)) && (nat_le 32768 count || nat_le (2 ^ 20) size)) }
{
    (lists == 0 || rep == lists) && (count >= MOST_SLOTS || size >= MOST_VALUES)
}

/// The place behind the last slot of the page that begins at `from`.
pub fn page_end(leaf: &Leaf, slots: &SlotBuf, from: u64) -> u64
    requires few { length leaf.now.layers ≤ 16 }
    requires from { from < length slots.now }
    ensures ahead { from < result }
    ensures within { result ≤ length slots.now }
    ensures cut { cut_pages (leaf_form (plain_leaf leaf.now)) (drop from slots.now) ≡ take (result - from) (drop from slots.now) ∷ cut_pages (leaf_form (plain_leaf leaf.now)) (drop result slots.now) }
{
    let lists = lists_in(leaf.layers.as_slice());
    let end = slots.len();
    let mut size = 0;
    for i in from..end {
        let slot = slots.slot(i);
        if ends_before(lists, slot.rep, i - from, size) {
            return i;
        }
        size = MOST_VALUES.min(slot_size(leaf, slot).saturating_add(size));
    }
    end
}

// How many rows begin with a slot.
fn start_of(lists: u16, rep: u16) -> u64
    ensures value { result ≡ cond (rep == lists) 1 0 }
    ensures few { result ≤ 1 }
{
    if rep == lists { 1 } else { 0 }
}

/// How many rows begin with the slots from `from` to before `to`.
pub fn rows_in(lists: u16, slots: &SlotBuf, from: u64, to: u64) -> u64
    requires front { from ≤ to }
    requires end { to ≤ length slots.now }
    ensures { result ≡ starts lists (take (to - from) (drop from slots.now)) }
{
    let mut count = 0;
    for i in from..to {
        count += start_of(lists, slots.slot(i).rep);
    }
    count
}
