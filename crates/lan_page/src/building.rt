ghost use Rattle.std.specs.Prelude.{◌≡◌, ◌==◌, ◌&&◌, ◌-◌, ◌<◌, ◌≤◌, length, take, drop, All, IfOk};
ghost use Rattle.std.specs.List.{list_all};
ghost use Rattle.lan_model.specs.Leaves.{plain_leaf};
ghost use Rattle.lan_levels.specs.PagesWritten.{own_bytes, may_be_all, same_slot, value_of_all, constant_of};
ghost use Rattle.lan_levels.specs.PlainSlots.{plain_piece, plain_slot};
ghost use Rattle.lan_levels.specs.ZipBuffers.{same_state};
ghost use Rattle.lan_levels.specs.ZipForm.{leaf_form, kind_of};
ghost use Rattle.lan_levels.specs.ZipWritten.{CanStand};
ghost use Rattle.lan_model.specs.Plain.{plain_type};
ghost use Rattle.lan_meta.specs.ColumnWritten.{page_written, written};

use crate::cutting::{page_end, rows_in};
use lan_levels::{Piece, Slot, SlotBuf, State, ValueKind, codes_of, lists_in};
use lan_meta::{BuiltPage, BuiltPages, Layout};
use lan_model::{Blob, Blobs, Leaf, Ty, width};
use lan_zip::build_page;
use std::alloc::{AllocError, Global};

// The bytes of a value by itself.
fn own_bytes<'a>(piece: Piece<'a>) -> &'a [u8]
    ensures { result.now ≡ own_bytes (plain_piece piece.entry) }
{
    match piece {
        Piece::Nothing => &[],
        Piece::Bit(true) => &[1],
        Piece::Bit(false) => &[0],
        Piece::Bytes(bytes) => bytes,
    }
}

fn same_state(a: State, b: State) -> bool
    ensures { result ≡ same_state a b }
{
    match (a, b) {
        (State::Here, State::Here) => true,
        (State::Null(j), State::Null(k)) => j == k,
        (State::Empty(j), State::Empty(k)) => j == k,
        _ => false,
    }
}

fn same_slot(a: Slot<'_>, b: Slot<'_>) -> bool
    ensures { result ≡ same_slot (plain_slot a.entry) (plain_slot b.entry) }
{
    same_state(a.state, b.state) && own_bytes(a.value) == own_bytes(b.value)
}

// Whether all slots of a page may be such a one.
fn may_be_all(slot: Slot<'_>) -> bool
    ensures { result ≡ may_be_all (plain_slot slot.entry).state (plain_slot slot.entry).value }
{
    match slot.state {
        State::Here => own_bytes(slot.value).len() <= 256,
        State::Null(0) => true,
        _ => false,
    }
}

// Whether the slots from `from` to before `to` are all the same as this one.
fn are_same(first: Slot<'_>, slots: &SlotBuf, from: u64, to: u64) -> bool
    requires front { from ≤ to }
    requires end { to ≤ length slots.now }
    ensures { result ≡ list_all (same_slot (plain_slot first.entry)) (take (to - from) (drop from slots.now)) }
{
    for i in from..to {
        if !same_slot(first, slots.slot(i)) {
            return false;
        }
    }
    true
}

// Whether a slot and those from `from` to before `to` have no list layers, and are all the same.
fn is_constant(lists: u16, first: Slot<'_>, slots: &SlotBuf, from: u64, to: u64) -> bool
    requires front { from ≤ to }
    requires end { to ≤ length slots.now }
    ensures { result ≡ ((lists == 0) && may_be_all (plain_slot first.entry).state (plain_slot first.entry).value && list_all (same_slot (plain_slot first.entry)) (take (to - from) (drop from slots.now))) }
{
    lists == 0 && may_be_all(first) && are_same(first, slots, from, to)
}

// What all slots have that are such a one.
fn value_of_all(alloc: Global, slot: Slot<'_>) -> Result<Option<Blob>, AllocError>
    ensures { IfOk result (λ value. value ≡ value_of_all (plain_slot slot.entry).state (plain_slot slot.entry).value) }
{
    match slot.state {
        State::Here => Ok(Some(Blob::from_slice(alloc, own_bytes(slot.value))?)),
        _ => Ok(None),
    }
}

// What the slots from `from` to before `to` have all, where they have no list layers and are the same.
fn constant_of(
    alloc: Global,
    leaf: &Leaf,
    slots: &SlotBuf,
    from: u64,
    to: u64,
) -> Result<Option<Option<Blob>>, AllocError>
    requires few { length leaf.now.layers ≤ 16 }
    requires front { from < to }
    requires end { to ≤ length slots.now }
    ensures { IfOk result (λ value. value ≡ constant_of (leaf_form (plain_leaf leaf.now)) (take (to - from) (drop from slots.now))) }
{
    let first = slots.slot(from);
    let lists = lists_in(leaf.layers.as_slice());
    if !is_constant(lists, first, slots, from + 1, to) {
        return Ok(None);
    }
    let value = value_of_all(alloc, first)?;
    Ok(Some(value))
}

// How values of a leaf of that type are stored.
fn kind_of(ty: &Ty) -> ValueKind
    ensures { result ≡ kind_of (plain_type ty.now) }
{
    match ty {
        Ty::Bits(primitive) => ValueKind::Flat(u64::from(width(*primitive))),
        Ty::Vector(primitive, count) => {
            ValueKind::Flat(u64::from(*count) * u64::from(width(*primitive)))
        }
        _ => ValueKind::Variable,
    }
}

// The page of the slots from `from` to before `to`.
fn page_of(
    alloc: Global,
    leaf: &Leaf,
    slots: &SlotBuf,
    from: u64,
    to: u64,
) -> Result<BuiltPage, AllocError>
    requires few { length leaf.now.layers ≤ 16 }
    requires front { from < to }
    requires end { to ≤ length slots.now }
    requires slots { All (CanStand (leaf_form (plain_leaf leaf.now))) slots.now }
    ensures { IfOk result (λ page. page ≡ page_written (plain_leaf leaf.now) (take (to - from) (drop from slots.now))) }
{
    let codes = codes_of(alloc, leaf)?;
    let rows = rows_in(lists_in(leaf.layers.as_slice()), slots, from, to);
    let count = to - from;
    let constant = constant_of(alloc, leaf, slots, from, to)?;
    match constant {
        Some(value) => Ok(BuiltPage {
            rows,
            layout: Layout::Constant {
                codes,
                slots: count,
                value,
            },
            buffers: Blobs::new(alloc),
        }),
        None => {
            let buffers = build_page(alloc, leaf, slots, from, to)?;
            Ok(BuiltPage {
                rows,
                layout: Layout::Zip {
                    codes,
                    slots: count,
                    values: kind_of(&leaf.ty),
                },
                buffers,
            })
        }
    }
}

/// The pages of a column's slots, as the writer makes them.
///
/// A page ends before the slot of a row where it has at least 32,768 slots or 2^20 bytes of values. It is
/// constant where the leaf has no list layers and all its slots are null, or all are one value of at most 256
/// bytes; else it is full-zip. The slots of rows that fit their fields can stand in a page, unless a value has
/// 2^32 bytes or more: that is the law `lan_zip::laws::rows_can_stand`.
pub fn build(alloc: Global, leaf: &Leaf, slots: &SlotBuf) -> Result<BuiltPages, AllocError>
    requires few { length leaf.now.layers ≤ 16 }
    requires slots { All (CanStand (leaf_form (plain_leaf leaf.now))) slots.now }
    ensures { IfOk result (λ pages. pages ≡ written (plain_leaf leaf.now) slots.now) }
{
    let mut pages = BuiltPages::new(alloc);
    let mut from = 0;
    while from < slots.len() {
        let to = page_end(leaf, slots, from);
        let page = page_of(alloc, leaf, slots, from, to)?;
        pages.push(page)?;
        from = to;
    }
    Ok(pages)
}
