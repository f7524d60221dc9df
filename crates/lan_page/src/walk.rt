// The slots of some rows of a page, one after another.
ghost use Rattle.std.specs.Prelude.{◌≡◌, List as Sequence, [], ◌∷◌, ◌<◌, ◌≤◌, length, IfOk, IfErr, IfSome, IfNone};
ghost use Rattle.lan_model.specs.Leaves.{plain_leaf};
ghost use Rattle.lan_model.specs.Plain.{plain_type};
ghost use Rattle.lan_levels.specs.ConstantSlots.{constant_slot, own_piece};
ghost use Rattle.lan_levels.specs.PlainSlots.{PlainSlot, plain_slot, plain_piece};
ghost use Rattle.lan_meta.specs.PageKeeps.{KeepsRules};
ghost use Rattle.lan_meta.specs.PageRules.{IsValue, FitsOne};
ghost use Rattle.lan_page.specs.Walks.{same_slots, walk_slots, RowsAre};
ghost use Rattle.lan_page.specs.Giving.{FailsWalk};

use crate::fault::{PageFault, PageReason};
use lan_bytes::View;
use lan_levels::{Piece, Shape, Slot, State};
use lan_meta::{Layout, PageMeta};
use lan_model::{Blob, Leaf, Primitive, Ty};
use lan_zip::{ZipSlots, ZipView};

/// So many times one slot.
#[derive(Clone, Copy)]
pub struct Same<'a> {
    pub slot: Slot<'a>,
    pub left: u64,
}

/// The slots that are still to be given.
#[derive(Drop)]
pub enum PageWalk<'a> {
    Constant(Same<'a>),
    Zip(ZipSlots<'a>),
}

// A value that stands by itself.
fn own_piece<'a>(ty: &Ty, value: &'a [u8]) -> Piece<'a>
    requires { IsValue (plain_type ty.now) value.now }
    ensures { plain_piece result ≡ own_piece (plain_type ty.now) value.now }
{
    match ty {
        Ty::Bits(Primitive::Bool) => Piece::Bit(value[0] != 0),
        _ => Piece::Bytes(value),
    }
}

// The slot that all slots of a page are.
fn constant_slot<'a>(ty: &Ty, value: &'a Option<Blob>) -> Slot<'a>
    requires { FitsOne (plain_type ty.now) value.now }
    ensures { plain_slot result ≡ constant_slot (plain_type ty.now) value.now }
{
    match value {
        Some(value) => Slot {
            rep: 0,
            state: State::Here,
            value: own_piece(ty, value.as_slice()),
        },
        None => Slot {
            rep: 0,
            state: State::Null(0),
            value: Piece::Nothing,
        },
    }
}

impl<'a> Same<'a> {
    fn next(&mut self) -> Option<Slot<'a>>
        ensures some { IfSome result (λ slot. same_slots self.old ≡ plain_slot slot ∷ same_slots self.new) }
        ensures none { IfNone result (same_slots self.old ≡ []) }
    {
        if self.left == 0 {
            return None;
        }
        self.left -= 1;
        Some(self.slot)
    }
}

impl<'a> PageWalk<'a> {
    /// The slots of so many rows of the page, whose bytes these are.
    pub fn open(
        page: &'a PageMeta,
        leaf: &'a Leaf,
        rows: u64,
        bytes: &'a [u8],
    ) -> Result<PageWalk<'a>, PageFault>
        requires page { KeepsRules (plain_leaf leaf.now) page.now }
        requires few { length leaf.now.layers ≤ 16 }
        ensures ok { IfOk result (λ walk. RowsAre (plain_leaf leaf.now) page.now.layout rows bytes.now (walk_slots walk)) }
        ensures fault { IfErr result (FailsWalk (plain_leaf leaf.now) page.now rows bytes.now) }
        ensures none { IfErr result (λ _. (slots : Sequence PlainSlot) → RowsAre (plain_leaf leaf.now) page.now.layout rows bytes.now slots → ⊥) }
    {
        match &page.layout {
            Layout::Constant { value, .. } => Ok(PageWalk::Constant(Same {
                slot: constant_slot(&leaf.ty, value),
                left: rows,
            })),
            Layout::Mini { .. } => unreachable!(),
            Layout::Zip { codes, values, .. } => {
                let shape = Shape {
                    codes,
                    leaf,
                    values,
                };
                match ZipView::open(View::new(0, bytes), shape, rows) {
                    Ok(view) => Ok(PageWalk::Zip(view.slots())),
                    Err(fault) => Err(PageFault::Outside(
                        PageReason::Zip(fault),
                        page.buffers.at(0).at,
                    )),
                }
            }
        }
    }

    /// The next slot, its value lent. None after the last.
    pub fn next(&mut self) -> Option<Slot<'a>>
        ensures some { IfSome result (λ slot. walk_slots self.old ≡ plain_slot slot ∷ walk_slots self.new) }
        ensures none { IfNone result (walk_slots self.old ≡ []) }
    {
        match self {
            PageWalk::Constant(same) => same.next(),
            PageWalk::Zip(slots) => slots.next(),
        }
    }
}
