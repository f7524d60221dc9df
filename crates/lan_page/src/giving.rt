ghost use Rattle.std.specs.Prelude.{◌≡◌, ℕ, ◌+◌, ◌-◌, ◌<◌, ◌≤◌, length, map, IfErr, OnOk};
ghost use Rattle.lan_levels.specs.SlotsOf.{lists_in};
ghost use Rattle.lan_model.specs.Leaves.{plain_leaf};
ghost use Rattle.lan_levels.specs.PlainSlots.{plain_slots};
ghost use Rattle.lan_meta.specs.PageKeeps.{KeepsRules};
ghost use Rattle.lan_page.specs.Giving.{GivesRows, RefusesRows};
ghost use Rattle.lan_page.specs.PieceRows.{GrewByRows};

use crate::cut::{PieceCut, RowCut};
use crate::fault::PageFault;
use crate::walk::PageWalk;
use lan_levels::{SlotBuf, SlotRun};
use lan_meta::PageMeta;
use lan_model::Leaf;

/// Appends the slots of one row, their values lent from the bytes of its cut or from the page.
///
/// After a refusal what is in `into` isn't said.
pub fn row_slots<'a>(
    page: &'a PageMeta,
    leaf: &'a Leaf,
    cut: &RowCut,
    bytes: &'a [u8],
    into: &mut SlotRun<'a>,
) -> Result<(), PageFault>
    requires page { KeepsRules (plain_leaf leaf.now) page.now }
    requires few { length leaf.now.layers ≤ 16 }
    ensures slots { (row : ℕ) → GivesRows (plain_leaf leaf.now) page.now row (row + 1) cut.now bytes.now (plain_slots into.old.slots) (plain_slots into.new.slots) result }
    ensures fault { IfErr result (RefusesRows (plain_leaf leaf.now) page.now 1 bytes.now) }
    ensures rows { OnOk result (GrewByRows (lists_in leaf.now.layers) 1 (plain_slots into.old.slots) (plain_slots into.new.slots)) }
    ensures leaf { into.new.leaf ≡ into.old.leaf }
{
    let mut walk = PageWalk::open(page, leaf, 1, bytes)?;
    while let Some(slot) = walk.next() {
        into.slots.push(slot)?;
    }
    Ok(())
}

/// Appends the slots of the rows of a piece, each value copied once.
///
/// After a refusal what is in `into` isn't said.
pub fn piece_slots(
    page: &PageMeta,
    leaf: &Leaf,
    piece: &PieceCut,
    bytes: &[u8],
    into: &mut SlotBuf,
) -> Result<(), PageFault>
    requires page { KeepsRules (plain_leaf leaf.now) page.now }
    requires few { length leaf.now.layers ≤ 16 }
    ensures slots { GivesRows (plain_leaf leaf.now) page.now piece.now.row piece.now.past piece.now.cut bytes.now into.old into.new result }
    ensures fault { IfErr result (RefusesRows (plain_leaf leaf.now) page.now (piece.now.past - piece.now.row) bytes.now) }
    ensures rows { OnOk result (GrewByRows (lists_in leaf.now.layers) (piece.now.past - piece.now.row) into.old into.new) }
{
    let rows = piece.past.saturating_sub(piece.row);
    let mut walk = PageWalk::open(page, leaf, rows, bytes)?;
    while let Some(slot) = walk.next() {
        into.push(slot)?;
    }
    Ok(())
}
