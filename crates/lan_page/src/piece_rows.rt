// The slots of a piece, row by row.
ghost use Rattle.std.specs.Prelude.{◌≡◌, ℕ, ◌+◌, ◌-◌, ◌<◌, ◌≤◌, length, IfOk};
ghost use Rattle.lan_levels.specs.PlainSlots.{plain_slots};
ghost use Rattle.lan_levels.specs.ZipRows.{slots_before};
ghost use Rattle.lan_page.specs.PieceRows.{HasRows, slots_at_hand};

use lan_levels::{SlotBuf, SlotRun};
use lan_model::List;
use std::alloc::{AllocError, Global};
use std::marker::Model;

/// The slots of some successive rows of a page, one row of which is at hand.
#[derive(Drop)]
pub struct PieceRows {
    lists: u16,
    from: u64,
    past: u64,
    slots: SlotBuf,
    row: u64,
    // The row's slots are those from here to before `end`.
    begin: u64,
    end: u64,
}

impl Model for PieceRows {
    ghost use Rattle.lan_page.specs.PieceRows.{PlainRows, ArePlacesOf};

    ghost Value = { PlainRows };

    ghost view = { λ p. record { lists = p.lists; from = p.from; past = p.past; slots = p.slots; row = p.row } };

    ghost invariant = { λ p. ArePlacesOf p.lists p.from p.past p.slots p.row p.begin p.end };
}

// The place of the first slot behind one that begins a row, or of the end.
fn row_end(slots: &SlotBuf, lists: u16, at: u64) -> u64
    requires { at < length slots.now }
    ensures { (row : ℕ) → at ≡ length (slots_before lists row slots.now) → result ≡ length (slots_before lists (row + 1) slots.now) }
{
    let count = slots.len();
    for i in at + 1..count {
        if slots.slot(i).rep == lists {
            return i;
        }
    }
    count
}

impl PieceRows {
    /// The slots of the rows from `from` to before `past`, in a leaf with so many list layers. The first is at hand.
    pub fn open(lists: u16, from: u64, past: u64, slots: SlotBuf) -> PieceRows
        requires some { from < past }
        requires rows { HasRows lists (past - from) slots }
        ensures { result ≡ record { lists = lists; from = from; past = past; slots = slots; row = from } }
    {
        let end = row_end(&slots, lists, 0);
        PieceRows {
            lists,
            from,
            past,
            slots,
            row: from,
            begin: 0,
            end,
        }
    }

    /// The row behind the last.
    pub fn past(&self) -> u64
        ensures { result ≡ self.now.past }
    {
        self.past
    }

    // Where the slots of a row begin and end that isn't before the one at hand.
    fn places(&self, row: u64) -> (u64, u64)
        requires order { self.now.row ≤ row }
        requires before { row < self.now.past }
        ensures behind { self.now.from ≤ row }
        ensures begin { result.0 ≡ length (slots_before self.now.lists (row - self.now.from) self.now.slots) }
        ensures end { result.1 ≡ length (slots_before self.now.lists (row - self.now.from + 1) self.now.slots) }
    {
        if self.lists == 0 {
            let begin = row - self.from;
            return (begin, row_end(&self.slots, self.lists, begin));
        }
        let mut begin = self.begin;
        let mut end = self.end;
        let mut at = self.row;
        'rows: while at < row {
            begin = end;
            end = row_end(&self.slots, self.lists, begin);
            at += 1;
        }
        (begin, end)
    }

    /// Goes on to a row that isn't before the one at hand. Without list layers only the slot behind it is looked at.
    pub fn seek(&mut self, row: u64)
        requires order { self.old.row ≤ row }
        requires before { row < self.old.past }
        ensures { self.new ≡ record self.old { row = row } }
    {
        let (begin, end) = self.places(row);
        self.begin = begin;
        self.end = end;
        self.row = row;
    }

    /// Lends the slots of the row at hand, as those of the leaf of that number.
    pub fn run<'a>(&'a self, alloc: Global, leaf: u32) -> Result<SlotRun<'a>, AllocError>
        ensures leaf { IfOk result (λ run. run.leaf ≡ leaf) }
        ensures slots { IfOk result (λ run. plain_slots run.slots ≡ slots_at_hand self.now) }
        ensures rows { (self.now.from ≤ self.now.row) × (self.now.row < self.now.past) }
    {
        let count = self.end - self.begin;
        let mut slots = List::with_capacity(alloc, count as usize)?;
        for i in self.begin..self.end {
            slots.push(self.slots.slot(i))?;
        }
        Ok(SlotRun { leaf, slots })
    }
}
