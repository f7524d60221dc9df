// The rows of a column, read in rising order.
ghost use Rattle.std.specs.Prelude.{◌≡◌, ◌↔◌, ℕ, ◌∷◌, ◌==◌, ◌-◌, ◌^◌, ◌<◌, ◌≤◌, cond, false, Bool, length, take, drop, slice_get, List as Sequence, Option, Some, None, is_some, IsSome, IsTrue, All, IfOk, IfErr, OnOk};
ghost use Rattle.std.specs.Option.{ForSome};
ghost use Rattle.lan_model.specs.Leaves.{plain_leaf};
ghost use Rattle.lan_levels.specs.PlainSlots.{PlainSlot, plain_slots};
ghost use Rattle.lan_levels.specs.SlotsOf.{lists_in};
ghost use Rattle.lan_store.specs.Budget.{nothing, plus, Asks, IsWithin, Spends, unless_refused};
ghost use Rattle.lan_store.specs.Looked.{Looked};
ghost use Rattle.lan_store.specs.Objects.{object};
ghost use Rattle.lan_meta.specs.declared.page.PageMeta.{PageMeta};
ghost use Rattle.lan_meta.specs.PageKeeps.{KeepsRules};
ghost use Rattle.lan_page.specs.Asking.{page_failure, content_budget, first_len, index_budget, piece_budget, IfHeld, IsIndexOf};
ghost use Rattle.lan_page.specs.Columns.{rows_of, HoldsPages, AreSlotsOfRow};
ghost use Rattle.lan_page.specs.ColumnCursors.{cursor_name, cursor_leaf, cursor_pages, at_first, ReadsSame, next_row, reach, HasRow, IsAt, Knows, most_of, seek_most, RefusesColumn, LiesIn, BeginsAt, AnswersRows, StaysAt, StaysIn};
ghost use Rattle.lan_page.specs.ColumnBudgets.{still_due, due_behind};

use crate::fault::PageFault;
use crate::fetching::{fetch_index, fetch_piece};
use crate::giving::piece_slots;
use crate::piece_rows::PieceRows;
use lan_levels::{SlotBuf, SlotRun, lists_in};
use lan_meta::{PageMeta, PageMetas};
use lan_model::{Blob, Leaf, Text};
use lan_store::laws::looks_add_up;
use lan_store::{Dir, Name, Store};
use std::alloc::{AllocError, Global};
use std::marker::Model;
use std::mem;

/// A reader of the rows of one column of an object, in rising order.
///
/// It keeps the slots of a piece of a page, so that a row costs a fetch only where it lies behind the piece at
/// hand; the index of a page is fetched once, with the page's first piece.
#[derive(Drop)]
pub struct ColumnCursor {
    name: Name,
    leaf: Leaf,
    pages: PageMetas,
    page: u64,
    // The column's row that begins the page.
    first: u64,
    index: Option<Blob>,
    rows: Option<PieceRows>,
}

impl Model for ColumnCursor {
    ghost use Rattle.std.specs.Coded.{codes};
    ghost use Rattle.lan_model.specs.contracts.tree.Leaf as leaf_type;
    ghost use Rattle.lan_model.specs.Leaves.{plain_leaf};
    ghost use Rattle.lan_page.specs.ColumnCursors.{PlainCursor, IsCursor};

    ghost Value = { PlainCursor };

    ghost coded = { Prim.hlevel (codes, leaf_type.the_row.coded) };

    ghost view = { λ c. record { name = c.name; leaf = c.leaf; pages = c.pages; page = c.page; first = c.first; index = c.index; rows = c.rows } };

    ghost invariant = { λ c. IsCursor (plain_leaf c.leaf) c.pages c.page c.first c.rows };
}

// The number of a page, and the column's row that begins it.
#[derive(Clone, Copy)]
struct PageStart {
    pub page: u64,
    pub first: u64,
}

// The page that has a row, at one that doesn't begin behind it or later.
fn page_of(pages: &PageMetas, from: PageStart, row: u64) -> PageStart
    requires within { from.page ≤ length pages.now }
    requires first { from.first ≡ rows_of (take from.page pages.now) }
    requires behind { from.first ≤ row }
    requires there { row < rows_of pages.now }
    ensures lies { LiesIn pages.now result.page result.first row }
    ensures ahead { from.page ≤ result.page }
    ensures most { (known : Bool) → most_of known (drop from.page pages.now) (row - from.first) ≡ most_of (cond (from.page == result.page) known false) (drop result.page pages.now) (row - result.first) }
{
    let mut page = from.page;
    let mut first = from.first;
    while page < pages.len() {
        let rows = pages.at(page).rows;
        if row - first < rows {
            return PageStart { page, first };
        }
        page += 1;
        first += rows;
    }
    unreachable!()
}

// Fetches the piece of a page that begins at a row.
fn fetch_rows<S: Store>(
    alloc: Global,
    store: &mut S,
    name: &Name,
    page: &PageMeta,
    leaf: &Leaf,
    index: &[u8],
    row: u64,
) -> Result<PieceRows, PageFault>
    requires page { KeepsRules (plain_leaf leaf.now) page.now }
    requires few { length leaf.now.layers ≤ 16 }
    requires row { row < page.now.rows }
    ensures looked { Looked (page_failure name.now result) (content_budget page.now.buffers (first_len page.now.buffers)) (S.tells store.old) (S.tells store.new) }
    ensures asks { ForSome (S.tells store.old).objects (λ all. IsIndexOf page.now (object all name.now) index.now → IfHeld (plain_leaf leaf.now) page.now (object all name.now) (Asks (piece_budget (plain_leaf leaf.now) page.now (object all name.now) row) (S.tells store.old) (S.tells store.new))) }
    ensures rows { IfOk result (BeginsAt (plain_leaf leaf.now) page.now row) }
    ensures answer { ForSome (S.tells store.old).objects (λ all. IsIndexOf page.now (object all name.now) index.now → AnswersRows (plain_leaf leaf.now) page.now (object all name.now) result) }
{
    let mut bytes = Blob::new(alloc);
    let piece = fetch_piece(alloc, store, name, page, leaf, index, row, &mut bytes)?;
    let mut slots = SlotBuf::new(alloc);
    piece_slots(page, leaf, &piece, bytes.as_slice(), &mut slots)?;
    let lists = lists_in(leaf.layers.as_slice());
    Ok(PieceRows::open(lists, row, piece.past, slots))
}

impl ColumnCursor {
    /// A reader of the column of this leaf with these pages, in the object of this name. Nothing is asked yet.
    pub fn new(_alloc: Global, name: Name, leaf: Leaf, pages: PageMetas) -> ColumnCursor
        requires rules { All (KeepsRules (plain_leaf leaf)) pages }
        requires few { length leaf.layers ≤ 16 }
        requires count { rows_of pages < 2 ^ 64 }
        ensures cursor { result ≡ at_first name leaf pages }
        ensures knows { (held : Option (Sequence ℕ)) → Knows result held }
    {
        ColumnCursor {
            name,
            leaf,
            pages,
            page: 0,
            first: 0,
            index: None,
            rows: None,
        }
    }

    // Whether the slots of a row are in memory that isn't before the one at hand.
    fn has(&self, row: u64) -> bool
        requires { next_row self.now ≤ row }
        ensures reached { IsTrue result ↔ (row < reach self.now) }
        ensures lies { IsTrue result → LiesIn self.now.pages self.now.page self.now.first row }
    {
        match &self.rows {
            Some(rows) => row - self.first < rows.past(),
            None => false,
        }
    }

    // Goes on to a row whose slots are in memory.
    fn advance(&mut self, row: u64)
        requires order { next_row self.old ≤ row }
        requires within { row < reach self.old }
        ensures same { ReadsSame self.old self.new }
        ensures at { IsAt self.new row }
        ensures stays { StaysIn self.old self.new }
        ensures knows { (held : Option (Sequence ℕ)) → Knows self.old held → Knows self.new held }
    {
        let place = row - self.first;
        if let Some(rows) = &mut self.rows {
            rows.seek(place);
        }
    }

    // Turns to the page that has a row, and lets the piece at hand go.
    fn turn(&mut self, row: u64)
        requires order { next_row self.old ≤ row }
        requires there { row < rows_of self.old.pages }
        requires behind { reach self.old ≤ row }
        ensures same { ReadsSame self.old self.new }
        ensures due { (held : Option (Sequence ℕ)) (later : Sequence ℕ) → IsWithin (plus nothing (still_due self.new held (row ∷ later))) (still_due self.old held (row ∷ later)) }
        ensures lies { LiesIn self.new.pages self.new.page self.new.first row }
        ensures none { self.new.rows ≡ None }
        ensures most { most_of (is_some self.old.index) (drop self.old.page self.old.pages) (row - self.old.first) ≡ most_of (is_some self.new.index) (drop self.new.page self.new.pages) (row - self.new.first) }
        ensures knows { (held : Option (Sequence ℕ)) → Knows self.old held → Knows self.new held }
    {
        let from = PageStart {
            page: self.page,
            first: self.first,
        };
        let to = page_of(&self.pages, from, row);
        self.rows = None;
        if to.page == self.page {
            return;
        }
        self.index = None;
        self.page = to.page;
        self.first = to.first;
    }

    // Fetches the index of the page at hand, unless it is known.
    fn open<S: Store>(&mut self, alloc: Global, store: &mut S) -> Result<(), PageFault>
        requires page { self.old.page < length self.old.pages }
        requires none { self.old.rows ≡ None }
        requires knows { ForSome (S.tells store.old).objects (λ all. Knows self.old (object all (cursor_name self.old))) }
        ensures looked { ForSome (slice_get self.old.pages self.old.page) (λ page. Looked (page_failure (cursor_name self.old) result) (cond (is_some self.old.index) nothing (index_budget page)) (S.tells store.old) (S.tells store.new)) }
        ensures same { ReadsSame self.old self.new }
        ensures stays { StaysAt self.old self.new }
        ensures open { OnOk result (IsSome self.new.index) }
        ensures knows { ForSome (S.tells store.old).objects (λ all. Knows self.new (object all (cursor_name self.old))) }
        ensures reason { ForSome (S.tells store.old).objects (λ all. IfErr result (RefusesColumn (cursor_leaf self.old) (cursor_pages self.old) (object all (cursor_name self.old)))) }
    {
        looks_add_up();
        if self.index.is_some() {
            return Ok(());
        }
        let page = self.pages.at(self.page);
        let mut index = Blob::new(alloc);
        fetch_index(alloc, store, &self.name, page, &self.leaf, &mut index)?;
        self.index = Some(index);
        Ok(())
    }

    // Fetches the piece that begins at a row of the page at hand.
    fn read<S: Store>(&mut self, alloc: Global, store: &mut S, row: u64) -> Result<(), PageFault>
        requires lies { LiesIn self.old.pages self.old.page self.old.first row }
        requires none { self.old.rows ≡ None }
        requires open { IsSome self.old.index }
        requires knows { ForSome (S.tells store.old).objects (λ all. Knows self.old (object all (cursor_name self.old))) }
        ensures looked { ForSome (slice_get self.old.pages self.old.page) (λ page. Looked (page_failure (cursor_name self.old) result) (content_budget page.buffers (first_len page.buffers)) (S.tells store.old) (S.tells store.new)) }
        ensures asks { ForSome (S.tells store.old).objects (λ all. ForSome (slice_get self.old.pages self.old.page) (λ page. IfHeld (cursor_leaf self.old) page (object all (cursor_name self.old)) (Asks (piece_budget (cursor_leaf self.old) page (object all (cursor_name self.old)) (row - self.old.first)) (S.tells store.old) (S.tells store.new)))) }
        ensures due { ForSome (S.tells store.old).objects (λ all. ForSome (slice_get self.old.pages self.old.page) (λ page. (later : Sequence ℕ) → IfHeld (cursor_leaf self.old) page (object all (cursor_name self.old)) (OnOk result (still_due self.new (object all (cursor_name self.old)) later ≡ due_behind self.old page (object all (cursor_name self.old)) row later)))) }
        ensures same { ReadsSame self.old self.new }
        ensures at { OnOk result (IsAt self.new row) }
        ensures order { next_row self.new ≤ row }
        ensures knows { ForSome (S.tells store.old).objects (λ all. Knows self.new (object all (cursor_name self.old))) }
        ensures reason { ForSome (S.tells store.old).objects (λ all. IfErr result (RefusesColumn (cursor_leaf self.old) (cursor_pages self.old) (object all (cursor_name self.old)))) }
    {
        let page = self.pages.at(self.page);
        let index = match &self.index {
            Some(index) => index.as_slice(),
            None => unreachable!(),
        };
        let place = row - self.first;
        let rows = fetch_rows(alloc, store, &self.name, page, &self.leaf, index, place)?;
        self.rows = Some(rows);
        Ok(())
    }

    /// Brings a row's slots to hand, where need be by a fetch of the piece that begins at the row.
    ///
    /// The row is counted from the column's front, and isn't before the one that was sought last: that one may be
    /// sought again. After a refusal this row, or a later one, may be sought again. Of an object that holds the
    /// column all calls together ask the index of each page that has a row sought, and each of its pieces, once.
    pub fn seek<S: Store>(
        &mut self,
        alloc: Global,
        store: &mut S,
        row: u64,
    ) -> Result<(), PageFault>
        requires order { next_row self.old ≤ row }
        requires there { row < rows_of (cursor_pages self.old) }
        requires knows { ForSome (S.tells store.old).objects (λ all. Knows self.old (object all (cursor_name self.old))) }
        ensures looked { Looked (page_failure (cursor_name self.old) result) (seek_most self.old row) (S.tells store.old) (S.tells store.new) }
        ensures same { ReadsSame self.old self.new }
        ensures at { OnOk result (IsAt self.new row) }
        ensures order { next_row self.new ≤ row }
        ensures knows { ForSome (S.tells store.new).objects (λ all. Knows self.new (object all (cursor_name self.new))) }
        ensures reason { ForSome (S.tells store.old).objects (λ all. IfErr result (RefusesColumn (cursor_leaf self.old) (cursor_pages self.old) (object all (cursor_name self.old)))) }
        ensures spends { ForSome (S.tells store.old).objects (λ all. (slots : Sequence PlainSlot) (later : Sequence ℕ) → HoldsPages (cursor_leaf self.old) (cursor_pages self.old) (object all (cursor_name self.old)) slots → Spends (still_due self.old (object all (cursor_name self.old)) (row ∷ later)) (unless_refused result (still_due self.new (object all (cursor_name self.old)) later)) (S.tells store.old) (S.tells store.new)) }
    {
        looks_add_up();
        if self.has(row) {
            self.advance(row);
            return Ok(());
        }
        self.turn(row);
        self.open(alloc, store)?;
        self.read(alloc, store, row)
    }

    /// Gives up the name of the object; nothing is read of it any more.
    pub fn take_name(&mut self, alloc: Global) -> Name
        ensures { result ≡ cursor_name self.old }
    {
        mem::replace(
            &mut self.name,
            Name {
                dir: Dir::Data,
                rest: Text::new(alloc),
            },
        )
    }

    /// Lends the slots of the row at hand.
    pub fn row_run<'a>(&'a self, alloc: Global) -> Result<SlotRun<'a>, AllocError>
        requires { HasRow self.now }
        ensures leaf { IfOk result (λ run. run.leaf ≡ (cursor_leaf self.now).id) }
        ensures slots { IfOk result (λ run. (held : Option (Sequence ℕ)) → Knows self.now held → AreSlotsOfRow (cursor_leaf self.now) (cursor_pages self.now) held (next_row self.now) (plain_slots run.slots)) }
    {
        match &self.rows {
            Some(rows) => rows.run(alloc, self.leaf.id),
            None => unreachable!(),
        }
    }
}
