// The head of a data file: how many rows it has, and the pages of its columns.
ghost use Rattle.std.specs.Prelude.{◌≡◌, ◌+◌, ◌^◌, ◌<◌, ◌≤◌, ℕ, List, All, None, Some, length, slice_get, IfOk, IfErr, MatchOption};
ghost use Rattle.std.specs.Option.{ForSome};
ghost use Rattle.lan_bytes.specs.Placed.{Placed};
ghost use Rattle.lan_store.specs.declared.name.Name.{Name as ObjectName};
ghost use Rattle.lan_store.specs.Objects.{object};
ghost use Rattle.lan_file.specs.declared.head.ColumnPick.{ColumnPick};
ghost use Rattle.lan_file.specs.Heads.{pick_of, picks_of, placed, column_at, rows_in, IsHeadOf, KeepsPick, KeepPicks};
ghost use Rattle.lan_file.specs.HeadReasons.{place_of, head_failure, ReadsHead};
ghost use Rattle.lan_file.specs.HeadSteps.{meta_fault, pages_of, JudgesPick, JudgesPicks};
ghost use Rattle.lan_file.specs.Parts.{descriptor_of, HasColumn};
ghost use Rattle.lan_file.specs.Tables.{AreTables, IsTablesOf, HasParts, column_in};

use crate::descriptor::read_length;
use crate::head_fault::{HeadFault, HeadReason};
use crate::tables::{Tables, object_part, read_tables, survey};
use lan_bytes::View;
use lan_meta::{ColumnMeta, MetaFault, PageMeta, read_column};
use lan_model::{Leaf, List};
use lan_store::laws::looks_add_up;
use lan_store::{Name, Store};
use std::alloc::Global;

/// A column that is asked, by its number in the file, as one of a leaf.
#[derive(Drop)]
pub struct ColumnPick {
    pub column: u32,
    pub leaf: Leaf,
}

pub type ColumnPicks = List<ColumnPick>;

pub type ColumnMetas = List<ColumnMeta>;

/// How many rows a file has, and the columns that were asked, in the order in which they were asked.
#[derive(Drop)]
pub struct FileHead {
    pub rows: u64,
    pub columns: ColumnMetas,
}

fn place_of(fault: &MetaFault) -> u64
    ensures { result ≡ place_of fault.now }
{
    match fault {
        MetaFault::Wire(fault) => fault.at,
        MetaFault::Unsupported(_, _, at) => *at,
        MetaFault::Layers(at)
        | MetaFault::Counts(at)
        | MetaFault::Values(at)
        | MetaFault::Bits(at)
        | MetaFault::Region(at) => *at,
        MetaFault::Missing(_, _) | MetaFault::Memory => 0,
    }
}

fn meta_fault(fault: MetaFault) -> HeadFault
    ensures { result ≡ meta_fault fault }
{
    match fault {
        MetaFault::Memory => HeadFault::Memory,
        _ => HeadFault::Outside(HeadReason::Meta(fault), place_of(&fault)),
    }
}

// How many rows pages have in all. None past 2^64 - 1.
fn rows_in(pages: &[PageMeta]) -> Option<u64>
    ensures { MatchOption result (2 ^ 64 ≤ rows_in pages.now) (λ rows. rows ≡ rows_in pages.now) }
{
    let mut rows: u64 = 0;
    for page in pages {
        rows = rows.checked_add(page.rows)?;
    }
    Some(rows)
}

// The metadata of a column.
fn column_view<'a>(tables: &'a Tables, number: u32) -> View<'a>
    requires tables { AreTables tables.now }
    requires there { number < tables.now.footer.columns }
    requires kept { HasColumn tables.now.footer (column_in tables.now number) }
    ensures { (bytes : List ℕ) → IsTablesOf bytes tables.now → result ≡ placed bytes (column_at bytes number) }
{
    let first = tables.footer.columns_at;
    let metadata = View::new(first, tables.metadata.as_slice());
    let column = tables.column(number);
    match metadata.cut(column.at - first, column.size) {
        Some(view) => view,
        None => unreachable!(),
    }
}

// The column that is asked, in a file of so many rows.
fn read_pick(
    alloc: Global,
    tables: &Tables,
    pick: &ColumnPick,
    rows: u64,
) -> Result<ColumnMeta, HeadFault>
    requires tables { AreTables tables.now }
    requires there { pick.now.column < tables.now.footer.columns }
    requires kept { HasColumn tables.now.footer (column_in tables.now pick.now.column) }
    requires layers { length pick.now.leaf.layers ≤ 16 }
    ensures answer { (bytes : List ℕ) → IsTablesOf bytes tables.now → JudgesPick bytes rows (pick_of pick.now) result }
    ensures keeps { IfOk result (λ c. KeepsPick rows (pick_of pick.now) c.pages) }
    ensures calm { (name : ObjectName) → head_failure name result ≡ None }
{
    let view = column_view(tables, pick.column);
    let at = view.base();
    let column = match read_column(alloc, view, &pick.leaf, tables.footer.columns_at) {
        Ok(column) => column,
        Err(fault) => return Err(meta_fault(fault)),
    };
    if rows_in(column.pages.as_slice()) != Some(rows) {
        return Err(HeadFault::Outside(HeadReason::ColumnRows(pick.column), at));
    }
    Ok(column)
}

// The columns that are asked, in a file of so many rows.
fn read_picks(
    alloc: Global,
    tables: &Tables,
    picks: &[ColumnPick],
    rows: u64,
) -> Result<ColumnMetas, HeadFault>
    requires tables { AreTables tables.now }
    requires parts { HasParts tables.now picks.now }
    requires layers { All (λ (pick : ColumnPick). length pick.leaf.layers ≤ 16) picks.now }
    ensures answer { (bytes : List ℕ) → IsTablesOf bytes tables.now → JudgesPicks bytes rows (picks_of picks.now) result }
    ensures keeps { IfOk result (λ columns. KeepPicks rows (picks_of picks.now) (pages_of columns)) }
    ensures calm { (name : ObjectName) → head_failure name result ≡ None }
{
    let mut columns = ColumnMetas::with_capacity(alloc, picks.len())?;
    for pick in picks {
        columns.push(read_pick(alloc, tables, pick, rows)?)?;
    }
    Ok(columns)
}

// What the messages say of a file with these tables, of which this is the descriptor.
fn read_messages(
    alloc: Global,
    tables: &Tables,
    descriptor: View<'_>,
    picks: &[ColumnPick],
) -> Result<FileHead, HeadFault>
    requires tables { AreTables tables.now }
    requires parts { HasParts tables.now picks.now }
    requires layers { All (λ (pick : ColumnPick). length pick.leaf.layers ≤ 16) picks.now }
    ensures answer { (bytes : List ℕ) → IsTablesOf bytes tables.now → descriptor.entry ≡ placed bytes (descriptor_of bytes)
        → ReadsHead (picks_of picks.now) (IsHeadOf (picks_of picks.now)) (Some bytes) result }
    ensures keeps { IfOk result (λ head. KeepPicks head.rows (picks_of picks.now) (pages_of head.columns)) }
    ensures calm { (name : ObjectName) → head_failure name result ≡ None }
{
    let rows = match read_length(descriptor) {
        Ok(rows) => rows,
        Err(fault) => return Err(HeadFault::Outside(HeadReason::Wire(fault), fault.at)),
    };
    let columns = read_picks(alloc, tables, picks, rows)?;
    Ok(FileHead { rows, columns })
}

impl FileHead {
    ghost use Rattle.std.specs.Prelude.{◌≡◌, ◌≤◌, ℕ, List, All, Some, length, IfOk};
    ghost use Rattle.std.specs.Option.{ForSome};
    ghost use Rattle.lan_store.specs.Budget.{Asks, ranges};
    ghost use Rattle.lan_store.specs.Looked.{Looked};
    ghost use Rattle.lan_store.specs.Objects.{object};
    ghost use Rattle.lan_file.specs.declared.head.ColumnPick.{ColumnPick};
    ghost use Rattle.lan_file.specs.Heads.{picks_of, head_budget, IsHeadOf, KeepPicks};
    ghost use Rattle.lan_file.specs.HeadReasons.{head_failure, ReadsHead};
    ghost use Rattle.lan_file.specs.HeadSteps.{pages_of};

    /// Reads how many rows a data file of version 2.1 of the Lance format has, and the pages of the columns
    /// that are asked, each as one of its leaf, with the places of their buffers in the object.
    ///
    /// Of the descriptor the number of rows alone is looked at. Other columns and other global buffers
    /// aren't. On a store that tells its objects `Outside` comes exactly where its reason stands, and `Short`
    /// never comes.
    pub fn open<S: Store>(
        alloc: Global,
        store: &mut S,
        name: &Name,
        picks: &ColumnPicks,
    ) -> Result<FileHead, HeadFault>
        requires { All (λ (pick : ColumnPick). length pick.leaf.layers ≤ 16) picks.now }

        // The object is a file whose columns these are, or the reason stands in it at the place.
        ensures answer { ForSome (S.tells store.old).objects (λ all. ReadsHead (picks_of picks.now) (IsHeadOf (picks_of picks.now)) (object all name.now) result) }

        // Also where nothing is told, the columns are as a reader of pages needs them.
        ensures keeps { IfOk result (λ head. KeepPicks head.rows (picks_of picks.now) (pages_of head.columns)) }

        // The store's objects stay. At most three ranges were asked: the footer, all from column metadata
        // up to it, and the descriptor.
        ensures looked { Looked (head_failure name.now result) (ranges 3) (S.tells store.old) (S.tells store.new) }
        ensures asks { ForSome (S.tells store.old).objects (λ all. (bytes : List ℕ) → object all name.now ≡ Some bytes → Asks (head_budget bytes) (S.tells store.old) (S.tells store.new)) }
    {
        looks_add_up();
        let tables = read_tables(alloc, store, name)?;
        let descriptor = survey(&tables, picks.as_slice())?;
        let message = object_part(alloc, store, name, descriptor.at, descriptor.size)?;
        let view = View::new(descriptor.at, message.as_slice());
        let head = read_messages(alloc, &tables, view, picks.as_slice())?;
        Ok(head)
    }
}
