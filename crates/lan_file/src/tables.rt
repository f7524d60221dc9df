// What lies behind a file's buffers: the metadata of its columns, its tables and its footer.
ghost use Rattle.std.specs.Prelude.{◌≡◌, ℕ, ◌+◌, ◌*◌, ◌-◌, ◌^◌, ◌<◌, ◌≤◌, ◌↔◌, List, All, Some, length, IsTrue, IfOk, MatchOption};
ghost use Rattle.std.specs.Option.{ForSome};
ghost use Rattle.lan_store.specs.Budget.{Asks, nothing, range, ranges};
ghost use Rattle.lan_store.specs.Looked.{Looked};
ghost use Rattle.lan_store.specs.Objects.{object};
ghost use Rattle.lan_file.specs.declared.head.ColumnPick.{ColumnPick};
ghost use Rattle.lan_file.specs.Tables.{IsSizeOf, IsPieceOf, JudgesFooter, IsTablesOf, AreTables, KeepsColumn, LacksColumn, JudgesTables};
ghost use Rattle.lan_file.specs.Heads.{Pick, tables_budget};
ghost use Rattle.lan_file.specs.HeadReasons.{head_failure, ReadsHead};
ghost use Rattle.lan_file.specs.Opening.{IsOpened};
ghost use Rattle.lan_file.specs.Parts.{InOrder};

use crate::head::ColumnPick;
use crate::head_fault::{HeadFault, HeadReason};
use crate::opening::{Opened, are_in_order, has_mark};
use crate::tail::{Extent, Footer};
use lan_bytes::View;
use lan_model::Blob;
use lan_store::laws::looks_add_up;
use lan_store::{GetFault, Name, SizeFault, Store};
use std::alloc::Global;

// No object that is read has more bytes.
const LIMIT: u64 = 1 << 30;

/// The footer of a file, and the bytes from where column metadata begins up to it.
#[derive(Debug, Drop)]
pub(crate) struct Tables {
    pub footer: Footer,
    pub metadata: Blob,
}

// The object's length in bytes.
fn object_size<S: Store>(alloc: Global, store: &mut S, name: &Name) -> Result<u64, HeadFault>
    ensures looked { Looked (head_failure name.now result) nothing (S.tells store.old) (S.tells store.new) }
    ensures answer { ForSome (S.tells store.old).objects (λ all. (picks : List Pick) → ReadsHead picks IsSizeOf (object all name.now) result) }
    ensures small { IfOk result (λ size. size ≤ 2 ^ 30) }
{
    match store.size(alloc, name) {
        Ok(size) => {
            if size > LIMIT {
                return Err(HeadFault::Outside(HeadReason::Size, size));
            }
            Ok(size)
        }
        Err(SizeFault::Missing) => Err(HeadFault::Outside(HeadReason::Missing, 0)),
        Err(SizeFault::Failed) => Err(HeadFault::Store),
        Err(SizeFault::Memory) => Err(HeadFault::Memory),
    }
}

/// The `len` bytes of the object from `at` on. A store that gives another number of bytes is short.
pub(crate) fn object_part<S: Store>(
    alloc: Global,
    store: &mut S,
    name: &Name,
    at: u64,
    len: u64,
) -> Result<Blob, HeadFault>
    requires { at + len ≤ 2 ^ 63 }
    ensures looked { Looked (head_failure name.now result) (range len) (S.tells store.old) (S.tells store.new) }
    ensures answer { ForSome (S.tells store.old).objects (λ all. IsPieceOf (object all name.now) at len result) }
    ensures length { IfOk result (λ found. length found ≡ len) }
{
    let mut part = Blob::new(alloc);
    match store.get(alloc, name, at, len, &mut part) {
        Ok(()) if part.len() == len => Ok(part),
        Ok(()) => Err(HeadFault::Outside(HeadReason::Short, at)),
        Err(GetFault::Missing) => Err(HeadFault::Outside(HeadReason::Missing, 0)),
        Err(GetFault::Short) => Err(HeadFault::Outside(HeadReason::Short, at)),
        Err(GetFault::Failed) => Err(HeadFault::Store),
        Err(GetFault::Memory) => Err(HeadFault::Memory),
    }
}

// Judges the last 40 bytes of so many.
fn judge_footer(size: u64, tail: &[u8]) -> Result<Footer, HeadFault>
    requires size { 40 ≤ size }
    requires tail { length tail.now ≡ 40 }
    ensures { JudgesFooter size tail.now result }
{
    if !has_mark(tail) {
        return Err(HeadFault::Outside(HeadReason::Magic, size - 4));
    }
    let footer = Footer::of(&View::new(0, tail));
    if footer.major != 2 || footer.minor != 1 {
        let reason = HeadReason::Version(footer.major, footer.minor);
        return Err(HeadFault::Outside(reason, size - 8));
    }
    if !are_in_order(size, &footer) {
        return Err(HeadFault::Outside(HeadReason::Region, size - 40));
    }
    Ok(footer)
}

fn read_footer<S: Store>(alloc: Global, store: &mut S, name: &Name) -> Result<Opened, HeadFault>
    ensures looked { Looked (head_failure name.now result) (range 40) (S.tells store.old) (S.tells store.new) }
    ensures answer { ForSome (S.tells store.old).objects (λ all. (picks : List Pick) → ReadsHead picks IsOpened (object all name.now) result) }
    ensures tables { IfOk result (λ o. (o.size ≤ 2 ^ 30) × InOrder o.size o.footer) }
{
    looks_add_up();
    let size = object_size(alloc, store, name)?;
    if size < 40 {
        return Err(HeadFault::Outside(HeadReason::TooShort, size));
    }
    let tail = object_part(alloc, store, name, size - 40, 40)?;
    let footer = judge_footer(size, tail.as_slice())?;
    Ok(Opened { size, footer })
}

/// Reads the file's footer and all from column metadata up to it, in two ranges.
pub(crate) fn read_tables<S: Store>(
    alloc: Global,
    store: &mut S,
    name: &Name,
) -> Result<Tables, HeadFault>
    ensures looked { Looked (head_failure name.now result) (ranges 2) (S.tells store.old) (S.tells store.new) }
    ensures asks { ForSome (S.tells store.old).objects (λ all. (bytes : List ℕ) → object all name.now ≡ Some bytes → Asks (tables_budget bytes) (S.tells store.old) (S.tells store.new)) }
    ensures answer { ForSome (S.tells store.old).objects (λ all. (picks : List Pick) → ReadsHead picks IsTablesOf (object all name.now) result) }
    ensures tables { IfOk result AreTables }
{
    looks_add_up();
    let opened = read_footer(alloc, store, name)?;
    let footer = opened.footer;
    let first = footer.columns_at;
    let metadata = object_part(alloc, store, name, first, opened.size - 40 - first)?;
    Ok(Tables { footer, metadata })
}

impl Tables {
    ghost use Rattle.std.specs.Prelude.{◌≡◌, ◌+◌, ◌*◌, ◌<◌, ◌≤◌, ◌↔◌, length, IsTrue};
    ghost use Rattle.lan_file.specs.Tables.{AreTables, entry_in, column_in, descriptor_in, KeepsDescriptor};
    ghost use Rattle.lan_file.specs.Parts.{HasColumn};

    // The entry of a table at a place of the file.
    fn entry(&self, at: u64) -> Extent
        requires small { self.now.footer.columns_at + length self.now.metadata ≤ 2 ^ 63 }
        requires behind { self.now.footer.columns_at ≤ at }
        requires within { at + 16 ≤ self.now.footer.columns_at + length self.now.metadata }
        ensures { result ≡ entry_in self.now at }
    {
        let view = View::new(0, self.metadata.as_slice());
        match view.cut(at - self.footer.columns_at, 16) {
            Some(entry) => Extent::of(&entry),
            None => unreachable!(),
        }
    }

    /// Where the metadata of a column lies.
    pub(crate) fn column(&self, number: u32) -> Extent
        requires tables { AreTables self.now }
        requires there { number < self.now.footer.columns }
        ensures { result ≡ column_in self.now number }
    {
        self.entry(self.footer.column_table + 16 * u64::from(number))
    }

    // Where the descriptor lies.
    fn descriptor(&self) -> Extent
        requires tables { AreTables self.now }
        requires there { 0 < self.now.footer.globals }
        ensures { result ≡ descriptor_in self.now }
    {
        self.entry(self.footer.globals_table)
    }

    fn keeps_descriptor(&self) -> bool
        requires { AreTables self.now }
        ensures { IsTrue result ↔ KeepsDescriptor self.now }
    {
        if self.footer.globals == 0 {
            return true;
        }
        let descriptor = self.descriptor();
        let first = self.footer.columns_at;
        descriptor.at <= first && descriptor.size <= first - descriptor.at
    }

    fn keeps_column(&self, number: u32) -> bool
        requires { AreTables self.now }
        ensures { IsTrue result ↔ (number < self.now.footer.columns → HasColumn self.now.footer (column_in self.now number)) }
    {
        if number >= self.footer.columns {
            return true;
        }
        let column = self.column(number);
        let table = self.footer.column_table;
        self.footer.columns_at <= column.at
            && column.at <= table
            && column.size <= table - column.at
    }
}

fn keep_columns(tables: &Tables, picks: &[ColumnPick]) -> bool
    requires { AreTables tables.now }
    ensures { IsTrue result ↔ All (KeepsColumn tables.now) picks.now }
{
    picks.iter().all(|pick| tables.keeps_column(pick.column))
}

// The first column that is asked and isn't there, of so many.
fn lacking(columns: u32, picks: &[ColumnPick]) -> Option<u32>
    ensures { MatchOption result (All (λ (pick : ColumnPick). pick.column < columns) picks.now) (LacksColumn columns picks.now) }
{
    for pick in picks {
        if pick.column >= columns {
            return Some(pick.column);
        }
    }
    None
}

/// Where the descriptor lies, if it and the columns that are asked are there, and lie where they must.
pub(crate) fn survey(tables: &Tables, picks: &[ColumnPick]) -> Result<Extent, HeadFault>
    requires { AreTables tables.now }
    ensures { JudgesTables tables.now picks.now result }
{
    let footer = tables.footer;
    if !tables.keeps_descriptor() || !keep_columns(tables, picks) {
        let end = footer.columns_at + tables.metadata.len();
        return Err(HeadFault::Outside(HeadReason::Region, end));
    }
    if footer.globals == 0 {
        return Err(HeadFault::Outside(HeadReason::Descriptor, footer.globals_table));
    }
    if let Some(number) = lacking(footer.columns, picks) {
        return Err(HeadFault::Outside(HeadReason::Column(number), footer.column_table));
    }
    Ok(tables.descriptor())
}
