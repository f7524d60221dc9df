// Opening the readers of a fragment's fields.
ghost use Rattle.std.specs.Prelude.{◌≡◌, ◌*◌, ◌<◌, ◌++◌, List as Sequence, All, length, map, take, drop, IfErr, IfOk, OnOk, option_to_list};
ghost use Rattle.std.specs.List.{AllZip};
ghost use Rattle.std.specs.Option.{ForSome};
ghost use Rattle.lan_model.specs.Plain.{plain_field};
ghost use Rattle.lan_page.specs.ColumnCursors.{cursor_pages};
ghost use Rattle.lan_store.specs.Budget.{Asks, ranges};
ghost use Rattle.lan_store.specs.Looked.{Looked};
ghost use Rattle.lan_file.specs.HeadSteps.{pages_of};
ghost use Rattle.lan_file.specs.Heads.{KeepPicks, picks_of};
ghost use Rattle.lan_read.specs.Dealt.{AreColumns, AreFirst, AreThere, IsColumnOf, IsFirst, RefusesFile, RefusesFiles, dealt, fault_of, file_due, files_due, left, reader_of, readers_of};
ghost use Rattle.lan_read.specs.Failures.{unread_failure};
ghost use Rattle.lan_read.specs.FieldReaders.{ReaderKnows};
ghost use Rattle.lan_read.specs.Grouped.{IsLow};
ghost use Rattle.lan_read.specs.Opened.{AreNewReaders, CanReadFrom, IsReadable, RefusesOpening, opening_due, opening_most};
ghost use Rattle.lan_read.specs.Rows.{data_name};

use crate::field_reader::{ColumnCursors, FieldReader};
use crate::read_fault::{ReadFault, Reason};
use crate::used::{Used, used_columns};
use lan_file::{ColumnPicks, FileHead, HeadFault};
use lan_manifest::{DataFiles, Fragment};
use lan_model::{FieldList, List, Nums, Text};
use lan_page::ColumnCursor;
use lan_store::laws::{allowances_are_taken_off, looks_add_up};
use lan_store::{Dir, Name, Store};
use std::alloc::{AllocError, Global};
use std::collections::VecDeque;
use std::marker::Model;

pub type Readers = List<FieldReader>;

// The cursors of a file's columns that aren't dealt yet.
#[derive(Drop)]
struct Undealt {
    cursors: VecDeque<ColumnCursor>,
}

impl Model for Undealt {
    ghost use Rattle.std.specs.Prelude.{List as Sequence};
    ghost use Rattle.std.specs.Coded.{codes};
    ghost use Rattle.lan_page.specs.ColumnCursors.{PlainCursor};
    ghost use Rattle.lan_page.specs.contracts.column_cursor.ColumnCursor as cursor_type;

    ghost Value = { Sequence PlainCursor };

    ghost coded = { Prim.hlevel (codes, cursor_type.the_row.coded) };

    ghost view = { λ it. it.cursors.items };
}

impl Undealt {
    fn of(cursors: ColumnCursors) -> Undealt
        ensures { result ≡ cursors }
    {
        Undealt {
            cursors: VecDeque::from_vec(cursors.into_vec()),
        }
    }

    // Takes the first cursor that is left.
    fn next(&mut self) -> Option<ColumnCursor>
        ensures first { option_to_list result ≡ take 1 self.old }
        ensures left { self.new ≡ drop 1 self.old }
    {
        self.cursors.pop_front()
    }
}

fn fault_of(name: Name, fault: HeadFault) -> ReadFault
    ensures { result ≡ fault_of name fault }
{
    match fault {
        HeadFault::Outside(reason, place) => ReadFault::Outside {
            object: name,
            reason: Reason::File(reason),
            place,
        },
        HeadFault::Store => ReadFault::Store(name),
        HeadFault::Memory => ReadFault::Memory,
    }
}

// New cursors of the columns of a file whose head was read.
fn cursors_of(
    alloc: Global,
    name: &Name,
    picks: ColumnPicks,
    head: FileHead,
) -> Result<ColumnCursors, AllocError>
    requires layers { All IsLow (picks_of picks) }
    requires keeps { KeepPicks head.rows (picks_of picks) (pages_of head.columns) }
    ensures first { IfOk result (AllZip (IsFirst name.now head.rows) (picks_of picks)) }
    ensures pages { IfOk result (λ cursors. map cursor_pages cursors ≡ pages_of head.columns) }
{
    let mut cursors = List::new(alloc);
    let mut columns = head.columns.into_vec().into_iter();
    for pick in picks.into_vec() {
        let Some(column) = columns.next() else {
            unreachable!();
        };
        let name = name.copy(alloc)?;
        cursors.push(ColumnCursor::new(alloc, name, pick.leaf, column.pages))?;
    }
    Ok(cursors)
}

// Opens a data file of so many rows, of which these columns are read, if any.
fn open_file<S: Store>(
    alloc: Global,
    store: &mut S,
    path: &Text,
    picks: ColumnPicks,
    rows: u64,
) -> Result<ColumnCursors, ReadFault>
    requires { All IsLow (picks_of picks) }
    ensures looked { Looked (unread_failure result) (ranges 3) (S.tells store.old) (S.tells store.new) }
    ensures first { IfOk result (AllZip (IsFirst (data_name path.now) rows) (picks_of picks)) }
    ensures columns { ForSome (S.tells store.old).objects (λ all. IfOk result (AllZip (IsColumnOf all (data_name path.now) rows) (picks_of picks))) }
    ensures asks { ForSome (S.tells store.old).objects (λ all. Asks (file_due all path.now (picks_of picks)) (S.tells store.old) (S.tells store.new)) }
    ensures reason { ForSome (S.tells store.old).objects (λ all. IfErr result (RefusesFile all path.now (picks_of picks) rows)) }
{
    looks_add_up();
    if picks.is_empty() {
        return Ok(ColumnCursors::new(alloc));
    }
    let name = Name::of(alloc, Dir::Data, path.as_str())?;
    match FileHead::open(alloc, store, &name, &picks) {
        Ok(head) => {
            if head.rows != rows {
                return Err(ReadFault::Outside {
                    object: name,
                    reason: Reason::Rows(head.rows, rows),
                    place: 0,
                });
            }
            Ok(cursors_of(alloc, &name, picks, head)?)
        }
        Err(fault) => Err(fault_of(name, fault)),
    }
}

// Opens data files of so many rows, of which these columns are read.
fn open_files<S: Store>(
    alloc: Global,
    store: &mut S,
    files: &DataFiles,
    picks: List<ColumnPicks>,
    rows: u64,
) -> Result<List<Undealt>, ReadFault>
    requires long { length picks ≡ length files.now }
    requires layers { All (All IsLow) (map picks_of picks) }
    ensures looked { Looked (unread_failure result) (ranges (3 * length files.now)) (S.tells store.old) (S.tells store.new) }
    ensures first { IfOk result (AreFirst rows files.now (map picks_of picks)) }
    ensures columns { ForSome (S.tells store.old).objects (λ all. IfOk result (AreColumns all rows files.now (map picks_of picks))) }
    ensures asks { ForSome (S.tells store.old).objects (λ all. Asks (files_due all files.now (map picks_of picks)) (S.tells store.old) (S.tells store.new)) }
    ensures reason { ForSome (S.tells store.old).objects (λ all. IfErr result (RefusesFiles all files.now (map picks_of picks) rows)) }
{
    looks_add_up();
    allowances_are_taken_off();
    let mut opened = List::new(alloc);
    for picks in picks.into_vec() {
        let path = &files.at(opened.len()).path;
        opened.push(Undealt::of(open_file(alloc, store, path, picks, rows)?))?;
    }
    Ok(opened)
}

// Takes the first cursor of a file that is left, if any.
fn take_one(cursors: &mut ColumnCursors, undealt: &mut Undealt) -> Result<(), AllocError>
    ensures taken { OnOk result (cursors.new ≡ cursors.old ++ take 1 undealt.old) }
    ensures left { undealt.new ≡ drop 1 undealt.old }
{
    match undealt.next() {
        Some(cursor) => cursors.push(cursor),
        None => Ok(()),
    }
}

// Takes a cursor of each of these files, in order.
fn deal(
    alloc: Global,
    numbers: &Nums,
    opened: &mut List<Undealt>,
) -> Result<ColumnCursors, AllocError>
    requires { AreThere numbers.now opened.old }
    ensures dealt { IfOk result (λ cursors. cursors ≡ dealt numbers.now opened.old) }
    ensures left { OnOk result (opened.new ≡ left numbers.now opened.old) }
{
    let mut cursors = List::new(alloc);
    for number in numbers.as_slice() {
        take_one(&mut cursors, opened.at_mut(*number))?;
    }
    Ok(cursors)
}

// The reader of a field whose leaves' columns lie in these files.
fn reader_of(
    alloc: Global,
    numbers: &Nums,
    opened: &mut List<Undealt>,
) -> Result<FieldReader, AllocError>
    requires { AreThere numbers.now opened.old }
    ensures reader { IfOk result (λ reader. reader ≡ reader_of numbers.now opened.old) }
    ensures left { OnOk result (opened.new ≡ left numbers.now opened.old) }
{
    if numbers.is_empty() {
        return Ok(FieldReader::absent());
    }
    Ok(FieldReader::of(deal(alloc, numbers, opened)?))
}

// The readers of fields whose leaves' columns lie in these files.
fn readers_of(
    alloc: Global,
    files: &List<Nums>,
    mut opened: List<Undealt>,
) -> Result<Readers, AllocError>
    requires { All (λ numbers. AreThere numbers opened) files.now }
    ensures { IfOk result (λ readers. readers ≡ readers_of files.now opened) }
{
    let mut readers = Readers::new(alloc);
    for numbers in files.as_slice() {
        readers.push(reader_of(alloc, numbers, &mut opened)?)?;
    }
    Ok(readers)
}

/// Opens a reader for each of these fields of a fragment.
///
/// Each file of which a column is read is opened once, with the picks of all its columns that are asked; the
/// others aren't looked at.
pub fn open_readers<S: Store>(
    alloc: Global,
    store: &mut S,
    fields: &FieldList,
    fragment: &Fragment,
) -> Result<Readers, ReadFault>
    requires readable { All (IsReadable fragment.now.files fragment.now.rows) (map plain_field fields.now) }
    ensures looked { Looked (unread_failure result) (opening_most fragment.now) (S.tells store.old) (S.tells store.new) }
    ensures can { IfOk result (CanReadFrom (map plain_field fields.now) 0 fragment.now.rows) }
    ensures new { ForSome (S.tells store.old).objects (λ all. IfOk result (AreNewReaders all fragment.now.files fragment.now.rows (map plain_field fields.now))) }
    ensures know { ForSome (S.tells store.old).objects (λ all. IfOk result (All (ReaderKnows all))) }
    ensures asks { ForSome (S.tells store.old).objects (λ all. Asks (opening_due all (map plain_field fields.now) fragment.now) (S.tells store.old) (S.tells store.new)) }
    ensures reason { ForSome (S.tells store.old).objects (λ all. IfErr result (RefusesOpening all (map plain_field fields.now) fragment.now)) }
{
    looks_add_up();
    let Used { picks, files } = used_columns(alloc, fields, &fragment.files)?;
    let opened = open_files(alloc, store, &fragment.files, picks, fragment.rows)?;
    Ok(readers_of(alloc, &files, opened)?)
}
