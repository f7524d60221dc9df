// The values of a top field, row by row.
ghost use Rattle.std.specs.Prelude.{◌≡◌, [], ◌∷◌, ℕ, ◌<◌, ◌≤◌, List as Sequence, All, None, Some, length, map, IfOk, IfErr, OnOk};
ghost use Rattle.std.specs.Option.{ForSome};
ghost use Rattle.lan_model.specs.Fits.{Fits};
ghost use Rattle.lan_model.specs.Leaves.{leaves_of};
ghost use Rattle.lan_model.specs.Plain.{plain_field, plain_value};
ghost use Rattle.lan_model.specs.Table.{IsField, depths_of};
ghost use Rattle.lan_page.specs.ColumnBudgets.{still_due};
ghost use Rattle.lan_page.specs.ColumnCursors.{ReadsSame, HasRow, IsAt, PlainCursor, cursor_leaf, cursor_name, seek_most};
ghost use Rattle.lan_store.specs.Budget.{Spends, unless_refused};
ghost use Rattle.lan_store.specs.Objects.{object};
ghost use Rattle.lan_store.specs.Looked.{Looked};
ghost use Rattle.lan_store.specs.declared.name.Object.{Object};
ghost use Rattle.lan_manifest.specs.declared.manifest.DataFile.{DataFile};
ghost use Rattle.lan_read.specs.Failures.{unread_failure};
ghost use Rattle.lan_read.specs.FieldReaders.{AnswersValue, CanRead, HoldsIn, MayAsk, ReaderHolds, ReaderKnows, ReadsField, blamed, columns_read, cursors_due, cursors_most, value_most, values_due};
ghost use Rattle.lan_read.specs.Joining.{AreJoined, AreLent, IsPlaceOf, IsUnjoined, KnowsIn, RefusesOne, RefusesSeek};

use crate::read_fault::{ReadFault, Reason};
use lan_levels::{Join, Runs, assemble};
use lan_model::{Field, List, Val};
use lan_page::{ColumnCursor, PageFault};
use lan_store::Store;
use lan_store::laws::looks_add_up;
use std::alloc::{AllocError, Global};
use std::marker::Model;

pub type ColumnCursors = List<ColumnCursor>;

/// Why the slots at hand are joined into no value.
#[derive(Clone, Copy, Debug)]
pub enum Unjoined {
    /// They are those of none; and the place of the cursor whose object is to blame.
    Slots(Join, u64),
    Memory,
}

impl From<AllocError> for Unjoined {
    ghost use Rattle.std.specs.Prelude.{◌≡◌};
    ghost use Rattle.lan_read.specs.declared.field_reader.Unjoined.TheVariants as unjoined;

    ghost from_gives = { λ _ e. e ≡ unjoined.Memory };

    fn from(_: AllocError) -> Self {
        Unjoined::Memory
    }
}

// Brings a row's slots to hand. After a refusal nothing is said of the cursor.
fn seek<S: Store>(
    alloc: Global,
    store: &mut S,
    cursor: &mut ColumnCursor,
    row: u64,
) -> Result<(), ReadFault>
    requires may { MayAsk row cursor.old }
    requires knows { ForSome (S.tells store.old).objects (λ all. KnowsIn all cursor.old) }
    ensures looked { Looked (unread_failure result) (seek_most cursor.old row) (S.tells store.old) (S.tells store.new) }
    ensures same { OnOk result (ReadsSame cursor.old cursor.new) }
    ensures at { OnOk result (IsAt cursor.new row) }
    ensures knows { ForSome (S.tells store.new).objects (λ all. OnOk result (KnowsIn all cursor.new)) }
    ensures reason { ForSome (S.tells store.old).objects (λ all. IfErr result (RefusesSeek all cursor.old)) }
    ensures spends { ForSome (S.tells store.old).objects (λ all. (later : Sequence ℕ) → HoldsIn all cursor.old → Spends (still_due cursor.old (object all (cursor_name cursor.old)) (row ∷ later)) (unless_refused result (still_due cursor.new (object all (cursor_name cursor.old)) later)) (S.tells store.old) (S.tells store.new)) }
{
    match cursor.seek(alloc, store, row) {
        Ok(()) => Ok(()),
        Err(PageFault::Outside(reason, place)) => Err(ReadFault::Outside {
            object: cursor.take_name(alloc),
            reason: Reason::Page(reason),
            place,
        }),
        Err(PageFault::Store) => Err(ReadFault::Store(cursor.take_name(alloc))),
        Err(PageFault::Memory) => Err(ReadFault::Memory),
    }
}

// The same of each cursor.
fn seek_each<S: Store>(
    alloc: Global,
    store: &mut S,
    cursors: &mut ColumnCursors,
    row: u64,
) -> Result<(), ReadFault>
    requires may { All (MayAsk row) cursors.old }
    requires knows { ForSome (S.tells store.old).objects (λ all. All (KnowsIn all) cursors.old) }
    ensures looked { Looked (unread_failure result) (cursors_most cursors.old row) (S.tells store.old) (S.tells store.new) }
    ensures same { OnOk result (columns_read cursors.new ≡ columns_read cursors.old) }
    ensures at { OnOk result (All (λ c. IsAt c row) cursors.new) }
    ensures knows { ForSome (S.tells store.new).objects (λ all. OnOk result (All (KnowsIn all) cursors.new)) }
    ensures reason { ForSome (S.tells store.old).objects (λ all. IfErr result (RefusesOne all cursors.old)) }
    ensures spends { ForSome (S.tells store.old).objects (λ all. (later : Sequence ℕ) → All (HoldsIn all) cursors.old → Spends (cursors_due all cursors.old (row ∷ later)) (unless_refused result (cursors_due all cursors.new later)) (S.tells store.old) (S.tells store.new)) }
{
    looks_add_up();
    for i in 0..cursors.len() {
        seek(alloc, store, cursors.at_mut(i), row)?;
    }
    Ok(())
}

// Lends the slots at hand, a run for each cursor.
fn lent<'a>(alloc: Global, cursors: &'a ColumnCursors) -> Result<Runs<'a>, AllocError>
    requires { All HasRow cursors.now }
    ensures { IfOk result (AreLent cursors.now) }
{
    let mut runs = Runs::new(alloc);
    for cursor in cursors.as_slice() {
        runs.push(cursor.row_run(alloc)?)?;
    }
    Ok(runs)
}

fn blamed(error: Join) -> Option<u32>
    ensures { result ≡ blamed error }
{
    match error {
        Join::Shape(id) | Join::NotNull(id) | Join::NotText(id) => Some(id),
        Join::Memory => None,
    }
}

// The place of the run of this number, or the first where there is none.
fn place_of(runs: &Runs<'_>, id: u32) -> u64
    requires { 0 < length runs.now }
    ensures { IsPlaceOf (map (λ run. run.leaf) runs.now) id result }
{
    for i in 0..runs.len() {
        if runs.at(i).leaf == id {
            return i;
        }
    }
    0
}

// Joins the slots at hand into a value.
fn join_at_hand(alloc: Global, field: &Field, cursors: &ColumnCursors) -> Result<Val, Unjoined>
    requires field { IsField (plain_field field.now) }
    requires layers { All (λ depth. depth ≤ 16) (depths_of (plain_field field.now) 0) }
    requires leaves { map (λ (c : PlainCursor). (cursor_leaf c).id) cursors.now ≡ map (λ l. l.id) (leaves_of (plain_field field.now) 0 []) }
    requires rows { All HasRow cursors.now }
    ensures joined { IfOk result (λ v. AreJoined (plain_field field.now) cursors.now (plain_value v)) }
    ensures unjoined { IfErr result (IsUnjoined (plain_field field.now) cursors.now) }
{
    let runs = lent(alloc, cursors)?;
    match assemble(alloc, field, &runs) {
        Ok(value) => Ok(value),
        Err(error) => match blamed(error) {
            Some(id) => Err(Unjoined::Slots(error, place_of(&runs, id))),
            None => Err(Unjoined::Memory),
        },
    }
}

// The value of a row by the columns of the field's leaves.
fn joined<S: Store>(
    alloc: Global,
    store: &mut S,
    cursors: &mut ColumnCursors,
    field: &Field,
    row: u64,
) -> Result<Val, ReadFault>
    requires field { IsField (plain_field field.now) }
    requires layers { All (λ depth. depth ≤ 16) (depths_of (plain_field field.now) 0) }
    requires can { CanRead (plain_field field.now) row (Some cursors.old) }
    requires knows { ForSome (S.tells store.old).objects (λ all. All (KnowsIn all) cursors.old) }
    ensures looked { Looked (unread_failure result) (cursors_most cursors.old row) (S.tells store.old) (S.tells store.new) }
    ensures fits { IfOk result (λ v. Fits (plain_field field.now) (plain_value v)) }
    ensures same { OnOk result (columns_read cursors.new ≡ columns_read cursors.old) }
    ensures at { OnOk result (All (λ c. IsAt c row) cursors.new) }
    ensures knows { ForSome (S.tells store.new).objects (λ all. OnOk result (All (KnowsIn all) cursors.new)) }
    ensures answer { ForSome (S.tells store.old).objects (λ all. (files : Sequence DataFile) (count : ℕ) → row < count → ReadsField all files count (plain_field field.now) (Some cursors.old) → AnswersValue all files count (plain_field field.now) row result) }
    ensures spends { ForSome (S.tells store.old).objects (λ all. (later : Sequence ℕ) → All (HoldsIn all) cursors.old → Spends (cursors_due all cursors.old (row ∷ later)) (unless_refused result (cursors_due all cursors.new later)) (S.tells store.old) (S.tells store.new)) }
{
    seek_each(alloc, store, cursors, row)?;
    match join_at_hand(alloc, field, cursors) {
        Ok(value) => Ok(value),
        Err(Unjoined::Slots(error, place)) => Err(ReadFault::Outside {
            object: cursors.at_mut(place).take_name(alloc),
            reason: Reason::Join(error),
            place: row,
        }),
        Err(Unjoined::Memory) => Err(ReadFault::Memory),
    }
}

/// A reader of the values of one top field, in rising order of rows.
#[derive(Drop)]
pub struct FieldReader {
    // One for each leaf of the field, in order. None where no file gives the field.
    cursors: Option<ColumnCursors>,
}

impl Model for FieldReader {
    ghost use Rattle.std.specs.Prelude.{List as Sequence, Option};
    ghost use Rattle.std.specs.Coded.{codes};
    ghost use Rattle.lan_page.specs.ColumnCursors.{PlainCursor};
    ghost use Rattle.lan_page.specs.contracts.column_cursor.ColumnCursor as cursor_type;

    ghost Value = { Option (Sequence PlainCursor) };

    ghost coded = { Prim.hlevel (codes, cursor_type.the_row.coded) };

    ghost view = { λ r. r.cursors };
}

impl FieldReader {
    /// A reader of a field that no file gives: its values are null.
    pub fn absent() -> FieldReader
        ensures { result ≡ None }
    {
        FieldReader { cursors: None }
    }

    /// A reader of a field by a column for each leaf, in the order of the leaves.
    pub fn of(cursors: ColumnCursors) -> FieldReader
        ensures { result ≡ Some cursors }
    {
        FieldReader {
            cursors: Some(cursors),
        }
    }

    /// The value in a row, which isn't before the one that was read last.
    ///
    /// After a refusal nothing is said of the reader. A place in `Outside` is the row's where slots are those of
    /// no value, and else a byte's.
    pub fn value<S: Store>(
        &mut self,
        alloc: Global,
        store: &mut S,
        field: &Field,
        row: u64,
    ) -> Result<Val, ReadFault>
        requires field { IsField (plain_field field.now) }
        requires layers { All (λ depth. depth ≤ 16) (depths_of (plain_field field.now) 0) }
        requires can { CanRead (plain_field field.now) row self.old }
        requires knows { ForSome (S.tells store.old).objects (λ all. ReaderKnows all self.old) }
        ensures looked { Looked (unread_failure result) (value_most self.old row) (S.tells store.old) (S.tells store.new) }
        ensures fits { IfOk result (λ v. Fits (plain_field field.now) (plain_value v)) }
        ensures can { OnOk result ((later : ℕ) → row ≤ later → CanRead (plain_field field.now) later self.old → CanRead (plain_field field.now) later self.new) }
        ensures knows { ForSome (S.tells store.new).objects (λ all. OnOk result (ReaderKnows all self.new)) }
        ensures reads { OnOk result ((objects : Sequence Object) (files : Sequence DataFile) (count : ℕ) → ReadsField objects files count (plain_field field.now) self.old → ReadsField objects files count (plain_field field.now) self.new) }
        ensures holds { OnOk result ((objects : Sequence Object) → ReaderHolds objects self.old → ReaderHolds objects self.new) }
        ensures answer { ForSome (S.tells store.old).objects (λ all. (files : Sequence DataFile) (count : ℕ) → row < count → ReadsField all files count (plain_field field.now) self.old → AnswersValue all files count (plain_field field.now) row result) }
        ensures spends { ForSome (S.tells store.old).objects (λ all. (later : Sequence ℕ) → ReaderHolds all self.old → Spends (values_due all self.old (row ∷ later)) (unless_refused result (values_due all self.new later)) (S.tells store.old) (S.tells store.new)) }
    {
        looks_add_up();
        match &mut self.cursors {
            None => Ok(Val::Null),
            Some(cursors) => joined(alloc, store, cursors, field, row),
        }
    }
}
