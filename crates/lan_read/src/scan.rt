// The rows of a version, one after another.
ghost use Rattle.std.specs.Prelude.{◌≡◌, ◌↔◌, ◌+◌, ◌<◌, List as Sequence, All, None, Some, length, map, is_err, false, IfErr, IfOk, IfSome, IsFalse, IsSome, IsTrue, OnOk};
ghost use Rattle.std.specs.Option.{ForSome};
ghost use Rattle.lan_model.specs.Plain.{PlainValue, plain_field};
ghost use Rattle.lan_model.specs.PlainTable.{row_of};
ghost use Rattle.lan_model.specs.Table.{FitsRow};
ghost use Rattle.lan_store.specs.Budget.{Budget};
ghost use Rattle.lan_read.specs.Failures.{unread_failure};
ghost use Rattle.lan_read.specs.Scanned.{fields_at};

use crate::opened::{Readers, open_readers};
use crate::read_fault::ReadFault;
use crate::row_values::row_values;
use crate::snapshot::Snapshot;
use lan_manifest::Manifest;
use lan_model::{FieldList, List, Nums, Row, copy_field};
use lan_store::Store;
use std::alloc::{AllocError, Global};
use std::marker::Model;

/// Copies of the fields at these places, in the order in which they are asked.
pub fn pick_fields(
    alloc: Global,
    fields: &FieldList,
    places: &Nums,
) -> Result<FieldList, AllocError>
    requires { All (λ place. place < length fields.now) places.now }
    ensures { IfOk result (λ picked. map plain_field picked ≡ fields_at (map plain_field fields.now) places.now) }
{
    let mut picked = List::new(alloc);
    for place in places.as_slice() {
        picked.push(copy_field(alloc, fields.at(*place))?)?;
    }
    Ok(picked)
}

/// The rows of a version in some of its fields, one after another.
///
/// A row has one value for each field that is asked, in the order asked. The data files of a fragment are opened
/// when its first row is asked, each once; a fragment of no rows isn't opened. Of each leaf's column the piece at
/// hand is kept, so that a row costs a fetch only where it lies behind that. A contract sees the manifest, the
/// places of the fields, and where the scan stands.
#[derive(Drop)]
pub struct Scan<'a> {
    manifest: &'a Manifest,
    places: Nums,
    // Those at the places.
    fields: FieldList,
    // The number of the fragment at hand, and which of its rows is the next.
    fragment: u64,
    row: u64,
    // The fragment's, where they are open.
    readers: Option<Readers>,
    failed: bool,
}

impl<'a> Model for Scan<'a> {
    ghost use Rattle.std.specs.Coded.{codes};
    ghost use Rattle.lan_manifest.specs.contracts.manifest.Manifest as stored;
    ghost use Rattle.lan_page.specs.contracts.column_cursor.ColumnCursor as cursor_type;
    ghost use Rattle.lan_read.specs.Scans.{PlainScan, ScansFields};

    ghost Value = { PlainScan };

    ghost coded = { Prim.hlevel (codes, stored.the_row.coded, cursor_type.the_row.coded) };

    ghost view = { λ s. record { manifest = s.manifest.now; places = s.places; fragment = s.fragment; row = s.row; readers = s.readers; failed = s.failed } };

    ghost invariant = { λ s. ScansFields s.fields (record { manifest = s.manifest.now; places = s.places; fragment = s.fragment; row = s.row; readers = s.readers; failed = s.failed }) };
}

impl Snapshot {
    ghost use Rattle.std.specs.Prelude.{◌≡◌, ◌<◌, All, IfOk, length};
    ghost use Rattle.lan_read.specs.Scans.{scan_start};

    /// A scan of these fields, by their places among the version's. Nothing is asked yet.
    pub fn scan(&self, alloc: Global, places: Nums) -> Result<Scan<'_>, AllocError>
        requires { All (λ place. place < length self.now.fields) places }
        ensures { IfOk result (λ s. s ≡ scan_start self.now places) }
    {
        let manifest = self.manifest();
        let fields = pick_fields(alloc, &manifest.fields, &places)?;
        Ok(Scan {
            manifest,
            places,
            fields,
            fragment: 0,
            row: 0,
            readers: None,
            failed: false,
        })
    }
}

impl Scan<'_> {
    ghost use Rattle.lan_read.specs.Scans.{GivesNext, HasGiven, IsScan, Looks, RefusesScan, ScanDue, ScanKnows, ScansSame, SpendsNext, asked_fields, fragment_at_hand, manifest_scanned, rows_at_hand, rows_left};
    ghost use Rattle.lan_read.specs.Scanning.{GivesRow, GoesOn, HasNext, IsDone, StaysAt};

    /// Whether a row was refused; then nothing more is asked.
    pub fn failed(&self) -> bool
        ensures { result ≡ self.now.failed }
    {
        self.failed
    }

    // Whether no fragment is at hand any more.
    fn is_over(&self) -> bool
        ensures { IsTrue result ↔ (fragment_at_hand self.now ≡ None) }
    {
        self.fragment >= self.manifest.fragments.len()
    }

    // Whether the fragment at hand has a row that wasn't given.
    fn has_next(&self) -> bool
        requires { IsSome (fragment_at_hand self.now) }
        ensures next { IsTrue result → HasNext self.now }
        ensures done { IsFalse result → IsDone self.now }
    {
        self.row < self.manifest.fragments.at(self.fragment).rows
    }

    // Turns to the fragment behind the one at hand, whose rows were all given.
    fn leave(&mut self)
        requires { IsDone self.old }
        ensures fragment { self.new.fragment ≡ self.old.fragment + 1 }
        ensures goes { GoesOn self.old self.new }
    {
        self.fragment += 1;
        self.row = 0;
        self.readers = None;
    }

    // Goes on to the first fragment that has a row left, from the one at hand on, and says whether there is one.
    fn find(&mut self) -> bool
        ensures goes { GoesOn self.old self.new }
        ensures found { IsTrue result → HasNext self.new }
        ensures over { IsFalse result → fragment_at_hand self.new ≡ None }
    {
        while !self.is_over() {
            if self.has_next() {
                return true;
            }
            self.leave();
        }
        false
    }

    // Opens the files of the fragment at hand, unless they are open.
    fn open<S: Store>(&mut self, alloc: Global, store: &mut S) -> Result<(), ReadFault>
        requires next { HasNext self.old }
        requires knows { ForSome (S.tells store.old).objects (λ all. ScanKnows all self.old) }
        ensures looked { Looks (unread_failure result) (S.tells store.old) (S.tells store.new) }
        ensures stays { StaysAt self.old self.new }
        ensures open { OnOk result (IsSome self.new.readers) }
        ensures knows { ForSome (S.tells store.new).objects (λ all. OnOk result (ScanKnows all self.new)) }
        ensures reason { ForSome (S.tells store.old).objects (λ all. IfErr result (RefusesScan all (manifest_scanned self.old) self.old.places)) }
        ensures spends { ForSome (S.tells store.old).objects (λ all. (due : Budget) → ScanDue all self.old due → SpendsNext all self.new due result (S.tells store.old) (S.tells store.new)) }
    {
        if self.readers.is_some() {
            return Ok(());
        }
        let fragment = self.manifest.fragments.at(self.fragment);
        let readers = open_readers(alloc, store, &self.fields, fragment)?;
        self.readers = Some(readers);
        Ok(())
    }

    // Reads the next row, which the fragment at hand has.
    fn read<S: Store>(&mut self, alloc: Global, store: &mut S) -> Result<Row, ReadFault>
        requires next { HasNext self.old }
        requires open { IsSome self.old.readers }
        requires knows { ForSome (S.tells store.old).objects (λ all. ScanKnows all self.old) }
        ensures looked { Looks (unread_failure result) (S.tells store.old) (S.tells store.new) }
        ensures same { ScansSame self.old self.new }
        ensures failed { self.new.failed ≡ self.old.failed }
        ensures fewer { OnOk result (rows_left self.new < rows_left self.old) }
        ensures fits { IfOk result (λ row. FitsRow (asked_fields self.old) (row_of row)) }
        ensures knows { ForSome (S.tells store.new).objects (λ all. OnOk result (ScanKnows all self.new)) }
        ensures gives { ForSome (S.tells store.old).objects (λ all. (given : Sequence (Sequence PlainValue)) → HasGiven all self.old given → GivesRow all self.old self.new given result) }
        ensures spends { ForSome (S.tells store.old).objects (λ all. (due : Budget) → ScanDue all self.old due → SpendsNext all self.new due result (S.tells store.old) (S.tells store.new)) }
    {
        let Some(readers) = &mut self.readers else {
            unreachable!();
        };
        match row_values(alloc, store, readers, &self.fields, self.row) {
            Ok(values) => {
                self.row += 1;
                Ok(values)
            }
            Err(fault) => {
                self.row = 0;
                self.readers = None;
                Err(fault)
            }
        }
    }

    // The next row, which the fragment at hand has.
    fn give<S: Store>(&mut self, alloc: Global, store: &mut S) -> Result<Row, ReadFault>
        requires next { HasNext self.old }
        requires knows { ForSome (S.tells store.old).objects (λ all. ScanKnows all self.old) }
        ensures looked { Looks (unread_failure result) (S.tells store.old) (S.tells store.new) }
        ensures same { ScansSame self.old self.new }
        ensures failed { self.new.failed ≡ self.old.failed }
        ensures fewer { OnOk result (rows_left self.new < rows_left self.old) }
        ensures fits { IfOk result (λ row. FitsRow (asked_fields self.old) (row_of row)) }
        ensures knows { ForSome (S.tells store.new).objects (λ all. OnOk result (ScanKnows all self.new)) }
        ensures gives { ForSome (S.tells store.old).objects (λ all. (given : Sequence (Sequence PlainValue)) → HasGiven all self.old given → GivesRow all self.old self.new given result) }
        ensures spends { ForSome (S.tells store.old).objects (λ all. (due : Budget) → ScanDue all self.old due → SpendsNext all self.new due result (S.tells store.old) (S.tells store.new)) }
    {
        self.open(alloc, store)?;
        self.read(alloc, store)
    }

    /// The next row, or `None` where all were given.
    ///
    /// After an error nothing more is asked. `Outside` names the data file that isn't what the version says; its
    /// place is the row's among all rows of its fragment where slots are those of no value, and else a byte's.
    pub fn next<S: Store>(&mut self, alloc: Global, store: &mut S) -> Result<Option<Row>, ReadFault>
        requires going { self.old.failed ≡ false }
        requires knows { ForSome (S.tells store.old).objects (λ all. ScanKnows all self.old) }
        ensures looked { Looks (unread_failure result) (S.tells store.old) (S.tells store.new) }
        ensures same { ScansSame self.old self.new }
        ensures failed { self.new.failed ≡ is_err result }
        ensures fewer { IfOk result (λ row. IfSome row (λ _. rows_left self.new < rows_left self.old)) }
        ensures fits { IfOk result (λ row. IfSome row (λ r. FitsRow (asked_fields self.old) (row_of r))) }
        ensures knows { ForSome (S.tells store.new).objects (λ all. OnOk result (ScanKnows all self.new)) }
        ensures gives { ForSome (S.tells store.old).objects (λ all. (given : Sequence (Sequence PlainValue)) → HasGiven all self.old given → GivesNext all self.old self.new given result) }
        ensures spends { ForSome (S.tells store.old).objects (λ all. (due : Budget) → ScanDue all self.old due → SpendsNext all self.new due result (S.tells store.old) (S.tells store.new)) }
    {
        if !self.find() {
            return Ok(None);
        }
        match self.give(alloc, store) {
            Ok(row) => Ok(Some(row)),
            Err(fault) => {
                self.failed = true;
                Err(fault)
            }
        }
    }
}
