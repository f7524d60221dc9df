// A scan: the rows of a version as lines, in the columns that are asked for.
ghost use Rattle.std.specs.Prelude.{◌≡◌, ◌<◌, ◌≤◌, ℕ, [], List, All, false, length, map, IsErrOf, IfErr, IfOk, IfSome};
ghost use Rattle.std.specs.List.{range_with_len};
ghost use Rattle.std.specs.Option.{ForSome};
ghost use Rattle.lan_manifest.specs.Manifests.{plain_manifest};
ghost use Rattle.lan_model.specs.After.{place_of};
ghost use Rattle.lan_model.specs.PlainTable.{column_of};
ghost use Rattle.lan_model.specs.Take.{places_of};
ghost use Rattle.lan_read.specs.Scans.{HasGiven, Looks, ScanDue, ScanKnows, manifest_scanned, scan_start};
ghost use Rattle.lan_rows.specs.Line.{line_of};
ghost use Rattle.lan_store.specs.Budget.{Asks, Budget};
ghost use Rattle.lan_store.specs.Causes.{HasCause};
ghost use Rattle.lan_store.specs.Looked.{Fails};
ghost use Rattle.lance_cli.specs.Asks.{AsksRows};
ghost use Rattle.lance_cli.specs.Commands.{scan};
ghost use Rattle.lance_cli.specs.Failures.{failure_of};
ghost use Rattle.lance_cli.specs.Options.{plain_options};
ghost use Rattle.lance_cli.specs.Printing.{FindsPlaces, MayStop, PassesRows, PrintsPlaces, stop_of};
ghost use Rattle.lance_cli.specs.Scanning.{places_asked};
ghost use Rattle.lance_cli.specs.Served.{Served};

use crate::fault::Fault;
use crate::opening::open_version;
use crate::options::Options;
use crate::sending::{flush, print_row};
use lan_model::{Blob, Field, FieldList, Nums, Text, Words};
use lan_read::{ReadFault, Scan, Snapshot, pick_fields};
use lan_rows::RowPrinter;
use lan_store::{Sink, Store};
use std::alloc::{AllocError, Global};

// Room for the bytes that wait for a write, and a line behind them.
const ROOM: usize = 1 << 17;

/// Prints the rows of the version of this number, or of the newest, in the columns that are asked for, or
/// in all.
///
/// Lines are written in pieces of about 64 KiB. Where a row isn't read the lines of those before it that
/// aren't written yet stay unwritten.
pub fn serve_scan<S: Store, O: Sink>(
    alloc: Global,
    options: &Options,
    store: &mut S,
    out: &mut O,
) -> Result<(), Fault>
    ensures served { (line : ℕ) (lines : List (ℕ × List ℕ)) → Served (record { before = (S.tells store.old).objects; now = (S.tells store.new).objects; held = O.held out.old; holds = O.held out.new }) (record { asked = scan (plain_options options.now); line = line; lines = lines }) result }
    ensures fails { Fails (failure_of result) (S.tells store.old) (S.tells store.new) }
    ensures asks { ForSome (S.tells store.old).objects (AsksRows (plain_options options.now) (S.tells store.old) (S.tells store.new)) }
    ensures clashes { (S.tells store.old).clashes ≤ (S.tells store.new).clashes }
    ensures write_cause { HasCause (IsErrOf result Fault.WriteFault) (O.faults out.old) (O.faults out.new) }
{
    let snapshot = open_version(alloc, store, options.version)?;
    let places = places_asked(alloc, snapshot.fields(), &options.columns)?;
    print_places(alloc, &snapshot, places, store, out)
}

// The places of the columns of these names, or of all columns.
fn places_asked(alloc: Global, fields: &FieldList, names: &Option<Words>) -> Result<Nums, Fault>
    ensures finds { FindsPlaces (places_asked (map column_of fields.now) names.now) result }
    ensures there { IfOk result (All (λ place. place < length fields.now)) }
{
    match names {
        Some(names) => places_of(alloc, fields.as_slice(), names.as_slice()),
        None => Ok(all_places(alloc, fields.len())?),
    }
}

fn all_places(alloc: Global, count: u64) -> Result<Nums, AllocError>
    ensures all { IfOk result (λ places. places ≡ range_with_len 0 count) }
    ensures there { IfOk result (All (λ place. place < count)) }
{
    let mut places = Nums::new(alloc);
    for place in 0..count {
        places.push(place)?;
    }
    Ok(places)
}

fn places_of(alloc: Global, fields: &[Field], names: &[Text]) -> Result<Nums, Fault>
    ensures finds { FindsPlaces (places_of (map column_of fields.now) names.now) result }
    ensures there { IfOk result (All (λ place. place < length fields.now)) }
{
    let mut places = Nums::new(alloc);
    for name in names {
        let Some(place) = place_of(fields, name) else {
            return Err(Fault::NoColumn(Text::of(alloc, name.as_str())?));
        };
        places.push(place)?;
    }
    Ok(places)
}

fn place_of(fields: &[Field], name: &Text) -> Option<u64>
    ensures finds { result ≡ place_of name.now (map column_of fields.now) }
    ensures there { IfSome result (λ place. place < length fields.now) }
{
    let place = fields.iter().position(|field| field.name.same(name))?;
    Some(place as u64)
}

// Prints the rows of a version, of its fields at these places.
fn print_places<S: Store, O: Sink>(
    alloc: Global,
    snapshot: &Snapshot,
    places: Nums,
    store: &mut S,
    out: &mut O,
) -> Result<(), Fault>
    requires { All (λ place. place < length snapshot.now.fields) places }
    ensures prints { ForSome (S.tells store.old).objects (λ all. PrintsPlaces all (plain_manifest snapshot.now) places (O.held out.old) (O.held out.new) result) }
    ensures stops { IfErr result MayStop }
    ensures looked { Looks (failure_of result) (S.tells store.old) (S.tells store.new) }
    ensures asks { ForSome (S.tells store.old).objects (λ all. (due : Budget) → ScanDue all (scan_start snapshot.now places) due → Asks due (S.tells store.old) (S.tells store.new)) }
    ensures write_cause { HasCause (IsErrOf result Fault.WriteFault) (O.faults out.old) (O.faults out.new) }
{
    let fields = pick_fields(alloc, snapshot.fields(), &places)?;
    let mut printer = RowPrinter::new(alloc, &fields);
    let mut waiting = Blob::with_capacity(alloc, ROOM)?;
    let mut scan = snapshot.scan(alloc, places)?;
    pass_rows(alloc, &mut scan, &mut printer, &mut waiting, store, out)?;
    flush(&mut waiting, out)
}

// Passes on the lines of all rows; the last ones may still wait.
fn pass_rows<S: Store, O: Sink>(
    alloc: Global,
    scan: &mut Scan<'_>,
    printer: &mut RowPrinter<'_>,
    waiting: &mut Blob,
    store: &mut S,
    out: &mut O,
) -> Result<(), Fault>
    requires going { scan.old.failed ≡ false }
    requires knows { ForSome (S.tells store.old).objects (λ all. ScanKnows all scan.old) }
    requires none { waiting.old ≡ [] }
    ensures looked { Looks (failure_of result) (S.tells store.old) (S.tells store.new) }
    ensures passes { ForSome (S.tells store.old).objects (λ all. HasGiven all scan.old [] → PassesRows all (manifest_scanned scan.old) scan.old.places (line_of (map column_of printer.old)) waiting.new (O.held out.old) (O.held out.new) result) }
    ensures stops { IfErr result MayStop }
    ensures asks { ForSome (S.tells store.old).objects (λ all. (due : Budget) → ScanDue all scan.old due → Asks due (S.tells store.old) (S.tells store.new)) }
    ensures write_cause { HasCause (IsErrOf result Fault.WriteFault) (O.faults out.old) (O.faults out.new) }
{
    loop {
        match scan.next(alloc, store) {
            Ok(Some(row)) => print_row(alloc, printer, &row, waiting, out)?,
            Ok(None) => return Ok(()),
            Err(fault) => return Err(stop_of(fault)),
        }
    }
}

// What stops a scan, as the program's own fault. The scan of an open version never misses it.
fn stop_of(fault: ReadFault) -> Fault
    ensures { result ≡ stop_of fault }
{
    match fault {
        ReadFault::Outside {
            object,
            reason,
            place,
        } => Fault::Outside(object, reason, place),
        ReadFault::Store(name) => Fault::StoreFault(name),
        ReadFault::NoDataset | ReadFault::NoVersion { .. } | ReadFault::Memory => Fault::Memory,
    }
}
