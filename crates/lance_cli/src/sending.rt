// The lines of rows, to a sink by way of bytes that wait for the next write.
ghost use Rattle.std.specs.Prelude.{◌≡◌, ◌∷◌, ℕ, List, [], flat_map, map, OnOk, IsErrOf};
ghost use Rattle.lan_model.specs.Plain.{PlainValue, plain_value};
ghost use Rattle.lan_model.specs.PlainTable.{column_of};
ghost use Rattle.lan_rows.specs.Line.{line_of};
ghost use Rattle.lan_store.specs.Causes.{HasCause};
ghost use Rattle.lance_cli.specs.Sending.{Passes};

use crate::fault::Fault;
use lan_model::{Blob, Row};
use lan_rows::RowPrinter;
use lan_store::{Sink, write_all};
use std::alloc::Global;

// Bytes are written once so many wait.
const PIECE: u64 = 1 << 16;

/// Passes on the line of a row, which may still wait.
pub fn print_row<O: Sink>(
    alloc: Global,
    printer: &mut RowPrinter<'_>,
    row: &Row,
    waiting: &mut Blob,
    out: &mut O,
) -> Result<(), Fault>
    ensures passes { (pending : List (List PlainValue)) → waiting.old ≡ flat_map (line_of (map column_of printer.old)) pending → Passes (line_of (map column_of printer.old)) (map plain_value row.now ∷ []) pending waiting.new (O.held out.old) (O.held out.new) result }
    ensures same { printer.new ≡ printer.old }
    ensures write_cause { HasCause (IsErrOf result Fault.WriteFault) (O.faults out.old) (O.faults out.new) }
{
    printer.print(alloc, row, waiting)?;
    if waiting.len() < PIECE {
        return Ok(());
    }
    flush(waiting, out)
}

/// Writes what is waiting.
pub fn flush<O: Sink>(waiting: &mut Blob, out: &mut O) -> Result<(), Fault>
    ensures passes { (line : List PlainValue → List ℕ) (pending : List (List PlainValue)) → waiting.old ≡ flat_map line pending → Passes line [] pending waiting.new (O.held out.old) (O.held out.new) result }
    ensures ok { OnOk result (waiting.new ≡ []) }
    ensures write_cause { HasCause (IsErrOf result Fault.WriteFault) (O.faults out.old) (O.faults out.new) }
{
    if write_all(out, waiting.as_slice()).is_err() {
        return Err(Fault::WriteFault);
    }
    waiting.truncate(0);
    Ok(())
}
