// An append: the rows of lines behind those of the newest version.
ghost use Rattle.std.specs.Prelude.{◌≡◌, ◌≤◌, ◌<◌, ◌^◌, ◌⊎◌, ℕ, [], length, map, drop, option_map, IfOk, IfErr, IfSome, OnOk};
ghost use Rattle.lan_model.specs.Plain.{plain_field, values_from};
ghost use Rattle.lan_model.specs.PlainTable.{column_of, row_of};
ghost use Rattle.lan_model.specs.Room.{AllHaveRoom};
ghost use Rattle.lan_model.specs.Table.{AreColumns, FitsRow};
ghost use Rattle.lan_rows.specs.Lines.{rows_of, lines_of, cut, first_row};
ghost use Rattle.lan_rows.specs.declared.lines.LinesFault.{LinesFault};
ghost use Rattle.lan_store.specs.Budget.{ranges};
ghost use Rattle.lan_store.specs.Looked.{Looked};
ghost use Rattle.lance_cli.specs.Commands.{append};
ghost use Rattle.lance_cli.specs.Failures.{failure_of};
ghost use Rattle.lance_cli.specs.Faults.{of_lines};
ghost use Rattle.lance_cli.specs.Lines.{RowsAre};
ghost use Rattle.lance_cli.specs.Plans.{Plans};

use crate::change::Planned;
use crate::fault::{Fault, of_lines};
use crate::opening::open_version;
use lan_commit::{NewRows, prepare_rows};
use lan_model::{FieldList, Row};
use lan_rows::RowLines;
use lan_store::Store;
use lan_store::laws::looks_add_up;
use std::alloc::Global;

/// Plans to append the rows of the text's lines to the newest version. Nothing is put.
pub fn plan_append<S: Store>(alloc: Global, text: Vec<u8>, store: &mut S) -> Result<Planned, Fault>
    requires short { length text.items ≤ 2 ^ 28 }
    ensures plans { (line : ℕ) → Plans (S.tells store.old).objects (record { asked = append; line = line; lines = cut 1 [] text.items }) result }
    ensures looked { Looked (failure_of result) (ranges 1) (S.tells store.old) (S.tells store.new) }
{
    looks_add_up();
    let manifest = open_version(alloc, store, None)?.into_manifest();
    let rows = rows_in(alloc, &manifest.fields, &text)?;
    drop(text);
    let version = manifest.version + 1;
    let objects = prepare_rows(alloc, store, manifest, rows)?;
    Ok(Planned { version, objects })
}

// The rows of the text's lines, each shredded as it is read.
fn rows_in(alloc: Global, fields: &FieldList, text: &[u8]) -> Result<NewRows, Fault>
    requires columns { AreColumns (map column_of fields.now) }
    requires short { length text.now ≤ 2 ^ 28 }
    ensures rows { RowsAre (map plain_field fields.now) (rows_of (map column_of fields.now) (lines_of text.now)) result }
{
    let mut rows = NewRows::new(alloc, fields)?;
    let mut lines = RowLines::new(text);
    while let Some(row) = next_row(alloc, &mut lines, fields)? {
        rows.push(&row)?;
    }
    Ok(rows)
}

// The row of the next line, or why it is none.
fn next_row(
    alloc: Global,
    lines: &mut RowLines<'_>,
    fields: &FieldList,
) -> Result<Option<Row>, Fault>
    ensures ok { IfOk result (λ row. first_row (map column_of fields.now) lines.old ≡ Ok (option_map row_of row)) }
    ensures rest { OnOk result (lines.new ≡ drop 1 lines.old) }
    ensures shorter { IfOk result (λ row. IfSome row (λ _. length lines.new < length lines.old)) }
    ensures fit { IfOk result (λ row. IfSome row (λ r. FitsRow (map plain_field fields.now) (row_of r))) }
    ensures room { AreColumns (map column_of fields.now) → IfOk result (λ row. IfSome row (λ r. AllHaveRoom (values_from (row_of r)))) }
    ensures err { IfErr result (λ f. (f ≡ Fault.Memory) ⊎ ((why : LinesFault) × (first_row (map column_of fields.now) lines.old ≡ Err why) × (f ≡ of_lines why))) }
{
    match lines.next(alloc, fields) {
        Ok(row) => Ok(row),
        Err(fault) => Err(of_lines(alloc, &fault)?),
    }
}
