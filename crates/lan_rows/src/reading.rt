// The row that a line is.
ghost use Rattle.std.specs.Prelude.{◌≡◌, ◌⊎◌, Ok, Err, Some, None, IfOk, IfErr, map};
ghost use Rattle.serde_json.specs.Data.{object};
ghost use Rattle.serde_json.specs.View.{view, members_view};
ghost use Rattle.lan_model.specs.Plain.{plain_field, plain_fields, plain_value, plain_values};
ghost use Rattle.lan_model.specs.Fits.{EachFits};
ghost use Rattle.lan_model.specs.PlainTable.{column_of};
ghost use Rattle.lan_model.specs.Room.{AllHaveRoom};
ghost use Rattle.lan_model.specs.Table.{AreColumns, FitsRow};
ghost use Rattle.lan_rows.specs.Values.{value_of, row_values, line_row, badness};
ghost use Rattle.lan_rows.specs.declared.faults.RowFault.TheVariants.{Memory, Json};

use crate::faults::RowFault;
use crate::values::{read_member, stray_key};
use lan_model::{Field, FieldList, List, Row, Text};
use serde_json::{Map, Value};
use std::alloc::Global;

/// The row that a line is, without its newline, or its first fault.
pub fn read_row(alloc: Global, fields: &FieldList, line: &[u8]) -> Result<Row, RowFault>
    ensures ok { IfOk result (λ row. line_row (map column_of fields.now) line.now ≡ Ok (map plain_value row)) }
    ensures fit { IfOk result (λ row. FitsRow (map plain_field fields.now) (map plain_value row)) }
    ensures room { AreColumns (map column_of fields.now) → IfOk result (λ row. AllHaveRoom (plain_values row)) }
    ensures err { IfErr result (λ e. (e ≡ RowFault.Memory) ⊎ (badness (map column_of fields.now) line.now ≡ Some e)) }
{
    read_fields(alloc, fields.as_slice(), line)
}

#[tactic(auto, unfolding(crate::specs::Values::line_row))]
fn read_fields(alloc: Global, fields: &[Field], line: &[u8]) -> Result<Row, RowFault>
    ensures ok { IfOk result (λ row. line_row (map plain_field fields.now) line.now ≡ Ok (map plain_value row)) }
    ensures fit { IfOk result (λ row. FitsRow (map plain_field fields.now) (map plain_value row)) }
    ensures err { IfErr result (λ e. (e ≡ RowFault.Memory) ⊎ (line_row (map plain_field fields.now) line.now ≡ Err e)) }
{
    let value = value_of(alloc, line)?;
    let Some(members) = value.as_object() else {
        return Err(RowFault::NotObject);
    };
    let row = read_columns(alloc, fields, &value, members)?;
    match stray_key(alloc, fields, members)? {
        Some(key) => Err(RowFault::StrayKey(Text::of(alloc, key)?)),
        None => Ok(row),
    }
}

fn value_of(alloc: Global, line: &[u8]) -> Result<Value, RowFault>
    ensures ok { IfOk result (λ value. value_of line.now ≡ Some (view value)) }
    ensures err { IfErr result (λ e. (e ≡ RowFault.Memory) ⊎ ((e ≡ RowFault.Json) × (value_of line.now ≡ None))) }
{
    match Value::from_slice(alloc, line) {
        Ok(value) => Ok(value),
        Err(error) if error.is_memory() => Err(RowFault::Memory),
        Err(_) => Err(RowFault::Json),
    }
}

// A value of each field; a fault names the field that it is in.
fn read_columns(
    alloc: Global,
    fields: &[Field],
    value: &Value,
    members: &Map<String, Value>,
) -> Result<Row, RowFault>
    requires { view value.now ≡ object (members_view members.now.entries) }
    ensures ok { IfOk result (λ row. row_values (plain_fields fields.now) (members_view members.now.entries) ≡ Ok (map plain_value row)) }
    ensures fit { IfOk result (λ row. EachFits (plain_fields fields.now) (plain_values row)) }
    ensures err { IfErr result (λ e. (e ≡ RowFault.Memory) ⊎ (row_values (plain_fields fields.now) (members_view members.now.entries) ≡ Err e)) }
{
    let mut row = List::with_capacity(alloc, fields.len())?;
    for field in fields {
        row.push(read_member(alloc, field.name.as_str(), field, value, members)?)?;
    }
    Ok(row)
}
