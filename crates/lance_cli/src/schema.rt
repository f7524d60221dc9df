// The fields of a version, in their JSON form.
ghost use Rattle.std.specs.Prelude.{◌≡◌, ℕ, List, map, IsErrOf, IfOk};
ghost use Rattle.lan_model.specs.PlainTable.{column_of};
ghost use Rattle.lan_store.specs.Budget.{ranges};
ghost use Rattle.lan_store.specs.Causes.{HasCause};
ghost use Rattle.lan_store.specs.Looked.{Looked};
ghost use Rattle.lance_cli.specs.Commands.{schema};
ghost use Rattle.lance_cli.specs.Failures.{failure_of};
ghost use Rattle.lance_cli.specs.Reports.{schema_text};
ghost use Rattle.lance_cli.specs.Served.{Served};

use crate::fault::Fault;
use crate::opening::open_version;
use crate::reply::print_reply;
use lan_form::to_json;
use lan_model::{FieldList, Text};
use lan_store::{Sink, Store};
use std::alloc::{AllocError, Global};

/// Prints the schema of the version of this number, or of the newest, on a line.
pub fn serve_schema<S: Store, O: Sink>(
    alloc: Global,
    version: Option<u64>,
    store: &mut S,
    out: &mut O,
) -> Result<(), Fault>
    ensures served { (line : ℕ) (lines : List (ℕ × List ℕ)) → Served (record { before = (S.tells store.old).objects; now = (S.tells store.new).objects; held = O.held out.old; holds = O.held out.new }) (record { asked = schema version; line = line; lines = lines }) result }
    ensures looked { Looked (failure_of result) (ranges 1) (S.tells store.old) (S.tells store.new) }
    ensures write_cause { HasCause (IsErrOf result Fault.WriteFault) (O.faults out.old) (O.faults out.new) }
{
    let snapshot = open_version(alloc, store, version)?;
    let line = schema_line(alloc, snapshot.fields())?;
    print_reply(out, line.as_str().as_bytes())
}

fn schema_line(alloc: Global, fields: &FieldList) -> Result<Text, AllocError>
    ensures { IfOk result (λ line. line ≡ schema_text (map column_of fields.now)) }
{
    let mut line = to_json(alloc, fields)?;
    line.push("\n")?;
    Ok(line)
}
