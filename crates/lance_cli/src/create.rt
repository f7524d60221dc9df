// A new dataset, of the fields that a text gives.
ghost use Rattle.std.specs.Prelude.{ℕ, List};
ghost use Rattle.lan_store.specs.Budget.{nothing};
ghost use Rattle.lan_store.specs.Looked.{Looked};
ghost use Rattle.lance_cli.specs.Commands.{create};
ghost use Rattle.lance_cli.specs.Creates.{ReadsFields};
ghost use Rattle.lance_cli.specs.Failures.{failure_of};
ghost use Rattle.lance_cli.specs.Plans.{Plans};
ghost use Rattle.lance_cli.specs.Words.{WordsFirst};

use crate::change::Planned;
use crate::fault::{Fault, of_form};
use lan_commit::prepare_create;
use lan_form::from_json;
use lan_model::FieldList;
use lan_store::Store;
use lan_store::laws::looks_add_up;
use std::alloc::Global;

/// Plans to make a dataset of the fields that the text gives, which stands in this line. Nothing is put.
pub fn plan_create<S: Store>(
    alloc: Global,
    json: &str,
    line: u64,
    store: &mut S,
) -> Result<Planned, Fault>
    ensures plans { (lines : List (ℕ × List ℕ)) → Plans (S.tells store.old).objects (record { asked = create json.now; line = line; lines = lines }) result }
    ensures words { WordsFirst (create json.now) line (S.tells store.old) (S.tells store.new) result }
    ensures looked { Looked (failure_of result) nothing (S.tells store.old) (S.tells store.new) }
{
    looks_add_up();
    let fields = read_fields(alloc, json, line)?;
    let objects = prepare_create(alloc, store, fields)?;
    Ok(Planned {
        version: 1,
        objects,
    })
}

// The fields of a text.
fn read_fields(alloc: Global, json: &str, line: u64) -> Result<FieldList, Fault>
    ensures { ReadsFields json.now line result }
{
    match from_json(alloc, json) {
        Ok(fields) => Ok(fields),
        Err(fault) => Err(of_form(alloc, line, &fault)?),
    }
}
