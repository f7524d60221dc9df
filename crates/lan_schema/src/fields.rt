ghost use Rattle.std.specs.Prelude.{IfOk, IfErr};
ghost use Rattle.lan_model.specs.Plain.{plain_fields};
ghost use Rattle.lan_schema.specs.FieldsOf.{FieldsOf};
ghost use Rattle.lan_schema.specs.SchemaFaults.{StandsIn};

use crate::building::build;
use crate::fault::SchemaFault;
use crate::listing::read_nodes;
use crate::rules::check_rules;
use lan_bytes::View;
use lan_model::FieldList;
use std::alloc::Global;

/// The fields whose messages stand under a number of a message, after the Field of the Lance format:
/// a tree lies flat, each field behind its parent. Other numbers and the kinds of fields are read past.
pub fn read_fields(alloc: Global, view: View<'_>, number: u32) -> Result<FieldList, SchemaFault>
    ensures ok { IfOk result (λ fields. FieldsOf view.entry number (plain_fields fields)) }
    ensures err { IfErr result (StandsIn view.entry number) }
{
    let nodes = read_nodes(alloc, view, number)?;
    check_rules(alloc, nodes.as_slice())?;
    Ok(build(alloc, nodes.as_slice())?)
}
