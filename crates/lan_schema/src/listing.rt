ghost use Rattle.std.specs.Prelude.{IfOk, IfErr};
ghost use Rattle.lan_schema.specs.FieldMessages.{SaysFields};
ghost use Rattle.lan_schema.specs.SchemaFaults.{StandsIn};

use crate::fault::SchemaFault;
use crate::node::Node;
use crate::reading::read_entry;
use lan_bytes::View;
use lan_model::List;
use lan_wire::{Kind, Rule, Said};
use std::alloc::Global;

/// The fields that lie flat under a number of a message, in order.
pub fn read_nodes<'a>(
    alloc: Global,
    view: View<'a>,
    number: u32,
) -> Result<List<Node<'a>>, SchemaFault>
    ensures ok { IfOk result (λ nodes. SaysFields view.entry number nodes) }
    ensures err { IfErr result (StandsIn view.entry number) }
{
    let rules = [Rule(number, Kind::Messages)];
    let said = Said::read(view, &rules)?;
    let mut parts = said.parts(number);
    let mut nodes = List::new(alloc);
    while let Some(part) = parts.next() {
        match read_entry(part) {
            Ok(entry) => nodes.push(Node::new(entry))?,
            Err(fault) => return Err(SchemaFault::Wire(fault)),
        }
    }
    Ok(nodes)
}
