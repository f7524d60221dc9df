ghost use Rattle.std.specs.Prelude.{IfOk, IfErr};
ghost use Rattle.lan_meta.specs.ValueMessages.{SaysFlat, SaysVariable, SaysConstantValue, SaysValues, FailsFlat, FailsVariable, FailsConstantValue, FailsValues};

use crate::message::{Message, MetaFault, read_closed};
use lan_bytes::View;
use lan_levels::ValueKind;
use lan_model::Blob;
use lan_wire::{Kind, Rule};
use std::alloc::Global;

const VALUES: [Rule; 3] = [
    Rule(1, Kind::OneOf),
    Rule(2, Kind::OneOf),
    Rule(3, Kind::OneOf),
];

const FLAT: [Rule; 1] = [Rule(1, Kind::Number)];

const CONSTANT_VALUE: [Rule; 1] = [Rule(1, Kind::Bytes)];

fn read_flat(message: View<'_>) -> Result<ValueKind, MetaFault>
    ensures ok { IfOk result (SaysFlat message.entry) }
    ensures fault { IfErr result (FailsFlat message.entry) }
{
    let said = read_closed(Message::Flat, message, &FLAT)?;
    Ok(ValueKind::Flat(said.num(1)))
}

fn read_variable(message: View<'_>) -> Result<ValueKind, MetaFault>
    ensures ok { IfOk result (SaysVariable message.entry) }
    ensures fault { IfErr result (FailsVariable message.entry) }
{
    read_closed(Message::Variable, message, &[])?;
    Ok(ValueKind::Variable)
}

fn read_constant_value(alloc: Global, message: View<'_>) -> Result<ValueKind, MetaFault>
    ensures ok { IfOk result (SaysConstantValue message.entry) }
    ensures fault { IfErr result (FailsConstantValue message.entry) }
{
    let said = read_closed(Message::ConstantValue, message, &CONSTANT_VALUE)?;
    match said.part(1) {
        Some(value) => Ok(ValueKind::Constant(Blob::from_slice(alloc, value.bytes())?)),
        None => Err(MetaFault::Missing(Message::ConstantValue, 1)),
    }
}

/// How the values of a page are stored, as a Values message says it.
pub(crate) fn read_values(alloc: Global, message: View<'_>) -> Result<ValueKind, MetaFault>
    ensures ok { IfOk result (SaysValues message.entry) }
    ensures fault { IfErr result (FailsValues message.entry) }
{
    let said = read_closed(Message::Values, message, &VALUES)?;
    if let Some(part) = said.part(1) {
        return read_flat(part);
    }
    if let Some(part) = said.part(2) {
        return read_variable(part);
    }
    if let Some(part) = said.part(3) {
        return read_constant_value(alloc, part);
    }
    Err(MetaFault::Missing(Message::Values, 0))
}
