ghost use Rattle.std.specs.Prelude.{IfOk, IfErr};
ghost use Rattle.lan_meta.specs.PageMessages.{SaysDirect, SaysEncoding, SaysPage, FailsDirect, FailsEncoding, FailsPage};

use crate::layout::{SaidLayout, read_layout};
use crate::message::{Message, MetaFault, read_open};
use lan_bytes::View;
use lan_model::Nums;
use lan_wire::{Kind, Rule};
use std::alloc::Global;

// The Page of the Lance format. Its number 5 is a priority, which nothing turns on.
const PAGE: [Rule; 5] = [
    Rule(1, Kind::Numbers),
    Rule(2, Kind::Numbers),
    Rule(3, Kind::Number),
    Rule(4, Kind::Message),
    Rule(5, Kind::Past),
];

// Its Encoding, of which an indirect one and none at all aren't accepted.
const ENCODING: [Rule; 3] = [
    Rule(1, Kind::Refused),
    Rule(2, Kind::Message),
    Rule(3, Kind::Refused),
];

const DIRECT_ENCODING: [Rule; 1] = [Rule(1, Kind::Bytes)];

/// A page as its message says it, before its rules are looked at.
#[derive(Drop)]
pub(crate) struct SaidPage {
    pub rows: u64,
    pub offsets: Nums,
    pub sizes: Nums,
    pub layout: SaidLayout,
}

fn read_direct(alloc: Global, message: View<'_>) -> Result<SaidLayout, MetaFault>
    ensures ok { IfOk result (SaysDirect message.entry) }
    ensures fault { IfErr result (FailsDirect message.entry) }
{
    let said = read_open(Message::DirectEncoding, message, &DIRECT_ENCODING)?;
    match said.part(1) {
        Some(part) => read_layout(alloc, part),
        None => Err(MetaFault::Missing(Message::PageLayout, 0)),
    }
}

fn read_encoding(alloc: Global, message: View<'_>) -> Result<SaidLayout, MetaFault>
    ensures ok { IfOk result (SaysEncoding message.entry) }
    ensures fault { IfErr result (FailsEncoding message.entry) }
{
    let said = read_open(Message::Encoding, message, &ENCODING)?;
    match said.part(2) {
        Some(part) => read_direct(alloc, part),
        None => Err(MetaFault::Missing(Message::Encoding, 2)),
    }
}

/// The page that a Page message says.
pub(crate) fn read_page(alloc: Global, message: View<'_>) -> Result<SaidPage, MetaFault>
    ensures ok { IfOk result (SaysPage message.entry) }
    ensures fault { IfErr result (FailsPage message.entry) }
{
    let said = read_open(Message::Page, message, &PAGE)?;
    let offsets = said.nums(alloc, 1)?;
    let sizes = said.nums(alloc, 2)?;
    let rows = said.num(3);
    match said.part(4) {
        Some(part) => match read_encoding(alloc, part) {
            Ok(layout) => Ok(SaidPage {
                rows,
                offsets,
                sizes,
                layout,
            }),
            Err(fault) => Err(fault),
        },
        None => Err(MetaFault::Missing(Message::Page, 4)),
    }
}
