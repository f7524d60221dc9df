ghost use Rattle.std.specs.Prelude.{◌≡◌, map, IfOk, IfErr};
ghost use Rattle.lan_meta.specs.LayoutMessages.{narrow, SaysConstant, SaysZip, SaysLayout, FailsConstant, FailsZip, FailsLayout};

use crate::message::{Message, MetaFault, read_closed};
use crate::page::Layout;
use crate::values::read_values;
use lan_bytes::View;
use lan_levels::Codes;
use lan_model::Blob;
use lan_wire::{Kind, Rule, SaidNumbers};
use std::alloc::{AllocError, Global};

pub(crate) const PAGE_LAYOUT: [Rule; 3] = [
    Rule(1, Kind::OneOf),
    Rule(2, Kind::OneOf),
    Rule(3, Kind::OneOf),
];

// What of these is read so far: pages of chunks are refused.
const READ_SO_FAR: [Rule; 4] = [
    Rule(1, Kind::Refused),
    Rule(1, Kind::OneOf),
    Rule(2, Kind::OneOf),
    Rule(3, Kind::OneOf),
];

pub(crate) const MINI_BLOCK: [Rule; 3] = [
    Rule(1, Kind::Numbers),
    Rule(2, Kind::Number),
    Rule(3, Kind::Message),
];

const CONSTANT: [Rule; 3] = [
    Rule(1, Kind::Numbers),
    Rule(2, Kind::Number),
    Rule(3, Kind::Bytes),
];

const FULL_ZIP: [Rule; 5] = [
    Rule(1, Kind::Numbers),
    Rule(2, Kind::Number),
    Rule(3, Kind::Message),
    Rule(4, Kind::Number),
    Rule(5, Kind::Number),
];

/// A layout as its message says it, with the bits of a full-zip page's control words.
#[derive(Drop)]
pub(crate) struct SaidLayout {
    pub layout: Layout,
    pub bits_rep: u64,
    pub bits_def: u64,
}

impl SaidLayout {
    // A layout without control words.
    fn plainly(layout: Layout) -> SaidLayout
        ensures { result ≡ record { layout = layout; bits_rep = 0; bits_def = 0 } }
    {
        SaidLayout {
            layout,
            bits_rep: 0,
            bits_def: 0,
        }
    }
}

// Codes as bytes. One that is none is 0, which fits no layer either.
fn narrowed(alloc: Global, numbers: SaidNumbers<'_>) -> Result<Codes, AllocError>
    ensures { IfOk result (λ codes. codes ≡ map narrow numbers.entry) }
{
    let mut numbers = numbers;
    let mut codes = Codes::new(alloc);
    while let Some(code) = numbers.next() {
        codes.push(narrow(code))?;
    }
    Ok(codes)
}

fn narrow(code: u64) -> u8
    ensures { result ≡ narrow code }
{
    if code < 256 { code as u8 } else { 0 }
}

fn read_constant(alloc: Global, message: View<'_>) -> Result<SaidLayout, MetaFault>
    ensures ok { IfOk result (SaysConstant message.entry) }
    ensures fault { IfErr result (FailsConstant message.entry) }
{
    let said = read_closed(Message::Constant, message, &CONSTANT)?;
    let codes = narrowed(alloc, said.numbers(1))?;
    let slots = said.num(2);
    let value = match said.part(3) {
        Some(value) => Some(Blob::from_slice(alloc, value.bytes())?),
        None => None,
    };
    Ok(SaidLayout::plainly(Layout::Constant {
        codes,
        slots,
        value,
    }))
}

fn read_zip(alloc: Global, message: View<'_>) -> Result<SaidLayout, MetaFault>
    ensures ok { IfOk result (SaysZip message.entry) }
    ensures fault { IfErr result (FailsZip message.entry) }
{
    let said = read_closed(Message::FullZip, message, &FULL_ZIP)?;
    let codes = narrowed(alloc, said.numbers(1))?;
    let slots = said.num(2);
    match said.part(3) {
        Some(part) => match read_values(alloc, part) {
            Ok(values) => Ok(SaidLayout {
                layout: Layout::Zip {
                    codes,
                    slots,
                    values,
                },
                bits_rep: said.num(4),
                bits_def: said.num(5),
            }),
            Err(fault) => Err(fault),
        },
        None => Err(MetaFault::Missing(Message::FullZip, 3)),
    }
}

/// How a page lays out its slots, as a PageLayout message says it.
pub(crate) fn read_layout(alloc: Global, message: View<'_>) -> Result<SaidLayout, MetaFault>
    ensures ok { IfOk result (SaysLayout message.entry) }
    ensures fault { IfErr result (FailsLayout message.entry) }
{
    let said = read_closed(Message::PageLayout, message, &READ_SO_FAR)?;
    if let Some(part) = said.part(2) {
        return read_constant(alloc, part);
    }
    if let Some(part) = said.part(3) {
        return read_zip(alloc, part);
    }
    Err(MetaFault::Missing(Message::PageLayout, 0))
}
