ghost use Rattle.std.specs.Prelude.{◌≡◌, IfOk, IfErr};
ghost use Rattle.lan_wire.specs.Rules.{open_to, closed_to};
ghost use Rattle.lan_wire.specs.Messages.{ReadsItems, FailsPlainly};
ghost use Rattle.lan_meta.specs.Faults.{fault_in};

use lan_bytes::View;
use lan_wire::{Rule, Said, WireFault, WireKind};
use std::alloc::AllocError;

/// The messages of column metadata. Those down to `DirectEncoding` are the Lance format's.
#[derive(Clone, Copy, Debug, PartialEq, Eq)]
pub enum Message {
    ColumnMetadata,
    Page,
    Encoding,
    DirectEncoding,
    PageLayout,
    MiniBlock,
    Constant,
    FullZip,
    Values,
    Flat,
    Variable,
    ConstantValue,
}

/// Why bytes stand for no column. The last number of each variant but `Missing` is a place in the object;
/// from `Layers` to `Region` it is that of the Page message, and each presumes that those above it don't
/// stand for the page.
#[derive(Clone, Copy, Debug, PartialEq, Eq)]
pub enum MetaFault {
    /// A message can't be read.
    Wire(WireFault),
    /// The message has this number, which isn't accepted, with its key at this place.
    Unsupported(Message, u32, u64),
    /// The message lacks this number, which it needs, or any member of a oneof, which is number 0.
    Missing(Message, u32),
    /// The codes don't fit the leaf's layers, or a page of one value has a list layer, or one of nulls an
    /// item that is never null.
    Layers(u64),
    /// There are no rows, another number of slots or of buffers than the layout takes, or not one size for
    /// each offset.
    Counts(u64),
    /// The values aren't stored as the leaf's type or the layout takes them.
    Values(u64),
    /// The control words have other numbers of bits than the layers take.
    Bits(u64),
    /// A buffer passes the end of the region of buffers.
    Region(u64),
    Memory,
}

impl From<AllocError> for MetaFault {
    ghost use Rattle.lan_meta.specs.declared.message.MetaFault.TheVariants.{Memory};

    ghost from_gives = { λ _ e. e ≡ Memory };

    fn from(_fault: AllocError) -> MetaFault {
        MetaFault::Memory
    }
}

// A fault of the wire as one of the message that it stands in.
fn fault_in(message: Message, fault: WireFault) -> MetaFault
    ensures { result ≡ fault_in message fault }
{
    match fault.kind {
        WireKind::Refused(number) => MetaFault::Unsupported(message, number, fault.at),
        _ => MetaFault::Wire(fault),
    }
}

/// What an open message says.
pub(crate) fn read_open<'a, 'r>(
    message: Message,
    view: View<'a>,
    rules: &'r [Rule],
) -> Result<Said<'a, 'r>, MetaFault>
    ensures rules { IfOk result (λ said. said.rules ≡ open_to rules.now) }
    ensures ok { IfOk result (λ said. ReadsItems (open_to rules.now) view.entry said.items) }
    ensures fault { IfErr result (FailsPlainly (fault_in message) (open_to rules.now) view.entry) }
{
    match Said::read(view, rules) {
        Ok(said) => Ok(said),
        Err(fault) => Err(fault_in(message, fault)),
    }
}

/// What a closed message says.
pub(crate) fn read_closed<'a, 'r>(
    message: Message,
    view: View<'a>,
    rules: &'r [Rule],
) -> Result<Said<'a, 'r>, MetaFault>
    ensures rules { IfOk result (λ said. said.rules ≡ closed_to rules.now) }
    ensures ok { IfOk result (λ said. ReadsItems (closed_to rules.now) view.entry said.items) }
    ensures fault { IfErr result (FailsPlainly (fault_in message) (closed_to rules.now) view.entry) }
{
    match Said::read_closed(view, rules) {
        Ok(said) => Ok(said),
        Err(fault) => Err(fault_in(message, fault)),
    }
}
