// Whether the items of a message keep to its rules.
ghost use Rattle.std.specs.Prelude.{◌≡◌, List, ℕ, true, false, Err, OnOk, IsOk, IfOk, IfErr, nat_eq};
ghost use Rattle.std.specs.List.{list_any, list_all};
ghost use Rattle.lan_bytes.specs.Placed.{Placed};
ghost use Rattle.lan_wire.specs.declared.item.Item.{Item};
ghost use Rattle.lan_wire.specs.Readers.{AreNumbers, BreaksOff, out_of_range};
ghost use Rattle.lan_wire.specs.Spells.{Given};
ghost use Rattle.lan_wire.specs.Rules.{kind_at};
ghost use Rattle.lan_wire.specs.Messages.{is_int32, is_one_of, is_taken, IsOfKind, HasFault, MayFollow, MayNotFollow, ReadsItems, FailsToRead};
ghost use Rattle.lan_wire.specs.Values.{AreItems, items_of};

use crate::fields::Fields;
use crate::item::{Body, Item, WireFault, WireKind};
use crate::reading::varint_at;
use crate::rules::{Kind, Rules};
use crate::said::next_item;
use lan_bytes::View;

fn is_int32(value: u64) -> bool
    ensures { result ≡ is_int32 value }
{
    value < 1 << 31 || value >= u64::MAX - (1 << 31) + 1
}

// Whether all numbers of a packed part are of 32 bits with a sign, where all can be read.
fn judge_part(bytes: &[u8]) -> Result<bool, WireKind>
    ensures ok { IfOk result (λ fit. (ns : List ℕ) × AreNumbers bytes.now ns × (fit ≡ list_all is_int32 ns)) }
    ensures fault { IfErr result (λ kind. BreaksOff kind bytes.now) }
{
    let mut rest = bytes;
    let mut fit = true;
    while !rest.is_empty() {
        match varint_at(rest) {
            Ok((value, after)) => {
                fit = fit && is_int32(value);
                rest = after;
            }
            Err(kind) => return Err(kind),
        }
    }
    Ok(fit)
}

// Whether the item has numbers.
fn judge_numbers(item: &Item<'_>) -> Result<(), WireFault>
    ensures ok { OnOk result (IsOfKind Kind.Numbers item.now) }
    ensures fault { IfErr result (HasFault Kind.Numbers item.now) }
{
    match &item.body {
        Body::Num(_) => Ok(()),
        Body::Part(part) => match judge_part(part.bytes()) {
            Ok(_) => Ok(()),
            Err(kind) => Err(item.fault(kind)),
        },
        _ => Err(item.wrong_type()),
    }
}

// Nothing where the numbers of the item fit, and the fault where they don't.
fn range_of(item: &Item<'_>, fit: bool) -> Result<(), WireFault>
    ensures ok { OnOk result (fit ≡ true) }
    ensures fault { IfErr result (λ fault. (fit ≡ false) × (fault ≡ out_of_range item.now)) }
{
    if fit {
        return Ok(());
    }
    Err(item.fault(WireKind::Range(item.number)))
}

// Whether the item has numbers of 32 bits with a sign.
fn judge_signed_numbers(item: &Item<'_>) -> Result<(), WireFault>
    ensures ok { OnOk result (IsOfKind Kind.SignedNumbers item.now) }
    ensures fault { IfErr result (HasFault Kind.SignedNumbers item.now) }
{
    match &item.body {
        Body::Num(value) => range_of(item, is_int32(*value)),
        Body::Part(part) => match judge_part(part.bytes()) {
            Ok(fit) => range_of(item, fit),
            Err(kind) => Err(item.fault(kind)),
        },
        _ => Err(item.wrong_type()),
    }
}

// Whether something was read.
fn tested<T: Drop>(read: Result<T, WireFault>) -> Result<(), WireFault>
    ensures ok { OnOk result (IsOk read) }
    ensures fault { IfErr result (λ fault. read ≡ Err fault) }
{
    match read {
        Ok(_) => Ok(()),
        Err(fault) => Err(fault),
    }
}

// Whether the item is one of the kind.
fn judge(kind: Kind, item: &Item<'_>) -> Result<(), WireFault>
    ensures ok { OnOk result (IsOfKind kind item.now) }
    ensures fault { IfErr result (HasFault kind item.now) }
{
    match kind {
        Kind::Number => tested(item.num()),
        Kind::Small => tested(item.small()),
        Kind::Signed => tested(item.signed()),
        Kind::Flag => tested(item.flag()),
        Kind::Text => tested(item.text()),
        Kind::Bytes | Kind::Message | Kind::OneOf | Kind::Messages => tested(item.part()),
        Kind::Numbers => judge_numbers(item),
        Kind::SignedNumbers => judge_signed_numbers(item),
        Kind::Past => Ok(()),
        Kind::Refused => Err(item.fault(WireKind::Refused(item.number))),
    }
}

// Whether an item of the number stands in a message.
fn has_number(message: View<'_>, number: u32) -> bool
    requires { AreItems message }
    ensures { result ≡ list_any (λ item. nat_eq item.number number) (items_of message.entry) }
{
    let mut fields = Fields::new(message);
    while let Some(item) = next_item(&mut fields) {
        if item.number == number {
            return true;
        }
    }
    false
}

// Whether a member of its oneof stands in a message.
fn has_one_of(message: View<'_>, rules: &Rules<'_>) -> bool
    requires { AreItems message }
    ensures { result ≡ list_any (λ item. is_one_of (kind_at rules.now item.number)) (items_of message.entry) }
{
    let mut fields = Fields::new(message);
    while let Some(item) = next_item(&mut fields) {
        if rules.kind(item.number) == Kind::OneOf {
            return true;
        }
    }
    false
}

// Whether the items of a message leave no room for one of the number. A message's items are walked again
// only for a number that may come once, so at most twice for each.
fn is_taken(message: View<'_>, rules: &Rules<'_>, number: u32) -> bool
    requires { AreItems message }
    ensures { result ≡ is_taken rules.now (items_of message.entry) number }
{
    match rules.kind(number) {
        Kind::Message => has_number(message, number),
        Kind::OneOf => has_one_of(message, rules),
        _ => false,
    }
}

// Whether the item may follow the items of a message.
fn judge_next(message: View<'_>, rules: &Rules<'_>, item: &Item<'_>) -> Result<(), WireFault>
    requires { AreItems message }
    ensures ok { OnOk result (MayFollow rules.now (items_of message.entry) item.now) }
    ensures fault { IfErr result (MayNotFollow rules.now (items_of message.entry) item.now) }
{
    judge(rules.kind(item.number), item)?;
    if is_taken(message, rules, item.number) {
        return Err(item.fault(WireKind::Twice(item.number)));
    }
    Ok(())
}

// The bytes of a message before a place.
fn front_of<'a>(message: &View<'a>, at: u64) -> View<'a>
    requires { (before : List Item) × (left : Placed) × Given message.now before left × (left.base ≡ at) }
    ensures { (before : List Item) (left : Placed) → Given message.now before left → left.base ≡ at → (items_of result ≡ before) × AreItems result }
{
    let len = (at - message.base()) as usize;
    let (front, _) = message.bytes().split_at(len);
    View::new(message.base(), front)
}

/// Whether the bytes are items that keep to the rules: nothing, or the first fault.
pub(crate) fn judge_message(message: &View<'_>, rules: &Rules<'_>) -> Result<(), WireFault>
    ensures ok { OnOk result (ReadsItems rules.now message.now (items_of message.now)) }
    ensures fault { IfErr result (FailsToRead rules.now message.now) }
{
    let mut fields = Fields::new(message.again());
    while let Some(found) = fields.next() {
        let item = found?;
        let before = front_of(message, item.at);
        match judge_next(before, rules, &item) {
            Ok(()) => {}
            Err(fault) => return Err(fault),
        }
    }
    Ok(())
}
