ghost use Rattle.std.specs.Prelude.{◌≡◌, ◌+◌, ◌-◌, ◌*◌, ◌^◌, ◌<◌, ◌≤◌, [], ◌∷◌, length, IfOk, IfErr};
ghost use Rattle.lan_wire.specs.Reading.{Gives, above, varint_in, varint_at, part_at, body_at, item_at, place_of};
ghost use Rattle.lan_bytes.specs.Placed.{Placed};
ghost use Rattle.lan_wire.specs.Faults.{BreaksItem};
ghost use Rattle.lan_wire.specs.Spells.{Begins};

use crate::item::{Body, Item, WireKind};
use lan_bytes::View;

// The first byte, and what follows it.
fn first_byte(bytes: &[u8]) -> Result<(u8, &[u8]), WireKind>
    ensures read { IfOk result (λ x. bytes.now ≡ x.0 ∷ x.1.now) }
    ensures cut { IfErr result (λ kind. (bytes.now ≡ []) × (kind ≡ WireKind.Cut)) }
{
    match bytes {
        [] => Err(WireKind::Cut),
        [first, rest @ ..] => Ok((*first, rest)),
    }
}

// The tenth byte of a varint, above the 63 bits of the first nine. Only its lowest bit may be set.
#[tactic(auto, unfolding(crate::specs::Reading::varint_in))]
fn tenth_byte(low: u64, bytes: &[u8]) -> Result<(u64, &[u8]), WireKind>
    requires { low < 2 ^ 63 }
    ensures read { Gives (λ x. (x.0, x.1.now)) result (above low (2 ^ 63) (varint_in 0 bytes.now)) }
    ensures shorter { IfOk result (λ x. length x.1.now < length bytes.now) }
{
    match bytes {
        [] => Err(WireKind::Cut),
        [last, rest @ ..] => {
            let last = u64::from(*last);
            if last > 1 {
                return Err(WireKind::TooLong);
            }
            Ok((low + (1 << 63) * last, rest))
        }
    }
}

// A varint, and what follows it. A byte has seven bits of the number, the lowest group first.
#[tactic(auto, unfolding(crate::specs::Reading::varint_at))]
pub(crate) fn varint_at(bytes: &[u8]) -> Result<(u64, &[u8]), WireKind>
    ensures read { Gives (λ x. (x.0, x.1.now)) result (varint_at bytes.now) }
    ensures shorter { IfOk result (λ x. length x.1.now < length bytes.now) }
{
    let mut rest = bytes;
    let mut low: u64 = 0;
    let mut unit: u64 = 1;
    for _ in 0..9u32 {
        let (byte, after) = first_byte(rest)?;
        let group = u64::from(byte);
        if group < 128 {
            return Ok((low + unit * group, after));
        }
        low += unit * (group % 128);
        unit *= 128;
        rest = after;
    }
    tenth_byte(low, rest)
}

#[tactic(auto, unfolding(crate::specs::Reading::part_at))]
fn part_at<'a>(at: u64, bytes: &'a [u8]) -> Result<(Body<'a>, &'a [u8]), WireKind>
    requires { at + length bytes.now ≤ 2 ^ 63 }
    ensures read { Gives (λ x. (x.0, x.1.now)) result (part_at at bytes.now) }
    ensures shorter { IfOk result (λ x. length x.1.now ≤ length bytes.now) }
{
    let (len, rest) = varint_at(bytes)?;
    if (rest.len() as u64) < len {
        return Err(WireKind::Cut);
    }
    let base = at + (bytes.len() - rest.len()) as u64;
    let (part, rest) = rest.split_at(len as usize);
    Ok((Body::Part(View::new(base, part)), rest))
}

#[tactic(auto, unfolding(crate::specs::Reading::body_at))]
fn body_at<'a>(wire: u64, at: u64, bytes: &'a [u8]) -> Result<(Body<'a>, &'a [u8]), WireKind>
    requires { at + length bytes.now ≤ 2 ^ 63 }
    ensures read { Gives (λ x. (x.0, x.1.now)) result (body_at wire at bytes.now) }
    ensures shorter { IfOk result (λ x. length x.1.now ≤ length bytes.now) }
{
    match wire {
        0 => {
            let (value, rest) = varint_at(bytes)?;
            Ok((Body::Num(value), rest))
        }
        1 => {
            if bytes.len() < 8 {
                return Err(WireKind::Cut);
            }
            let (b, rest) = bytes.split_at(8);
            let value = u64::from_le_bytes([b[0], b[1], b[2], b[3], b[4], b[5], b[6], b[7]]);
            Ok((Body::Eight(value), rest))
        }
        2 => part_at(at, bytes),
        5 => {
            if bytes.len() < 4 {
                return Err(WireKind::Cut);
            }
            let (b, rest) = bytes.split_at(4);
            let value = u32::from_le_bytes([b[0], b[1], b[2], b[3]]);
            Ok((Body::Four(value), rest))
        }
        _ => Err(WireKind::BadType),
    }
}

#[tactic(auto, unfolding(crate::specs::Reading::item_at))]
fn item_at<'a>(at: u64, bytes: &'a [u8]) -> Result<(Item<'a>, &'a [u8]), WireKind>
    requires { at + length bytes.now ≤ 2 ^ 63 }
    ensures read { Gives (λ x. (x.0, x.1.now)) result (item_at at bytes.now) }
    ensures shorter { IfOk result (λ x. length x.1.now < length bytes.now) }
{
    let (key, rest) = varint_at(bytes)?;
    let place = at + (bytes.len() - rest.len()) as u64;
    let (body, rest) = body_at(key % 8, place, rest)?;
    let number = key / 8;
    if number == 0 || number > 536_870_911 {
        return Err(WireKind::BadNumber);
    }
    let item = Item {
        number: number as u32,
        at,
        body,
    };
    Ok((item, rest))
}

// The item at the front of bytes that aren't empty, and what follows it.
pub(crate) fn first_item<'a>(at: u64, bytes: &'a [u8]) -> Result<(Item<'a>, &'a [u8]), WireKind>
    requires full { 0 < length bytes.now }
    requires within { at + length bytes.now ≤ 2 ^ 63 }
    ensures stands { IfErr result (λ kind. BreaksItem kind bytes.now) }
    ensures begins { IfOk result (λ x. Begins (record { base = at; bytes = bytes.now }) x.0 (record { base = place_of at bytes.now x.1.now; bytes = x.1.now })) }
    ensures shorter { IfOk result (λ x. length x.1.now < length bytes.now) }
{
    match item_at(at, bytes) {
        Ok((item, rest)) => Ok((item, rest)),
        Err(kind) => Err(kind),
    }
}
