ghost use Rattle.std.specs.Prelude.{◌≡◌, ◌+◌, ◌*◌, ◌^◌, ◌<◌, ◌≤◌, length, slice_get, Some, IfOk, IfErr};
ghost use Rattle.lan_levels.specs.PlainSlots.{plain_piece};
ghost use Rattle.lan_levels.specs.Values.{variable, offset, IsBuffer, ValuesOf};
ghost use Rattle.lan_values.specs.Refusals.{Stands};

use crate::fault::ValueFault;
use lan_bytes::View;
use lan_levels::Piece;
use std::marker::Model;

/// Values of any length behind their offsets. A contract sees the list of their pieces.
///
/// Before `n` values stand `n + 1` offsets of four bytes, low byte first, counted from the buffer's
/// first byte. A value goes from its own offset to the next.
#[derive(Debug, Drop)]
pub struct VarView<'a> {
    bytes: &'a [u8],
    count: u64,
}

impl<'a> Model for VarView<'a> {
    ghost use Rattle.std.specs.Prelude.{◌^◌, ◌≤◌, List, length};
    ghost use Rattle.lan_levels.specs.PlainSlots.{PlainPiece};
    ghost use Rattle.lan_levels.specs.Values.{variable, values_of, IsBuffer};

    ghost Value = { List PlainPiece };

    ghost view = { λ v. values_of variable v.count v.bytes.now };

    ghost invariant = { λ v. IsBuffer variable v.count v.bytes.now × (length v.bytes.now ≤ 2 ^ 63) };
}

impl<'a> VarView<'a> {
    /// The bytes as `n` values, lent and never copied.
    pub fn open(view: View<'a>, n: u64) -> Result<VarView<'a>, ValueFault>
        ensures ok { IfOk result (ValuesOf variable n view.entry.bytes) }
        ensures cause { IfErr result (Stands variable n view.entry.bytes) }
        ensures none { IfErr result (λ _. IsBuffer variable n view.entry.bytes → ⊥) }
    {
        let bytes = view.bytes();
        check_offsets(bytes, n)?;
        Ok(VarView { bytes, count: n })
    }

    /// The same values, once more.
    pub fn again(&self) -> VarView<'a>
        ensures { result ≡ self.now }
    {
        VarView {
            bytes: self.bytes,
            count: self.count,
        }
    }

    /// The value at a place, counted from 0.
    pub fn at(&self, i: u64) -> Piece<'a>
        requires { i < length self.now }
        ensures { slice_get self.now i ≡ Some (plain_piece result) }
    {
        let at = offset(self.bytes, i);
        let past = offset(self.bytes, i + 1);
        let (_, later) = self.bytes.split_at(at as usize);
        let (value, _) = later.split_at((past - at) as usize);
        Piece::Bytes(value)
    }
}

/// Refuses bytes that aren't a buffer of `n` values.
fn check_offsets(bytes: &[u8], n: u64) -> Result<(), ValueFault>
    requires { length bytes.now < 2 ^ 64 }
    ensures ok { IfOk result (λ _. IsBuffer variable n bytes.now) }
    ensures cause { IfErr result (Stands variable n bytes.now) }
    ensures none { IfErr result (λ _. IsBuffer variable n bytes.now → ⊥) }
{
    let len = bytes.len() as u64;
    if n >= len / 4 {
        return Err(ValueFault::Length);
    }
    let mut last = offset(bytes, 0);
    if last != 4 * (n + 1) {
        return Err(ValueFault::FirstOffset);
    }
    for i in 0..n {
        let next = offset(bytes, i + 1);
        if next < last {
            return Err(ValueFault::Falling(i + 1));
        }
        last = next;
    }
    if last != len {
        return Err(ValueFault::LastOffset);
    }
    Ok(())
}

/// The offset of that number, counted from 0.
#[tactic(auto, unfolding(lan_levels::specs::Values::offset))]
fn offset(bytes: &[u8], i: u64) -> u64
    requires { 4 * (i + 1) ≤ length bytes.now }
    ensures value { result ≡ offset bytes.now i }
    ensures narrow { result < 2 ^ 32 }
{
    let (_, b) = bytes.split_at(4 * i as usize);
    u64::from(u32::from_le_bytes([b[0], b[1], b[2], b[3]]))
}
