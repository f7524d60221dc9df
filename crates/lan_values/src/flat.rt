ghost use Rattle.std.specs.Prelude.{◌≡◌, ◌++◌, ◌<◌, length, slice_get, Some, IfOk, IfErr, OnOk, OnErr};
ghost use Rattle.lan_levels.specs.PlainSlots.{plain_piece};
ghost use Rattle.lan_levels.specs.Values.{flat, IsBuffer, ValuesOf};
ghost use Rattle.lan_values.specs.Refusals.{Stands};

use crate::fault::ValueFault;
use lan_bytes::{Out, View};
use lan_levels::Piece;
use std::alloc::AllocError;
use std::marker::Model;

/// Values of `width` bytes each, one after another. A contract sees the list of their pieces.
///
/// Where the width is 0, the values have no bytes, and no bytes are a buffer of any number of them.
#[derive(Debug, Drop)]
pub struct FlatView<'a> {
    bytes: &'a [u8],
    width: u64,
    count: u64,
}

impl<'a> Model for FlatView<'a> {
    ghost use Rattle.std.specs.Prelude.{◌^◌, ◌≤◌, List, length};
    ghost use Rattle.lan_levels.specs.PlainSlots.{PlainPiece};
    ghost use Rattle.lan_levels.specs.Values.{flat, values_of, IsBuffer};

    ghost Value = { List PlainPiece };

    ghost view = { λ v. values_of (flat v.width) v.count v.bytes.now };

    ghost invariant = { λ v. IsBuffer (flat v.width) v.count v.bytes.now × (length v.bytes.now ≤ 2 ^ 63) };
}

impl<'a> FlatView<'a> {
    /// The bytes as `n` values of `width` bytes each, lent and never copied.
    pub fn open(view: View<'a>, width: u64, n: u64) -> Result<FlatView<'a>, ValueFault>
        ensures ok { IfOk result (ValuesOf (flat width) n view.entry.bytes) }
        ensures cause { IfErr result (Stands (flat width) n view.entry.bytes) }
        ensures none { IfErr result (λ _. IsBuffer (flat width) n view.entry.bytes → ⊥) }
    {
        if width.checked_mul(n) != Some(view.len()) {
            return Err(ValueFault::Length);
        }
        Ok(FlatView {
            bytes: view.bytes(),
            width,
            count: n,
        })
    }

    /// The same values, once more.
    pub fn again(&self) -> FlatView<'a>
        ensures { result ≡ self.now }
    {
        FlatView {
            bytes: self.bytes,
            width: self.width,
            count: self.count,
        }
    }

    /// The value at a place, counted from 0.
    pub fn at(&self, i: u64) -> Piece<'a>
        requires { i < length self.now }
        ensures { slice_get self.now i ≡ Some (plain_piece result) }
    {
        let (_, later) = self.bytes.split_at((self.width * i) as usize);
        let (value, _) = later.split_at(self.width as usize);
        Piece::Bytes(value)
    }
}

/// Appends the bytes of one value.
pub fn put_flat(out: &mut Out, value: &[u8]) -> Result<(), AllocError>
    ensures ok { OnOk result (out.new ≡ out.old ++ value.now) }
    ensures err { OnErr result (out.new ≡ out.old) }
{
    out.bytes(value)
}
