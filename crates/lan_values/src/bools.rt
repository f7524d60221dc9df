ghost use Rattle.std.specs.Prelude.{◌≡◌, ◌+◌, ◌/◌, ◌^◌, ◌++◌, ◌<◌, ◌≤◌, length, take, drop, slice_get, Some, IfOk, IfErr, OnOk, OnErr};
ghost use Rattle.lan_levels.specs.PlainSlots.{plain_piece};
ghost use Rattle.lan_levels.specs.Values.{bools, IsBuffer, ValuesOf};
ghost use Rattle.lan_values.specs.Refusals.{Stands};
ghost use Rattle.lan_levels.specs.BuiltValues.{byte_of, bool_bytes};

use crate::fault::ValueFault;
use lan_bytes::{Out, View};
use lan_levels::Piece;
use std::alloc::AllocError;
use std::marker::Model;

/// Bools, eight in a byte from its lowest bit on. A contract sees the list of their pieces.
///
/// Bits of the last byte beyond the last bool are never looked at.
#[derive(Debug, Drop)]
pub struct BoolView<'a> {
    bytes: &'a [u8],
    count: u64,
}

impl<'a> Model for BoolView<'a> {
    ghost use Rattle.std.specs.Prelude.{◌^◌, ◌≤◌, List, length};
    ghost use Rattle.lan_levels.specs.PlainSlots.{PlainPiece};
    ghost use Rattle.lan_levels.specs.Values.{bools, values_of, IsBuffer};

    ghost Value = { List PlainPiece };

    ghost view = { λ v. values_of bools v.count v.bytes.now };

    ghost invariant = { λ v. IsBuffer bools v.count v.bytes.now × (length v.bytes.now ≤ 2 ^ 63) };
}

impl<'a> BoolView<'a> {
    /// The bytes as `n` bools, lent and never copied.
    pub fn open(view: View<'a>, n: u64) -> Result<BoolView<'a>, ValueFault>
        ensures ok { IfOk result (ValuesOf bools n view.entry.bytes) }
        ensures cause { IfErr result (Stands bools n view.entry.bytes) }
        ensures none { IfErr result (λ _. IsBuffer bools n view.entry.bytes → ⊥) }
    {
        if view.len() != bytes_for(n) {
            return Err(ValueFault::Length);
        }
        Ok(BoolView {
            bytes: view.bytes(),
            count: n,
        })
    }

    /// The same values, once more.
    pub fn again(&self) -> BoolView<'a>
        ensures { result ≡ self.now }
    {
        BoolView {
            bytes: self.bytes,
            count: self.count,
        }
    }

    /// The bool at a place, counted from 0.
    pub fn at(&self, i: u64) -> Piece<'a>
        requires { i < length self.now }
        ensures { slice_get self.now i ≡ Some (plain_piece result) }
    {
        let byte = self.bytes[(i / 8) as usize];
        Piece::Bit((byte >> (i % 8) as u32) % 2 == 1)
    }
}

/// The least number of bytes that so many bools have room in.
fn bytes_for(n: u64) -> u64
    ensures { result ≡ (n + 7) / 8 }
{
    if n % 8 == 0 { n / 8 } else { n / 8 + 1 }
}

/// Appends the buffer of these bools, with zeros for the bits that none of them uses.
pub fn put_bools(out: &mut Out, values: &[bool]) -> Result<(), AllocError>
    ensures ok { OnOk result (out.new ≡ out.old ++ bool_bytes ((length values.now + 7) / 8) values.now) }
    ensures err { OnErr result (out.new ≡ out.old) }
{
    let len = out.len();
    let put = put_bytes(out, values);
    if put.is_err() {
        out.truncate(len);
    }
    put
}

/// Appends the bytes of these bools; after an error, some of them.
fn put_bytes(out: &mut Out, values: &[bool]) -> Result<(), AllocError>
    ensures ok { OnOk result (out.new ≡ out.old ++ bool_bytes ((length values.now + 7) / 8) values.now) }
    ensures err { OnErr result (take (length out.old) out.new ≡ out.old) }
{
    for i in 0..bytes_for(values.len() as u64) as usize {
        out.num(u64::from(byte_of(eight_from(values, 8 * i))), 1)?;
    }
    Ok(())
}

/// The byte of up to eight bools, the first in its lowest bit.
fn byte_of(values: &[bool]) -> u8
    requires { length values.now < 9 }
    ensures value { result ≡ byte_of values.now }
    ensures small { result < 2 ^ length values.now }
{
    match values {
        [] => 0,
        [first, later @ ..] => u8::from(*first) + 2 * byte_of(later),
    }
}

/// The eight bools from a place on, or as many as there are.
fn eight_from(values: &[bool], at: usize) -> &[bool]
    requires { at ≤ length values.now }
    ensures value { result.now ≡ take 8 (drop at values.now) }
    ensures few { length result.now < 9 }
{
    let (_, later) = values.split_at(at);
    if later.len() < 8 {
        return later;
    }
    let (eight, _) = later.split_at(8);
    eight
}
