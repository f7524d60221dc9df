ghost use Rattle.std.specs.Prelude.{◌≡◌, ◌≢◌, ◌<◌, ◌^◌, ℕ, false, length, IfOk, IfErr, IfSome, IfNone, IsTrue};
ghost use Rattle.std.specs.Int.{bytes_low_first};
ghost use Rattle.lan_model.specs.Plain.{null, raw, plain_type, plain_value};
ghost use Rattle.lan_model.specs.Fits.{width};
ghost use Rattle.lan_levels.specs.PlainSlots.{plain_piece, plain_slot};
ghost use Rattle.lan_levels.specs.PlainSlots as piece;
ghost use Rattle.lan_levels.specs.declared.join.Join.TheVariants as join;
ghost use Rattle.lan_levels.specs.SlotsOf.{bits_piece};
ghost use Rattle.lan_levels.specs.Taken.{IsAlone, IsItem, ItemRefused, IsLeafValue, LeafRefused};

use crate::join::Join;
use crate::slot::{Piece, Slot, State};
use lan_model::{Blob, Primitive, Ty, Val, width};
use std::alloc::{AllocError, Global};
use std::str;

/// The value of a slot of the leaf `id`.
pub fn leaf_value(
    alloc: Global,
    id: u32,
    nullable: bool,
    ty: &Ty,
    slot: Slot<'_>,
) -> Result<Val, Join>
    requires { IsAlone (plain_type ty.now) }
    ensures ok { IfOk result (λ v. IsLeafValue nullable (plain_type ty.now) (plain_slot slot.entry) (plain_value v)) }
    ensures err { IfErr result (LeafRefused id nullable (plain_type ty.now) (plain_slot slot.entry)) }
{
    match slot.state {
        State::Here => here_value(alloc, id, ty, slot.value),
        State::Null(0) => match slot.value {
            Piece::Nothing => null_value(id, nullable),
            _ => Err(Join::Shape(id)),
        },
        _ => Err(Join::Shape(id)),
    }
}

fn null_value(id: u32, nullable: bool) -> Result<Val, Join>
    ensures ok { IfOk result (λ v. (plain_value v ≡ null) × IsTrue nullable) }
    ensures err { IfErr result (λ e. (e ≡ join.NotNull id) × (nullable ≡ false)) }
{
    if nullable {
        Ok(Val::Null)
    } else {
        Err(Join::NotNull(id))
    }
}

/// The value of a leaf's piece.
fn here_value(alloc: Global, id: u32, ty: &Ty, value: Piece<'_>) -> Result<Val, Join>
    requires { IsAlone (plain_type ty.now) }
    ensures ok { IfOk result (λ v. IsItem (plain_type ty.now) (plain_piece value.entry) (plain_value v)) }
    ensures err { IfErr result (ItemRefused id (plain_type ty.now) (plain_piece value.entry)) }
{
    match value {
        Piece::Nothing => Err(Join::Shape(id)),
        Piece::Bit(bit) => match ty {
            Ty::Bits(Primitive::Bool) => Ok(Val::Bits(if bit { 1 } else { 0 })),
            _ => Err(Join::Shape(id)),
        },
        Piece::Bytes(bytes) => bytes_value(alloc, id, ty, bytes),
    }
}

/// The value of a leaf's bytes.
fn bytes_value(alloc: Global, id: u32, ty: &Ty, bytes: &[u8]) -> Result<Val, Join>
    requires { IsAlone (plain_type ty.now) }
    ensures ok { IfOk result (λ v. IsItem (plain_type ty.now) (piece.bytes bytes.now) (plain_value v)) }
    ensures err { IfErr result (ItemRefused id (plain_type ty.now) (piece.bytes bytes.now)) }
{
    match ty {
        Ty::Bits(prim) => match bits_of(*prim, bytes) {
            Some(bits) => Ok(Val::Bits(bits)),
            None => Err(Join::Shape(id)),
        },
        Ty::Text => {
            if str::from_utf8(bytes).is_ok() {
                raw_value(alloc, bytes)
            } else {
                Err(Join::NotText(id))
            }
        }
        Ty::Vector(prim, count) => {
            if 8 * bytes.len() as u128 == u128::from(width(*prim)) * u128::from(*count) {
                raw_value(alloc, bytes)
            } else {
                Err(Join::Shape(id))
            }
        }
        _ => raw_value(alloc, bytes),
    }
}

fn raw_value(alloc: Global, bytes: &[u8]) -> Result<Val, Join>
    ensures ok { IfOk result (λ v. plain_value v ≡ raw bytes.now) }
    ensures err { IfErr result (λ e. e ≡ join.Memory) }
{
    let mut blob = Blob::new(alloc);
    blob.extend(bytes)?;
    Ok(Val::Raw(blob))
}

/// The number of these low bytes, if they are those of one value of the primitive.
fn bits_of(prim: Primitive, bytes: &[u8]) -> Option<u64>
    ensures some { IfSome result (λ b. (b < 2 ^ width prim) × (bits_piece prim b ≡ piece.bytes bytes.now)) }
    ensures none { IfNone result ((b : ℕ) → bits_piece prim b ≡ piece.bytes bytes.now → ⊥) }
{
    match prim {
        Primitive::Bool => None,
        Primitive::Int8 | Primitive::Uint8 => one_byte(bytes),
        Primitive::Int16 | Primitive::Uint16 | Primitive::Half => two_bytes(bytes),
        Primitive::Int32 | Primitive::Uint32 | Primitive::Float | Primitive::Date => four_bytes(
            bytes,
        ),
        Primitive::Int64 | Primitive::Uint64 | Primitive::Double => eight_bytes(bytes),
    }
}

fn one_byte(bytes: &[u8]) -> Option<u64>
    ensures some { IfSome result (λ b. (b < 2 ^ 8) × (bytes_low_first 0 1 b ≡ bytes.now)) }
    ensures none { IfNone result (length bytes.now ≢ 1) }
{
    match bytes {
        [a] => Some(u64::from(*a)),
        _ => None,
    }
}

fn two_bytes(bytes: &[u8]) -> Option<u64>
    ensures some { IfSome result (λ b. (b < 2 ^ 16) × (bytes_low_first 0 2 b ≡ bytes.now)) }
    ensures none { IfNone result (length bytes.now ≢ 2) }
{
    if bytes.len() != 2 {
        return None;
    }
    Some(u64::from(u16::from_le_bytes([bytes[0], bytes[1]])))
}

fn four_bytes(bytes: &[u8]) -> Option<u64>
    ensures some { IfSome result (λ b. (b < 2 ^ 32) × (bytes_low_first 0 4 b ≡ bytes.now)) }
    ensures none { IfNone result (length bytes.now ≢ 4) }
{
    if bytes.len() != 4 {
        return None;
    }
    Some(u64::from(u32::from_le_bytes([bytes[0], bytes[1], bytes[2], bytes[3]])))
}

#[tactic(auto, using(std::proofs::lemmas::Nat::le_bytes_8))]
fn eight_bytes(bytes: &[u8]) -> Option<u64>
    ensures some { IfSome result (λ b. (b < 2 ^ 64) × (bytes_low_first 0 8 b ≡ bytes.now)) }
    ensures none { IfNone result (length bytes.now ≢ 8) }
{
    if bytes.len() != 8 {
        return None;
    }
    let mut all = [0; 8];
    all.copy_from_slice(bytes);
    Some(u64::from_le_bytes(all))
}
