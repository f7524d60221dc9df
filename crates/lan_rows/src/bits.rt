// The bits that a JSON value is in a type of fixed width.
ghost use Rattle.std.specs.Prelude.{◌≡◌, ◌⊎◌, ◌+◌, ◌*◌, ◌^◌, ◌<◌, ◌≤◌, Ok, Err, Some, None, IfOk, IfErr, IfSome, OnOk, option_map};
ghost use Rattle.std.specs.Int.{w16, w32, w64, byte_len, from_be_bytes};
ghost use Rattle.serde_json.specs.View.{view, number_view};
ghost use Rattle.hex.specs.Hex.{decode_sized};
ghost use Rattle.lan_model.specs.Fits.{width};
ghost use Rattle.lan_rows.specs.Bits.{signed_bits, whole, signed, unsigned, digits, truth, bits_in};
ghost use Rattle.lan_rows.specs.declared.faults.RowFault.TheVariants.{Memory};

use crate::faults::RowFault;
use hex::FromHex;
use lan_model::{Primitive, Text};
use serde_json::{Number, Value};
use std::alloc::Global;

/// The bits of a value that isn't null; faults name the column `top`.
pub fn read_bits(alloc: Global, top: &str, prim: Primitive, value: &Value) -> Result<u64, RowFault>
    ensures ok { IfOk result (λ b. bits_in top.now prim (view value.now) ≡ Ok b) }
    ensures fit { IfOk result (λ b. b < 2 ^ width prim) }
    ensures err { IfErr result (λ e. (e ≡ RowFault.Memory) ⊎ (bits_in top.now prim (view value.now) ≡ Err e)) }
{
    match prim {
        Primitive::Bool => truth(alloc, top, value),
        Primitive::Int8 => signed(alloc, top, 127, value),
        Primitive::Int16 => signed(alloc, top, 32767, value),
        Primitive::Int32 | Primitive::Date => signed(alloc, top, 2147483647, value),
        Primitive::Int64 => signed(alloc, top, 9223372036854775807, value),
        Primitive::Uint8 => unsigned(alloc, top, 255, value),
        Primitive::Uint16 => unsigned(alloc, top, 65535, value),
        Primitive::Uint32 => unsigned(alloc, top, 4294967295, value),
        Primitive::Uint64 => unsigned(alloc, top, 18446744073709551615, value),
        Primitive::Half => half(alloc, top, value),
        Primitive::Float => float(alloc, top, value),
        Primitive::Double => double(alloc, top, value),
    }
}

fn truth(alloc: Global, top: &str, value: &Value) -> Result<u64, RowFault>
    ensures ok { IfOk result (λ b. truth top.now (view value.now) ≡ Ok b) }
    ensures fit { IfOk result (λ b. b < 2) }
    ensures err { IfErr result (λ e. (e ≡ RowFault.Memory) ⊎ (truth top.now (view value.now) ≡ Err e)) }
{
    match value.as_bool() {
        Some(true) => Ok(1),
        Some(false) => Ok(0),
        None => Err(RowFault::Kind(Text::of(alloc, top)?)),
    }
}

// A number without a point or an exponent, which 64 bits hold.
fn whole<'v>(alloc: Global, top: &str, value: &'v Value) -> Result<&'v Number, RowFault>
    ensures ok { IfOk result (λ n. whole top.now (view value.now) ≡ Ok (number_view n.now)) }
    ensures err { IfErr result (λ e. (e ≡ RowFault.Memory) ⊎ (whole top.now (view value.now) ≡ Err e)) }
{
    let Some(number) = value.as_number() else {
        return Err(RowFault::Kind(Text::of(alloc, top)?));
    };
    if number.is_f64() {
        return Err(RowFault::Kind(Text::of(alloc, top)?));
    }
    Ok(number)
}

fn signed(alloc: Global, top: &str, greatest: u64, value: &Value) -> Result<u64, RowFault>
    requires { greatest < 2 ^ 63 }
    ensures ok { IfOk result (λ b. signed top.now greatest (view value.now) ≡ Ok b) }
    ensures fit { IfOk result (λ b. b ≤ 2 * greatest + 1) }
    ensures err { IfErr result (λ e. (e ≡ RowFault.Memory) ⊎ (signed top.now greatest (view value.now) ≡ Err e)) }
{
    let number = whole(alloc, top, value)?;
    if let Some(z) = number.as_i64() {
        if let Some(bits) = signed_bits(greatest, z) {
            return Ok(bits);
        }
    }
    Err(RowFault::Range(Text::of(alloc, top)?))
}

// The two's complement of a number from -1 - greatest to greatest.
fn signed_bits(greatest: u64, z: i64) -> Option<u64>
    requires { greatest < 2 ^ 63 }
    ensures value { result ≡ signed_bits greatest z }
    ensures fit { IfSome result (λ b. b ≤ 2 * greatest + 1) }
{
    if z >= 0 {
        let bits = z as u64;
        return if bits <= greatest { Some(bits) } else { None };
    }
    let below = (-1 - z) as u64;
    if below <= greatest {
        Some(greatest + 1 + (greatest - below))
    } else {
        None
    }
}

fn unsigned(alloc: Global, top: &str, greatest: u64, value: &Value) -> Result<u64, RowFault>
    ensures ok { IfOk result (λ b. unsigned top.now greatest (view value.now) ≡ Ok b) }
    ensures fit { IfOk result (λ b. b ≤ greatest) }
    ensures err { IfErr result (λ e. (e ≡ RowFault.Memory) ⊎ (unsigned top.now greatest (view value.now) ≡ Err e)) }
{
    let number = whole(alloc, top, value)?;
    if let Some(bits) = number.as_u64() {
        if bits <= greatest {
            return Ok(bits);
        }
    }
    Err(RowFault::Range(Text::of(alloc, top)?))
}

fn half(alloc: Global, top: &str, value: &Value) -> Result<u64, RowFault>
    ensures ok { IfOk result (λ b. digits top.now w16 (view value.now) ≡ Ok b) }
    ensures fit { IfOk result (λ b. b < 2 ^ 16) }
    ensures err { IfErr result (λ e. (e ≡ RowFault.Memory) ⊎ (digits top.now w16 (view value.now) ≡ Err e)) }
{
    let Some(text) = value.as_str() else {
        return Err(RowFault::Kind(Text::of(alloc, top)?));
    };
    match <[u8; 2] as FromHex>::from_hex(text) {
        Ok(bytes) => Ok(u64::from(u16::from_be_bytes(bytes))),
        Err(_) => Err(RowFault::Hex(Text::of(alloc, top)?)),
    }
}

fn float(alloc: Global, top: &str, value: &Value) -> Result<u64, RowFault>
    ensures ok { IfOk result (λ b. digits top.now w32 (view value.now) ≡ Ok b) }
    ensures fit { IfOk result (λ b. b < 2 ^ 32) }
    ensures err { IfErr result (λ e. (e ≡ RowFault.Memory) ⊎ (digits top.now w32 (view value.now) ≡ Err e)) }
{
    let Some(text) = value.as_str() else {
        return Err(RowFault::Kind(Text::of(alloc, top)?));
    };
    match <[u8; 4] as FromHex>::from_hex(text) {
        Ok(bytes) => Ok(u64::from(u32::from_be_bytes(bytes))),
        Err(_) => Err(RowFault::Hex(Text::of(alloc, top)?)),
    }
}

fn double(alloc: Global, top: &str, value: &Value) -> Result<u64, RowFault>
    ensures ok { IfOk result (λ b. digits top.now w64 (view value.now) ≡ Ok b) }
    ensures fit { IfOk result (λ b. b < 2 ^ 64) }
    ensures err { IfErr result (λ e. (e ≡ RowFault.Memory) ⊎ (digits top.now w64 (view value.now) ≡ Err e)) }
{
    let Some(text) = value.as_str() else {
        return Err(RowFault::Kind(Text::of(alloc, top)?));
    };
    match <[u8; 8] as FromHex>::from_hex(text) {
        Ok(bytes) => Ok(u64::from_be_bytes(bytes)),
        Err(_) => Err(RowFault::Hex(Text::of(alloc, top)?)),
    }
}
