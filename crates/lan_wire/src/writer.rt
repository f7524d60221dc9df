ghost use Rattle.std.specs.Prelude.{◌≡◌, ◌+◌, ◌*◌, ◌^◌, ◌<◌, ◌≤◌, ◌++◌, [], length, take, map, flat_map, OnOk, OnErr, IfSome};
ghost use Rattle.lan_wire.specs.Spelling.{varint, key, num_item, part_item, num_field, part_field, two_complement, packed_field};

use std::alloc::{AllocError, Global};
use std::marker::Model;

/// Spells a message of Protocol Buffers item by item. A contract sees the bytes that it has so far.
///
/// It keeps the allocator that it was made with. A call that finds no memory leaves the bytes as they
/// were. A field's number is from 1 to 536,870,911.
#[derive(Debug, Drop)]
pub struct Writer {
    bytes: Vec<u8>,
}

impl Model for Writer {
    ghost use Rattle.std.specs.Prelude.{List, ℕ};

    ghost Value = { List ℕ };

    ghost view = { λ w. w.bytes.items };
}

// How many bytes a number's varint has.
#[tactic(auto, using(crate::proofs::Varints::varint_lengths))]
fn varint_len(value: u64) -> u64
    ensures { result ≡ length (varint value) }
{
    let mut rest = value;
    let mut len = 1;
    while rest >= 128 {
        rest /= 128;
        len += 1;
    }
    len
}

// The 64 bits of a number with a sign.
fn two_complement(value: i32) -> u64
    ensures { result ≡ two_complement value }
{
    i64::from(value).cast_unsigned()
}

// How many bytes the varints of these numbers have together.
#[tactic(auto, using(crate::proofs::Varints::varint_lengths))]
fn packed_len(values: &[u64]) -> u64
    ensures { result ≡ length (flat_map varint values.now) }
{
    let mut len = 0;
    for value in values {
        len += varint_len(*value);
    }
    len
}

// How many bytes the varints of these numbers with a sign have together, none where over 2^64.
fn signed_packed_len(values: &[i32]) -> Option<u64>
    ensures { IfSome result (λ len. len ≡ length (flat_map varint (map two_complement values.now))) }
{
    let mut len: u64 = 0;
    for value in values {
        len = len.checked_add(varint_len(two_complement(*value)))?;
    }
    Some(len)
}

// Appends a varint. After a want of memory a part of it may stand.
#[tactic(auto, using(crate::proofs::Varints::varint_more, crate::proofs::Varints::varint_last, std::proofs::lemmas::Grind::common_steps))]
fn push_varint(bytes: &mut Vec<u8>, value: u64) -> Result<(), AllocError>
    ensures ok { OnOk result (bytes.new.items ≡ bytes.old.items ++ varint value) }
    ensures front { take (length bytes.old.items) bytes.new.items ≡ bytes.old.items }
{
    let mut rest = value;
    while rest >= 128 {
        bytes.push((rest % 128) as u8 + 128)?;
        rest /= 128;
    }
    bytes.push(rest as u8)?;
    Ok(())
}

// Appends varints. After a want of memory a part of them may stand.
fn push_varints(bytes: &mut Vec<u8>, values: &[u64]) -> Result<(), AllocError>
    ensures ok { OnOk result (bytes.new.items ≡ bytes.old.items ++ flat_map varint values.now) }
    ensures front { take (length bytes.old.items) bytes.new.items ≡ bytes.old.items }
{
    for value in values {
        push_varint(bytes, *value)?;
    }
    Ok(())
}

// Appends varints of numbers with a sign. After a want of memory a part of them may stand.
fn push_signed_varints(bytes: &mut Vec<u8>, values: &[i32]) -> Result<(), AllocError>
    ensures ok { OnOk result (bytes.new.items ≡ bytes.old.items ++ flat_map varint (map two_complement values.now)) }
    ensures front { take (length bytes.old.items) bytes.new.items ≡ bytes.old.items }
{
    for value in values {
        push_varint(bytes, two_complement(*value))?;
    }
    Ok(())
}

// Appends a key and a number. After a want of memory a part of it may stand.
fn push_num(bytes: &mut Vec<u8>, number: u32, value: u64) -> Result<(), AllocError>
    requires { number < 2 ^ 29 }
    ensures ok { OnOk result (bytes.new.items ≡ bytes.old.items ++ num_item number value) }
    ensures front { take (length bytes.old.items) bytes.new.items ≡ bytes.old.items }
{
    push_varint(bytes, u64::from(number) * 8)?;
    push_varint(bytes, value)
}

// Appends a key, its body's length and the body. After a want of memory a part of it may stand.
fn push_part(bytes: &mut Vec<u8>, number: u32, value: &[u8]) -> Result<(), AllocError>
    requires { number < 2 ^ 29 }
    ensures ok { OnOk result (bytes.new.items ≡ bytes.old.items ++ part_item number value.now) }
    ensures front { take (length bytes.old.items) bytes.new.items ≡ bytes.old.items }
{
    push_varint(bytes, u64::from(number) * 8 + 2)?;
    push_varint(bytes, value.len() as u64)?;
    bytes.extend_from_slice(value)
}

// Appends a key, and numbers behind their length. After a want of memory a part of it may stand.
fn push_packed(bytes: &mut Vec<u8>, number: u32, values: &[u64]) -> Result<(), AllocError>
    requires { number < 2 ^ 29 }
    ensures ok { OnOk result (bytes.new.items ≡ bytes.old.items ++ part_item number (flat_map varint values.now)) }
    ensures front { take (length bytes.old.items) bytes.new.items ≡ bytes.old.items }
{
    push_varint(bytes, u64::from(number) * 8 + 2)?;
    push_varint(bytes, packed_len(values))?;
    push_varints(bytes, values)
}

// Appends a key, and numbers with a sign behind their length. After a want of memory a part of it may stand.
fn push_signed_packed(bytes: &mut Vec<u8>, number: u32, values: &[i32]) -> Result<(), AllocError>
    requires { number < 2 ^ 29 }
    ensures ok { OnOk result (bytes.new.items ≡ bytes.old.items ++ part_item number (flat_map varint (map two_complement values.now))) }
    ensures front { take (length bytes.old.items) bytes.new.items ≡ bytes.old.items }
{
    let len = signed_packed_len(values).ok_or(AllocError)?;
    push_varint(bytes, u64::from(number) * 8 + 2)?;
    push_varint(bytes, len)?;
    push_signed_varints(bytes, values)
}

impl Writer {
    /// No bytes yet, and no memory taken.
    pub fn new(alloc: Global) -> Writer
        ensures { result ≡ [] }
    {
        Writer {
            bytes: Vec::new(alloc),
        }
    }

    /// A number, left out where it is zero. A flag is 1 or 0.
    pub fn num(&mut self, number: u32, value: u64) -> Result<(), AllocError>
        requires numbered { 0 < number }
        requires fits { number < 2 ^ 29 }
        ensures ok { OnOk result (self.new ≡ self.old ++ num_field number value) }
        ensures err { OnErr result (self.new ≡ self.old) }
    {
        if value == 0 {
            return Ok(());
        }
        self.present(number, value)
    }

    /// A number, zero too.
    pub fn present(&mut self, number: u32, value: u64) -> Result<(), AllocError>
        requires numbered { 0 < number }
        requires fits { number < 2 ^ 29 }
        ensures ok { OnOk result (self.new ≡ self.old ++ num_item number value) }
        ensures err { OnErr result (self.new ≡ self.old) }
    {
        let len = self.bytes.len();
        let answer = push_num(&mut self.bytes, number, value);
        if answer.is_err() {
            self.bytes.truncate(len);
        }
        answer
    }

    /// A number of 32 bits with a sign, left out where it is zero. A negative one is ten bytes: the
    /// varint of its 64 bits in two's complement.
    pub fn signed(&mut self, number: u32, value: i32) -> Result<(), AllocError>
        requires numbered { 0 < number }
        requires fits { number < 2 ^ 29 }
        ensures ok { OnOk result (self.new ≡ self.old ++ num_field number (two_complement value)) }
        ensures err { OnErr result (self.new ≡ self.old) }
    {
        self.num(number, two_complement(value))
    }

    /// A text, left out where it is empty.
    pub fn text(&mut self, number: u32, value: &str) -> Result<(), AllocError>
        requires numbered { 0 < number }
        requires fits { number < 2 ^ 29 }
        ensures ok { OnOk result (self.new ≡ self.old ++ part_field number value.now) }
        ensures err { OnErr result (self.new ≡ self.old) }
    {
        if value.is_empty() {
            return Ok(());
        }
        self.part(number, value.as_bytes())
    }

    /// Bytes, or a message, an empty one too.
    pub fn part(&mut self, number: u32, value: &[u8]) -> Result<(), AllocError>
        requires numbered { 0 < number }
        requires fits { number < 2 ^ 29 }
        ensures ok { OnOk result (self.new ≡ self.old ++ part_item number value.now) }
        ensures err { OnErr result (self.new ≡ self.old) }
    {
        let len = self.bytes.len();
        let answer = push_part(&mut self.bytes, number, value);
        if answer.is_err() {
            self.bytes.truncate(len);
        }
        answer
    }

    /// Numbers packed into one part, left out where there are none.
    pub fn packed(&mut self, number: u32, values: &[u64]) -> Result<(), AllocError>
        requires numbered { 0 < number }
        requires fits { number < 2 ^ 29 }
        ensures ok { OnOk result (self.new ≡ self.old ++ packed_field number values.now) }
        ensures err { OnErr result (self.new ≡ self.old) }
    {
        if values.is_empty() {
            return Ok(());
        }
        let len = self.bytes.len();
        let answer = push_packed(&mut self.bytes, number, values);
        if answer.is_err() {
            self.bytes.truncate(len);
        }
        answer
    }

    /// Numbers of 32 bits with a sign packed into one part, left out where there are none. Each is spelled as
    /// `signed` spells it.
    pub fn packed_signed(&mut self, number: u32, values: &[i32]) -> Result<(), AllocError>
        requires numbered { 0 < number }
        requires fits { number < 2 ^ 29 }
        ensures ok { OnOk result (self.new ≡ self.old ++ packed_field number (map two_complement values.now)) }
        ensures err { OnErr result (self.new ≡ self.old) }
    {
        if values.is_empty() {
            return Ok(());
        }
        let len = self.bytes.len();
        let answer = push_signed_packed(&mut self.bytes, number, values);
        if answer.is_err() {
            self.bytes.truncate(len);
        }
        answer
    }

    /// The bytes, as they are: nothing is copied.
    pub fn finish(self) -> Vec<u8>
        ensures { result.items ≡ self }
    {
        let Writer { bytes } = self;
        bytes
    }
}
