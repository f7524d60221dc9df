ghost use Rattle.std.specs.Prelude.{◌≡◌, ◌+◌, ◌^◌, ◌<◌, ◌≤◌, length, slice_get, Some, IfSome, IfNone};
ghost use Rattle.std.specs.Int.{w16, w32, w64};
ghost use Rattle.lan_bytes.specs.Placed.{Placed, part_of};
ghost use Rattle.lan_bytes.specs.Numbers.{number_at};

use std::marker::Model;

/// Bytes that lie somewhere in an object, with the place of the first of them.
///
/// Places in an object count bytes from the object's first, and `at` counts bytes from the view's
/// first. A view lends the bytes of its source, so no call here copies them or takes memory.
#[derive(Debug, Drop)]
pub struct View<'a> {
    base: u64,
    bytes: &'a [u8],
}

impl<'a> Model for View<'a> {
    ghost use Rattle.std.specs.Prelude.{◌+◌, ◌^◌, ◌≤◌, length};
    ghost use Rattle.lan_bytes.specs.Placed.{Placed};

    ghost Value = { Placed };

    ghost view = { λ v. record { base = v.base; bytes = v.bytes.now } };

    ghost invariant = { λ v. v.base + length v.bytes.now ≤ 2 ^ 63 };
}

impl<'a> View<'a> {
    /// The bytes that lie in an object from `base` on.
    pub fn new(base: u64, bytes: &'a [u8]) -> View<'a>
        requires { base + length bytes.now ≤ 2 ^ 63 }
        ensures { result ≡ record { base = base; bytes = bytes.now } }
    {
        View { base, bytes }
    }

    /// The place of the first byte in the object.
    pub fn base(&self) -> u64
        ensures value { result ≡ self.now.base }
        ensures within { self.now.base + length self.now.bytes ≤ 2 ^ 63 }
    {
        self.base
    }

    /// How many bytes there are.
    pub fn len(&self) -> u64
        ensures value { result ≡ length self.now.bytes }
        ensures within { self.now.base + length self.now.bytes ≤ 2 ^ 63 }
    {
        self.bytes.len() as u64
    }

    /// The bytes, lent from the source.
    pub fn bytes(&self) -> &'a [u8]
        ensures value { result.now ≡ self.now.bytes }
        ensures within { self.now.base + length self.now.bytes ≤ 2 ^ 63 }
    {
        self.bytes
    }

    /// The same bytes at the same place. It stands for the copy that a type seen through a model can't have.
    pub fn again(&self) -> View<'a>
        ensures { result ≡ self.now }
    {
        View {
            base: self.base,
            bytes: self.bytes,
        }
    }

    /// The `len` bytes from `at` on, at their place in the object. None where they pass the end.
    pub fn cut(&self, at: u64, len: u64) -> Option<View<'a>>
        ensures some { IfSome result (λ part. part ≡ part_of self.now at len) }
        ensures within { IfSome result (λ _. at + len ≤ length self.now.bytes) }
        ensures none { IfNone result (length self.now.bytes < at + len) }
    {
        let size = self.bytes.len() as u64;
        if at > size || len > size - at {
            return None;
        }
        let (_, back) = self.bytes.split_at(at as usize);
        let (bytes, _) = back.split_at(len as usize);
        Some(View {
            base: self.base + at,
            bytes,
        })
    }

    /// The byte at `at`. None past the end.
    pub fn u8_at(&self, at: u64) -> Option<u8>
        ensures some { IfSome result (λ byte. slice_get self.now.bytes at ≡ Some byte) }
        ensures none { IfNone result (length self.now.bytes < at + 1) }
    {
        if at >= self.bytes.len() as u64 {
            return None;
        }
        Some(self.bytes[at as usize])
    }

    /// The number in the two bytes from `at` on, the lowest byte first. None where they pass the end.
    pub fn u16_at(&self, at: u64) -> Option<u16>
        ensures some { IfSome result (λ n. n ≡ number_at w16 self.now.bytes at) }
        ensures within { IfSome result (λ _. at + 2 ≤ length self.now.bytes) }
        ensures none { IfNone result (length self.now.bytes < at + 2) }
    {
        let size = self.bytes.len() as u64;
        if at > size || size - at < 2 {
            return None;
        }
        let (_, b) = self.bytes.split_at(at as usize);
        Some(u16::from_le_bytes([b[0], b[1]]))
    }

    /// The number in the four bytes from `at` on, the lowest byte first. None where they pass the end.
    pub fn u32_at(&self, at: u64) -> Option<u32>
        ensures some { IfSome result (λ n. n ≡ number_at w32 self.now.bytes at) }
        ensures within { IfSome result (λ _. at + 4 ≤ length self.now.bytes) }
        ensures none { IfNone result (length self.now.bytes < at + 4) }
    {
        let size = self.bytes.len() as u64;
        if at > size || size - at < 4 {
            return None;
        }
        let (_, b) = self.bytes.split_at(at as usize);
        Some(u32::from_le_bytes([b[0], b[1], b[2], b[3]]))
    }

    /// The number in the eight bytes from `at` on, the lowest byte first. None where they pass the end.
    pub fn u64_at(&self, at: u64) -> Option<u64>
        ensures some { IfSome result (λ n. n ≡ number_at w64 self.now.bytes at) }
        ensures within { IfSome result (λ _. at + 8 ≤ length self.now.bytes) }
        ensures none { IfNone result (length self.now.bytes < at + 8) }
    {
        let size = self.bytes.len() as u64;
        if at > size || size - at < 8 {
            return None;
        }
        let (_, b) = self.bytes.split_at(at as usize);
        Some(u64::from_le_bytes([b[0], b[1], b[2], b[3], b[4], b[5], b[6], b[7]]))
    }
}
