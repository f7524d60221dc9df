ghost use Rattle.std.specs.Prelude.{◌≡◌, ◌⊎◌, ◌^◌, ◌<◌, ◌++◌, [], length, take, replicate, OnOk, OnErr};
ghost use Rattle.lan_bytes.specs.Numbers.{low_first};

use std::alloc::{AllocError, Global};
use std::marker::Model;

/// Bytes that grow at their end, which a contract sees as a list.
///
/// It keeps the allocator that it was made with. A call that finds no memory leaves the bytes as they were.
#[derive(Debug, Drop)]
pub struct Out {
    bytes: Vec<u8>,
}

impl Model for Out {
    ghost use Rattle.std.specs.Prelude.{List, ℕ};

    ghost Value = { List ℕ };

    ghost view = { λ out. out.bytes.items };
}

impl Out {
    /// No bytes yet, and no memory taken.
    pub fn new(alloc: Global) -> Out
        ensures { result ≡ [] }
    {
        Out {
            bytes: Vec::new(alloc),
        }
    }

    /// How many bytes there are.
    pub fn len(&self) -> u64
        ensures { result ≡ length self.now }
    {
        self.bytes.len() as u64
    }

    /// Appends these bytes.
    pub fn bytes(&mut self, part: &[u8]) -> Result<(), AllocError>
        ensures ok { OnOk result (self.new ≡ self.old ++ part.now) }
        ensures err { OnErr result (self.new ≡ self.old) }
    {
        self.bytes.extend_from_slice(part)
    }

    /// Appends the number in `width` bytes, the lowest first.
    pub fn num(&mut self, value: u64, width: u8) -> Result<(), AllocError>
        requires width { (width ≡ 1) ⊎ (width ≡ 2) ⊎ (width ≡ 4) ⊎ (width ≡ 8) }
        requires fits { value < 256 ^ width }
        ensures ok { OnOk result (self.new ≡ self.old ++ low_first width value) }
        ensures err { OnErr result (self.new ≡ self.old) }
    {
        let bytes = value.to_le_bytes();
        self.bytes.extend_from_slice(&bytes[..width as usize])
    }

    /// Appends `n` bytes of zero.
    pub fn zeros(&mut self, n: u64) -> Result<(), AllocError>
        ensures ok { OnOk result (self.new ≡ self.old ++ replicate n 0) }
        ensures err { OnErr result (self.new ≡ self.old) }
    {
        // No vector is as long as the greatest length, so a sum that is too great finds no memory.
        let len = self.bytes.len().saturating_add(n as usize);
        self.bytes.resize(len, 0)
    }

    /// Keeps the first `len` bytes, or all where there are no more.
    pub fn truncate(&mut self, len: u64)
        ensures { self.new ≡ take len self.old }
    {
        if len < self.len() {
            self.bytes.truncate(len as usize);
        }
    }

    /// The bytes, as they are: nothing is copied.
    pub fn finish(self) -> Vec<u8>
        ensures { result.items ≡ self }
    {
        let Out { bytes } = self;
        bytes
    }
}
