ghost use Rattle.std.specs.Prelude.{◌≡◌, [], ◌∷◌, ◌+◌, ◌*◌, ◌++◌, ◌^◌, ◌<◌, length, sum, OnOk, OnErr, IfOk};
ghost use Rattle.std.specs.List.{concat};
ghost use Rattle.lan_levels.specs.BuiltValues.{variable_bytes};
ghost use Rattle.lan_values.specs.Cut.{cut_by};

use lan_bytes::Out;
use lan_model::{Blob, List, Nums};
use std::alloc::{AllocError, Global};
use std::marker::Model;

/// Gathers values of any length for one buffer. A contract sees the list of the values.
///
/// The bytes of all values stand in one list, so a value costs no allocation of its own.
#[derive(Drop)]
pub struct VarBuf {
    lengths: Nums,
    bytes: Blob,
    alloc: Global,
}

impl Model for VarBuf {
    ghost use Rattle.std.specs.Prelude.{List, ℕ, ◌≡◌, length, sum};
    ghost use Rattle.lan_values.specs.Cut.{cut_by};

    ghost Value = { List (List ℕ) };

    ghost view = { λ b. cut_by b.lengths b.bytes };

    ghost invariant = { λ b. sum b.lengths ≡ length b.bytes };
}

impl VarBuf {
    pub fn new(alloc: Global) -> VarBuf
        ensures { result ≡ [] }
    {
        VarBuf {
            lengths: List::new(alloc),
            bytes: List::new(alloc),
            alloc,
        }
    }

    /// Adds a copy of the value at the end.
    pub fn push(&mut self, value: &[u8]) -> Result<(), AllocError>
        ensures ok { OnOk result (self.new ≡ self.old ++ value.now ∷ []) }
        ensures err { OnErr result (self.new ≡ self.old) }
    {
        self.bytes.extend(value)?;
        let pushed = self.lengths.push(value.len() as u64);
        if pushed.is_err() {
            let len = self.bytes.len() as usize - value.len();
            self.bytes.truncate(len);
        }
        pushed
    }

    /// Appends the buffer of the values in order.
    pub fn put(self, out: &mut Out) -> Result<(), AllocError>
        requires { 4 * (length self + 1) + length (concat self) < 2 ^ 32 }
        ensures ok { OnOk result (out.new ≡ out.old ++ variable_bytes self) }
        ensures err { OnErr result (out.new ≡ out.old) }
    {
        let whole = buffer_of(self.alloc, self.lengths.as_slice(), self.bytes.as_slice())?;
        out.bytes(whole.as_slice())
    }
}

/// The buffer of the values that the bytes are, cut into these lengths.
fn buffer_of(alloc: Global, lengths: &[u64], bytes: &[u8]) -> Result<Vec<u8>, AllocError>
    requires whole { sum lengths.now ≡ length bytes.now }
    requires short { 4 * (length lengths.now + 1) + length bytes.now < 2 ^ 32 }
    ensures { IfOk result (λ v. v.items ≡ variable_bytes (cut_by lengths.now bytes.now)) }
{
    let mut all = Out::new(alloc);
    let mut end = 4 * (lengths.len() as u64 + 1);
    all.num(end, 4)?;
    for length in lengths {
        end += *length;
        all.num(end, 4)?;
    }
    all.bytes(bytes)?;
    Ok(all.finish())
}
