// Whole streams: a source read to its end, and a text written to its end.
ghost use Rattle.std.specs.Prelude.{◌≡◌, ℕ, ◌≤◌, length, take, OnOk, IsErr, IsErrOf};
ghost use Rattle.lan_store.specs.Causes.{HasCause};
ghost use Rattle.lan_store.specs.Streams.{and_then_bytes, ReadsAll};

use crate::{Failed, Sink, Source};
use std::alloc::Global;

/// Why a source wasn't read to its end.
#[derive(Clone, Copy, Debug, PartialEq, Eq)]
pub enum ReadAllFault {
    /// The source failed.
    Failed,
    /// It had more bytes than were allowed.
    TooLong,
    Memory,
}

const PIECE: usize = 1 << 16;

/// Reads a source to its end, where it has at most `most` bytes.
pub fn read_all<I: Source>(
    alloc: Global,
    input: &mut I,
    most: usize,
) -> Result<Vec<u8>, ReadAllFault>
    ensures read { ReadsAll most (I.left input.old) (I.left input.new) result }
    ensures cause { HasCause (IsErrOf result ReadAllFault.Failed) (I.faults input.old) (I.faults input.new) }
{
    let mut bytes = Vec::new(alloc);
    let mut piece = [0u8; PIECE];
    'reading: while bytes.len() <= most {
        match input.read(&mut piece) {
            Ok(0) => return Ok(bytes),
            Ok(n) => {
                if bytes.extend_from_slice(&piece[..n]).is_err() {
                    return Err(ReadAllFault::Memory);
                }
            }
            Err(_) => return Err(ReadAllFault::Failed),
        }
    }
    Err(ReadAllFault::TooLong)
}

/// Writes the whole text, or a front of it.
pub fn write_all<O: Sink>(out: &mut O, text: &[u8]) -> Result<(), Failed>
    ensures ok { OnOk result (O.held out.new ≡ and_then_bytes (O.held out.old) text.now) }
    ensures part { (k : ℕ) × (k ≤ length text.now) × (O.held out.new ≡ and_then_bytes (O.held out.old) (take k text.now)) }
    ensures cause { HasCause (IsErr result) (O.faults out.old) (O.faults out.new) }
{
    let mut at = 0;
    while at < text.len() {
        at += out.write(&text[at..])?;
    }
    Ok(())
}
