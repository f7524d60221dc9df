// The standard streams, which tell nothing of their bytes.
ghost use Rattle.std.specs.Prelude.{None, ◌<◌, ◌≤◌, length, IfSome};

use lan_store::{Failed, Sink, Source};
use std::io::{Read, Write};

/// The bytes of a reader, as standard input.
#[derive(Drop)]
pub struct StdSource<R: Read + Drop> {
    inner: R,
    faults: u64,
}

impl<R: Read + Drop> StdSource<R> {
    pub fn new(inner: R) -> StdSource<R> {
        StdSource { inner, faults: 0 }
    }
}

impl<R: Read + Drop> Source for StdSource<R> {
    ghost left = { λ _. None };

    ghost faults = { λ s. s.faults };

    fn read(&mut self, into: &mut [u8]) -> Result<usize, Failed> {
        match self.inner.read(into) {
            Ok(n) => Ok(n),
            Err(_) => {
                self.faults = self.faults.saturating_add(1);
                Err(Failed)
            }
        }
    }
}

/// A writer, as standard output, that is flushed after each write.
#[derive(Drop)]
pub struct StdSink<W: Write + Drop> {
    inner: W,
    faults: u64,
}

// Writes and flushes. A write that takes nothing of a piece fails.
fn put<W: Write>(inner: &mut W, bytes: &[u8]) -> Option<usize>
    ensures { IfSome result (λ n. (n ≤ length bytes.now) × (0 < length bytes.now → 0 < n)) }
{
    let n = inner.write(bytes).ok()?;
    if n == 0 && !bytes.is_empty() {
        return None;
    }
    inner.flush().ok()?;
    Some(n)
}

impl<W: Write + Drop> StdSink<W> {
    pub fn new(inner: W) -> StdSink<W> {
        StdSink { inner, faults: 0 }
    }
}

impl<W: Write + Drop> Sink for StdSink<W> {
    ghost held = { λ _. None };

    ghost faults = { λ s. s.faults };

    fn write(&mut self, bytes: &[u8]) -> Result<usize, Failed> {
        match put(&mut self.inner, bytes) {
            Some(n) => Ok(n),
            None => {
                self.faults = self.faults.saturating_add(1);
                Err(Failed)
            }
        }
    }
}
