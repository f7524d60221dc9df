// A source and a sink in memory.
ghost use Rattle.std.specs.Prelude.{◌≡◌, ◌-◌, ◌<◌, ◌≤◌, ◌↔◌, ◌==◌, [], length, take, min, Some, option_map, IsTrue, IfOk, IsErr, OnErr};
ghost use Rattle.std.specs.List.{list_any};
ghost use Rattle.lan_store.specs.Causes.{HasCause};
ghost use Rattle.lan_store.specs.Calls.{next_call};

use crate::{Failed, Sink, Source};
use lan_model::{Blob, Nums};
use std::alloc::Global;

/// A source in memory that gives pieces of a size, and fails at the calls of these numbers.
#[derive(Drop)]
pub struct MemSource {
    bytes: Blob,
    at: usize,
    piece: usize,
    fails: Nums,
    calls: u64,
    faults: u64,
    ghost one: { 1 ≤ piece },
}

impl MemSource {
    pub fn new(bytes: Blob, piece: u64, fails: Nums) -> MemSource
        requires { 1 ≤ piece }
        ensures left { ⟦<MemSource as Source>⟧.left result ≡ Some bytes }
        ensures faults { ⟦<MemSource as Source>⟧.faults result ≡ 0 }
        ensures stated { (result.piece ≡ piece) × (result.fails ≡ fails) × (result.calls ≡ 0) }
    {
        MemSource {
            bytes,
            at: 0,
            piece: piece as usize,
            fails,
            calls: 0,
            faults: 0,
        }
    }
}

impl MemSource {
    /// How many bytes are left.
    pub fn left(&self) -> u64
        ensures { option_map length (⟦<MemSource as Source>⟧.left self.now) ≡ Some result }
    {
        (self.bytes.as_slice().len().saturating_sub(self.at)) as u64
    }
}

impl Source for MemSource {
    ghost use Rattle.std.specs.Prelude.{drop};
    ghost use Rattle.lan_store.specs.Streams.{Takes};

    ghost left = { λ s. Some (drop s.at s.bytes) };

    ghost faults = { λ s. s.faults };

    fn read(&mut self, into: &mut [u8]) -> Result<usize, Failed>
        ensures within { IfOk result (λ n. n ≤ length into.new) }
        ensures bytes { Takes (⟦<MemSource as Source>⟧.left self.old) (⟦<MemSource as Source>⟧.left self.new) into.new result }
        ensures cause { HasCause (IsErr result) (⟦<MemSource as Source>⟧.faults self.old) (⟦<MemSource as Source>⟧.faults self.new) }
        ensures counted { (self.new.piece ≡ self.old.piece) × (self.new.fails ≡ self.old.fails) × (self.new.calls ≡ next_call self.old.calls) }

        // It fails at the stated calls and at no other, and gives pieces of the stated size.
        ensures fails { IsErr result ↔ IsTrue (list_any (λ call. call == next_call self.old.calls) self.old.fails) }
        ensures piece { IfOk result (λ n. n ≡ min (min (length self.old.bytes - self.old.at) self.old.piece) (length into.old)) }
    {
        self.calls = self.calls.saturating_add(1);
        if self.fails.as_slice().contains(&self.calls) {
            self.faults = self.faults.saturating_add(1);
            return Err(Failed);
        }
        let bytes = self.bytes.as_slice();
        let left = bytes.len().saturating_sub(self.at);
        let n = left.min(self.piece).min(into.len());
        if n == 0 {
            return Ok(0);
        }
        let end = self.at + n;
        into[..n].copy_from_slice(&bytes[self.at..end]);
        self.at = end;
        Ok(n)
    }
}

/// A sink in memory that takes pieces of a size, and fails at the calls of these numbers.
#[derive(Drop)]
pub struct MemSink {
    bytes: Blob,
    piece: usize,
    fails: Nums,
    calls: u64,
    faults: u64,
    ghost one: { 1 ≤ piece },
}

impl MemSink {
    pub fn new(alloc: Global, piece: u64, fails: Nums) -> MemSink
        requires { 1 ≤ piece }
        ensures held { ⟦<MemSink as Sink>⟧.held result ≡ Some [] }
        ensures faults { ⟦<MemSink as Sink>⟧.faults result ≡ 0 }
        ensures stated { (result.piece ≡ piece) × (result.fails ≡ fails) × (result.calls ≡ 0) }
    {
        MemSink {
            bytes: Blob::new(alloc),
            piece: piece as usize,
            fails,
            calls: 0,
            faults: 0,
        }
    }

    pub fn bytes(&self) -> &[u8]
        ensures { ⟦<MemSink as Sink>⟧.held self.now ≡ Some result.now }
    {
        self.bytes.as_slice()
    }
}

impl Sink for MemSink {
    ghost use Rattle.lan_store.specs.Streams.{and_then_bytes};

    ghost held = { λ s. Some s.bytes };

    ghost faults = { λ s. s.faults };

    fn write(&mut self, bytes: &[u8]) -> Result<usize, Failed>
        ensures within { IfOk result (λ n. (n ≤ length bytes.now) × (0 < length bytes.now → 0 < n)) }
        ensures more { IfOk result (λ n. ⟦<MemSink as Sink>⟧.held self.new ≡ and_then_bytes (⟦<MemSink as Sink>⟧.held self.old) (take n bytes.now)) }
        ensures none { OnErr result (⟦<MemSink as Sink>⟧.held self.new ≡ ⟦<MemSink as Sink>⟧.held self.old) }
        ensures cause { HasCause (IsErr result) (⟦<MemSink as Sink>⟧.faults self.old) (⟦<MemSink as Sink>⟧.faults self.new) }
        ensures counted { (self.new.piece ≡ self.old.piece) × (self.new.fails ≡ self.old.fails) × (self.new.calls ≡ next_call self.old.calls) }

        // It fails at the stated calls; at any other only for want of memory, and else takes pieces of the stated size.
        ensures fails { IsTrue (list_any (λ call. call == next_call self.old.calls) self.old.fails) → IsErr result }
        ensures piece { IfOk result (λ n. n ≡ min (length bytes.now) self.old.piece) }
    {
        self.calls = self.calls.saturating_add(1);
        let n = bytes.len().min(self.piece);
        if self.fails.as_slice().contains(&self.calls) || self.bytes.extend(&bytes[..n]).is_err() {
            self.faults = self.faults.saturating_add(1);
            return Err(Failed);
        }
        Ok(n)
    }
}
