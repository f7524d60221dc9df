ghost use Rattle.std.specs.Prelude.{◌≡◌, ◌≢◌, ◌+◌, ◌-◌, ◌*◌, ◌^◌, ◌<◌, ◌≤◌, length, IfOk, IfErr};
ghost use Rattle.lan_bytes.specs.Placed.{Placed, part_of};
ghost use Rattle.lan_arrow.specs.Flat.{IsVector, IsTable, four_at, eight_at, target_at, count_of};
ghost use Rattle.lan_arrow.specs.Broken.{NoTable};

use crate::fault::ArrowFault;
use crate::numbers::{eight_at, four_at};
use crate::tab::Tab;
use lan_bytes::View;
use std::marker::Model;

/// A FlatBuffers vector in a buffer: a count of four bytes, and so many elements of `width` bytes.
///
/// A contract sees the buffer, the vector's place, in bytes from the buffer's front, and the width. No call takes
/// memory.
#[derive(Debug, Drop)]
pub struct Vecs<'a> {
    view: View<'a>,
    at: u64,
    width: u64,
    count: u64,
}

impl<'a> Model for Vecs<'a> {
    ghost use Rattle.std.specs.Prelude.{◌≡◌};
    ghost use Rattle.lan_arrow.specs.Flat.{VectorAt, IsVector, four_at};

    ghost Value = { VectorAt };

    ghost view = { λ vector. record { buffer = vector.view; at = vector.at; width = vector.width } };

    ghost invariant = { λ vector. IsVector vector.view.bytes vector.at vector.width × (vector.count ≡ four_at vector.view.bytes vector.at) };
}

impl<'a> Vecs<'a> {
    /// The vector at a place of the buffer. Refused where its count or its elements pass the buffer. The fault has the
    /// vector's place in the object, or the greatest number where that has over 64 bits.
    pub fn open(view: View<'a>, at: u64, width: u64) -> Result<Vecs<'a>, ArrowFault>
        ensures vector { IfOk result (λ vector. vector ≡ record { buffer = view.entry; at = at; width = width }) }
        ensures stands { IfOk result (λ _. IsVector view.entry.bytes at width) }
        ensures refused { IfErr result (λ _. ¬ IsVector view.entry.bytes at width) }
        ensures fault { IfErr result (λ e. view.entry.base + at < 2 ^ 64 → e ≡ ArrowFault.Table (view.entry.base + at)) }
        ensures far { IfErr result (λ e. 2 ^ 64 ≤ view.entry.base + at → e ≡ ArrowFault.Table (2 ^ 64 - 1)) }
    {
        let size = view.len();
        let fault = ArrowFault::Table(view.base().saturating_add(at));
        if at > size {
            return Err(fault);
        }
        let Some(count) = four_at(&view, at) else {
            return Err(fault);
        };
        let count = u64::from(count);
        let Some(elements) = count.checked_mul(width) else {
            return Err(fault);
        };
        if elements > size - at - 4 {
            return Err(fault);
        }
        Ok(Vecs {
            view,
            at,
            width,
            count,
        })
    }

    /// How many elements there are.
    pub fn len(&self) -> u64
        ensures { result ≡ count_of self.now }
    {
        self.count
    }

    /// The bytes of the i-th element, counted from 0, lent from the buffer.
    pub fn at(&self, i: u64) -> View<'a>
        requires { i < count_of self.now }
        ensures lent { result ≡ part_of self.now.buffer (self.now.at + 4 + i * self.now.width) self.now.width }
        ensures whole { length result.bytes ≡ self.now.width }
    {
        let _size = self.view.len();
        let place = self.at + 4 + i * self.width;
        match self.view.cut(place, self.width) {
            Some(part) => part,
            None => unreachable!(),
        }
    }

    // The number of eight bytes at a place in the element.
    pub(crate) fn eight(&self, i: u64, inner: u64) -> u64
        requires element { i < count_of self.now }
        requires within { inner + 8 ≤ self.now.width }
        ensures { result ≡ eight_at self.now.buffer.bytes (self.now.at + 4 + i * self.now.width + inner) }
    {
        let _size = self.view.len();
        match eight_at(&self.view, self.at + 4 + i * self.width + inner) {
            Some(number) => number,
            None => unreachable!(),
        }
    }

    // The number of four bytes at a place in the element.
    pub(crate) fn four(&self, i: u64, inner: u64) -> u32
        requires element { i < count_of self.now }
        requires within { inner + 4 ≤ self.now.width }
        ensures { result ≡ four_at self.now.buffer.bytes (self.now.at + 4 + i * self.now.width + inner) }
    {
        let _size = self.view.len();
        match four_at(&self.view, self.at + 4 + i * self.width + inner) {
            Some(number) => number,
            None => unreachable!(),
        }
    }

    // The table that the first element refers to.
    #[tactic(auto, unfolding(crate::specs::Flat::target_at))]
    pub(crate) fn first_table(&self) -> Result<Tab<'a>, ArrowFault>
        requires element { 0 < count_of self.now }
        requires within { 4 ≤ self.now.width }
        ensures there { IfOk result (λ _. IsTable self.now.buffer.bytes (target_at self.now.buffer.bytes (self.now.at + 4))) }
        ensures table { IfOk result (λ table. table ≡ record { buffer = self.now.buffer; at = target_at self.now.buffer.bytes (self.now.at + 4) }) }
        ensures refused { IfErr result (λ e. NoTable self.now.buffer (target_at self.now.buffer.bytes (self.now.at + 4)) e) }
    {
        let _base = self.view.base();
        let place = self.at + 4;
        match four_at(&self.view, place) {
            Some(number) => Tab::open(self.view.again(), place + u64::from(number)),
            None => unreachable!(),
        }
    }
}
