ghost use Rattle.std.specs.Prelude.{◌≡◌, ◌≢◌, ◌+◌, ◌-◌, ◌*◌, ◌^◌, ◌<◌, ◌≤◌, length, IfOk, IfErr, IfSome, MatchOption, IsTrue, ◌↔◌};
ghost use Rattle.lan_bytes.specs.Placed.{Placed, part_of};
ghost use Rattle.lan_arrow.specs.Flat.{IsTable, offset_of, place_of, Holds, one_in, two_in, four_in, eight_in, target_of, HasTable, HasVector, MayHaveVector, count_in};
ghost use Rattle.lan_arrow.specs.Broken.{FieldPast, NoReference, TableLacks, VectorLacks, VectorPast};

use crate::fault::ArrowFault;
use crate::numbers::{eight_at, four_at, two_at};
use crate::vecs::Vecs;
use lan_bytes::View;
use std::marker::Model;

/// A FlatBuffers table in a buffer: a place that leads to its vtable, which says where its fields are.
///
/// A contract sees the buffer and the table's place, in bytes from the buffer's front. No call takes memory.
#[derive(Debug, Drop)]
pub struct Tab<'a> {
    view: View<'a>,
    at: u64,
    vtable: u64,
    own: u64,
}

impl<'a> Model for Tab<'a> {
    ghost use Rattle.std.specs.Prelude.{◌≡◌};
    ghost use Rattle.lan_arrow.specs.Flat.{TableAt, IsTable, vtable_of, own_of};

    ghost Value = { TableAt };

    ghost view = { λ table. record { buffer = table.view; at = table.at } };

    ghost invariant = { λ table. IsTable table.view.bytes table.at × (table.vtable ≡ vtable_of table.view.bytes table.at) × (table.own ≡ own_of table.view.bytes table.at) };
}

impl<'a> Tab<'a> {
    /// The table at a place of the buffer. Refused where a part of it passes the buffer: its head of four bytes, its
    /// vtable, or the size that the vtable states. The fault has the table's place in the object, or the greatest
    /// number where that has over 64 bits.
    #[tactic(auto, unfolding(crate::specs::Flat::vtable_of, crate::specs::Flat::own_of))]
    pub fn open(view: View<'a>, at: u64) -> Result<Tab<'a>, ArrowFault>
        ensures table { IfOk result (λ table. table ≡ record { buffer = view.entry; at = at }) }
        ensures stands { IfOk result (λ _. IsTable view.entry.bytes at) }
        ensures refused { IfErr result (λ _. ¬ IsTable view.entry.bytes at) }
        ensures fault { IfErr result (λ e. view.entry.base + at < 2 ^ 64 → e ≡ ArrowFault.Table (view.entry.base + at)) }
        ensures far { IfErr result (λ e. 2 ^ 64 ≤ view.entry.base + at → e ≡ ArrowFault.Table (2 ^ 64 - 1)) }
    {
        let size = view.len();
        let fault = ArrowFault::Table(view.base().saturating_add(at));
        if at > size {
            return Err(fault);
        }
        let Some(back) = four_at(&view, at) else {
            return Err(fault);
        };
        let back = u64::from(back);
        if back < 0x8000_0000 && back > at {
            return Err(fault);
        }
        let vtable = if back < 0x8000_0000 {
            at - back
        } else {
            at + 0x1_0000_0000 - back
        };
        let Some(own) = two_at(&view, vtable) else {
            return Err(fault);
        };
        let Some(body) = two_at(&view, vtable + 2) else {
            return Err(fault);
        };
        let own = u64::from(own);
        if own > size - vtable || u64::from(body) > size - at {
            return Err(fault);
        }
        Ok(Tab {
            view,
            at,
            vtable,
            own,
        })
    }

    // The field's place behind the table's, or 0 where it is absent.
    #[tactic(auto, unfolding(crate::specs::Flat::offset_of, crate::specs::Flat::own_of))]
    fn offset(&self, field: u16) -> u64
        ensures value { result ≡ offset_of self.now.buffer.bytes self.now.at field }
        ensures small { result < 2 ^ 16 }
        ensures in_range { self.now.buffer.base + length self.now.buffer.bytes ≤ 2 ^ 63 }
        ensures inside { self.now.at + 4 ≤ length self.now.buffer.bytes }
    {
        let _size = self.view.len();
        let entry = u64::from(field) * 2 + 4;
        if entry + 2 > self.own {
            return 0;
        }
        match two_at(&self.view, self.vtable + entry) {
            Some(offset) => u64::from(offset),
            None => 0,
        }
    }

    // The fault of a part that lies so far behind the table's place.
    fn fault(&self, offset: u64) -> ArrowFault
        requires small { offset < 2 ^ 16 }
        ensures { result ≡ ArrowFault.Table (self.now.buffer.base + (self.now.at + offset)) }
    {
        let _size = self.view.len();
        ArrowFault::Table(self.view.base() + self.at + offset)
    }

    /// The `width` bytes of a field, by its number, lent from the buffer. None where the field is absent, and refused
    /// where its bytes pass the buffer.
    pub fn part(&self, field: u16, width: u64) -> Result<Option<View<'a>>, ArrowFault>
        ensures absent { IfOk result (λ part. MatchOption part (offset_of self.now.buffer.bytes self.now.at field ≡ 0) (λ _. offset_of self.now.buffer.bytes self.now.at field ≢ 0)) }
        ensures holds { IfOk result (λ _. Holds self.now.buffer.bytes self.now.at field width) }
        ensures lent { IfOk result (λ part. IfSome part (λ bytes. bytes ≡ part_of self.now.buffer (place_of self.now.buffer.bytes self.now.at field) width)) }
        ensures refused { IfErr result (λ e. FieldPast self.now.buffer self.now.at field width e) }
    {
        let offset = self.offset(field);
        if offset == 0 {
            return Ok(None);
        }
        match self.view.cut(self.at + offset, width) {
            Some(part) => Ok(Some(part)),
            None => Err(self.fault(offset)),
        }
    }

    // The field's number of one byte, which is 0 where it is absent.
    #[tactic(auto, unfolding(crate::specs::Flat::one_in))]
    pub(crate) fn one(&self, field: u16) -> Result<u8, ArrowFault>
        ensures holds { IfOk result (λ _. Holds self.now.buffer.bytes self.now.at field 1) }
        ensures value { IfOk result (λ n. n ≡ one_in self.now.buffer.bytes self.now.at field) }
        ensures refused { IfErr result (λ e. FieldPast self.now.buffer self.now.at field 1 e) }
    {
        let offset = self.offset(field);
        if offset == 0 {
            return Ok(0);
        }
        match self.view.u8_at(self.at + offset) {
            Some(number) => Ok(number),
            None => Err(self.fault(offset)),
        }
    }

    // The field's number of two bytes, which is 0 where it is absent.
    #[tactic(auto, unfolding(crate::specs::Flat::two_in))]
    pub(crate) fn two(&self, field: u16) -> Result<u16, ArrowFault>
        ensures holds { IfOk result (λ _. Holds self.now.buffer.bytes self.now.at field 2) }
        ensures value { IfOk result (λ n. n ≡ two_in self.now.buffer.bytes self.now.at field) }
        ensures refused { IfErr result (λ e. FieldPast self.now.buffer self.now.at field 2 e) }
    {
        let offset = self.offset(field);
        if offset == 0 {
            return Ok(0);
        }
        match two_at(&self.view, self.at + offset) {
            Some(number) => Ok(number),
            None => Err(self.fault(offset)),
        }
    }

    // The field's number of four bytes, which is 0 where it is absent.
    #[tactic(auto, unfolding(crate::specs::Flat::four_in))]
    pub(crate) fn four(&self, field: u16) -> Result<u32, ArrowFault>
        ensures holds { IfOk result (λ _. Holds self.now.buffer.bytes self.now.at field 4) }
        ensures value { IfOk result (λ n. n ≡ four_in self.now.buffer.bytes self.now.at field) }
        ensures refused { IfErr result (λ e. FieldPast self.now.buffer self.now.at field 4 e) }
    {
        let offset = self.offset(field);
        if offset == 0 {
            return Ok(0);
        }
        match four_at(&self.view, self.at + offset) {
            Some(number) => Ok(number),
            None => Err(self.fault(offset)),
        }
    }

    // The field's number of eight bytes, which is 0 where it is absent.
    #[tactic(auto, unfolding(crate::specs::Flat::eight_in))]
    pub(crate) fn eight(&self, field: u16) -> Result<u64, ArrowFault>
        ensures holds { IfOk result (λ _. Holds self.now.buffer.bytes self.now.at field 8) }
        ensures value { IfOk result (λ n. n ≡ eight_in self.now.buffer.bytes self.now.at field) }
        ensures refused { IfErr result (λ e. FieldPast self.now.buffer self.now.at field 8 e) }
    {
        let offset = self.offset(field);
        if offset == 0 {
            return Ok(0);
        }
        match eight_at(&self.view, self.at + offset) {
            Some(number) => Ok(number),
            None => Err(self.fault(offset)),
        }
    }

    // Whether the field is absent.
    pub(crate) fn lacks(&self, field: u16) -> bool
        ensures { IsTrue result ↔ (offset_of self.now.buffer.bytes self.now.at field ≡ 0) }
    {
        self.offset(field) == 0
    }

    // The place that the field's reference leads to.
    #[tactic(auto, unfolding(crate::specs::Flat::target_at))]
    fn target(&self, field: u16) -> Result<u64, ArrowFault>
        ensures there { IfOk result (λ _. offset_of self.now.buffer.bytes self.now.at field ≢ 0) }
        ensures reference { IfOk result (λ _. place_of self.now.buffer.bytes self.now.at field + 4 ≤ length self.now.buffer.bytes) }
        ensures value { IfOk result (λ n. n ≡ target_of self.now.buffer.bytes self.now.at field) }
        ensures small { IfOk result (λ n. self.now.buffer.base + n < 2 ^ 64) }
        ensures refused { IfErr result (λ e. NoReference self.now.buffer self.now.at field e) }
    {
        let offset = self.offset(field);
        let fault = self.fault(offset);
        if offset == 0 {
            return Err(fault);
        }
        let place = self.at + offset;
        match four_at(&self.view, place) {
            Some(number) => Ok(place + u64::from(number)),
            None => Err(fault),
        }
    }

    // The table of a field that needs one.
    pub(crate) fn table(&self, field: u16) -> Result<Tab<'a>, ArrowFault>
        ensures there { IfOk result (λ _. HasTable self.now.buffer.bytes self.now.at field) }
        ensures table { IfOk result (λ table. table ≡ record { buffer = self.now.buffer; at = target_of self.now.buffer.bytes self.now.at field }) }
        ensures refused { IfErr result (λ _. ¬ HasTable self.now.buffer.bytes self.now.at field) }
        ensures fault { IfErr result (λ e. TableLacks self.now.buffer self.now.at field e) }
    {
        let at = self.target(field)?;
        Tab::open(self.view.again(), at)
    }

    // The vector of a field that needs one, of elements of that width.
    pub(crate) fn vector(&self, field: u16, width: u64) -> Result<Vecs<'a>, ArrowFault>
        ensures there { IfOk result (λ _. HasVector self.now.buffer.bytes self.now.at field width) }
        ensures vector { IfOk result (λ vector. vector ≡ record { buffer = self.now.buffer; at = target_of self.now.buffer.bytes self.now.at field; width = width }) }
        ensures refused { IfErr result (λ _. ¬ HasVector self.now.buffer.bytes self.now.at field width) }
        ensures fault { IfErr result (λ e. VectorLacks self.now.buffer self.now.at field width e) }
    {
        let at = self.target(field)?;
        Vecs::open(self.view.again(), at, width)
    }

    // How many elements the vector of a field has, which are none where it is absent.
    #[tactic(auto, unfolding(crate::specs::Flat::count_in))]
    pub(crate) fn count(&self, field: u16, width: u64) -> Result<u64, ArrowFault>
        ensures there { IfOk result (λ _. MayHaveVector self.now.buffer.bytes self.now.at field width) }
        ensures count { IfOk result (λ n. n ≡ count_in self.now.buffer.bytes self.now.at field) }
        ensures refused { IfErr result (λ _. ¬ MayHaveVector self.now.buffer.bytes self.now.at field width) }
        ensures fault { IfErr result (λ e. VectorPast self.now.buffer self.now.at field width e) }
    {
        if self.lacks(field) {
            return Ok(0);
        }
        let vector = self.vector(field, width)?;
        Ok(vector.len())
    }
}
