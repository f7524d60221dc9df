ghost use Rattle.std.specs.Prelude.{◌≡◌, [], ◌∷◌, ◌++◌, ◌<◌, ◌≤◌, ℕ, List as Sequence, length, slice_get, Some, IfOk, OnOk, OnErr};
ghost use Rattle.lan_levels.specs.PlainSlots.{plain_piece, plain_slot, range};
ghost use Rattle.lan_levels.specs.ZipSlots.{starts};
ghost use Rattle.lan_levels.specs.Kept.{kept_piece, IsWithin, Keeping};

use crate::slot::{Piece, Slot, State};
use lan_model::{Blob, List};
use std::alloc::{AllocError, Global};
use std::marker::Model;

/// A kept value; its bytes are those from `0` to before `1` of all that are kept.
#[derive(Drop)]
enum Held {
    Nothing,
    Bit(bool),
    Bytes(usize, usize),
}

#[derive(Drop)]
struct Kept {
    rep: u16,
    state: State,
    value: Held,
}

/// Owned slots, which contracts see as the list of the slots.
///
/// The bytes of all values stand in one list, so a slot costs no allocation of its own.
#[derive(Drop)]
pub struct SlotBuf {
    kept: List<Kept>,
    bytes: Blob,
}

impl Model for SlotBuf {
    ghost use Rattle.std.specs.Prelude.{List as Sequence, length};
    ghost use Rattle.lan_levels.specs.PlainSlots.{PlainSlot};
    ghost use Rattle.lan_levels.specs.Kept.{kept_slots, AreWithin};

    ghost Value = { Sequence PlainSlot };

    ghost view = { λ b. kept_slots b.bytes b.kept };

    ghost invariant = { λ b. AreWithin (length b.bytes) b.kept };
}

impl SlotBuf {
    pub fn new(alloc: Global) -> SlotBuf
        ensures { result ≡ [] }
    {
        SlotBuf {
            kept: List::new(alloc),
            bytes: Blob::new(alloc),
        }
    }

    /// How many slots there are.
    pub fn len(&self) -> u64
        ensures { result ≡ length self.now }
    {
        self.kept.len()
    }

    /// Adds the slot, with a copy of its value.
    pub fn push(&mut self, slot: Slot<'_>) -> Result<(), AllocError>
        ensures ok { OnOk result (self.new ≡ self.old ++ plain_slot slot.entry ∷ []) }
        ensures err { OnErr result (self.new ≡ self.old) }
    {
        let value = keep(&mut self.bytes, slot.value)?;
        self.kept.push(Kept {
            rep: slot.rep,
            state: slot.state,
            value,
        })
    }

    /// Lends the slot at a place, counted from 0.
    pub fn slot(&self, i: u64) -> Slot<'_>
        requires { i < length self.now }
        ensures { slice_get self.now i ≡ Some (plain_slot result) }
    {
        let kept = self.kept.at(i);
        Slot {
            rep: kept.rep,
            state: kept.state,
            value: lent(self.bytes.as_slice(), &kept.value),
        }
    }

    /// Lends the slots from `from` to before `to`.
    pub fn part(&self, from: u64, to: u64) -> SlotPart<'_>
        requires front { from ≤ to }
        requires end { to ≤ length self.now }
        ensures { result ≡ range self.now from to }
    {
        SlotPart {
            all: self,
            from,
            to,
        }
    }
}

/// Slots of a buffer that stand one after another. A contract sees their list.
#[derive(Drop)]
pub struct SlotPart<'a> {
    all: &'a SlotBuf,
    from: u64,
    to: u64,
}

impl<'a> Model for SlotPart<'a> {
    ghost use Rattle.std.specs.Prelude.{List as Sequence, ◌<◌, ◌≤◌, ◌^◌, length};
    ghost use Rattle.lan_levels.specs.PlainSlots.{PlainSlot, range};

    ghost Value = { Sequence PlainSlot };

    ghost view = { λ p. range p.all.now p.from p.to };

    ghost invariant = { λ p. (p.from ≤ p.to) × (p.to ≤ length p.all.now) × (p.to < 2 ^ 64) };
}

impl<'a> SlotPart<'a> {
    /// How many slots there are.
    pub fn len(&self) -> u64
        ensures { result ≡ length self.now }
    {
        self.to - self.from
    }

    /// Lends the slot at a place, counted from 0.
    pub fn slot(&self, i: u64) -> Slot<'a>
        requires { i < length self.now }
        ensures { slice_get self.now i ≡ Some (plain_slot result) }
    {
        self.all.slot(self.from + i)
    }

    /// How many rows begin with the slots, of a leaf with so many list layers.
    pub fn row_starts(&self, lists: u16) -> u64
        ensures { result ≡ starts lists self.now }
    {
        let mut count = 0;
        for i in 0..self.len() {
            count += self.slot(i).row_start(lists);
        }
        count
    }
}

/// Adds a value's bytes to those that are kept.
fn keep(bytes: &mut Blob, piece: Piece<'_>) -> Result<Held, AllocError>
    ensures ok { IfOk result (Keeping bytes.old bytes.new (plain_piece piece.entry)) }
    ensures err { OnErr result (bytes.new ≡ bytes.old) }
{
    match piece {
        Piece::Nothing => Ok(Held::Nothing),
        Piece::Bit(bit) => Ok(Held::Bit(bit)),
        Piece::Bytes(value) => {
            let at = bytes.len() as usize;
            bytes.extend(value)?;
            Ok(Held::Bytes(at, bytes.len() as usize))
        }
    }
}

fn lent<'a>(bytes: &'a [u8], value: &Held) -> Piece<'a>
    requires { IsWithin (length bytes.now) value.now }
    ensures { plain_piece result ≡ kept_piece bytes.now value.now }
{
    match value {
        Held::Nothing => Piece::Nothing,
        Held::Bit(bit) => Piece::Bit(*bit),
        Held::Bytes(at, past) => Piece::Bytes(&bytes[*at..*past]),
    }
}
