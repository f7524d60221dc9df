ghost use Rattle.std.specs.Prelude.{◌≡◌, [], ◌∷◌, ◌+◌, ◌-◌, ◌^◌, ◌*◌, ◌<◌, ◌≤◌, All, cond, length};
ghost use Rattle.lan_bytes.specs.Padding.{padded};
ghost use Rattle.lan_levels.specs.PlainSlots.{plain_piece, plain_slot};
ghost use Rattle.lan_levels.specs.MiniWritten.{value_len, buffer_size};
ghost use Rattle.lan_mini.specs.Form.{IsForm, plain_form, plain_storing};
ghost use Rattle.lan_mini.specs.Building.{CanChunk, IsTotal, range, sized};

use crate::form::{Form, Storing};
use lan_levels::{Piece, Slot, SlotBuf, is_bare};

/// How many values some slots have in the value buffer, and how many bytes these have, a bool counted
/// as one.
#[derive(Clone, Copy)]
pub struct Total {
    pub values: u64,
    pub bytes: u64,
}

impl Total {
    /// Of the slots from `from` to before `to`.
    pub fn of(form: &Form<'_>, slots: &SlotBuf, from: u64, to: u64) -> Total
        requires form { IsForm form.now }
        requires front { from ≤ to }
        requires end { to ≤ length slots.now }
        requires few { to - from ≤ 4096 }
        requires slots { All (CanChunk (plain_form form.now)) (range slots.now from to) }
        ensures { IsTotal (plain_form form.now) (range slots.now from to) result }
    {
        let mut total = Total {
            values: 0,
            bytes: 0,
        };
        for i in from..to {
            total = total.and(Total::of_slot(form, slots.slot(i)));
        }
        total
    }

    /// Of one slot.
    fn of_slot(form: &Form<'_>, slot: Slot<'_>) -> Total
        requires { CanChunk (plain_form form.now) (plain_slot slot) }
        ensures { IsTotal (plain_form form.now) (plain_slot slot.entry ∷ []) result }
    {
        if is_bare(form.leaf, slot.state) {
            return Total {
                values: 0,
                bytes: 0,
            };
        }
        Total {
            values: 1,
            bytes: value_len(form.values, slot.value),
        }
    }

    /// Of these slots and those behind them.
    pub fn and(self, later: Total) -> Total
        requires values { self.values + later.values < 2 ^ 32 }
        requires bytes { self.bytes + later.bytes < 2 ^ 32 }
        ensures values { result.values ≡ self.values + later.values }
        ensures bytes { result.bytes ≡ self.bytes + later.bytes }
    {
        Total {
            values: self.values + later.values,
            bytes: self.bytes + later.bytes,
        }
    }

    /// How many bytes the buffer of the values has.
    pub fn buffer_size(self, form: &Form<'_>) -> u64
        requires values { self.values < 2 ^ 32 }
        requires bytes { self.bytes < 2 ^ 32 }
        ensures { result ≡ buffer_size (plain_form form.now).values self.values self.bytes }
    {
        match form.values {
            Storing::Flat(_) => self.bytes,
            Storing::Bools => (self.values + 7) / 8,
            Storing::Variable => 4 * (self.values + 1) + self.bytes,
            Storing::Always(_) => 0,
        }
    }

    /// How many bytes a chunk of so many slots has, which have these values.
    pub fn chunk_size(self, form: &Form<'_>, slots: u64) -> u64
        requires form { IsForm form.now }
        requires slots { slots < 2 ^ 32 }
        requires values { self.values < 2 ^ 32 }
        requires bytes { self.bytes < 2 ^ 32 }
        ensures { result ≡ sized (plain_form form.now) slots self.values self.bytes }
    {
        8 + padded_if(form.has_reps(), 2 * slots)
            + padded_if(form.has_defs(), 2 * slots)
            + padded_if(form.has_values(), self.buffer_size(form))
    }
}

/// How many bytes a buffer of so many has with its padding, where it is stored.
fn padded_if(stored: bool, len: u64) -> u64
    requires { len < 2 ^ 40 }
    ensures value { result ≡ cond stored (padded len) 0 }
    ensures few { result < 2 ^ 40 + 8 }
{
    if stored { (len + 7) / 8 * 8 } else { 0 }
}

/// How many bytes a value has.
fn value_len(storing: Storing<'_>, value: Piece<'_>) -> u64
    ensures { result ≡ value_len (plain_storing storing.entry) (plain_piece value.entry) }
{
    match storing {
        Storing::Flat(width) => width,
        Storing::Bools => 1,
        Storing::Variable => match value {
            Piece::Bytes(bytes) => bytes.len() as u64,
            _ => 0,
        },
        Storing::Always(_) => 0,
    }
}
