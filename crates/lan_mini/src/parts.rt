ghost use Rattle.std.specs.Prelude.{◌≡◌, ◌+◌, ◌<◌, ◌≤◌, length, drop, slice_index};
ghost use Rattle.lan_levels.specs.PlainSlots.{plain_slot};
ghost use Rattle.lan_levels.specs.ChunkSlots.{value_count, has_value, one_if};
ghost use Rattle.lan_mini.specs.Form.{plain_form};
ghost use Rattle.lan_mini.specs.Cutting.{AreParts, pieces_of, reps_of, defs_of};
ghost use Rattle.lan_mini.specs.Walk.{slots_of, slot_with, SameParts};

use crate::form::Form;
use crate::levels::{Levels, state_named, values_of};
use crate::values::Values;
use lan_levels::{Piece, Slot, State};

/// What a chunk's slots are made of.
#[derive(Drop)]
pub struct Parts<'a> {
    pub form: Form<'a>,
    pub reps: Levels<'a>,
    pub defs: Levels<'a>,
    pub values: Values<'a>,
    /// How many slots there are.
    pub count: u64,
}

/// A slot, and how many values it has in the value buffer.
#[derive(Clone, Copy)]
pub struct Taken<'a> {
    pub slot: Slot<'a>,
    pub values: u64,
}

impl<'a> Parts<'a> {
    /// The slot of the number `i`, before which `values` values stand.
    #[inline(always)]
    pub fn slot(&self, i: u64, values: u64) -> Taken<'a>
        requires parts { AreParts self.now }
        requires within { i < self.now.count }
        requires values { values + value_count (plain_form self.now.form) (drop i (defs_of self.now)) ≡ length (pieces_of self.now.values) }
        ensures slot { plain_slot result.slot ≡ slot_with (plain_form self.now.form) (slice_index (reps_of self.now) i) (slice_index (defs_of self.now) i) (drop values (pieces_of self.now.values)) }
        ensures values { result.values ≡ one_if (has_value (plain_form self.now.form) (slice_index (defs_of self.now) i)) }
        ensures few { values + result.values ≤ length (pieces_of self.now.values) }
    {
        let def = self.defs.at(i);
        let state = state_named(&self.form, def);
        let value = match state {
            State::Here => self.values.at(values),
            _ => Piece::Nothing,
        };
        let slot = Slot {
            rep: self.reps.at(i),
            state,
            value,
        };
        Taken {
            slot,
            values: values_of(&self.form, state, def),
        }
    }

    /// The same parts, once more.
    pub fn again(&self) -> Parts<'a>
        requires { AreParts self.now }
        ensures parts { AreParts result }
        ensures slots { slots_of result ≡ slots_of self.now }
        ensures same { SameParts result self.now }
    {
        Parts {
            form: self.form,
            reps: self.reps,
            defs: self.defs,
            values: self.values.again(),
            count: self.count,
        }
    }
}
