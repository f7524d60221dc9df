ghost use Rattle.std.specs.Prelude.{◌≡◌, ℕ, ◌+◌, ◌*◌, ◌^◌, ◌<◌, ◌≤◌, length, slice_get, slice_index, unwrap_or, IfOk, IfErr};
ghost use Rattle.lan_levels.specs.declared.slot.State.TheVariants as state;
ghost use Rattle.lan_levels.specs.ChunkSlots.{LevelsFit, LevelFits, state_named, has_value, value_count, one_if};
ghost use Rattle.lan_mini.specs.Form.{IsForm, plain_form};
ghost use Rattle.lan_mini.specs.Cutting.{level_list, FewLevels, TooGreat};

use crate::fault::ChunkFault;
use crate::form::Form;
use lan_bytes::View;
use lan_levels::{State, is_bare, state_of};

/// The repetition numbers or the definition numbers of a chunk's slots.
#[derive(Clone, Copy)]
pub enum Levels<'a> {
    /// Two bytes a slot, low byte first.
    Stored(&'a [u8]),
    /// The chunk stores none: each is 0.
    Zero,
}

impl<'a> Levels<'a> {
    /// The number of a slot, counted from 0.
    #[inline(always)]
    pub fn at(&self, i: u64) -> u16
        requires few { FewLevels self.now }
        requires small { i < 2 ^ 32 }
        ensures { (n : ℕ) → result ≡ slice_index (level_list n self.now) i }
    {
        match self {
            Levels::Stored(bytes) => match View::new(0, bytes).u16_at(2 * i) {
                Some(number) => number,
                None => 0,
            },
            Levels::Zero => 0,
        }
    }
}

/// The state of a definition number.
#[inline(always)]
pub fn state_named(form: &Form<'_>, number: u16) -> State
    requires { IsForm form.now }
    ensures { result ≡ state_named (plain_form form.now).states number }
{
    match state_of(form.codes, number) {
        Some(state) => state,
        None => State::Here,
    }
}

/// How many values a slot in that state has in the value buffer.
#[inline(always)]
pub fn values_of(form: &Form<'_>, state: State, number: u16) -> u64
    requires { state ≡ state_named (plain_form form.now).states number }
    ensures value { result ≡ one_if (has_value (plain_form form.now) number) }
    ensures few { result ≤ 1 }
{
    if is_bare(form.leaf, state) { 0 } else { 1 }
}

/// How many values the slots with these levels have in the value buffer. A level that is too great is
/// refused.
pub fn count_values(
    form: &Form<'_>,
    slots: u64,
    reps: Levels<'_>,
    defs: Levels<'_>,
) -> Result<u64, ChunkFault>
    requires form { IsForm form.now }
    requires slots { slots < 2 ^ 16 }
    requires reps { FewLevels reps }
    requires defs { FewLevels defs }
    requires count { length (level_list slots defs) ≡ slots }
    ensures count { IfOk result (λ n. n ≡ value_count (plain_form form.now) (level_list slots defs.entry)) }
    ensures fit { IfOk result (λ _. LevelsFit (plain_form form.now) (level_list slots reps.entry) (level_list slots defs.entry) slots) }
    ensures cause { IfErr result (TooGreat (plain_form form.now) (level_list slots reps.entry) (level_list slots defs.entry) slots) }
{
    let mut count = 0;
    for i in 0..slots {
        let def = defs.at(i);
        if reps.at(i) > form.lists || def > form.greatest {
            return Err(ChunkFault::Level(i));
        }
        count += values_of(form, state_named(form, def), def);
    }
    Ok(count)
}
