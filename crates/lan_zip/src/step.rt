ghost use Rattle.std.specs.Prelude.{◌≡◌, ◌%◌, ◌^◌, ◌≤◌, length, slice_get};
ghost use Rattle.lan_levels.specs.declared.slot.State.TheVariants as state;
ghost use Rattle.lan_zip.specs.Form.{IsForm, plain_form};
ghost use Rattle.lan_zip.specs.Walk.{plain_step, plain_part};
ghost use Rattle.lan_levels.specs.ZipSlots.{first_slot, with_value, value_part, sized_part, slot_value, word_number};

use crate::form::Form;
use lan_levels::{Piece, Slot, State, ValueForm, is_bare, state_of};

/// What stands at the front of some bytes: a slot and the bytes behind it, or why there is none.
#[derive(Clone, Copy)]
pub enum Step<'a> {
    Cut,
    Level,
    Slot(Slot<'a>, &'a [u8]),
}

/// A value and the bytes behind it.
#[derive(Clone, Copy)]
pub struct Found<'a> {
    pub value: Piece<'a>,
    pub rest: &'a [u8],
}

/// The slot at the front of the bytes.
// A walk asks for each slot here. A call that isn't inlined hands its slot over through memory.
#[inline(always)]
pub fn first_slot<'a>(form: &Form<'_>, bytes: &'a [u8]) -> Step<'a>
    requires { IsForm form.now }
    ensures { plain_step result ≡ first_slot (plain_form form.now) bytes.now }
{
    if form.word == 0 {
        return with_value(form, 0, State::Here, bytes);
    }
    worded_slot(form, bytes)
}

/// The slot at the front of the bytes, read by its control word.
#[inline(always)]
fn worded_slot<'a>(form: &Form<'_>, bytes: &'a [u8]) -> Step<'a>
    requires { IsForm form.now }
    ensures { plain_step result ≡ first_slot (plain_form form.now) bytes.now }
{
    let width = form.word as usize;
    if bytes.len() < width {
        return Step::Cut;
    }
    let (word, rest) = bytes.split_at(width);
    let number = word_number(word);
    match word_state(form, number) {
        None => Step::Level,
        Some(state) => with_value(form, number >> u32::from(form.bits), state, rest),
    }
}

/// The state that the definition number of a control word stands for.
#[inline(always)]
fn word_state(form: &Form<'_>, number: u16) -> Option<State>
    requires { IsForm form.now }
    ensures { result ≡ slice_get (plain_form form.now).states (number % 2 ^ (plain_form form.now).bits) }
{
    state_of(form.codes, number & form.mask)
}

/// The slot with these levels and the value at the front of the bytes.
#[inline(always)]
fn with_value<'a>(form: &Form<'_>, rep: u16, state: State, bytes: &'a [u8]) -> Step<'a>
    ensures { plain_step result ≡ with_value (plain_form form.now) rep state (slot_value (plain_form form.now) state bytes.now) }
{
    match slot_value(form, state, bytes) {
        None => Step::Cut,
        Some(found) => {
            if form.lists < rep {
                return Step::Level;
            }
            Step::Slot(
                Slot {
                    rep,
                    state,
                    value: found.value,
                },
                found.rest,
            )
        }
    }
}

/// The number of a control word, the lowest byte first.
#[inline(always)]
fn word_number(word: &[u8]) -> u16
    requires { length word.now ≤ 2 }
    ensures { result ≡ word_number word.now }
{
    match word {
        [] => 0,
        [one] => u16::from(*one),
        _ => u16::from_le_bytes([word[0], word[1]]),
    }
}

/// The value of a slot in that state, and the bytes behind it. None where it passes the end.
#[inline(always)]
fn slot_value<'a>(form: &Form<'_>, state: State, bytes: &'a [u8]) -> Option<Found<'a>>
    ensures { plain_part result ≡ slot_value (plain_form form.now) state bytes.now }
{
    if let State::Here = state {
        return value_part(form.value, bytes);
    }
    if is_bare(form.leaf, state) {
        return Some(Found {
            value: Piece::Nothing,
            rest: bytes,
        });
    }
    let found = value_part(form.value, bytes)?;
    Some(Found {
        value: Piece::Nothing,
        rest: found.rest,
    })
}

/// The value at the front of the bytes, and the bytes behind it.
#[inline(always)]
fn value_part<'a>(value: ValueForm, bytes: &'a [u8]) -> Option<Found<'a>>
    ensures { plain_part result ≡ value_part value bytes.now }
{
    match value {
        ValueForm::Bool => match bytes {
            [] => None,
            [byte, rest @ ..] => Some(Found {
                value: Piece::Bit(*byte != 0),
                rest,
            }),
        },
        ValueForm::Fixed(width) => sized_part(width, bytes),
        ValueForm::Variable => {
            if bytes.len() < 4 {
                return None;
            }
            let (b, rest) = bytes.split_at(4);
            sized_part(
                u64::from(u32::from_le_bytes([b[0], b[1], b[2], b[3]])),
                rest,
            )
        }
    }
}

/// So many bytes as a value, and the bytes behind them.
#[inline(always)]
fn sized_part<'a>(width: u64, bytes: &'a [u8]) -> Option<Found<'a>>
    ensures { plain_part result ≡ sized_part width bytes.now }
{
    if (bytes.len() as u64) < width {
        return None;
    }
    let (value, rest) = bytes.split_at(width as usize);
    Some(Found {
        value: Piece::Bytes(value),
        rest,
    })
}
