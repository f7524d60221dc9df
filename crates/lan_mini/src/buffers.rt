ghost use Rattle.std.specs.Prelude.{◌≡◌, ◌+◌, ◌*◌, ◌^◌, ◌<◌, ◌≤◌, cond, length, take, drop, IsTrue, IfOk, IfErr};
ghost use Rattle.lan_levels.specs.Chunks.{small_chunks};
ghost use Rattle.lan_levels.specs.ChunkSlots.{buffer_len, buffer_end, buffer_bytes, header_number};
ghost use Rattle.lan_mini.specs.Form.{IsForm, plain_form};
ghost use Rattle.lan_mini.specs.Cutting.{plain_buffer, level_list, AreBuffers, FewLevels};
ghost use Rattle.lan_mini.specs.Placing.{IsPlaced, LevelIs, EndPasses, BadLevel};
ghost use Rattle.lan_mini.specs.Refusals.{BuffersStand};

use crate::fault::ChunkFault;
use crate::form::Form;
use crate::levels::Levels;
use lan_bytes::View;

/// How many bytes the header has: the number of slots and up to three lengths, two bytes each, padded
/// to eight.
const HEADER: u64 = 8;

/// Whether a buffer is stored, its number among those that are, counted from 0, and where it begins.
#[derive(Clone, Copy)]
pub struct Place {
    pub stored: bool,
    pub number: u8,
    pub at: u64,
}

/// The buffers of a chunk, and where the last one ends.
#[derive(Clone, Copy)]
pub struct Buffers<'a> {
    pub reps: Levels<'a>,
    pub defs: Levels<'a>,
    pub values: &'a [u8],
    pub end: u64,
}

/// The numbers of a level, and where their buffer ends.
#[derive(Clone, Copy)]
struct Level<'a> {
    numbers: Levels<'a>,
    end: u64,
}

impl<'a> Buffers<'a> {
    /// The buffers of the chunk of so many slots that the bytes are.
    pub fn cut(view: &View<'a>, form: &Form<'_>, slots: u64) -> Result<Buffers<'a>, ChunkFault>
        requires { IsForm form.now }
        ensures ok { IfOk result (AreBuffers (plain_form form.now) slots view.now.bytes) }
        ensures cause { IfErr result (BuffersStand (plain_form form.now) slots view.now.bytes) }
    {
        if view.len() < HEADER {
            return Err(ChunkFault::Header);
        }
        if u64::from(header_number(view, 0)) != slots {
            return Err(ChunkFault::Count);
        }
        let place = Place {
            stored: form.has_reps(),
            number: 0,
            at: HEADER,
        };
        let reps = cut_level(view, place, slots)?;
        let place = place.behind(reps.end, form.has_defs());
        let defs = cut_level(view, place, slots)?;
        let place = place.behind(defs.end, form.has_values());
        let end = buffer_end(view, place)?;
        Ok(Buffers {
            reps: reps.numbers,
            defs: defs.numbers,
            values: buffer_bytes(view, place),
            end,
        })
    }
}

impl Place {
    /// The place of the buffer behind this one, which ends at `end`.
    fn behind(self, end: u64, stored: bool) -> Place
        requires { self.number ≤ 1 }
        ensures stored { result.stored ≡ stored }
        ensures number { result.number ≡ self.number + cond self.stored 1 0 }
        ensures at { result.at ≡ end }
    {
        let number = if self.stored {
            self.number + 1
        } else {
            self.number
        };
        Place {
            stored,
            number,
            at: end,
        }
    }
}

/// The number of that place in the header, counted from 0.
fn header_number(view: &View<'_>, k: u8) -> u16
    requires few { k ≤ 3 }
    requires room { 8 ≤ length view.now.bytes }
    ensures { result ≡ header_number small_chunks view.now.bytes k }
{
    match view.u16_at(2 * u64::from(k)) {
        Some(number) => number,
        None => 0,
    }
}

/// Where what follows a buffer begins.
fn buffer_end(view: &View<'_>, place: Place) -> Result<u64, ChunkFault>
    requires { IsPlaced place view.now.bytes }
    ensures ok { IfOk result (λ end. end ≡ buffer_end small_chunks view.now.bytes (plain_buffer place)) }
    ensures within { IfOk result (λ end. end ≤ length view.now.bytes) }
    ensures err { IfErr result (EndPasses place view.now.bytes) }
{
    let len = u64::from(header_number(view, place.number + 1));
    if !place.stored {
        return Ok(place.at);
    }
    let end = place.at + (len + 7) / 8 * 8;
    if end > view.len() {
        return Err(ChunkFault::Buffer(place.number));
    }
    Ok(end)
}

/// The bytes of a buffer; none where it isn't stored.
fn buffer_bytes<'a>(view: &View<'a>, place: Place) -> &'a [u8]
    requires place { IsPlaced place view.now.bytes }
    requires within { buffer_end small_chunks view.now.bytes (plain_buffer place) ≤ length view.now.bytes }
    ensures value { result.now ≡ buffer_bytes small_chunks view.now.bytes (plain_buffer place) }
    ensures few { length result.now ≤ 2 ^ 63 }
{
    if !place.stored {
        return &[];
    }
    let len = header_number(view, place.number + 1) as usize;
    let (_, later) = view.bytes().split_at(place.at as usize);
    let (bytes, _) = later.split_at(len);
    bytes
}

/// The numbers of a level of so many slots.
fn cut_level<'a>(view: &View<'a>, place: Place, slots: u64) -> Result<Level<'a>, ChunkFault>
    requires place { IsPlaced place view.now.bytes }
    requires few { slots < 2 ^ 16 }
    ensures ok { IfOk result (LevelIs place slots view.now.bytes) }
    ensures err { IfErr result (BadLevel place slots view.now.bytes) }
{
    let end = buffer_end(view, place)?;
    let bytes = buffer_bytes(view, place);
    if !place.stored {
        return Ok(Level {
            numbers: Levels::Zero,
            end,
        });
    }
    if bytes.len() as u64 != 2 * slots {
        return Err(ChunkFault::Buffer(place.number));
    }
    Ok(Level {
        numbers: Levels::Stored(bytes),
        end,
    })
}
