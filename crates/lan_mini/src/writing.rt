ghost use Rattle.std.specs.Prelude.{◌≡◌, [], ◌∷◌, ◌+◌, ◌-◌, ◌*◌, ◌^◌, ◌++◌, ◌<◌, ◌≤◌, cond, map, flat_map, length, All, Some, slice_get, OnOk};
ghost use Rattle.std.specs.List.{concat};
ghost use Rattle.lan_bytes.specs.Numbers.{low_first};
ghost use Rattle.lan_levels.specs.Chunks.{small_chunks};
ghost use Rattle.lan_levels.specs.PlainSlots.{plain_slot};
ghost use Rattle.lan_levels.specs.Values.{bools, variable};
ghost use Rattle.lan_levels.specs.ChunkForm.{has_reps, has_values};
ghost use Rattle.lan_levels.specs.MiniWritten.{carried, fixed_bytes, truth, text_bytes, value_buffer, stored_values, stored_size, zeros_behind, zero_padded, rep_bytes, chunk_size};
ghost use Rattle.lan_mini.specs.Form.{IsForm, plain_form};
ghost use Rattle.lan_mini.specs.Building.{CanChunk, HasNumber, IsTotal, Numbered, PutDefs, Chunked, header_numbers, header_len, range};

use crate::form::{Form, Storing};
use crate::measuring::Total;
use lan_bytes::Out;
use lan_levels::{Piece, Slot, SlotBuf, State, is_bare, number_of};
use lan_values::{VarBuf, put_bools, put_flat};
use std::alloc::{AllocError, Global};

/// Appends the chunk of the slots from `from` to before `to`, whose values have this total.
pub fn put_chunk(
    alloc: Global,
    form: &Form<'_>,
    slots: &SlotBuf,
    from: u64,
    to: u64,
    total: Total,
    out: &mut Out,
) -> Result<(), AllocError>
    requires form { IsForm form.now }
    requires front { from ≤ to }
    requires end { to ≤ length slots.now }
    requires few { to - from ≤ 4096 }
    requires slots { All (CanChunk (plain_form form.now)) (range slots.now from to) }
    requires total { IsTotal (plain_form form.now) (range slots.now from to) total }
    requires fits { chunk_size small_chunks (plain_form form.now) (range slots.now from to) ≤ 32768 }
    ensures { OnOk result (Chunked (plain_form form.now) (range slots.now from to) out.old out.new) }
{
    put_header(form, to - from, total.buffer_size(form), out)?;
    put_reps(form, slots, from, to, out)?;
    put_defs(form, slots, from, to, out)?;
    put_values(alloc, form, slots, from, to, out)
}

/// Appends the header of so many slots, whose values have so many bytes.
fn put_header(form: &Form<'_>, count: u64, size: u64, out: &mut Out) -> Result<(), AllocError>
    requires form { IsForm form.now }
    requires count { count ≤ 4096 }
    requires size { size < 65536 }
    ensures { OnOk result (out.new ≡ out.old ++ (header_numbers (plain_form form.now) count size ++ zeros_behind (header_len (plain_form form.now)))) }
{
    let start = out.len();
    out.num(count, 2)?;
    put_if(form.has_reps(), 2 * count, out)?;
    put_if(form.has_defs(), 2 * count, out)?;
    put_if(form.has_values(), size, out)?;
    pad(start, out)
}

/// Appends the length of a buffer, where it is stored.
fn put_if(stored: bool, len: u64, out: &mut Out) -> Result<(), AllocError>
    requires { len < 65536 }
    ensures { OnOk result (out.new ≡ out.old ++ cond stored (low_first 2 len) []) }
{
    if !stored {
        return Ok(());
    }
    out.num(len, 2)
}

/// Appends zeros, until what stands from `start` on is a multiple of 8.
fn pad(start: u64, out: &mut Out) -> Result<(), AllocError>
    requires { start ≤ length out.old }
    ensures { OnOk result (out.new ≡ out.old ++ zeros_behind (length out.old - start)) }
{
    let len = out.len() - start;
    let over = len % 8;
    if over == 0 {
        return Ok(());
    }
    out.zeros(8 - over)
}

/// Appends the buffer of repetition numbers, where it is stored.
fn put_reps(
    form: &Form<'_>,
    slots: &SlotBuf,
    from: u64,
    to: u64,
    out: &mut Out,
) -> Result<(), AllocError>
    requires front { from ≤ to }
    requires end { to ≤ length slots.now }
    ensures { OnOk result (out.new ≡ out.old ++ cond (has_reps (plain_form form.now)) (zero_padded (rep_bytes (range slots.now from to))) []) }
{
    if !form.has_reps() {
        return Ok(());
    }
    let start = out.len();
    put_rep_numbers(slots, from, to, out)?;
    pad(start, out)
}

/// Appends the repetition numbers.
fn put_rep_numbers(slots: &SlotBuf, from: u64, to: u64, out: &mut Out) -> Result<(), AllocError>
    requires front { from ≤ to }
    requires end { to ≤ length slots.now }
    ensures { OnOk result (out.new ≡ out.old ++ rep_bytes (range slots.now from to)) }
{
    for i in from..to {
        let slot = slots.slot(i);
        out.num(u64::from(slot.rep), 2)?;
    }
    Ok(())
}

/// Appends the buffer of definition numbers, where it is stored.
fn put_defs(
    form: &Form<'_>,
    slots: &SlotBuf,
    from: u64,
    to: u64,
    out: &mut Out,
) -> Result<(), AllocError>
    requires form { IsForm form.now }
    requires front { from ≤ to }
    requires end { to ≤ length slots.now }
    requires slots { All (CanChunk (plain_form form.now)) (range slots.now from to) }
    ensures { OnOk result (PutDefs (plain_form form.now) (range slots.now from to) out.old out.new) }
{
    if !form.has_defs() {
        return Ok(());
    }
    let start = out.len();
    put_def_numbers(form, slots, from, to, out)?;
    pad(start, out)
}

/// Appends the definition numbers.
fn put_def_numbers(
    form: &Form<'_>,
    slots: &SlotBuf,
    from: u64,
    to: u64,
    out: &mut Out,
) -> Result<(), AllocError>
    requires form { IsForm form.now }
    requires front { from ≤ to }
    requires end { to ≤ length slots.now }
    requires slots { All (CanChunk (plain_form form.now)) (range slots.now from to) }
    ensures { OnOk result (Numbered (plain_form form.now) (range slots.now from to) out.old out.new) }
{
    for i in from..to {
        let slot = slots.slot(i);
        out.num(u64::from(number(form, slot.state)), 2)?;
    }
    Ok(())
}

/// The number of a state that has one.
fn number(form: &Form<'_>, state: State) -> u16
    requires form { IsForm form.now }
    requires numbered { HasNumber (plain_form form.now).states state }
    ensures { slice_get (plain_form form.now).states result ≡ Some state }
{
    match number_of(form.codes, state) {
        Some(number) => number,
        None => 0,
    }
}

/// Appends the buffer of values, where it is stored.
fn put_values(
    alloc: Global,
    form: &Form<'_>,
    slots: &SlotBuf,
    from: u64,
    to: u64,
    out: &mut Out,
) -> Result<(), AllocError>
    requires front { from ≤ to }
    requires end { to ≤ length slots.now }
    requires size { stored_size (plain_form form.now) (range slots.now from to) < 65536 }
    ensures { OnOk result (out.new ≡ out.old ++ cond (has_values (plain_form form.now)) (zero_padded (stored_values (plain_form form.now).values (carried (plain_form form.now) (range slots.now from to)))) []) }
{
    if !form.has_values() {
        return Ok(());
    }
    let start = out.len();
    put_stored(alloc, form, slots, from, to, out)?;
    pad(start, out)
}

/// Appends the values as they are stored.
fn put_stored(
    alloc: Global,
    form: &Form<'_>,
    slots: &SlotBuf,
    from: u64,
    to: u64,
    out: &mut Out,
) -> Result<(), AllocError>
    requires front { from ≤ to }
    requires end { to ≤ length slots.now }
    requires size { stored_size (plain_form form.now) (range slots.now from to) < 65536 }
    ensures { OnOk result (out.new ≡ out.old ++ stored_values (plain_form form.now).values (carried (plain_form form.now) (range slots.now from to))) }
{
    match form.values {
        Storing::Flat(width) => put_fixed(form, width, slots, from, to, out),
        Storing::Bools => put_truths(alloc, form, slots, from, to, out),
        Storing::Variable => put_texts(alloc, form, slots, from, to, out),
        Storing::Always(_) => Ok(()),
    }
}

/// Appends values of so many bytes each.
fn put_fixed(
    form: &Form<'_>,
    width: u64,
    slots: &SlotBuf,
    from: u64,
    to: u64,
    out: &mut Out,
) -> Result<(), AllocError>
    requires front { from ≤ to }
    requires end { to ≤ length slots.now }
    ensures { OnOk result (out.new ≡ out.old ++ flat_map (fixed_bytes width) (carried (plain_form form.now) (range slots.now from to))) }
{
    for i in from..to {
        put_fixed_value(form, width, slots.slot(i), out)?;
    }
    Ok(())
}

/// Appends the value of a slot that has one, in so many bytes.
fn put_fixed_value(
    form: &Form<'_>,
    width: u64,
    slot: Slot<'_>,
    out: &mut Out,
) -> Result<(), AllocError>
    ensures { OnOk result (out.new ≡ out.old ++ flat_map (fixed_bytes width) (carried (plain_form form.now) (plain_slot slot.entry ∷ []))) }
{
    if is_bare(form.leaf, slot.state) {
        return Ok(());
    }
    match slot.value {
        Piece::Bytes(bytes) => put_flat(out, bytes),
        _ => out.zeros(width),
    }
}

/// Appends bools, eight in a byte.
fn put_truths(
    alloc: Global,
    form: &Form<'_>,
    slots: &SlotBuf,
    from: u64,
    to: u64,
    out: &mut Out,
) -> Result<(), AllocError>
    requires front { from ≤ to }
    requires end { to ≤ length slots.now }
    ensures { OnOk result (out.new ≡ out.old ++ value_buffer bools (carried (plain_form form.now) (range slots.now from to))) }
{
    let mut truths = Vec::new(alloc);
    for i in from..to {
        push_truth(form, slots.slot(i), &mut truths)?;
    }
    put_bools(out, &truths)
}

/// Adds the bool of a slot that has a value.
fn push_truth(form: &Form<'_>, slot: Slot<'_>, truths: &mut Vec<bool>) -> Result<(), AllocError>
    ensures { OnOk result (truths.new.items ≡ truths.old.items ++ map truth (carried (plain_form form.now) (plain_slot slot.entry ∷ []))) }
{
    if is_bare(form.leaf, slot.state) {
        return Ok(());
    }
    truths.push(matches!(slot.value, Piece::Bit(true)))?;
    Ok(())
}

/// Appends values of any length behind their offsets.
fn put_texts(
    alloc: Global,
    form: &Form<'_>,
    slots: &SlotBuf,
    from: u64,
    to: u64,
    out: &mut Out,
) -> Result<(), AllocError>
    requires front { from ≤ to }
    requires end { to ≤ length slots.now }
    requires short { 4 * (length (carried (plain_form form.now) (range slots.now from to)) + 1) + length (concat (map text_bytes (carried (plain_form form.now) (range slots.now from to)))) < 2 ^ 32 }
    ensures { OnOk result (out.new ≡ out.old ++ value_buffer variable (carried (plain_form form.now) (range slots.now from to))) }
{
    let mut texts = VarBuf::new(alloc);
    for i in from..to {
        push_text(form, slots.slot(i), &mut texts)?;
    }
    texts.put(out)
}

/// Adds the bytes of a slot that has a value.
fn push_text(form: &Form<'_>, slot: Slot<'_>, texts: &mut VarBuf) -> Result<(), AllocError>
    ensures { OnOk result (texts.new ≡ texts.old ++ map text_bytes (carried (plain_form form.now) (plain_slot slot.entry ∷ []))) }
{
    if is_bare(form.leaf, slot.state) {
        return Ok(());
    }
    match slot.value {
        Piece::Bytes(bytes) => texts.push(bytes),
        _ => texts.push(&[]),
    }
}
