ghost use Rattle.std.specs.Prelude.{◌≡◌, ◌==◌, ◌||◌, [], ◌+◌, ◌-◌, ◌*◌, ◌^◌, ◌++◌, ◌<◌, ◌≤◌, cond, length, take, drop, All, IfOk, OnOk, IsTrue};
ghost use Rattle.lan_bytes.specs.Numbers.{low_first};
ghost use Rattle.lan_levels.specs.PlainSlots.{plain_piece, plain_slot};
ghost use Rattle.lan_zip.specs.Form.{IsForm, plain_form};
ghost use Rattle.lan_levels.specs.ZipForm.{written_form};
ghost use Rattle.lan_levels.specs.ZipWritten.{CanStand, value_bytes, is_indexed, Gathered, ArePage};
ghost use Rattle.lan_zip.specs.Building.{IsShort, Appends};

use crate::form::Form;
use lan_bytes::Out;
use lan_levels::{
    Piece, Shape, Slot, SlotBuf, SlotPart, ValueForm, ValueKind, codes_of, is_bare, known_number,
};
use lan_model::{Blobs, Leaf, List};
use std::alloc::{AllocError, Global};

/// The buffers of the full-zip page of the slots from `from` to before `to`.
///
/// The first holds the slots. Where values are of any length, or the leaf has list layers, the
/// second has the place of each row's first slot and the end, in eight bytes each.
///
/// The slots of rows that fit their fields can stand in a page, unless a value has 2^32 bytes or
/// more: that is the law `laws::rows_can_stand`.
pub fn build_page(
    alloc: Global,
    leaf: &Leaf,
    slots: &SlotBuf,
    from: u64,
    to: u64,
) -> Result<Blobs, AllocError>
    requires few { length leaf.now.layers ≤ 16 }
    requires front { from ≤ to }
    requires end { to ≤ length slots.now }
    requires slots { All (CanStand (written_form leaf.now)) (take (to - from) (drop from slots.now)) }
    ensures { IfOk result (ArePage (written_form leaf.now) (take (to - from) (drop from slots.now))) }
{
    let codes = codes_of(alloc, leaf)?;
    let kind = ValueKind::of(&leaf.ty);
    let form = Form::of(Shape {
        codes: &codes,
        leaf,
        values: &kind,
    });
    let mut content = Out::new(alloc);
    let mut starts = Out::new(alloc);
    gather(&form, &slots.part(from, to), &mut content, &mut starts)?;
    starts.num(content.len(), 8)?;
    let mut buffers = List::new(alloc);
    buffers.push(List::from_vec(content.finish()))?;
    if is_indexed(&form) {
        buffers.push(List::from_vec(starts.finish()))?;
    }
    Ok(buffers)
}

/// Whether a page has the places of its rows.
fn is_indexed(form: &Form<'_>) -> bool
    ensures { result ≡ is_indexed (plain_form form.now) }
{
    form.lists != 0 || matches!(form.value, ValueForm::Variable)
}

/// Appends the place of a slot that begins a row.
fn put_start(form: &Form<'_>, rep: u16, at: u64, starts: &mut Out) -> Result<(), AllocError>
    ensures { OnOk result (starts.new ≡ starts.old ++ cond ((form.now.lists == 0) || (rep == form.now.lists)) (low_first 8 at) []) }
{
    if form.lists == 0 || rep == form.lists {
        return starts.num(at, 8);
    }
    Ok(())
}

/// Writes the slots, and the place of each that begins a row.
fn gather(
    form: &Form<'_>,
    slots: &SlotPart<'_>,
    content: &mut Out,
    starts: &mut Out,
) -> Result<(), AllocError>
    requires form { IsForm form.now }
    requires slots { All (CanStand (plain_form form.now)) slots.now }
    requires empty { (content.old ≡ []) × (starts.old ≡ []) }
    ensures { OnOk result (Gathered (plain_form form.now) slots.now content.new starts.new) }
{
    for i in 0..slots.len() {
        let slot = slots.slot(i);
        put_start(form, slot.rep, content.len(), starts)?;
        put_slot(form, slot, content)?;
    }
    Ok(())
}

/// Appends one slot.
fn put_slot(form: &Form<'_>, slot: Slot<'_>, out: &mut Out) -> Result<(), AllocError>
    requires form { IsForm form.now }
    requires slot { CanStand (plain_form form.now) (plain_slot slot) }
    ensures { OnOk result (Appends (plain_form form.now) (plain_slot slot.entry) out.old out.new) }
{
    let def = known_number(form.codes, slot.state);
    put_word(
        form.word,
        u64::from(slot.rep) * (u64::from(form.mask) + 1) + u64::from(def),
        out,
    )?;
    if is_bare(form.leaf, slot.state) {
        return Ok(());
    }
    put_value(form.value, slot.value, out)
}

/// Appends a number in so many bytes, the lowest first.
fn put_word(word: u8, number: u64, out: &mut Out) -> Result<(), AllocError>
    requires word { word ≤ 2 }
    requires fits { number < 2 ^ (8 * word) }
    ensures { OnOk result (out.new ≡ out.old ++ low_first word number) }
{
    match word {
        0 => Ok(()),
        1 => out.num(number, 1),
        _ => out.num(number, 2),
    }
}

/// Appends a value, or zeros where there is none.
fn put_value(form: ValueForm, value: Piece<'_>, out: &mut Out) -> Result<(), AllocError>
    requires { IsShort form (plain_piece value) }
    ensures { OnOk result (out.new ≡ out.old ++ value_bytes form (plain_piece value.entry)) }
{
    match form {
        ValueForm::Bool => out.num(u64::from(matches!(value, Piece::Bit(true))), 1),
        ValueForm::Fixed(width) => match value {
            Piece::Bytes(bytes) => out.bytes(bytes),
            _ => out.zeros(width),
        },
        ValueForm::Variable => match value {
            Piece::Bytes(bytes) => {
                out.num(bytes.len() as u64, 4)?;
                out.bytes(bytes)
            }
            _ => out.num(0, 4),
        },
    }
}
