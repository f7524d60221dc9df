ghost use Rattle.std.specs.Prelude.{◌≡◌, ◌==◌, cond, ℕ, List, ◌∷◌, [], ◌^◌, ◌<◌, ◌≤◌, length, ◌↔◌, IsTrue, IfSome, IfNone, IfOk, IfErr};
ghost use Rattle.lan_levels.specs.Codes.{FitCodes};
ghost use Rattle.lan_levels.specs.PlainSlots.{PlainSlot, plain_slot};
ghost use Rattle.lan_levels.specs.declared.shape.ValueForm.TheVariants as value;
ghost use Rattle.lan_zip.specs.Form.{IsForm, plain_form};
ghost use Rattle.lan_levels.specs.ZipForm.{form_of};
ghost use Rattle.lan_zip.specs.Walk.{Begins, Listed};
ghost use Rattle.lan_levels.specs.ZipSlots.{first_slot, IsZip};
ghost use Rattle.lan_zip.specs.Refusals.{Stands};

use crate::fault::ZipFault;
use crate::form::Form;
use crate::step::{Step, first_slot};
use lan_bytes::View;
use lan_levels::{Shape, Slot, ValueForm};
use std::marker::Model;

/// The slots of a full-zip page. A contract sees their list.
///
/// A slot is a control word and, unless its state has no value, the value. The word has no byte
/// where all levels are 0, one for up to eight bits of levels, else two, low byte first.
#[derive(Drop)]
pub struct ZipView<'a> {
    form: Form<'a>,
    bytes: &'a [u8],
    count: u64,
}

impl<'a> Model for ZipView<'a> {
    ghost use Rattle.std.specs.Prelude.{List};
    ghost use Rattle.lan_levels.specs.PlainSlots.{PlainSlot};
    ghost use Rattle.lan_zip.specs.Form.{IsForm, plain_form};
    ghost use Rattle.lan_levels.specs.ZipSlots.{spelled};
    ghost use Rattle.lan_zip.specs.Walk.{slots_in, Whole};

    ghost Value = { List PlainSlot };

    ghost view = { λ v. slots_in (spelled (plain_form v.form) v.count v.bytes.now) };

    ghost invariant = { λ v. IsForm v.form × Whole (plain_form v.form) v.count v.bytes.now };
}

/// The slots that are still to be given. A contract sees their list.
#[derive(Drop)]
pub struct ZipSlots<'a> {
    form: Form<'a>,
    rest: &'a [u8],
    left: u64,
}

impl<'a> Model for ZipSlots<'a> {
    ghost use Rattle.std.specs.Prelude.{List};
    ghost use Rattle.lan_levels.specs.PlainSlots.{PlainSlot};
    ghost use Rattle.lan_zip.specs.Form.{IsForm, plain_form};
    ghost use Rattle.lan_levels.specs.ZipSlots.{spelled};
    ghost use Rattle.lan_zip.specs.Walk.{slots_in, Whole};

    ghost Value = { List PlainSlot };

    ghost view = { λ v. slots_in (spelled (plain_form v.form) v.left v.rest.now) };

    ghost invariant = { λ v. IsForm v.form × Whole (plain_form v.form) v.left v.rest.now };
}

impl<'a> ZipView<'a> {
    /// The bytes as slots of so many rows, read by the shape. Nothing is copied.
    pub fn open(view: View<'a>, shape: Shape<'a>, rows: u64) -> Result<ZipView<'a>, ZipFault>
        requires codes { FitCodes shape.codes.now shape.leaf.now.layers }
        requires few { length shape.leaf.now.layers ≤ 16 }
        ensures ok { IfOk result (IsZip (form_of shape.entry) rows view.entry.bytes) }
        ensures cause { IfErr result (Stands (form_of shape.entry) rows view.entry.bytes) }
        ensures none { IfErr result (λ _. (slots : List PlainSlot) → IsZip (form_of shape.entry) rows view.entry.bytes slots → ⊥) }
    {
        let form = Form::of(shape);
        let bytes = view.bytes();
        let count = slot_count(&form, bytes, rows)?;
        Ok(ZipView { form, bytes, count })
    }

    /// The slots in order.
    pub fn slots(&self) -> ZipSlots<'a>
        ensures { result ≡ self.now }
    {
        ZipSlots {
            form: self.form,
            rest: self.bytes,
            left: self.count,
        }
    }
}

impl<'a> ZipSlots<'a> {
    /// The next slot, its value lent. None after the last.
    #[inline(always)]
    pub fn next(&mut self) -> Option<Slot<'a>>
        ensures some { IfSome result (λ slot. self.old ≡ plain_slot slot ∷ self.new) }
        ensures none { IfNone result ((self.old ≡ []) × (self.new ≡ [])) }
    {
        if self.left == 0 {
            return None;
        }
        match first_slot(&self.form, self.rest) {
            Step::Cut | Step::Level => None,
            Step::Slot(slot, rest) => {
                self.rest = rest;
                self.left -= 1;
                Some(slot)
            }
        }
    }
}

/// How many slots the bytes are.
fn slot_count(form: &Form<'_>, bytes: &[u8], rows: u64) -> Result<u64, ZipFault>
    requires form { IsForm form.now }
    requires bytes { length bytes.now < 2 ^ 64 }
    ensures ok { IfOk result (λ n. Listed (plain_form form.now) rows n bytes.now) }
    ensures cause { IfErr result (Stands (plain_form form.now) rows bytes.now) }
{
    if form.lists > 0 {
        return list_count(form, bytes, rows);
    }
    match form.value {
        ValueForm::Fixed(width) if form.word == 0 => fixed_count(form, width, bytes, rows),
        _ => single_count(form, bytes, rows),
    }
}

/// How many slots the bytes are, where each is a row, and a value of so many bytes alone.
fn fixed_count(form: &Form<'_>, width: u64, bytes: &[u8], rows: u64) -> Result<u64, ZipFault>
    requires single { form.now.lists ≡ 0 }
    requires word { form.now.word ≡ 0 }
    requires value { form.now.value ≡ value.Fixed width }
    requires bytes { length bytes.now < 2 ^ 64 }
    ensures ok { IfOk result (λ n. Listed (plain_form form.now) rows n bytes.now) }
    ensures cause { IfErr result (Stands (plain_form form.now) rows bytes.now) }
{
    let length = bytes.len() as u64;
    match rows.checked_mul(width) {
        Some(all) if all == length => Ok(rows),
        Some(all) if all < length => Err(ZipFault::Extra),
        _ => Err(ZipFault::Cut(length / width)),
    }
}

/// How many slots the bytes are, where there are no list layers: each is a row.
fn single_count(form: &Form<'_>, bytes: &[u8], rows: u64) -> Result<u64, ZipFault>
    requires form { IsForm form.now }
    requires single { form.now.lists ≡ 0 }
    ensures ok { IfOk result (λ n. Listed (plain_form form.now) rows n bytes.now) }
    ensures cause { IfErr result (Stands (plain_form form.now) rows bytes.now) }
{
    let mut rest = bytes;
    for n in 0..rows {
        match first_slot(form, rest) {
            Step::Cut => return Err(ZipFault::Cut(n)),
            Step::Level => return Err(ZipFault::Level(n)),
            Step::Slot(_, next) => rest = next,
        }
    }
    if !rest.is_empty() {
        return Err(ZipFault::Extra);
    }
    Ok(rows)
}

/// How many slots the bytes are, where there are list layers: they are read to their end.
fn list_count(form: &Form<'_>, bytes: &[u8], rows: u64) -> Result<u64, ZipFault>
    requires form { IsForm form.now }
    requires listed { 0 < form.now.lists }
    ensures ok { IfOk result (λ n. Listed (plain_form form.now) rows n bytes.now) }
    ensures cause { IfErr result (Stands (plain_form form.now) rows bytes.now) }
{
    let mut rest = bytes;
    let mut count = 0;
    let mut starts = 0;
    while !rest.is_empty() {
        match first_slot(form, rest) {
            Step::Cut => return Err(ZipFault::Cut(count)),
            Step::Level => return Err(ZipFault::Level(count)),
            Step::Slot(slot, next) => {
                starts += slot.row_start(form.lists);
                count += 1;
                rest = next;
            }
        }
    }
    if starts != rows || !begins_row(form, bytes) {
        return Err(ZipFault::Rows);
    }
    Ok(count)
}

/// Whether the slot at the front of the bytes, where there is one, begins a row.
fn begins_row(form: &Form<'_>, bytes: &[u8]) -> bool
    requires { IsForm form.now }
    ensures { IsTrue result ↔ Begins form.now.lists (first_slot (plain_form form.now) bytes.now) }
{
    match first_slot(form, bytes) {
        Step::Slot(slot, _) => slot.rep == form.lists,
        _ => true,
    }
}
