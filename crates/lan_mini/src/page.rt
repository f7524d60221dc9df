ghost use Rattle.std.specs.Prelude.{◌≡◌, [], ◌∷◌, ◌+◌, ◌-◌, ◌*◌, ◌/◌, ◌<◌, ◌≤◌, ◌==◌, cond, All, IsTrue, length, take, drop, IfOk, OnOk};
ghost use Rattle.lan_model.specs.Plain.{plain_type};
ghost use Rattle.lan_levels.specs.Chunks.{small_chunks};
ghost use Rattle.lan_levels.specs.ZipForm.{kind_of, written_form};
ghost use Rattle.lan_levels.specs.ZipRows.{slots_before};
ghost use Rattle.lan_levels.specs.ZipSlots.{starts};
ghost use Rattle.lan_levels.specs.ZipWritten.{CanStand};
ghost use Rattle.lan_levels.specs.ChunkForm.{has_reps, written_chunk_form};
ghost use Rattle.lan_levels.specs.MiniWritten.{chunk_size, IsShort, IsWrittenMini};
ghost use Rattle.lan_mini.specs.Form.{IsForm, plain_form};
ghost use Rattle.lan_mini.specs.Building.{CanChunk, IsTotal, range};
ghost use Rattle.lan_mini.specs.Pages.{Built, IsEmpty, PutEntry, PutPart};

use crate::cutting::Cut;
use crate::form::Form;
use crate::writing::put_chunk;
use lan_bytes::Out;
use lan_levels::{Shape, Slot, SlotBuf, ValueKind, codes_of};
use lan_model::{Blobs, Leaf, List, Ty, width};
use std::alloc::{AllocError, Global};

/// The buffers of the mini-block page of the slots from `from` to before `to`.
///
/// The first has a word of two bytes for each chunk, and the second the chunks. Where the leaf has list
/// layers, the third has two numbers of eight bytes a chunk: how many rows begin in it, and how many of
/// its slots stand before the first of them.
///
/// While slots are left, they are the last chunk where they are at most 4,096 and fit 32,768 bytes; else
/// the next chunk has the greatest power of two of them, up to 4,096, that is fewer and fits.
pub fn build_page(
    alloc: Global,
    leaf: &Leaf,
    slots: &SlotBuf,
    from: u64,
    to: u64,
) -> Result<Blobs, AllocError>
    requires few { length leaf.now.layers ≤ 16 }
    requires front { from ≤ to }
    requires end { to ≤ length slots.now }
    requires slots { All (CanStand (written_form leaf.now)) (take (to - from) (drop from slots.now)) }
    requires short { All (IsShort (written_chunk_form leaf.now) 4096) (take (to - from) (drop from slots.now)) }
    ensures { IfOk result (IsWrittenMini small_chunks (written_chunk_form leaf.now) (take (to - from) (drop from slots.now))) }
{
    let codes = codes_of(alloc, leaf)?;
    let kind = kind_of(&leaf.ty);
    let form = Form::of(Shape {
        codes: &codes,
        leaf,
        values: &kind,
    });
    let mut page = Page::new(alloc);
    page.put_all(alloc, &form, slots, from, to)?;
    page.finish(alloc, &form)
}

/// How values of a leaf of that type are stored.
fn kind_of(ty: &Ty) -> ValueKind
    ensures { result ≡ kind_of (plain_type ty.now) }
{
    match ty {
        Ty::Bits(prim) => ValueKind::Flat(u64::from(width(*prim))),
        Ty::Vector(prim, n) => ValueKind::Flat(u64::from(*n) * u64::from(width(*prim))),
        _ => ValueKind::Variable,
    }
}

/// A page's buffers as they grow.
#[derive(Drop)]
struct Page {
    words: Out,
    content: Out,
    index: Out,
}

impl Page {
    fn new(alloc: Global) -> Page
        ensures { IsEmpty result }
    {
        Page {
            words: Out::new(alloc),
            content: Out::new(alloc),
            index: Out::new(alloc),
        }
    }

    /// The buffers in order.
    fn finish(self, alloc: Global, form: &Form<'_>) -> Result<Blobs, AllocError>
        ensures { IfOk result (λ buffers. buffers ≡ self.words ∷ self.content ∷ cond (has_reps (plain_form form.now)) (self.index ∷ []) []) }
    {
        let mut buffers = List::new(alloc);
        buffers.push(List::from_vec(self.words.finish()))?;
        buffers.push(List::from_vec(self.content.finish()))?;
        if form.has_reps() {
            buffers.push(List::from_vec(self.index.finish()))?;
        }
        Ok(buffers)
    }

    /// Appends the chunks of the slots from `from` to before `to`.
    fn put_all(
        &mut self,
        alloc: Global,
        form: &Form<'_>,
        slots: &SlotBuf,
        from: u64,
        to: u64,
    ) -> Result<(), AllocError>
        requires form { IsForm form.now }
        requires front { from ≤ to }
        requires end { to ≤ length slots.now }
        requires slots { All (CanChunk (plain_form form.now)) (range slots.now from to) }
        requires empty { IsEmpty self.old }
        ensures { OnOk result (Built (plain_form form.now) (range slots.now from to) [] self.new) }
    {
        let mut at = from;
        while at < to {
            let cut = Cut::next(form, slots, at, to);
            self.put(alloc, form, slots, at, cut)?;
            at += cut.count;
        }
        Ok(())
    }

    /// Appends the chunk of so many slots from `at` on.
    fn put(
        &mut self,
        alloc: Global,
        form: &Form<'_>,
        slots: &SlotBuf,
        at: u64,
        cut: Cut,
    ) -> Result<(), AllocError>
        requires form { IsForm form.now }
        requires end { at + cut.count ≤ length slots.now }
        requires few { cut.count ≤ 4096 }
        requires small { cut.log ≤ 12 }
        requires slots { All (CanChunk (plain_form form.now)) (range slots.now at (at + cut.count)) }
        requires total { IsTotal (plain_form form.now) (range slots.now at (at + cut.count)) cut.total }
        requires fits { chunk_size small_chunks (plain_form form.now) (range slots.now at (at + cut.count)) ≤ 32768 }
        ensures { OnOk result (PutPart (plain_form form.now) (range slots.now at (at + cut.count)) cut.log self.old self.new) }
    {
        let _slots = slots.len();
        let start = self.content.len();
        let past = at + cut.count;
        put_chunk(alloc, form, slots, at, past, cut.total, &mut self.content)?;
        let size = self.content.len() - start;
        self.words.num(word(size, cut.log), 2)?;
        put_entry(form, slots, at, past, &mut self.index)
    }
}

/// The word of a chunk of so many bytes, and as many slots as the logarithm says.
fn word(size: u64, log: u16) -> u64
    requires some { 8 ≤ size }
    requires few { size ≤ 32768 }
    requires small { log ≤ 12 }
    ensures value { result ≡ 16 * (size / 8 - 1) + log }
    ensures few { result < 65536 }
{
    16 * (size / 8 - 1) + u64::from(log)
}

/// Where the leaf has list layers, appends how many rows begin with the slots, and how many of them
/// stand before the first of these.
fn put_entry(
    form: &Form<'_>,
    slots: &SlotBuf,
    from: u64,
    to: u64,
    index: &mut Out,
) -> Result<(), AllocError>
    requires front { from ≤ to }
    requires end { to ≤ length slots.now }
    ensures { OnOk result (IsTrue (has_reps (plain_form form.now)) → PutEntry form.now.lists (range slots.now from to) index.old index.new) }
{
    if !form.has_reps() {
        return Ok(());
    }
    index.num(row_starts(form.lists, slots, from, to), 8)?;
    index.num(lead(form.lists, slots, from, to), 8)
}

/// How many rows begin with the slots.
fn row_starts(lists: u16, slots: &SlotBuf, from: u64, to: u64) -> u64
    requires front { from ≤ to }
    requires end { to ≤ length slots.now }
    ensures { result ≡ starts lists (range slots.now from to) }
{
    let mut count = 0;
    for i in from..to {
        count += start_of(lists, slots.slot(i));
    }
    count
}

/// How many rows begin with the slot.
fn start_of(lists: u16, slot: Slot<'_>) -> u64
    ensures value { result ≡ cond (slot.entry.rep == lists) 1 0 }
    ensures few { result ≤ 1 }
{
    if slot.rep == lists { 1 } else { 0 }
}

/// How many of the slots stand before the first that begins a row.
fn lead(lists: u16, slots: &SlotBuf, from: u64, to: u64) -> u64
    requires front { from ≤ to }
    requires end { to ≤ length slots.now }
    ensures { result ≡ length (slots_before lists 0 (range slots.now from to)) }
{
    for i in from..to {
        let slot = slots.slot(i);
        if slot.rep == lists {
            return i - from;
        }
    }
    to - from
}
