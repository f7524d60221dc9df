ghost use Rattle.std.specs.Prelude.{◌≡◌, [], ◌∷◌, ◌+◌, ◌<◌, ◌≤◌, List, length, slice_get, Some, IfOk, IfErr, IfSome, IfNone};
ghost use Rattle.lan_levels.specs.Chunks.{small_chunks};
ghost use Rattle.lan_levels.specs.Codes.{FitCodes};
ghost use Rattle.lan_levels.specs.PlainSlots.{PlainSlot, plain_slot};
ghost use Rattle.lan_levels.specs.ChunkForm.{chunk_form_of};
ghost use Rattle.lan_levels.specs.ChunkSlots.{IsChunk};
ghost use Rattle.lan_mini.specs.Refusals.{Stands};

use crate::buffers::Buffers;
use crate::fault::ChunkFault;
use crate::form::Form;
use crate::levels::count_values;
use crate::parts::Parts;
use crate::values::Values;
use lan_bytes::View;
use lan_levels::{Shape, Slot};
use std::marker::Model;

/// The slots of one chunk of a mini-block page. A contract sees their list.
///
/// A chunk is the number of its slots and the length of each buffer, two bytes each, low byte first;
/// then the repetition numbers, where there are list layers, and the definition numbers, where there are
/// others than 0, two bytes a slot; then the values of the slots that have one. The header and each
/// buffer are padded to eight bytes.
#[derive(Drop)]
pub struct ChunkView<'a> {
    parts: Parts<'a>,
}

impl<'a> Model for ChunkView<'a> {
    ghost use Rattle.std.specs.Prelude.{List};
    ghost use Rattle.lan_levels.specs.PlainSlots.{PlainSlot};
    ghost use Rattle.lan_mini.specs.Cutting.{AreParts};
    ghost use Rattle.lan_mini.specs.Walk.{slots_of};

    ghost Value = { List PlainSlot };

    ghost view = { λ v. slots_of v.parts };

    ghost invariant = { λ v. AreParts v.parts };
}

/// The slots of a chunk that are still to be given. A contract sees their list.
#[derive(Drop)]
pub struct ChunkSlots<'a> {
    parts: Parts<'a>,
    /// How many slots were given, and how many values these have in the value buffer.
    given: u64,
    values: u64,
}

impl<'a> Model for ChunkSlots<'a> {
    ghost use Rattle.std.specs.Prelude.{List};
    ghost use Rattle.lan_levels.specs.PlainSlots.{PlainSlot};
    ghost use Rattle.lan_mini.specs.Walk.{slots_behind, HasCome};

    ghost Value = { List PlainSlot };

    ghost view = { λ v. slots_behind v.parts v.given v.values };

    ghost invariant = { λ v. HasCome v.parts v.given v.values };
}

impl<'a> ChunkView<'a> {
    /// The bytes as a chunk of so many slots, read by the shape. Nothing is copied.
    pub fn open(view: View<'a>, shape: Shape<'a>, slots: u64) -> Result<ChunkView<'a>, ChunkFault>
        requires codes { FitCodes shape.codes.now shape.leaf.now.layers }
        requires few { length shape.leaf.now.layers ≤ 16 }
        ensures ok { IfOk result (IsChunk small_chunks (chunk_form_of shape.entry) view.entry.bytes) }
        ensures count { IfOk result (λ list. length list ≡ slots) }
        ensures cause { IfErr result (Stands small_chunks (chunk_form_of shape.entry) slots view.entry.bytes) }
        ensures none { IfErr result (λ _. (list : List PlainSlot) → length list ≡ slots → IsChunk small_chunks (chunk_form_of shape.entry) view.entry.bytes list → ⊥) }
    {
        let form = Form::of(shape);
        let buffers = Buffers::cut(&view, &form, slots)?;
        let count = count_values(&form, slots, buffers.reps, buffers.defs)?;
        let values = match Values::open(buffers.values, form.values, count) {
            Ok(values) => values,
            Err(fault) => return Err(ChunkFault::Value(fault)),
        };
        if buffers.end != view.len() {
            return Err(ChunkFault::Extra);
        }
        let parts = Parts {
            form,
            reps: buffers.reps,
            defs: buffers.defs,
            values,
            count: slots,
        };
        Ok(ChunkView { parts })
    }

    /// How many slots there are.
    pub fn slots(&self) -> u64
        ensures { result ≡ length self.now }
    {
        self.parts.count
    }

    /// The slot of that number, counted from 0, its value lent.
    ///
    /// Which value it has is known from the slots before it, so this costs a step for each of them: a
    /// loop over slots goes by `walk`.
    pub fn slot(&self, i: u64) -> Slot<'a>
        requires { i < length self.now }
        ensures { slice_get self.now i ≡ Some (plain_slot result) }
    {
        let mut walk = self.walk();
        for k in 0..i {
            let _passed = walk.next();
        }
        match walk.next() {
            Some(slot) => slot,
            None => unreachable!(),
        }
    }

    /// The slots in order.
    pub fn walk(&self) -> ChunkSlots<'a>
        ensures { result ≡ self.now }
    {
        ChunkSlots {
            parts: self.parts.again(),
            given: 0,
            values: 0,
        }
    }
}

impl<'a> ChunkSlots<'a> {
    /// The next slot, its value lent. None after the last.
    #[inline(always)]
    pub fn next(&mut self) -> Option<Slot<'a>>
        ensures some { IfSome result (λ slot. self.old ≡ plain_slot slot ∷ self.new) }
        ensures none { IfNone result ((self.old ≡ []) × (self.new ≡ [])) }
    {
        if self.given == self.parts.count {
            return None;
        }
        let taken = self.parts.slot(self.given, self.values);
        self.given += 1;
        self.values += taken.values;
        Some(taken.slot)
    }
}
