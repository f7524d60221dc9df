// The values of a row, a reader for each field.
ghost use Rattle.std.specs.Prelude.{◌≡◌, ◌∷◌, ◌+◌, ℕ, ◌<◌, ◌≤◌, List as Sequence, All, map, IfOk, OnOk};
ghost use Rattle.std.specs.Option.{ForSome};
ghost use Rattle.lan_model.specs.Plain.{plain_field};
ghost use Rattle.lan_model.specs.PlainTable.{row_of};
ghost use Rattle.lan_model.specs.Table.{FitsRow, IsField, depths_of};
ghost use Rattle.lan_store.specs.Budget.{Spends, unless_refused};
ghost use Rattle.lan_store.specs.Looked.{Looked};
ghost use Rattle.lan_store.specs.declared.name.Object.{Object};
ghost use Rattle.lan_manifest.specs.declared.manifest.DataFile.{DataFile};
ghost use Rattle.lan_read.specs.Failures.{unread_failure};
ghost use Rattle.lan_read.specs.FieldReaders.{ReaderHolds, ReaderKnows};
ghost use Rattle.lan_read.specs.Opened.{CanReadFrom};
ghost use Rattle.lan_read.specs.RowValues.{AnswersRow, IsShallow, ReadFields};
ghost use Rattle.lan_read.specs.Scans.{readers_due, readers_most};

use crate::opened::Readers;
use crate::read_fault::ReadFault;
use lan_model::{FieldList, List, Row};
use lan_store::Store;
use lan_store::laws::looks_add_up;
use std::alloc::Global;

/// The values that the fields have in a row, which isn't before the one that was read last.
///
/// After a refusal nothing is said of the readers.
pub fn row_values<S: Store>(
    alloc: Global,
    store: &mut S,
    readers: &mut Readers,
    fields: &FieldList,
    row: u64,
) -> Result<Row, ReadFault>
    requires fields { All IsField (map plain_field fields.now) }
    requires layers { All IsShallow (map plain_field fields.now) }
    requires can { CanReadFrom (map plain_field fields.now) row (row + 1) readers.old }
    requires knows { ForSome (S.tells store.old).objects (λ all. All (ReaderKnows all) readers.old) }
    ensures looked { Looked (unread_failure result) (readers_most readers.old row) (S.tells store.old) (S.tells store.new) }
    ensures fits { IfOk result (λ values. FitsRow (map plain_field fields.now) (row_of values)) }
    ensures can { OnOk result ((count : ℕ) → CanReadFrom (map plain_field fields.now) row count readers.old → CanReadFrom (map plain_field fields.now) row count readers.new) }
    ensures knows { ForSome (S.tells store.new).objects (λ all. OnOk result (All (ReaderKnows all) readers.new)) }
    ensures holds { OnOk result ((objects : Sequence Object) → All (ReaderHolds objects) readers.old → All (ReaderHolds objects) readers.new) }
    ensures reads { OnOk result ((objects : Sequence Object) (files : Sequence DataFile) (count : ℕ) → ReadFields objects files count (map plain_field fields.now) readers.old → ReadFields objects files count (map plain_field fields.now) readers.new) }
    ensures answer { ForSome (S.tells store.old).objects (λ all. (files : Sequence DataFile) (count : ℕ) → row < count → ReadFields all files count (map plain_field fields.now) readers.old → AnswersRow all files count (map plain_field fields.now) row result) }
    ensures spends { ForSome (S.tells store.old).objects (λ all. (later : Sequence ℕ) → All (ReaderHolds all) readers.old → Spends (readers_due all readers.old (row ∷ later)) (unless_refused result (readers_due all readers.new later)) (S.tells store.old) (S.tells store.new)) }
{
    looks_add_up();
    let mut values = List::new(alloc);
    for i in 0..fields.len() {
        let value = readers.at_mut(i).value(alloc, store, fields.at(i), row)?;
        values.push(value)?;
    }
    Ok(values)
}
