// Rows to be appended.
ghost use Rattle.std.specs.Prelude.{◌≡◌, ◌+◌, ◌^◌, ◌<◌, ◌≤◌, ◌∷◌, ◌++◌, ℕ, [], List as Sequence, length, map, replicate, All, IfOk, OnOk};
ghost use Rattle.lan_model.specs.declared.tree.Leaf.{Leaf};
ghost use Rattle.lan_model.specs.Leaves.{plain_leaf, plain_leaves};
ghost use Rattle.lan_model.specs.Plain.{PlainField, PlainValue, plain_field, plain_values, unnumbered};
ghost use Rattle.lan_model.specs.PlainTable.{row_of};
ghost use Rattle.lan_model.specs.Room.{AllHaveRoom};
ghost use Rattle.lan_model.specs.Table.{AreColumns, FitsRow};
ghost use Rattle.lan_levels.specs.SlotsOf.{row_slots};
ghost use Rattle.lan_commit.specs.BuiltColumns.{CanBeBuilt, built};
ghost use Rattle.lan_commit.specs.Shredded.{with_row};

use lan_file::BuiltColumns;
use lan_levels::{SlotBuf, shred};
use lan_model::laws::columns_are_few;
use lan_model::{FieldList, Leaf, Leaves, List, Row, leaves};
use lan_page::build;
use std::alloc::{AllocError, Global};

/// Rows to be appended: the slots of each leaf of their fields.
///
/// A row is shredded as it is pushed, and isn't kept.
#[derive(Drop)]
pub struct NewRows {
    leaves: Leaves,
    columns: List<SlotBuf>,
    count: u64,
    ghost paired: { length columns ≡ length leaves },
    ghost shallow: { All (λ (leaf : Leaf). length leaf.layers ≤ 16) leaves },
}

impl NewRows {
    ghost use Rattle.lan_commit.specs.NewRows.{HasRows, count_of, kept_of};

    /// No rows of these fields.
    pub fn new(alloc: Global, fields: &FieldList) -> Result<NewRows, AllocError>
        requires { AreColumns (map unnumbered (map plain_field fields.now)) }
        ensures { IfOk result (HasRows (map plain_field fields.now) []) }
    {
        columns_are_few();
        let leaves = leaves(alloc, fields)?;
        let columns = empty_columns(alloc, leaves.len())?;
        Ok(NewRows {
            leaves,
            columns,
            count: 0,
        })
    }

    /// How many rows there are.
    pub fn len(&self) -> u64
        ensures { result ≡ count_of self.now }
    {
        self.count
    }

    /// The pages of each leaf, as the writer makes them.
    pub(crate) fn build(&self, alloc: Global) -> Result<BuiltColumns, AllocError>
        requires { CanBeBuilt (kept_of self.now).leaves (kept_of self.now).columns }
        ensures { IfOk result (λ pages. pages ≡ built (kept_of self.now).leaves (kept_of self.now).columns) }
    {
        build_each(alloc, self.leaves.as_slice(), self.columns.as_slice())
    }

    /// Adds a row, which has to fit the fields, and no text and no bytes in it may be as long as 2^32.
    ///
    /// After an error some leaves have slots of the row, and others none.
    pub fn push(&mut self, row: &Row) -> Result<(), AllocError>
        requires few { count_of self.old + 1 < 2 ^ 64 }
        ensures { OnOk result ((fields : Sequence (PlainField ℕ)) (rows : Sequence (Sequence PlainValue)) → HasRows fields rows self.old → FitsRow fields (row_of row.now) → AllHaveRoom (plain_values row.now) → HasRows fields (rows ++ row_of row.now ∷ []) self.new) }
    {
        shred_each(self.leaves.as_slice(), row, &mut self.columns)?;
        self.count += 1;
        Ok(())
    }
}

// So many columns without slots.
fn empty_columns(alloc: Global, count: u64) -> Result<List<SlotBuf>, AllocError>
    ensures { IfOk result (λ columns. columns ≡ replicate count []) }
{
    let mut columns = List::new(alloc);
    for _column in 0..count {
        columns.push(SlotBuf::new(alloc))?;
    }
    Ok(columns)
}

// Adds the row's slots to the column of each leaf.
fn shred_each(leaves: &[Leaf], row: &Row, columns: &mut List<SlotBuf>) -> Result<(), AllocError>
    requires paired { length columns.old ≡ length leaves.now }
    requires layers { All (λ (leaf : Leaf). length leaf.layers ≤ 16) leaves.now }
    ensures long { length columns.new ≡ length columns.old }
    ensures ok { OnOk result (columns.new ≡ with_row (plain_leaves leaves.now) (plain_values row.now) columns.old) }
    ensures counted { OnOk result (All (λ slots. length slots < 2 ^ 64) columns.new) }
{
    for i in 0..leaves.len() {
        shred_counted(&leaves[i], row, columns.at_mut(i as u64))?;
    }
    Ok(())
}

// Adds the row's slots, which can be counted as all slots can.
fn shred_counted(leaf: &Leaf, row: &Row, slots: &mut SlotBuf) -> Result<(), AllocError>
    requires { length leaf.now.layers ≤ 16 }
    ensures ok { OnOk result (slots.new ≡ slots.old ++ row_slots (plain_leaf leaf.now) (plain_values row.now)) }
    ensures counted { length slots.new < 2 ^ 64 }
{
    let shredded = shred(leaf, row, slots);
    prove!(slots.len() <= u64::MAX);
    shredded
}

// The pages of the slots of each leaf.
fn build_each(
    alloc: Global,
    leaves: &[Leaf],
    columns: &[SlotBuf],
) -> Result<BuiltColumns, AllocError>
    requires paired { length columns.now ≡ length leaves.now }
    requires layers { All (λ (leaf : Leaf). length leaf.layers ≤ 16) leaves.now }
    requires can { CanBeBuilt (plain_leaves leaves.now) columns.now }
    ensures { IfOk result (λ pages. pages ≡ built (plain_leaves leaves.now) columns.now) }
{
    let mut pages = BuiltColumns::with_capacity(alloc, leaves.len())?;
    for i in 0..leaves.len() {
        pages.push(build(alloc, &leaves[i], &columns[i])?)?;
    }
    Ok(pages)
}
