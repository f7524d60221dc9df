ghost use Rattle.std.specs.Prelude.{◌≡◌, ◌≢◌, ℕ, List, [], ◌∷◌, ◌+◌, ◌*◌, ◌<◌, ◌≤◌, ◌⊎◌, ◌++◌, length, true, false, IfOk, IfErr, OnOk};
ghost use Rattle.lan_bytes.specs.Placed.{Placed};
ghost use Rattle.lan_arrow.specs.Flat.{target_of, count_of};
ghost use Rattle.lan_arrow.specs.Footer.{root_of};
ghost use Rattle.lan_arrow.specs.Kept.{is_in};
ghost use Rattle.lan_arrow.specs.Seen.{HasJust};
ghost use Rattle.lan_arrow.specs.Batches.{AreBatches, numbers, rows_after};
ghost use Rattle.lan_arrow.specs.Deletions.{AreRows, all_rows, blocks_of, blocks_in, footer_of};
ghost use Rattle.lan_arrow.specs.Refusals.{RowRefused, RowsRefused};

use crate::batch::Rows;
use crate::block::check_block;
use crate::fault::ArrowFault;
use crate::numbers::four_at;
use crate::vecs::Vecs;
use lan_bytes::View;
use std::alloc::Global;
use std::collections::BTreeSet;

// One more row, which is to be below `physical` and new. After a refusal the rows are of no use.
fn add(
    rows: &mut Vec<u32>,
    seen: &mut BTreeSet<u32>,
    row: u32,
    physical: u64,
) -> Result<(), ArrowFault>
    requires { HasJust seen.old rows.old.items }
    ensures rows { OnOk result (rows.new.items ≡ rows.old.items ++ row ∷ []) }
    ensures seen { OnOk result (HasJust seen.new rows.new.items) }
    ensures fresh { OnOk result (is_in rows.old.items row ≡ false) }
    ensures below { OnOk result (row < physical) }
    ensures fault { IfErr result (λ e. (e ≡ ArrowFault.Memory) ⊎ RowRefused physical rows.old.items row e) }
{
    if u64::from(row) >= physical {
        return Err(ArrowFault::Row(row));
    }
    let added = match seen.insert(row) {
        Ok(added) => added,
        Err(_) => return Err(ArrowFault::Memory),
    };
    if !added {
        return Err(ArrowFault::Twice(row));
    }
    match rows.push(row) {
        Ok(()) => Ok(()),
        Err(_) => Err(ArrowFault::Memory),
    }
}

// The rows of a batch, after those that stand.
fn gather(
    file: &View<'_>,
    batch: Rows,
    rows: &mut Vec<u32>,
    seen: &mut BTreeSet<u32>,
    physical: u64,
) -> Result<(), ArrowFault>
    requires seen { HasJust seen.old rows.old.items }
    requires right { AreRows physical rows.old.items }
    requires inside { batch.from + 4 * batch.count ≤ length file.now.bytes }
    ensures rows { OnOk result (rows.new.items ≡ rows.old.items ++ numbers file.now.bytes batch.from batch.count) }
    ensures seen { OnOk result (HasJust seen.new rows.new.items) }
    ensures right { OnOk result (AreRows physical rows.new.items) }
    ensures fault { IfErr result (λ e. (e ≡ ArrowFault.Memory) ⊎ ((left : List ℕ) → RowsRefused physical (rows.old.items ++ numbers file.now.bytes batch.from batch.count ++ left) e)) }
{
    let _size = file.len();
    for i in 0..batch.count {
        let Some(row) = four_at(file, batch.from + 4 * i) else {
            unreachable!();
        };
        if let Err(fault) = add(rows, seen, row, physical) {
            return Err(fault);
        }
    }
    Ok(())
}

// The rows of all batches, one after another. The walk ends at the first row that is refused.
#[tactic(auto, unfolding(crate::specs::Deletions::footer_in, crate::specs::Deletions::footer_of, crate::specs::Footer::block_count))]
pub(crate) fn gather_all(
    alloc: Global,
    file: &View<'_>,
    blocks: &Vecs<'_>,
    physical: u64,
) -> Result<Vec<u32>, ArrowFault>
    requires blocks { blocks.now ≡ blocks_of file.now }
    requires checked { AreBatches file.now.bytes (footer_of file.now.bytes) (blocks_in file.now.bytes) }
    ensures rows { IfOk result (λ rows. rows.items ≡ all_rows file.now.bytes) }
    ensures right { IfOk result (λ rows. AreRows physical rows.items) }
    ensures refused { IfErr result (λ e. (e ≡ ArrowFault.Memory) ⊎ (¬ AreRows physical (all_rows file.now.bytes))) }
    ensures fault { IfErr result (λ e. (e ≡ ArrowFault.Memory) ⊎ RowsRefused physical (all_rows file.now.bytes) e) }
{
    let mut rows = Vec::new(alloc);
    let mut seen = BTreeSet::new(alloc);
    for i in 0..blocks.len() {
        let Ok(batch) = check_block(file, blocks, i) else {
            unreachable!();
        };
        if let Err(fault) = gather(file, batch, &mut rows, &mut seen, physical) {
            return Err(fault);
        }
    }
    Ok(rows)
}
