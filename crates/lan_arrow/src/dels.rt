ghost use Rattle.std.specs.Prelude.{◌≡◌, ℕ, ◌+◌, ◌^◌, ◌<◌, ◌≤◌, length, slice_get};
ghost use Rattle.std.specs.List.Sorted.{IsPermutation, IsStrictlyIncreasing};
ghost use Rattle.lan_arrow.specs.Deletions.{AreRows};
ghost use Rattle.lan_arrow.specs.Kept.{is_in, kept_of};

use std::marker::Model;

/// The deleted rows of a fragment, rising and each below its number of physical rows.
///
/// A contract sees the rows and that number.
#[derive(Debug, Drop)]
pub struct Dels {
    rows: Vec<u32>,
    physical: u64,
}

impl Model for Dels {
    ghost use Rattle.std.specs.Prelude.{◌^◌, ◌<◌};
    ghost use Rattle.lan_arrow.specs.Kept.{Deleted, IsSpread, AreBelow};

    ghost Value = { Deleted };

    ghost view = { λ deleted. record { rows = deleted.rows.items; physical = deleted.physical } };

    ghost invariant = { λ deleted. IsSpread deleted.rows.items × AreBelow deleted.physical deleted.rows.items × (deleted.physical < 2 ^ 31) };
}

impl Dels {
    // Distinct rows below `physical`, in any order.
    pub(crate) fn of(mut rows: Vec<u32>, physical: u64) -> Dels
        requires right { AreRows physical rows.items }
        requires few { physical < 2 ^ 31 }
        ensures rows { IsPermutation rows.items result.rows }
        ensures rising { IsStrictlyIncreasing result.rows }
        ensures physical { result.physical ≡ physical }
    {
        rows.sort_unstable();
        Dels { rows, physical }
    }

    /// The deleted rows, rising.
    pub fn rows(&self) -> &[u32]
        ensures { result.now ≡ self.now.rows }
    {
        self.rows.as_slice()
    }

    /// Whether the row is deleted. It takes the logarithm of the deleted rows in steps.
    pub fn has(&self, row: u32) -> bool
        ensures { result ≡ is_in self.now.rows row }
    {
        let rows = self.rows.as_slice();
        let mut low = 0;
        let mut high = rows.len();
        while low < high {
            let middle = low + (high - low) / 2;
            if rows[middle] < row {
                low = middle + 1;
            } else {
                high = middle;
            }
        }
        low < rows.len() && rows[low] == row
    }

    /// The k-th of the physical rows that aren't deleted, counted from 0, or None where there are no more than `k`. It
    /// takes the logarithm of the deleted rows in steps.
    pub fn nth_kept(&self, k: u64) -> Option<u32>
        ensures { result ≡ slice_get (kept_of self.now) k }
    {
        let rows = self.rows.as_slice();
        let count = rows.len() as u64;
        if count >= self.physical || k >= self.physical - count {
            return None;
        }
        let mut low = 0;
        let mut high = rows.len();
        while low < high {
            let middle = low + (high - low) / 2;
            if u64::from(rows[middle]) <= k + middle as u64 {
                low = middle + 1;
            } else {
                high = middle;
            }
        }
        Some((k + low as u64) as u32)
    }
}
