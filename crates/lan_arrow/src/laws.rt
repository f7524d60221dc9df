//! What holds of deletion files, each law as the contract of a function with an empty body.

ghost use Rattle.std.specs.Prelude.{◌≡◌, ℕ, ◌^◌, ◌<◌, List, length};
ghost use Rattle.std.specs.List.Sorted.{IsStrictlyIncreasing};
ghost use Rattle.lan_arrow.specs.Kept.{AreBelow};
ghost use Rattle.lan_arrow.specs.Deletions.{DeletionsOf};
ghost use Rattle.lan_arrow.specs.Written.{written};

/// A file stands for one list of deleted rows.
pub fn one_list_of_rows()
    ensures { (file : List ℕ) (physical count : ℕ) (rows others : List ℕ) → DeletionsOf file physical count rows → DeletionsOf file physical count others → rows ≡ others }
{}

/// The file that is written for rows of 32 bits stands for them, in a fragment whose physical rows they are all below.
pub fn written_rows_are_read()
    ensures { (physical : ℕ) (rows : List ℕ) → IsStrictlyIncreasing rows → 0 < length rows → AreBelow (2 ^ 32) rows → AreBelow physical rows → DeletionsOf (written rows) physical (length rows) rows }
{}
