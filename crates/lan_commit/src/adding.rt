// The objects of an append of rows of every schema.
ghost use Rattle.std.specs.Prelude.{◌≡◌, ◌<◌, ◌^◌, ◌+◌, ◌∷◌, [], ℕ, List as Sequence, length, map, IsErrOf, IfOk};
ghost use Rattle.std.specs.Option.{ForSome};
ghost use Rattle.lan_fresh.specs.Fresh.{fresh_fragment};
ghost use Rattle.lan_manifest.specs.Manifests.{plain_manifest, manifest_object};
ghost use Rattle.lan_manifest.specs.Versions.{IsVersion};
ghost use Rattle.lan_model.specs.Plain.{PlainValue, plain_field, unnumbered};
ghost use Rattle.lan_model.specs.Table.{AreColumns};
ghost use Rattle.lan_read.specs.Snapshots.{IsSnapshot};
ghost use Rattle.lan_store.specs.Budget.{nothing};
ghost use Rattle.lan_store.specs.Looked.{Looked};
ghost use Rattle.lan_store.specs.declared.name.Name.{Name};
ghost use Rattle.lan_commit.specs.Change.{append, next_of, next_with_file};
ghost use Rattle.lan_commit.specs.ChangePuts.{Prepares, data_object};
ghost use Rattle.lan_commit.specs.Failures.{change_failure};
ghost use Rattle.lan_commit.specs.Limits.{bytes_limit, version_limit};
ghost use Rattle.lan_commit.specs.Prepares.{JudgesLimit, StopsRightly};
ghost use Rattle.lan_commit.specs.NewRows.{HasRows};

use crate::committing::CommitFault;
use crate::greatest::greatest_known;
use crate::judging::{draw_file, judge_fragment, judge_version};
use crate::new_file::{data_object, new_file};
use crate::new_rows::NewRows;
use crate::objects::{manifest_alone, manifest_object, within_bytes};
use lan_fresh::fresh_fragment;
use lan_manifest::{DataFiles, Fragment, Manifest};
use lan_store::laws::looks_add_up;
use lan_store::{Object, Store};
use std::alloc::{AllocError, Global};

/// The objects of an append of these rows to the version of this manifest, which is the newest: a data file of
/// all leaves, where there are rows, and the next manifest. Nothing is put.
///
/// The rows are of the manifest's fields, and fewer than 2^31.
pub fn prepare_rows<S: Store>(
    alloc: Global,
    store: &mut S,
    base: Manifest,
    rows: NewRows,
) -> Result<Vec<Object>, CommitFault>
    requires snapshot { IsSnapshot (plain_manifest base) }
    requires rows { (list : Sequence (Sequence PlainValue)) × HasRows (map plain_field base.fields) list rows × (length list < 2 ^ 31) }
    ensures looked { Looked (change_failure result) nothing (S.tells store.old) (S.tells store.new) }
    ensures prepares { (list : Sequence (Sequence PlainValue)) → HasRows (map plain_field base.fields) list rows → ForSome (S.tells store.old).objects (λ all. Prepares all (append (plain_manifest base) list) result) }
    ensures stops { StopsRightly result }
{
    looks_add_up();
    if rows.len() == 0 {
        return next_alone(alloc, base);
    }
    judge_fragment(&base)?;
    let number = draw_file(alloc, store)?;
    within_bytes(rows_objects(alloc, base, number, &rows)?)
}

// The objects of an append without rows.
fn next_alone(alloc: Global, mut base: Manifest) -> Result<Vec<Object>, CommitFault>
    requires { IsVersion base.version }
    ensures judges { JudgesLimit (version_limit (plain_manifest base) (bytes_limit (manifest_object (next_of (plain_manifest base)) ∷ []))) (λ puts. puts.items ≡ manifest_object (next_of (plain_manifest base)) ∷ []) result }
    ensures unfailing { (name : Name) → IsErrOf result (CommitFault.Store name) → ⊥ }
{
    judge_version(&base)?;
    base.greatest = greatest_known(&base);
    base.version += 1;
    within_bytes(manifest_alone(alloc, &base)?)
}

// The data file of the rows, and the next manifest.
fn rows_objects(
    alloc: Global,
    base: Manifest,
    number: u64,
    rows: &NewRows,
) -> Result<Vec<Object>, AllocError>
    requires columns { AreColumns (map unnumbered (map plain_field base.fields)) }
    requires next { base.version + 1 < 2 ^ 53 }
    requires fresh { fresh_fragment (plain_manifest base) < 2 ^ 32 }
    requires number { number < 2 ^ 53 }
    requires rows { (list : Sequence (Sequence PlainValue)) × HasRows (map plain_field base.fields) list rows.now }
    ensures { (list : Sequence (Sequence PlainValue)) → HasRows (map plain_field base.fields) list rows.now → IfOk result (λ objects. objects.items ≡ data_object number (map plain_field base.fields) list ∷ manifest_object (next_with_file number (plain_manifest base) (length list)) ∷ []) }
{
    let file = data_object(alloc, &base.fields, number, rows)?;
    let next = next_with_file(alloc, base, number, rows.len())?;
    let manifest = manifest_object(alloc, &next)?;
    Ok(vec![in alloc; file, manifest]?)
}

// The manifest of the next version, with the fragment of a new data file of so many rows.
fn next_with_file(
    alloc: Global,
    mut base: Manifest,
    number: u64,
    rows: u64,
) -> Result<Manifest, AllocError>
    requires columns { AreColumns (map unnumbered (map plain_field base.fields)) }
    requires next { base.version + 1 < 2 ^ 53 }
    requires fresh { fresh_fragment (plain_manifest base) < 2 ^ 32 }
    requires number { number < 2 ^ 53 }
    ensures { IfOk result (λ next. plain_manifest next ≡ next_with_file number (plain_manifest base) rows) }
{
    let id = fresh_fragment(&base) as u32;
    let mut files = DataFiles::with_capacity(alloc, 1)?;
    files.push(new_file(alloc, &base.fields, number)?)?;
    base.fragments.push(Fragment {
        id,
        files,
        deletion: None,
        rows,
    })?;
    base.version += 1;
    base.greatest = Some(id);
    Ok(base)
}
