// A new dataset.
ghost use Rattle.std.specs.Prelude.{◌≡◌, ◌∷◌, [], map, IsErrOf};
ghost use Rattle.lan_model.specs.Plain.{plain_field};
ghost use Rattle.lan_store.specs.declared.name.Name.{Name};
ghost use Rattle.lan_store.specs.Budget.{nothing};
ghost use Rattle.lan_store.specs.Looked.{Looked, Stored};
ghost use Rattle.lan_commit.specs.Creates.{Creates, PreparesCreate};
ghost use Rattle.lan_commit.specs.First.{first_object, first_limit};
ghost use Rattle.lan_commit.specs.Failures.{change_failure, change_clashed};
ghost use Rattle.lan_commit.specs.Prepares.{JudgesLimit};

use crate::committing::{CommitFault, put_change};
use crate::objects::{folder_of, manifest_alone, within_bytes};
use lan_manifest::{Fragments, Manifest};
use lan_model::FieldList;
use lan_read::newest_version;
use lan_store::laws::puts_follow_looks;
use lan_store::{Dir, ListFault, Name, Object, Store};
use std::alloc::Global;

/// Creates a dataset of these fields without rows, and answers its version.
pub fn create<S: Store>(alloc: Global, store: &mut S, fields: FieldList) -> Result<u64, CommitFault>
    ensures creates { Creates (map plain_field fields) (S.tells store.old).objects (S.tells store.new).objects result }
    ensures stored { Stored (change_failure result) nothing (change_clashed result) (S.tells store.old) (S.tells store.new) }
{
    puts_follow_looks();
    let objects = prepare_create(alloc, store, fields)?;
    match put_change(alloc, store, objects) {
        Ok(()) => Ok(1),
        Err(fault) => Err(fault),
    }
}

/// The object of a new dataset of these fields without rows: its first manifest. Nothing is put.
pub fn prepare_create<S: Store>(
    alloc: Global,
    store: &mut S,
    fields: FieldList,
) -> Result<Vec<Object>, CommitFault>
    ensures looked { Looked (change_failure result) nothing (S.tells store.old) (S.tells store.new) }
    ensures prepares { PreparesCreate (map plain_field fields) (S.tells store.old).objects result }
{
    match newest_version(alloc, store) {
        Ok(None) => first_objects(alloc, fields),
        Ok(Some(version)) => Err(CommitFault::AlreadyThere(version)),
        Err(ListFault::Failed) => Err(CommitFault::Store(folder_of(alloc, Dir::Versions))),
        Err(ListFault::Memory) => Err(CommitFault::Memory),
    }
}

// The manifest of version 1 of a table of these fields, where it isn't too long.
fn first_objects(alloc: Global, fields: FieldList) -> Result<Vec<Object>, CommitFault>
    ensures judges { JudgesLimit (first_limit (map plain_field fields)) (λ puts. puts.items ≡ first_object (map plain_field fields) ∷ []) result }
    ensures unfailing { (name : Name) → IsErrOf result (CommitFault.Store name) → ⊥ }
{
    let manifest = Manifest {
        fields,
        fragments: Fragments::new(alloc),
        version: 1,
        greatest: None,
    };
    within_bytes(manifest_alone(alloc, &manifest)?)
}
