// The object of an old version that is restored.
ghost use Rattle.std.specs.Prelude.{◌≡◌, ◌+◌, ◌<◌, ◌^◌, [], List as Sequence, IsErrOf, Some};
ghost use Rattle.lan_manifest.specs.Manifests.{plain_manifest};
ghost use Rattle.lan_read.specs.Snapshots.{IsSnapshot};
ghost use Rattle.lan_store.specs.declared.name.Name.{Name};
ghost use Rattle.lan_store.specs.declared.name.Object.{Object};
ghost use Rattle.lan_commit.specs.Change.{next_as, restore};
ghost use Rattle.lan_commit.specs.ChangePuts.{Prepares};

use crate::committing::CommitFault;
use crate::greatest::greatest_of_both;
use crate::judging::judge_version;
use crate::objects::{manifest_alone, within_bytes};
use lan_manifest::Manifest;
use lan_store::Object;
use std::alloc::Global;

/// The object of a change that restores an old version after the one of `base`, which is the newest: a
/// manifest with the old one's fields and fragments. Nothing is asked of a store, and nothing is put.
pub fn prepare_restore(
    alloc: Global,
    base: Manifest,
    old: Manifest,
) -> Result<Vec<Object>, CommitFault>
    requires { IsSnapshot (plain_manifest base) }
    ensures prepares { (objects : Sequence Object) → Prepares objects (restore (plain_manifest base) (plain_manifest old)) result }
    ensures unfailing { (name : Name) → IsErrOf result (CommitFault.Store name) → ⊥ }
{
    judge_version(&base)?;
    within_bytes(manifest_alone(alloc, &next_as(&base, old))?)
}

// The manifest of the next version, with the old one's fields and fragments.
fn next_as(base: &Manifest, mut old: Manifest) -> Manifest
    requires { base.now.version + 1 < 2 ^ 53 }
    ensures { plain_manifest result ≡ next_as (plain_manifest base.now) (plain_manifest old) }
{
    old.greatest = greatest_of_both(base, &old);
    old.version = base.version + 1;
    old
}
