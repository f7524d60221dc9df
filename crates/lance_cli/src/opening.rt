// The versions that commands open.
ghost use Rattle.std.specs.Prelude.{◌≡◌, ◌<◌, ℕ, List, length, Some, IsErrOf, IfOk, IfErr, Err};
ghost use Rattle.std.specs.Option.{ForSome};
ghost use Rattle.lan_manifest.specs.Manifests.{plain_manifest};
ghost use Rattle.lan_manifest.specs.Versions.{AreListed};
ghost use Rattle.lan_read.specs.Failures.{unread_failure};
ghost use Rattle.lan_read.specs.Opening.{Opens, RefusesListing};
ghost use Rattle.lan_read.specs.Snapshots.{IsSnapshot};
ghost use Rattle.lan_store.specs.Budget.{nothing, ranges};
ghost use Rattle.lan_store.specs.Looked.{Looked};
ghost use Rattle.lan_store.specs.declared.name.Object.{Object};

use lan_model::Nums;
use lan_read::{ReadFault, Snapshot, list_versions};
use lan_store::Store;
use std::alloc::Global;

/// Opens the version of this number, or the newest.
///
/// A version that isn't listed is named by the number that was asked for, also where the store doesn't
/// tell its objects.
pub fn open_version<S: Store>(
    alloc: Global,
    store: &mut S,
    version: Option<u64>,
) -> Result<Snapshot, ReadFault>
    ensures looked { Looked (unread_failure result) (ranges 1) (S.tells store.old) (S.tells store.new) }
    ensures opens { ForSome (S.tells store.old).objects (λ all. Opens all version result) }
    ensures opened { IfOk result (λ s. IsSnapshot (plain_manifest s)) }
    ensures named { (number newest : ℕ) → IsErrOf result (ReadFault.NoVersion number newest) → version ≡ Some number }
{
    match Snapshot::open(alloc, store, version) {
        Ok(snapshot) => Ok(snapshot),
        Err(fault) => Err(naming(fault, version)),
    }
}

/// The numbers of the versions that are listed, rising. No fault names a version, also where the store
/// doesn't tell its objects.
pub fn listed_versions<S: Store>(alloc: Global, store: &mut S) -> Result<Nums, ReadFault>
    ensures looked { Looked (unread_failure result) nothing (S.tells store.old) (S.tells store.new) }
    ensures listed { ForSome (S.tells store.old).objects (λ all. IfOk result (AreListed all)) }
    ensures some { IfOk result (λ versions. 0 < length versions) }
    ensures none { ForSome (S.tells store.old).objects (λ all. IfErr result (RefusesListing all)) }
    ensures named { (number newest : ℕ) → IsErrOf result (ReadFault.NoVersion number newest) → ⊥ }
{
    match list_versions(alloc, store) {
        Ok(versions) => Ok(versions),
        Err(fault) => Err(naming(fault, None)),
    }
}

// The fault, where it names the version that was asked for.
fn naming(fault: ReadFault, version: Option<u64>) -> ReadFault
    ensures opens { (all : List Object) → Opens all version (Err fault) → Opens all version (Err result) }
    ensures listing { (all : List Object) → RefusesListing all fault → RefusesListing all result }
    ensures named { (number newest : ℕ) → result ≡ ReadFault.NoVersion number newest → version ≡ Some number }
    ensures failure { unread_failure {A = Unit {0}} (Err result) ≡ unread_failure {A = Unit {0}} (Err fault) }
{
    match fault {
        ReadFault::NoVersion { newest, .. } => match version {
            Some(asked) => ReadFault::NoVersion { asked, newest },
            None => ReadFault::NoDataset,
        },
        fault => fault,
    }
}
