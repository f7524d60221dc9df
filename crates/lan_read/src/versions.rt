// The versions of a dataset.
ghost use Rattle.std.specs.Prelude.{◌≡◌, ◌<◌, [], All, length, IfOk, IfErr, IfSome};
ghost use Rattle.std.specs.Option.{ForSome};
ghost use Rattle.lan_manifest.specs.Versions.{AreListed, IsVersion};
ghost use Rattle.lan_read.specs.Failures.{unread_failure};
ghost use Rattle.lan_read.specs.Newest.{IsNewestOf};
ghost use Rattle.lan_read.specs.Opening.{RefusesListing};
ghost use Rattle.lan_store.specs.declared.name.Dir.TheVariants.{Versions};
ghost use Rattle.lan_store.specs.Budget.{nothing};
ghost use Rattle.lan_store.specs.Looked.{Looked, list_failure};

use crate::read_fault::ReadFault;
use lan_manifest::list_versions as manifest_versions;
use lan_model::{Nums, Text};
use lan_store::laws::looks_add_up;
use lan_store::{Dir, ListFault, Name, Store};
use std::alloc::Global;

/// The newest listed version.
pub fn newest_version<S: Store>(alloc: Global, store: &mut S) -> Result<Option<u64>, ListFault>
    ensures looked { Looked (list_failure Dir.Versions result) nothing (S.tells store.old) (S.tells store.new) }
    ensures newest { ForSome (S.tells store.old).objects (λ all. IfOk result (IsNewestOf all)) }
    ensures version { IfOk result (λ newest. IfSome newest IsVersion) }
{
    let versions = manifest_versions(alloc, store)?;
    Ok(versions.as_slice().last().copied())
}

/// The numbers of the versions that are listed, rising.
pub fn list_versions<S: Store>(alloc: Global, store: &mut S) -> Result<Nums, ReadFault>
    ensures looked { Looked (unread_failure result) nothing (S.tells store.old) (S.tells store.new) }
    ensures listed { ForSome (S.tells store.old).objects (λ all. IfOk result (AreListed all)) }
    ensures some { IfOk result (λ versions. 0 < length versions) }
    ensures versions { IfOk result (All IsVersion) }
    ensures none { ForSome (S.tells store.old).objects (λ all. IfErr result (RefusesListing all)) }
{
    looks_add_up();
    match manifest_versions(alloc, store) {
        Ok(versions) => {
            if versions.is_empty() {
                return Err(ReadFault::NoDataset);
            }
            Ok(versions)
        }
        Err(ListFault::Failed) => Err(ReadFault::Store(versions_folder(alloc))),
        Err(ListFault::Memory) => Err(ReadFault::Memory),
    }
}

// The name at which listing the versions fails: that of no object in their folder.
fn versions_folder(alloc: Global) -> Name
    ensures { result ≡ record { dir = Versions; rest = [] } }
{
    Name {
        dir: Dir::Versions,
        rest: Text::new(alloc),
    }
}
