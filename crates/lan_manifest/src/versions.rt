ghost use Rattle.std.specs.Prelude.{◌≡◌, ◌≢◌, ℕ, ◌^◌, ◌<◌, ◌≤◌, IfSome, IfNone, IfOk};
ghost use Rattle.std.specs.Prelude.{IsTrue, All, Contains, IsErrOf, List, [], Some};
ghost use Rattle.std.specs.Option.{ForSome};
ghost use Rattle.std.specs.Ordering.{nat_cmp};
ghost use Rattle.std.specs.BTreeSet.{contains};
ghost use Rattle.lan_manifest.specs.Versions.{IsVersion, manifest_name, AreVersionsOf, AreListed};
ghost use Rattle.lan_store.specs.Budget.{nothing};
ghost use Rattle.lan_store.specs.Looked.{Looked, list_failure};

use lan_model::{Nums, number_of};
use lan_store::{Dir, ListFault, Name, Names, Store};
use std::alloc::{AllocError, Global};
use std::collections::BTreeSet;

const PAST_VERSIONS: u64 = 1 << 53;

/// The version whose manifest has this name.
pub fn version_of_name(name: &Name) -> Option<u64>
    ensures some { IfSome result (λ version. IsVersion version × (name.now ≡ manifest_name version)) }
    ensures none { IfNone result ((version : ℕ) → IsVersion version → name.now ≢ manifest_name version) }
{
    if !name.dir.same(Dir::Versions) {
        return None;
    }
    let digits = name.rest.as_str().strip_suffix(".manifest")?;
    let version = number_of(digits)?;
    if version == 0 || version >= PAST_VERSIONS {
        return None;
    }
    Some(version)
}

/// The name of a version's manifest.
pub fn name_of_version(alloc: Global, version: u64) -> Result<Name, AllocError>
    requires { IsVersion version }
    ensures { IfOk result (λ name. name ≡ manifest_name version) }
{
    let rest = format!(in alloc; "{version}.manifest")?;
    Name::of(alloc, Dir::Versions, rest.as_str())
}

/// The listed versions, rising.
pub fn list_versions<S: Store>(alloc: Global, store: &mut S) -> Result<Nums, ListFault>
    ensures looked { Looked (list_failure Dir.Versions result) nothing (S.tells store.old) (S.tells store.new) }
    ensures versions { ForSome (S.tells store.old).objects (λ all. IfOk result (AreListed all)) }
    ensures range { IfOk result (All IsVersion) }
{
    let mut names = Names::new(alloc);
    store.list(alloc, Dir::Versions, &mut names)?;
    match versions_of(alloc, names.as_slice()) {
        Ok(versions) => Ok(versions),
        Err(_) => Err(ListFault::Memory),
    }
}

fn versions_of(alloc: Global, names: &[Name]) -> Result<Nums, AllocError>
    ensures { IfOk result (AreVersionsOf names.now) }
{
    let set = version_set(alloc, names)?;
    Ok(Nums::from_vec(set.into_iter().collect(alloc)?))
}

fn version_set(alloc: Global, names: &[Name]) -> Result<BTreeSet<u64>, AllocError>
    ensures only { IfOk result (λ set. (v : ℕ) → IsTrue (contains nat_cmp set v) → IsVersion v × Contains names.now (manifest_name v)) }
    ensures all { IfOk result (λ set. (v : ℕ) → IsVersion v → Contains names.now (manifest_name v) → IsTrue (contains nat_cmp set v)) }
{
    let mut set = BTreeSet::new(alloc);
    for name in names {
        if let Some(version) = version_of_name(name) {
            set.insert(version)?;
        }
    }
    Ok(set)
}
