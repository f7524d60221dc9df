// Versions that are open to be read.
ghost use Rattle.std.specs.Prelude.{◌≡◌, ◌≢◌, ℕ, ◌-◌, ◌≤◌, ◌^◌, List, [], All, None, length, nat_eq, IfOk, IfErr};
ghost use Rattle.std.specs.List.{list_any};
ghost use Rattle.std.specs.Option.{ForSome};
ghost use Rattle.lan_manifest.specs.declared.fault.ManifestFault.TheVariants.{Memory};
ghost use Rattle.lan_manifest.specs.ManifestObjects.{RefusesManifest};
ghost use Rattle.lan_manifest.specs.Versions.{AreListed, IsVersion};
ghost use Rattle.lan_manifest.specs.Manifests.{plain_manifest};
ghost use Rattle.lan_read.specs.Failures.{unread_failure};
ghost use Rattle.lan_read.specs.Opening.{IsAskedFor, Opens, OpensListed, ReadsBytes, fault_place, place_among, schema_place};
ghost use Rattle.lan_read.specs.Scanned.{deleted_in};
ghost use Rattle.lan_read.specs.Snapshots.{IsSnapshot};
ghost use Rattle.lan_read.specs.declared.read_fault.ReadFault.TheVariants.{Outside};
ghost use Rattle.lan_store.specs.declared.name.Object.{Object};
ghost use Rattle.lan_store.specs.Budget.{ranges};
ghost use Rattle.lan_store.specs.Looked.{Looked};

use crate::object::{ObjectFault, read_object};
use crate::read_fault::{ReadFault, Reason};
use crate::versions::list_versions;
use lan_bytes::View;
use lan_manifest::{
    Fragment, Manifest, ManifestFault, message_place, name_of_version, read_manifest,
};
use lan_model::{Blob, FieldList};
use lan_schema::SchemaFault;
use lan_store::laws::looks_add_up;
use lan_store::{Name, Store};
use std::alloc::Global;
use std::marker::Model;

/// A version of a dataset that is open to be read.
#[derive(Drop)]
pub struct Snapshot {
    manifest: Manifest,
}

impl Model for Snapshot {
    ghost use Rattle.std.specs.Coded.{codes};
    ghost use Rattle.lan_manifest.specs.contracts.manifest.Manifest as stored;
    ghost use Rattle.lan_manifest.specs.declared.manifest.Manifest.{Manifest};
    ghost use Rattle.lan_manifest.specs.Manifests.{plain_manifest};
    ghost use Rattle.lan_read.specs.Snapshots.{IsSnapshot};

    ghost Value = { Manifest };

    ghost coded = { Prim.hlevel (codes, stored.the_row.coded) };

    ghost view = { λ s. s.manifest };

    ghost invariant = { λ s. IsSnapshot (plain_manifest s.manifest) };
}

impl Snapshot {
    ghost use Rattle.std.specs.Prelude.{◌≡◌, IfOk};
    ghost use Rattle.std.specs.Option.{ForSome};
    ghost use Rattle.lan_manifest.specs.Manifests.{plain_manifest};
    ghost use Rattle.lan_read.specs.Failures.{unread_failure};
    ghost use Rattle.lan_read.specs.Opening.{Opens, rows_in};
    ghost use Rattle.lan_read.specs.Snapshots.{IsSnapshot};
    ghost use Rattle.lan_store.specs.Budget.{ranges};
    ghost use Rattle.lan_store.specs.Looked.{Looked};

    /// Opens the version of this number, or the newest.
    ///
    /// The versions are listed, and the object of the one version's manifest is read, in one range. On a
    /// store that tells its objects `Outside` comes exactly where its reason stands, and `Short` never comes.
    pub fn open<S: Store>(
        alloc: Global,
        store: &mut S,
        version: Option<u64>,
    ) -> Result<Snapshot, ReadFault>
        ensures looked { Looked (unread_failure result) (ranges 1) (S.tells store.old) (S.tells store.new) }
        ensures opens { ForSome (S.tells store.old).objects (λ all. Opens all version result) }
        ensures opened { IfOk result (λ s. IsSnapshot (plain_manifest s)) }
    {
        looks_add_up();
        let versions = list_versions(alloc, store)?;
        match choose(versions.as_slice(), version) {
            Ok(version) => open_listed(alloc, store, version),
            Err(fault) => Err(fault),
        }
    }

    pub fn version(&self) -> u64
        ensures { result ≡ self.now.version }
    {
        self.manifest.version
    }

    /// How many rows there are, deleted ones left out.
    pub fn rows(&self) -> u64
        ensures { result ≡ rows_in self.now.fragments }
    {
        let mut rows = 0;
        for fragment in self.manifest.fragments.as_slice() {
            rows += live_rows(fragment);
        }
        rows
    }

    pub fn fields(&self) -> &FieldList
        ensures { result.now ≡ self.now.fields }
    {
        &self.manifest.fields
    }

    pub fn manifest(&self) -> &Manifest
        ensures manifest { result.now ≡ self.now }
        ensures opened { IsSnapshot (plain_manifest self.now) }
    {
        &self.manifest
    }

    pub fn into_manifest(self) -> Manifest
        ensures manifest { result ≡ self }
        ensures opened { IsSnapshot (plain_manifest self) }
    {
        self.manifest
    }
}

// How many rows of a fragment aren't deleted.
fn live_rows(fragment: &Fragment) -> u64
    ensures { result ≡ fragment.now.rows - deleted_in fragment.now.deletion }
{
    match &fragment.deletion {
        Some(deletion) => fragment.rows.saturating_sub(deletion.rows),
        None => fragment.rows,
    }
}

fn has(versions: &[u64], version: u64) -> bool
    ensures { result ≡ list_any (λ v. nat_eq v version) versions.now }
{
    versions.contains(&version)
}

// The listed version that is asked for.
fn choose(versions: &[u64], asked: Option<u64>) -> Result<u64, ReadFault>
    requires { All IsVersion versions.now }
    ensures chosen { (all : List Object) → AreListed all versions.now → IfOk result (IsAskedFor all asked) }
    ensures refused { (all : List Object) → AreListed all versions.now → IfErr result (λ fault. Opens all asked (Err fault)) }
    ensures version { IfOk result IsVersion }
    ensures calm { unread_failure result ≡ None }
{
    let Some(newest) = versions.last().copied() else {
        return Err(ReadFault::NoDataset);
    };
    match asked {
        None => Ok(newest),
        Some(version) => {
            if has(versions, version) {
                return Ok(version);
            }
            Err(ReadFault::NoVersion {
                asked: version,
                newest,
            })
        }
    }
}

// The snapshot of a version.
fn open_listed<S: Store>(alloc: Global, store: &mut S, version: u64) -> Result<Snapshot, ReadFault>
    requires { IsVersion version }
    ensures looked { Looked (unread_failure result) (ranges 1) (S.tells store.old) (S.tells store.new) }
    ensures opens { ForSome (S.tells store.old).objects (λ all. OpensListed all version result) }
    ensures opened { IfOk result (λ s. IsSnapshot (plain_manifest s)) }
{
    looks_add_up();
    let name = name_of_version(alloc, version)?;
    match read_object(alloc, store, &name) {
        Ok(bytes) => snapshot_in(alloc, bytes, version, name),
        Err(ObjectFault::Missing) => Err(outside(name, Reason::Missing, 0)),
        Err(ObjectFault::Size(size)) => Err(outside(name, Reason::Size, size)),
        Err(ObjectFault::Short) => Err(outside(name, Reason::Short, 0)),
        Err(ObjectFault::Failed) => Err(ReadFault::Store(name)),
        Err(ObjectFault::Memory) => Err(ReadFault::Memory),
    }
}

fn outside(object: Name, reason: Reason, place: u64) -> ReadFault
    ensures { result ≡ Outside object reason place }
{
    ReadFault::Outside {
        object,
        reason,
        place,
    }
}

// The snapshot of a version whose manifest the object of this name is.
fn snapshot_in(alloc: Global, bytes: Blob, version: u64, name: Name) -> Result<Snapshot, ReadFault>
    requires { IsVersion version }
    ensures reads { length bytes ≤ 2 ^ 30 → ReadsBytes version name bytes result }
    ensures opened { IfOk result (λ s. IsSnapshot (plain_manifest s)) }
    ensures calm { unread_failure result ≡ None }
{
    let object = View::new(0, bytes.as_slice());
    match read_manifest(alloc, object.again(), version) {
        Ok(manifest) => Ok(Snapshot { manifest }),
        Err(ManifestFault::Memory) => Err(ReadFault::Memory),
        Err(fault) => {
            let place = place_of(&object, &fault);
            Err(outside(name, Reason::Manifest(fault), place))
        }
    }
}

// Where a fault of the fields lies, by the place of the message.
fn schema_place(message: u64, fault: &SchemaFault) -> u64
    ensures { result ≡ schema_place message fault.now }
{
    match fault {
        SchemaFault::Wire(fault) => fault.at,
        _ => message,
    }
}

// The same of a fault in an object of so many bytes.
fn place_among(size: u64, message: u64, fault: &ManifestFault) -> u64
    ensures { result ≡ place_among size message fault.now }
{
    match fault {
        ManifestFault::TooShort => size,
        ManifestFault::Magic => size.saturating_sub(4),
        ManifestFault::Region => size.saturating_sub(16),
        ManifestFault::Wire(fault) => fault.at,
        ManifestFault::Schema(fault) => schema_place(message, fault),
        _ => message,
    }
}

// Where a fault lies in the object of a manifest.
fn place_of(object: &View<'_>, fault: &ManifestFault) -> u64
    requires front { object.now.base ≡ 0 }
    requires no_want { fault.now ≢ Memory }
    ensures { (version : ℕ) → RefusesManifest object.now version fault.now → result ≡ fault_place object.now.bytes fault.now }
{
    let message = message_place(object.again()).unwrap_or(0);
    place_among(object.len(), message, fault)
}
