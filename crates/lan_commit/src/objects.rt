// The objects of manifests, and how long objects are.
ghost use Rattle.std.specs.Prelude.{◌≡◌, ◌^◌, ◌∷◌, [], length, nat_lt, IfOk, IsErrOf};
ghost use Rattle.std.specs.List.{list_any};
ghost use Rattle.lan_manifest.specs.Manifests.{plain_manifest, manifest_object};
ghost use Rattle.lan_manifest.specs.Versions.{IsVersion};
ghost use Rattle.lan_store.specs.declared.name.Name.{Name};
ghost use Rattle.lan_commit.specs.Limits.{bytes_limit};
ghost use Rattle.lan_commit.specs.Prepares.{JudgesLimit};

use crate::committing::CommitFault;
use crate::limits::Which;
use lan_manifest::{Manifest, name_of_version, write_manifest};
use lan_model::{Blob, Text};
use lan_store::{Dir, Name, Object};
use std::alloc::{AllocError, Global};

const MAX_OBJECT: u64 = 1 << 30;

/// The name that stands for a folder: that of no object in it.
pub fn folder_of(alloc: Global, dir: Dir) -> Name
    ensures { result ≡ record { dir = dir; rest = [] } }
{
    Name {
        dir,
        rest: Text::new(alloc),
    }
}

/// The object that a manifest is put as.
pub fn manifest_object(alloc: Global, manifest: &Manifest) -> Result<Object, AllocError>
    requires { IsVersion manifest.now.version }
    ensures { IfOk result (λ object. object ≡ manifest_object (plain_manifest manifest.now)) }
{
    let name = name_of_version(alloc, manifest.version)?;
    let bytes = Blob::from_vec(write_manifest(alloc, manifest)?);
    Ok(Object { name, bytes })
}

/// The objects of a change that puts a manifest and no more.
pub fn manifest_alone(alloc: Global, manifest: &Manifest) -> Result<Vec<Object>, AllocError>
    requires { IsVersion manifest.now.version }
    ensures { IfOk result (λ objects. objects.items ≡ manifest_object (plain_manifest manifest.now) ∷ []) }
{
    let mut objects = Vec::with_capacity(alloc, 1)?;
    objects.push(manifest_object(alloc, manifest)?)?;
    Ok(objects)
}

/// The objects, where none of them is too long.
pub fn within_bytes(objects: Vec<Object>) -> Result<Vec<Object>, CommitFault>
    ensures judges { JudgesLimit (bytes_limit objects.items) (λ puts. puts.items ≡ objects.items) result }
    ensures unfailing { (name : Name) → IsErrOf result (CommitFault.Store name) → ⊥ }
{
    if has_long(objects.as_slice()) {
        return Err(CommitFault::Limit(Which::ObjectBytes, MAX_OBJECT));
    }
    Ok(objects)
}

fn has_long(objects: &[Object]) -> bool
    ensures { result ≡ list_any (λ o. nat_lt (2 ^ 30) (length o.bytes)) objects.now }
{
    objects.iter().any(|object| object.bytes.len() > MAX_OBJECT)
}
