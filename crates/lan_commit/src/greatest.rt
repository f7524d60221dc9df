// The greatest fragment id that a change writes.
ghost use Rattle.std.specs.Prelude.{◌≡◌, [], None, Some};
ghost use Rattle.lan_manifest.specs.Manifests.{plain_manifest};
ghost use Rattle.lan_commit.specs.Greatest.{greater, greatest_written};

use lan_manifest::Manifest;

/// The greatest of the ids of a manifest's fragments and of the one that it states: what a change writes
/// that adds no fragment. A new fragment's id is above it.
pub fn greatest_known(manifest: &Manifest) -> Option<u32>
    ensures { result ≡ greatest_written (plain_manifest manifest.now) None [] }
{
    let mut known = manifest.greatest;
    for fragment in manifest.fragments.as_slice() {
        known = Some(greater(known, fragment.id));
    }
    known
}

/// The same of the newest manifest and of the old one that is restored.
pub fn greatest_of_both(newest: &Manifest, old: &Manifest) -> Option<u32>
    ensures { result ≡ greatest_written (plain_manifest newest.now) (Some (plain_manifest old.now)) [] }
{
    match (greatest_known(newest), greatest_known(old)) {
        (known, Some(id)) => Some(greater(known, id)),
        (known, None) => known,
    }
}

fn greater(known: Option<u32>, id: u32) -> u32
    ensures { result ≡ greater known id }
{
    match known {
        Some(known) => known.max(id),
        None => id,
    }
}
