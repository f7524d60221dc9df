//! What holds of manifests and of their names, each law as the contract of a function with an empty body. A
//! proof of another crate cites a law by its term in `proofs/LawTerms.antt`.

ghost use Rattle.std.specs.Prelude.{◌≡◌, ◌≤◌, ◌<◌, ◌*◌, ◌^◌, ℕ, List, length, map, sum_by};
ghost use Rattle.lan_bytes.specs.Placed.{Placed};
ghost use Rattle.lan_model.specs.declared.tree.Layer.{Layer};
ghost use Rattle.lan_model.specs.Leaves.{PlainLeaf, leaves_of};
ghost use Rattle.lan_model.specs.Plain.{PlainField};
ghost use Rattle.lan_schema.specs.FieldTree.{signed};
ghost use Rattle.lan_manifest.specs.declared.fault.ManifestFault.{ManifestFault};
ghost use Rattle.lan_manifest.specs.declared.fault.ManifestFault.TheVariants.{Memory};
ghost use Rattle.lan_manifest.specs.declared.manifest.Fragment.{Fragment};
ghost use Rattle.lan_manifest.specs.Manifests.{PlainManifest, manifest_text, framed};
ghost use Rattle.lan_manifest.specs.ManifestObjects.{IsManifestObject, RefusesManifest};
ghost use Rattle.lan_manifest.specs.SchemaLeaves.{leaf_ids};
ghost use Rattle.lan_manifest.specs.Versions.{IsVersion, manifest_name};

/// Manifests of two versions have two names.
pub fn names_tell_versions()
    ensures { (v w : ℕ) → IsVersion v → IsVersion w → manifest_name v ≡ manifest_name w → v ≡ w }
{}

/// An object stands for one manifest of a version at most.
pub fn objects_stand_for_one_manifest()
    ensures { (object : Placed) (version : ℕ) (m n : PlainManifest) → IsManifestObject object version m → IsManifestObject object version n → m ≡ n }
{}

/// Where an object stands for a manifest, only memory can be wanting.
pub fn manifests_are_not_refused()
    ensures { (object : Placed) (version : ℕ) (m : PlainManifest) (error : ManifestFault) → IsManifestObject object version m → RefusesManifest object version error → error ≡ Memory }
{}

/// What an object stands for is written as an object that stands for it, and so for nothing else, wherever it
/// lies. Its message has fewer than 2^32 bytes.
pub fn written_manifests_are_read()
    ensures { (object : Placed) (version at : ℕ) (m : PlainManifest) → IsManifestObject object version m → length (manifest_text m) < 2 ^ 32
        → IsManifestObject (record { base = at; bytes = framed (manifest_text m) }) version m }
{}

/// An object has at least two bytes a fragment, and two a file.
pub fn fragments_and_files_are_few()
    ensures fragments { (object : Placed) (version : ℕ) (m : PlainManifest) → IsManifestObject object version m → 2 * length m.fragments ≤ length object.bytes }
    ensures files { (object : Placed) (version : ℕ) (m : PlainManifest) → IsManifestObject object version m → 2 * sum_by (λ (f : Fragment). length f.files) m.fragments ≤ length object.bytes }
{}

/// The ids by which fragments are held against a field are those of its leaves, depth first.
pub fn leaves_are_listed_by_id()
    ensures { (f : PlainField ℕ) (top : ℕ) (outer : List Layer) → leaf_ids f ≡ map (λ (l : PlainLeaf). signed l.id) (leaves_of f top outer) }
{}
