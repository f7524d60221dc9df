//! What holds of fresh numbers, each law as the contract of a function with an empty body. A proof of another
//! crate cites a law by its term in `proofs/LawTerms.antt`.

ghost use Rattle.std.specs.Prelude.{◌≡◌, ℕ, ◌<◌, ◌^◌, List, Some, None};
ghost use Rattle.lan_store.specs.declared.name.Dir.TheVariants.{Data};
ghost use Rattle.lan_store.specs.declared.name.Object.{Object};
ghost use Rattle.lan_store.specs.Objects.{object};
ghost use Rattle.lan_manifest.specs.Paths.{IsPath};
ghost use Rattle.lan_fresh.specs.Fresh.{file_path, file_number, fresh_file};

/// No object has the name that is drawn for a data file.
#[tactic(auto, using(crate::proofs::Files::fresh_is_free))]
pub fn fresh_names_are_free()
    ensures { (objects : List Object) → fresh_file objects < 2 ^ 53 → object objects (record { dir = Data; rest = file_path (fresh_file objects) }) ≡ None }
{}

/// The path of a data file's number may stand in a manifest.
pub fn paths_of_numbers_are_paths()
    ensures { (n : ℕ) → n < 2 ^ 53 → IsPath (file_path n) }
{}

/// A number is read back from its path.
#[tactic(auto, using(crate::proofs::Paths::number_of_path))]
pub fn numbers_are_read_back()
    ensures { (n : ℕ) → n < 2 ^ 53 → file_number (file_path n) ≡ Some n }
{}
