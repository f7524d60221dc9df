//! What holds of the changes of a dataset, each law as the contract of a function with an empty body. A proof
//! of another crate cites a law by its term in `proofs/LawTerms.antt`.

ghost use Rattle.std.specs.Prelude.{◌≡◌, ◌<◌, ◌∷◌, ◌++◌, [], ℕ, List, None, length, map, take};
ghost use Rattle.lan_model.specs.Dataset.{Dataset, with_version};
ghost use Rattle.lan_model.specs.Plain.{PlainField, PlainFields, fields_from, unnumbered};
ghost use Rattle.lan_model.specs.Table.{AreColumns, Table};
ghost use Rattle.lan_schema.specs.Renumber.{all_numbered};
ghost use Rattle.lan_schema.specs.Written.{CanTellAll};
ghost use Rattle.lan_store.specs.PutsAll.{IsHeldAt};
ghost use Rattle.lan_store.specs.declared.name.Object.{Object};
ghost use Rattle.lan_manifest.specs.Versions.{NoneListed};
ghost use Rattle.lan_read.specs.Tables.{AgreesWith, HasManifest, StandsFor};
ghost use Rattle.lan_commit.specs.Change.{Change, manifest_after};
ghost use Rattle.lan_commit.specs.ChangePuts.{limit_of, puts_of};
ghost use Rattle.lan_commit.specs.First.{first_object};
ghost use Rattle.lan_commit.specs.Makes.{CanBeStored, ComesAfter, Makes};

/// Where no version is listed, a new dataset's object meets no name that is held.
pub fn first_manifests_meet_no_name()
    ensures { (old : List Object) (fields : List (PlainField ℕ)) (k : ℕ) → NoneListed old → k < length (first_object fields ∷ []) → IsHeldAt k (first_object fields ∷ []) old → ⊥ }
{}

/// A change that reaches no limit: the objects with its puts have the next version's manifest, which stands for
/// the table that the change makes.
pub fn changes_stand()
    ensures { (objects : List Object) (change : Change) (t : Table) → Makes objects change t → limit_of objects change ≡ None
        → HasManifest (objects ++ puts_of objects change) (manifest_after objects change).version (manifest_after objects change) × StandsFor (objects ++ puts_of objects change) (manifest_after objects change).version t }
{}

/// With its puts the objects agree with the dataset with that version more.
pub fn changed_objects_agree()
    ensures { (objects : List Object) (d : Dataset) (change : Change) (t : Table) → AgreesWith objects d → Makes objects change t → limit_of objects change ≡ None
        → AgreesWith (objects ++ puts_of objects change) (with_version d (manifest_after objects change).version t) }
{}

/// Before its manifest is put, its last object, nothing of it is seen: the objects agree with the dataset as it was.
pub fn changes_are_unseen_before()
    ensures { (objects : List Object) (d : Dataset) (change : Change) (k : ℕ) → AgreesWith objects d → k < length (puts_of objects change) → AgreesWith (objects ++ take k (puts_of objects change)) d }
{}

/// A change puts no object whose name is held.
pub fn changes_meet_no_name()
    ensures { (objects : List Object) (change : Change) (k : ℕ) → ComesAfter objects change → limit_of objects change ≡ None → k < length (puts_of objects change) → IsHeldAt k (puts_of objects change) objects → ⊥ }
{}

/// Fields of a table that are numbered depth first can be stored, where messages can tell them.
pub fn numbered_fields_can_be_stored()
    ensures { (fields : List (PlainField ℕ)) (columns : PlainFields (Unit {0})) (first : ℕ) → AreColumns (map unnumbered fields) → CanTellAll (fields_from fields) → fields_from fields ≡ all_numbered columns first → CanBeStored fields }
{}
