//! What holds of the tables that objects stand for, each law as the contract of a function with an empty
//! body. A proof of another crate cites a law by its term in `proofs/LawTerms.antt`.

ghost use Rattle.std.specs.Prelude.{◌≡◌, ◌≢◌, ◌-◌, ◌<◌, ◌++◌, [], ◌∷◌, ℕ, List, All, AllPairs, Contains, None, Some, get_or, length, map, remove, slice_get};
ghost use Rattle.lan_model.specs.After.{each_with, without};
ghost use Rattle.lan_model.specs.Dataset.{Dataset, with_version};
ghost use Rattle.lan_model.specs.Fits.{AllFit, Fits};
ghost use Rattle.lan_model.specs.Leaves.{leaves_of};
ghost use Rattle.lan_bytes.specs.Placed.{Placed};
ghost use Rattle.lan_model.specs.Plain.{PlainField, PlainValue, null, fields_from, unnumbered, values_from};
ghost use Rattle.lan_model.specs.Table.{AreColumns, AreFields, FitsRow, IsField, IsTable, Table};
ghost use Rattle.lan_model.specs.Take.{scan_of};
ghost use Rattle.lan_levels.specs.declared.join.Join.{Join};
ghost use Rattle.lan_page.specs.declared.fault.PageReason.{PageReason};
ghost use Rattle.lan_store.specs.Budget.{Budget};
ghost use Rattle.lan_store.specs.declared.name.Name.{Name};
ghost use Rattle.lan_store.specs.declared.name.Object.{Object};
ghost use Rattle.lan_read.specs.declared.read_fault.ReadFault.TheVariants.{Outside};
ghost use Rattle.lan_read.specs.declared.read_fault.Reason.{Reason};
ghost use Rattle.lan_manifest.specs.declared.manifest.DataFile.{DataFile};
ghost use Rattle.lan_manifest.specs.declared.manifest.Fragment.{Fragment};
ghost use Rattle.lan_manifest.specs.ManifestObjects.{IsManifestObject};
ghost use Rattle.lan_manifest.specs.declared.manifest.Manifest.{Manifest};
ghost use Rattle.lan_manifest.specs.Manifests.{PlainManifest, plain_manifest};
ghost use Rattle.lan_manifest.specs.Versions.{AreListed, IsNewest, NoneListed};
ghost use Rattle.lan_read.specs.Changes.{AddsFile, AddToEach, GivesNone, new_fragment, with_file};
ghost use Rattle.lan_read.specs.FieldReaders.{LeafReasonStands, RefusesValue, RowHasNoValue};
ghost use Rattle.lan_read.specs.Given.{AreWhole, IsWhole, NoneGiven};
ghost use Rattle.lan_read.specs.Joined.{FieldJoins, FragmentJoins, RowJoins};
ghost use Rattle.lan_read.specs.Listings.{IsFileOfRows, all_listings, file_of_fields, ids_in, rows_of_one};
ghost use Rattle.lan_read.specs.Newest.{IsNewestOf};
ghost use Rattle.lan_read.specs.Opened.{IsReadable, RefusesOpening};
ghost use Rattle.lan_read.specs.Opening.{ManifestReasonStands};
ghost use Rattle.lan_read.specs.Rows.{FragmentGives, FragmentsGive, IsHeld, PhysicalRows, data_name};
ghost use Rattle.lan_read.specs.Scanned.{AreScanned, IsScanFront, fields_at};
ghost use Rattle.lan_read.specs.Scans.{PlainScan, RefusesScan, ScanDue, scan_start};
ghost use Rattle.lan_read.specs.Tables.{AgreesWith, HasManifest, StandsFor};

/// The last of the listed versions is the newest, and where there is no last none is listed; so the newest
/// is the last, and where none is listed there is none.
pub fn newest_is_last()
    ensures last { (objects : List Object) (versions : List ℕ) → AreListed objects versions → IsNewestOf objects (slice_get versions (length versions - 1)) }
    ensures newest { (objects : List Object) (versions : List ℕ) (version : ℕ) → AreListed objects versions → IsNewest objects version → slice_get versions (length versions - 1) ≡ Some version }
    ensures none { (objects : List Object) (versions : List ℕ) → AreListed objects versions → NoneListed objects → versions ≡ [] }
{}

/// More objects change no table that stands, and no rows of fragments.
pub fn standing_tables_stay()
    ensures tables { (objects more : List Object) (version : ℕ) (t : Table) → StandsFor objects version t → StandsFor (objects ++ more) version t }
    ensures rows { (objects more : List Object) (fields : List (PlainField ℕ)) (fragments : List Fragment) (rows : List (List PlainValue)) → FragmentsGive objects fields fragments rows → FragmentsGive (objects ++ more) fields fragments rows }
{}

/// The objects stand for one table at a version, and have one manifest of it; the table has the rows that the
/// manifest's fragments give.
pub fn one_standing_table()
    ensures table { (objects : List Object) (version : ℕ) (t u : Table) → StandsFor objects version t → StandsFor objects version u → t ≡ u }
    ensures manifest { (objects : List Object) (version : ℕ) (m n : PlainManifest) → HasManifest objects version m → HasManifest objects version n → m ≡ n }
    ensures rows { (objects : List Object) (version : ℕ) (t : Table) (m : PlainManifest) (rows : List (List PlainValue)) → StandsFor objects version t → HasManifest objects version m → FragmentsGive objects m.fields m.fragments rows → t.rows ≡ rows }
{}

/// What reading rows needs of a manifest: its fields are well formed, and each is given whole or not at all.
pub fn manifest_fields_are_whole()
    ensures fields { (object : Placed) (version : ℕ) (m : PlainManifest) → IsManifestObject object version m → AreFields (fields_from m.fields) }
    ensures whole { (object : Placed) (version : ℕ) (m : PlainManifest) → IsManifestObject object version m → AreWhole m.fields m.fragments }
{}

/// Fragments that stand before others give the first of their rows.
pub fn fronts_of_fragments_give_fronts()
    ensures { (objects : List Object) (fields : List (PlainField ℕ)) (fs gs : List Fragment) (xs ys : List (List PlainValue)) → AreFields (fields_from fields) → AreWhole fields fs → FragmentsGive objects fields fs xs → FragmentsGive objects fields (fs ++ gs) ys
        → (later : List (List PlainValue)) × (ys ≡ xs ++ later) × FragmentsGive objects fields gs later }
{}

/// A data file of the writer's lists whose columns have the rows' slots gives them, as the one file of a new
/// fragment.
pub fn new_fragments_give_their_rows()
    ensures { (objects : List Object) (path : List ℕ) (fields : List (PlainField ℕ)) (id : ℕ) (rows : List (List PlainValue)) → AreFields (fields_from fields) → AllPairs (λ x y. x ≢ y) (ids_in (all_listings (fields_from fields) 0)) → All (FitsRow fields) rows
        → IsHeld objects (data_name path) (λ bytes. IsFileOfRows fields bytes rows) → FragmentGives objects fields (new_fragment id (file_of_fields path fields) (length rows)) rows }
{}

/// What the new version of a change stands for, where the version before it, or the one that is restored, stands
/// for a table. Objects come behind those that are there; `n` is the manifest before, and `m` the new one.
pub fn changed_tables_stand()
    ensures create { (objects : List Object) (version : ℕ) (m : PlainManifest) → HasManifest objects version m → m.fragments ≡ [] → StandsFor objects version (record { columns = map unnumbered m.fields; rows = [] }) }
    ensures append { (objects more : List Object) (old new : ℕ) (t : Table) (n m : PlainManifest) (f : Fragment) (rows : List (List PlainValue)) → StandsFor objects old t → HasManifest objects old n → HasManifest (objects ++ more) new m
        → m.fields ≡ n.fields → m.fragments ≡ n.fragments ++ f ∷ [] → FragmentGives (objects ++ more) n.fields f rows → StandsFor (objects ++ more) new (record t { rows = t.rows ++ rows }) }
    ensures restore { (objects more : List Object) (old new : ℕ) (t : Table) (n m : PlainManifest) → StandsFor objects old t → HasManifest objects old n → HasManifest (objects ++ more) new m
        → m.fields ≡ n.fields → m.fragments ≡ n.fragments → StandsFor (objects ++ more) new t }
    ensures add_null { (objects more : List Object) (old new : ℕ) (t : Table) (n m : PlainManifest) (g : PlainField ℕ) → StandsFor objects old t → HasManifest objects old n → HasManifest (objects ++ more) new m
        → m.fields ≡ n.fields ++ g ∷ [] → m.fragments ≡ n.fragments → All (λ (f : Fragment). NoneGiven f.files g) n.fragments → Fits g null
        → StandsFor (objects ++ more) new (record { columns = t.columns ++ unnumbered g ∷ []; rows = map (λ row. row ++ null ∷ []) t.rows }) }
    ensures add_column { (objects more : List Object) (old new : ℕ) (t : Table) (n m : PlainManifest) (g : PlainField ℕ) (values : List PlainValue) → StandsFor objects old t → HasManifest objects old n → HasManifest (objects ++ more) new m
        → m.fields ≡ n.fields ++ g ∷ [] → AddToEach (objects ++ more) n.fields g n.fragments m.fragments values
        → StandsFor (objects ++ more) new (record { columns = t.columns ++ unnumbered g ∷ []; rows = each_with t.rows values }) }
    ensures drop_column { (objects more : List Object) (old new : ℕ) (t : Table) (n m : PlainManifest) (p : ℕ) → StandsFor objects old t → HasManifest objects old n → HasManifest (objects ++ more) new m
        → p < length n.fields → m.fields ≡ remove n.fields p → m.fragments ≡ n.fragments
        → StandsFor (objects ++ more) new (record { columns = remove t.columns p; rows = map (λ row. remove row p) t.rows }) }
{}

/// With a version more, and objects more, the dataset agrees with them again.
pub fn agreement_goes_on()
    ensures { (objects more : List Object) (version : ℕ) (t : Table) (d : Dataset) → AgreesWith objects d → AreListed (objects ++ more) (d.listed ++ version ∷ []) → StandsFor (objects ++ more) version t → AgreesWith (objects ++ more) (with_version d version t) }
{}

/// A file that gives a new field its values, one a row, adds them to a fragment, and one of the writer's lists whose
/// columns have their slots is such a file; a fragment of no rows needs none.
pub fn added_files_add_their_values()
    ensures file { (objects : List Object) (fields : List (PlainField ℕ)) (f : Fragment) (g : PlainField ℕ) (file : DataFile) (values : List PlainValue) (kept : List (List PlainValue)) → IsField g → AddsFile objects fields f g file values
        → (is : FragmentGives objects fields f kept) → FragmentGives objects (fields ++ g ∷ []) (with_file f file) (each_with kept (without is.deleted 0 values)) }
    ensures written { (objects : List Object) (path : List ℕ) (fields : List (PlainField ℕ)) (f : Fragment) (g : PlainField ℕ) (values : List PlainValue) → AllPairs (λ x y. x ≢ y) (ids_in (all_listings (fields_from (g ∷ [])) 0)) → length values ≡ f.rows → AllFit g (values_from values)
        → IsHeld objects (data_name path) (λ bytes. IsFileOfRows (g ∷ []) bytes (rows_of_one values)) → NoneGiven f.files g → ((top : ℕ) (h : PlainField ℕ) → slice_get fields top ≡ Some h → GivesNone (file_of_fields path (g ∷ [])) h)
        → AddsFile objects fields f g (file_of_fields path (g ∷ [])) values }
    ensures none { (objects : List Object) (fields : List (PlainField ℕ)) (f : Fragment) (g : PlainField ℕ) (kept : List (List PlainValue)) → f.rows ≡ 0 → NoneGiven f.files g → FragmentGives objects fields f kept → (kept ≡ []) × FragmentGives objects (fields ++ g ∷ []) f [] }
{}

/// A fragment gives rows exactly where each of its columns has so many, and row by row their slots are those of
/// one row.
pub fn fragments_give_rows_where_they_join()
    ensures gives { (objects : List Object) (fields : List (PlainField ℕ)) (f : Fragment) → FragmentJoins objects fields f → (rows : List (List PlainValue)) × FragmentGives objects fields f rows }
    ensures joins { (objects : List Object) (fields : List (PlainField ℕ)) (f : Fragment) (rows : List (List PlainValue)) → FragmentGives objects fields f rows → FragmentJoins objects fields f }
{}

/// A version stands exactly where it has a manifest, and each fragment's files join.
pub fn versions_stand_where_fragments_join()
    ensures stands { (objects : List Object) (version : ℕ) (m : PlainManifest) → HasManifest objects version m → All (FragmentJoins objects m.fields) m.fragments → (t : Table) × StandsFor objects version t }
    ensures joins { (objects : List Object) (version : ℕ) (t : Table) (m : PlainManifest) → StandsFor objects version t → HasManifest objects version m → All (FragmentJoins objects m.fields) m.fragments }
{}

/// A value that is joined from the slots of a row in its field's leaves is the row's, and so is a whole row.
pub fn joined_values_are_those_of_rows()
    ensures value { (objects : List Object) (fields : List (PlainField ℕ)) (files : List DataFile) (count : ℕ) (rows : List (List PlainValue)) (top j : ℕ) (f : PlainField ℕ) (v : PlainValue) → AreFields (fields_from fields)
        → PhysicalRows objects fields files count rows → slice_get fields top ≡ Some f → j < count → FieldJoins objects files count j f v → v ≡ get_or (get_or rows j []) top null }
    ensures row { (objects : List Object) (fields : List (PlainField ℕ)) (files : List DataFile) (count : ℕ) (rows : List (List PlainValue)) (j : ℕ) (row : List PlainValue) → AreFields (fields_from fields) → All (IsWhole files) fields
        → PhysicalRows objects fields files count rows → j < count → RowJoins objects fields files count j row → row ≡ get_or rows j [] }
{}

/// Where the slots of a row are those of no value, the files have no such rows: the fragment gives none, and the
/// version stands for no table.
pub fn rows_without_a_value_refute()
    ensures rows { (objects : List Object) (fields : List (PlainField ℕ)) (files : List DataFile) (count : ℕ) (rows : List (List PlainValue)) (top row : ℕ) (f : PlainField ℕ) (error : Join) → IsField f → slice_get fields top ≡ Some f
        → RowHasNoValue objects files count f row error → PhysicalRows objects fields files count rows → ⊥ }
    ensures fragment { (objects : List Object) (fields : List (PlainField ℕ)) (fragment : Fragment) (kept : List (List PlainValue)) (top row : ℕ) (f : PlainField ℕ) (error : Join) → AreFields (fields_from fields) → slice_get fields top ≡ Some f
        → RowHasNoValue objects fragment.files fragment.rows f row error → FragmentGives objects fields fragment kept → ⊥ }
    ensures table { (objects : List Object) (version : ℕ) (t : Table) (m : PlainManifest) (fragment : Fragment) (top row : ℕ) (f : PlainField ℕ) (error : Join) → AreFields (fields_from m.fields) → HasManifest objects version m → Contains m.fragments fragment → slice_get m.fields top ≡ Some f
        → RowHasNoValue objects fragment.files fragment.rows f row error → StandsFor objects version t → ⊥ }
{}

/// Where a reason stands in what is held as a version's manifest, the objects have none of the version, and stand
/// for no table at it.
pub fn refused_manifests_are_none()
    ensures manifest { (objects : List Object) (version : ℕ) (name : Name) (why : Reason) (place : ℕ) (m : PlainManifest) → ManifestReasonStands objects version name why place → HasManifest objects version m → ⊥ }
    ensures table { (objects : List Object) (version : ℕ) (name : Name) (why : Reason) (place : ℕ) (t : Table) → ManifestReasonStands objects version name why place → StandsFor objects version t → ⊥ }
{}

/// Where a column of the files isn't held as its head says, they have no such rows: the fragment gives none, and
/// the version stands for no table.
pub fn columns_not_held_refute()
    ensures rows { (objects : List Object) (fields : List (PlainField ℕ)) (files : List DataFile) (count : ℕ) (rows : List (List PlainValue)) (top : ℕ) (f : PlainField ℕ) (name : Name) (why : PageReason) (place : ℕ) → slice_get fields top ≡ Some f
        → LeafReasonStands objects files count (leaves_of f 0 []) name why place → PhysicalRows objects fields files count rows → ⊥ }
    ensures fragment { (objects : List Object) (fields : List (PlainField ℕ)) (fragment : Fragment) (kept : List (List PlainValue)) (top : ℕ) (f : PlainField ℕ) (name : Name) (why : PageReason) (place : ℕ) → slice_get fields top ≡ Some f
        → LeafReasonStands objects fragment.files fragment.rows (leaves_of f 0 []) name why place → FragmentGives objects fields fragment kept → ⊥ }
    ensures table { (objects : List Object) (version : ℕ) (t : Table) (m : PlainManifest) (fragment : Fragment) (top : ℕ) (f : PlainField ℕ) (name : Name) (why : PageReason) (place : ℕ) → HasManifest objects version m → Contains m.fragments fragment → slice_get m.fields top ≡ Some f
        → LeafReasonStands objects fragment.files fragment.rows (leaves_of f 0 []) name why place → StandsFor objects version t → ⊥ }
{}

/// What scanning needs of a manifest: its fields may be a table's, no row is deleted, and the fields can be read in
/// each fragment.
pub fn manifests_can_be_read()
    ensures columns { (object : Placed) (version : ℕ) (m : PlainManifest) → IsManifestObject object version m → AreColumns (map unnumbered m.fields) }
    ensures undeleted { (object : Placed) (version : ℕ) (m : PlainManifest) → IsManifestObject object version m → All (λ (f : Fragment). f.deletion ≡ None) m.fragments }
    ensures readable { (object : Placed) (version : ℕ) (m : PlainManifest) → IsManifestObject object version m → All (λ (f : Fragment). All (IsReadable f.files f.rows) m.fields) m.fragments }
{}

/// Where the fields can be read, so can those that are asked of them; and these have the asked columns.
pub fn asked_fields_can_be_read()
    ensures columns { (fields : List (PlainField ℕ)) (places : List ℕ) → fields_at (map unnumbered fields) places ≡ map unnumbered (fields_at fields places) }
    ensures readable { (files : List DataFile) (count : ℕ) (fields : List (PlainField ℕ)) (places : List ℕ) → All (IsReadable files count) fields → All (IsReadable files count) (fields_at fields places) }
{}

/// Where a reason stands by which a fragment isn't opened, or a value of it isn't read, it gives no rows; and where
/// one stands by which a version's scan ends, the version stands for no table.
pub fn scan_reasons_are_against_tables()
    ensures opening { (objects : List Object) (fields : List (PlainField ℕ)) (places : List ℕ) (fragment : Fragment) (kept : List (List PlainValue)) (name : Name) (why : Reason) (place : ℕ) → RefusesOpening objects (fields_at fields places) fragment (Outside name why place)
        → FragmentGives objects fields fragment kept → ⊥ }
    ensures value { (objects : List Object) (fields : List (PlainField ℕ)) (places : List ℕ) (fragment : Fragment) (kept : List (List PlainValue)) (f : PlainField ℕ) (row : ℕ) (name : Name) (why : Reason) (place : ℕ) → AreFields (fields_from fields)
        → Contains (fields_at fields places) f → RefusesValue objects fragment.files fragment.rows f row (Outside name why place) → FragmentGives objects fields fragment kept → ⊥ }
    ensures table { (objects : List Object) (version : ℕ) (t : Table) (m : PlainManifest) (places : List ℕ) (name : Name) (why : Reason) (place : ℕ) → RefusesScan objects m places (Outside name why place) → HasManifest objects version m → StandsFor objects version t → ⊥ }
{}

/// All rows that a scan gives of a version's fragments are those of its table.
pub fn scanned_rows_are_the_tables()
    ensures { (objects : List Object) (version : ℕ) (t : Table) (m : PlainManifest) (places : List ℕ) (rows : List (List PlainValue)) → AreScanned objects m.fields places m.fragments rows → HasManifest objects version m → StandsFor objects version t → rows ≡ scan_of t places }
{}

/// And those that it gives first are the table's first ones.
pub fn scan_fronts_are_fronts()
    ensures { (objects : List Object) (version : ℕ) (t : Table) (m : PlainManifest) (places : List ℕ) (rows : List (List PlainValue)) → IsScanFront objects m places rows → HasManifest objects version m → StandsFor objects version t
        → (later : List (List PlainValue)) × (scan_of t places ≡ rows ++ later) }
{}

/// What objects stand for at a version is a table: its columns are those of one, and its rows fit them.
pub fn standing_rows_fit()
    ensures { (objects : List Object) (version : ℕ) (t : Table) → StandsFor objects version t → IsTable t }
{}

/// Where the objects stand for a version's table, they hold all that its scan asks, whatever is asked of it; and
/// what a scan still asks is one budget.
pub fn standing_scans_have_a_budget()
    ensures budget { (objects : List Object) (version : ℕ) (t : Table) (m : Manifest) (places : List ℕ) → HasManifest objects version (plain_manifest m) → StandsFor objects version t → (due : Budget) × ScanDue objects (scan_start m places) due }
    ensures one { (objects : List Object) (s : PlainScan) (due other : Budget) → ScanDue objects s due → ScanDue objects s other → due ≡ other }
{}
