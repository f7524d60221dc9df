//! What holds of data files, each law as the contract of a function with an empty body.

ghost use Rattle.std.specs.Prelude.{◌≡◌, ℕ, ◌^◌, ◌<◌, ◌≤◌, List, length, All, Some};
ghost use Rattle.lan_levels.specs.PlainSlots.{PlainSlot};
ghost use Rattle.lan_meta.specs.declared.page.BuiltPage.{BuiltPage};
ghost use Rattle.lan_meta.specs.declared.page.PageMeta.{PageMeta};
ghost use Rattle.lan_model.specs.Leaves.{leaves_from};
ghost use Rattle.lan_model.specs.Fits.{EachFits};
ghost use Rattle.lan_model.specs.Plain.{PlainFields, PlainValues};
ghost use Rattle.lan_model.specs.Room.{AllHaveRoom};
ghost use Rattle.lan_file.specs.declared.head_fault.HeadReason.{HeadReason};
ghost use Rattle.lan_file.specs.FileOf.{IsFileOf, AreWritten, AreBuilt};
ghost use Rattle.lan_file.specs.FileText.{file_text};
ghost use Rattle.lan_file.specs.HeadReasons.{HeadStands};
ghost use Rattle.lan_file.specs.Heads.{Pick, HasHead};
ghost use Rattle.lan_file.specs.Parts.{IsSmall};
ghost use Rattle.lan_file.specs.SlotsWritten.{Given, columns_of, IsGiven, AreGiven, TakesRows, rows_columns, AreLeaves, slots_asked};

/// What is written of columns whose pages keep to the rules, and have as many rows each as are told, has the
/// head that gives just these pages, with the places of their buffers.
pub fn written_heads_are_read()
    ensures { (fields : PlainFields ℕ) (rows : ℕ) (columns : List (List BuiltPage)) (picks : List Pick) (found : List (List PageMeta)) → rows < 2 ^ 64 → length columns < 2 ^ 32 → length (file_text fields rows columns) < 2 ^ 64
        → AreWritten rows columns picks found → HasHead picks (file_text fields rows columns) rows found }
{}

/// Where these pages stand for slots, it is a file of the slots.
pub fn written_files_have_their_slots()
    ensures { (fields : PlainFields ℕ) (rows : ℕ) (columns : List (List BuiltPage)) (picks : List Pick) (found : List (List PageMeta)) (slots : List (List PlainSlot)) → rows < 2 ^ 64 → length columns < 2 ^ 32 → length (file_text fields rows columns) < 2 ^ 64
        → AreWritten rows columns picks found → AreBuilt columns picks slots → IsFileOf picks (file_text fields rows columns) rows slots }
{}

/// A file that is written of slots by the writer's rule, so many rows of each leaf, is a file of these slots.
pub fn files_of_slots_are_files()
    ensures { (fields : PlainFields ℕ) (rows : ℕ) (given : List Given) (picks : List Pick) (slots : List (List PlainSlot)) → rows < 2 ^ 64 → length given < 2 ^ 32 → All (IsGiven rows) given → length (file_text fields rows (columns_of given)) ≤ 2 ^ 63
        → AreGiven given picks slots → IsFileOf picks (file_text fields rows (columns_of given)) rows slots }
{}

/// A file that is written of rows by the writer's rule is a file of the slots of these rows.
pub fn files_of_rows_are_files()
    ensures { (fields : PlainFields ℕ) (rows : List PlainValues) (picks : List Pick) → All (EachFits fields) rows → All AllHaveRoom rows → All (TakesRows rows) (leaves_from fields 0) → length rows < 2 ^ 64 → length (leaves_from fields 0) < 2 ^ 32
        → length (file_text fields (length rows) (rows_columns fields rows)) ≤ 2 ^ 63 → AreLeaves (leaves_from fields 0) picks → IsFileOf picks (file_text fields (length rows) (rows_columns fields rows)) (length rows) (slots_asked rows picks) }
{}

/// Bytes have one head.
pub fn one_head()
    ensures { (picks : List Pick) (bytes : List ℕ) (m n : ℕ) (cs ds : List (List PageMeta)) → HasHead picks bytes m cs → HasHead picks bytes n ds → (m ≡ n) × (cs ≡ ds) }
{}

/// Bytes are a file of one number of rows, and of one list of slots in each column that is asked.
pub fn one_file()
    ensures { (picks : List Pick) (bytes : List ℕ) (m n : ℕ) (xs ys : List (List PlainSlot)) → IsFileOf picks bytes m xs → IsFileOf picks bytes n ys → (m ≡ n) × (xs ≡ ys) }
{}

/// Where an object of at most 2^30 bytes has a head, no reason stands.
pub fn heads_have_no_reason()
    ensures { (picks : List Pick) (bytes : List ℕ) (rows : ℕ) (columns : List (List PageMeta)) (reason : HeadReason) (place : ℕ) → IsSmall bytes → HasHead picks bytes rows columns → HeadStands picks (Some bytes) reason place → ⊥ }
{}
