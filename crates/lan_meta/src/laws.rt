//! What holds of columns' metadata, each law as the contract of a function with an empty body. A proof of
//! another crate cites a law by its term in `proofs/LawTerms.antt`.

ghost use Rattle.std.specs.Prelude.{◌≡◌, ℕ, ◌*◌, ◌^◌, ◌<◌, ◌≤◌, List, length, sum_by, All};
ghost use Rattle.lan_bytes.specs.Placed.{Placed};
ghost use Rattle.lan_model.specs.Leaves.{PlainLeaf};
ghost use Rattle.lan_meta.specs.declared.message.MetaFault.{MetaFault};
ghost use Rattle.lan_meta.specs.declared.message.MetaFault.TheVariants.{Memory};
ghost use Rattle.lan_meta.specs.declared.page.PageMeta.{PageMeta};
ghost use Rattle.lan_meta.specs.Columns.{ColumnOf, RefusesColumn};
ghost use Rattle.lan_meta.specs.PageKeeps.{KeepsRules, PagesKeepRules};
ghost use Rattle.lan_meta.specs.PageOf.{OneListOfSlots};
ghost use Rattle.lan_meta.specs.PageRules.{EndBefore};
ghost use Rattle.lan_meta.specs.PagesTold.{CanBeTold};
ghost use Rattle.lan_meta.specs.Written.{column_text};

/// Bytes are the metadata of one column of a leaf at most.
pub fn one_column()
    ensures { (part : Placed) (leaf : PlainLeaf) (end : ℕ) (ps qs : List PageMeta) → ColumnOf part leaf end ps → ColumnOf part leaf end qs → ps ≡ qs }
{}

/// Where bytes are a column's, only memory can be wanting.
pub fn columns_are_not_refused()
    ensures { (part : Placed) (leaf : PlainLeaf) (end : ℕ) (ps : List PageMeta) (error : MetaFault) → ColumnOf part leaf end ps → RefusesColumn part leaf end error → error ≡ Memory }
{}

/// A column's metadata has at least two bytes a page.
pub fn pages_are_few()
    ensures { (part : Placed) (leaf : PlainLeaf) (end : ℕ) (ps : List PageMeta) → ColumnOf part leaf end ps → 2 * length ps ≤ length part.bytes }
{}

/// What is written of a column's pages is read as them wherever it lies, where its text is below 2^64 bytes
/// and so are the rows.
pub fn written_columns_are_read()
    ensures { (bytes : Placed) (leaf : PlainLeaf) (end at : ℕ) (pages : List PageMeta) → ColumnOf bytes leaf end pages → sum_by (λ (page : PageMeta). page.rows) pages < 2 ^ 64
        → length (column_text pages) < 2 ^ 64 → ColumnOf (record { base = at; bytes = column_text pages }) leaf end pages }
{}

/// What is written of pages that keep to the rules for a leaf is read as them wherever it lies, where their
/// buffers end at or before a place and all numbers are below 2^64.
pub fn written_pages_are_read()
    ensures { (leaf : PlainLeaf) (end at : ℕ) (pages : List PageMeta) → All (KeepsRules leaf) pages → All CanBeTold pages → All (λ (page : PageMeta). EndBefore end page.buffers) pages → end < 2 ^ 64
        → sum_by (λ (page : PageMeta). page.rows) pages < 2 ^ 64 → length (column_text pages) < 2 ^ 64 → ColumnOf (record { base = at; bytes = column_text pages }) leaf end pages }
{}

/// The bytes of a page's buffers stand for one list of slots at most.
pub fn one_list_of_slots()
    ensures { OneListOfSlots }
{}

/// The pages of a column keep to the rules for its leaf.
pub fn pages_keep_rules()
    ensures { PagesKeepRules }
{}
