use lan_model::{FieldList, List, Text};

/// A data file: which of the schema's fields it gives, and in which of its columns.
#[derive(Debug, Drop)]
pub struct DataFile {
    /// The name below `data/`.
    pub path: Text,
    /// Ids of fields.
    pub ids: List<i32>,
    /// The columns of these fields, counted from 0; -1 for a field that has none of its own.
    pub columns: List<i32>,
}

pub type DataFiles = List<DataFile>;

/// The file of a fragment's deleted rows.
#[derive(Clone, Copy, Debug)]
pub struct Deletion {
    pub read_version: u64,
    pub id: u64,
    /// How many rows are deleted.
    pub rows: u64,
}

/// Some successive rows of a table, and the files that hold their columns.
#[derive(Debug, Drop)]
pub struct Fragment {
    pub id: u32,
    pub files: DataFiles,
    pub deletion: Option<Deletion>,
    /// How many rows its files hold, deleted ones too.
    pub rows: u64,
}

pub type Fragments = List<Fragment>;

/// What a version of a dataset is made of.
#[derive(Drop)]
pub struct Manifest {
    pub fields: FieldList,
    pub fragments: Fragments,
    pub version: u64,
    /// The greatest fragment id that was ever given.
    pub greatest: Option<u32>,
}
