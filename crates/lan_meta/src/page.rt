use lan_levels::{Codes, ValueKind};
use lan_model::{Blob, Blobs, List, Ranges};

/// How a page lays out its slots. Codes are one a layer, from the leaf outward.
#[derive(Drop)]
pub enum Layout {
    /// Every slot has the one value, or is the leaf's null where there is none. A bool's value is one
    /// byte, 0 for false.
    Constant {
        codes: Codes,
        slots: u64,
        value: Option<Blob>,
    },
    /// Chunk words, chunks, and with list layers a repetition index.
    Mini {
        codes: Codes,
        slots: u64,
        values: ValueKind,
    },
    /// The slots one after another, and where each row begins if its place can't be computed.
    Zip {
        codes: Codes,
        slots: u64,
        values: ValueKind,
    },
}

/// A page of a column: how many rows it has, its layout, and its buffers' places in the object.
#[derive(Drop)]
pub struct PageMeta {
    pub rows: u64,
    pub layout: Layout,
    pub buffers: Ranges,
}

pub type PageMetas = List<PageMeta>;

/// A column, page after page.
#[derive(Drop)]
pub struct ColumnMeta {
    pub pages: PageMetas,
}

/// A page that is to be put into an object: its buffers have no places yet.
#[derive(Drop)]
pub struct BuiltPage {
    pub rows: u64,
    pub layout: Layout,
    pub buffers: Blobs,
}

pub type BuiltPages = List<BuiltPage>;
