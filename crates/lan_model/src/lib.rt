//! Fields, values and tables: the trees of a dataset, and what a change does to it.
#![tactic(auto)]

mod blanks;
mod boxed;
mod columns;
mod copying;
mod fitting;
pub mod laws;
mod list;
mod numbers;
mod range;
mod text;
mod tree;

pub use blanks::blank;
pub use boxed::Boxed;
pub use columns::leaves;
pub use copying::{copy_field, copy_fields};
pub use fitting::{fits, width};
pub use list::{Blob, Blobs, List, Nums, Words};
pub use numbers::number_of;
pub use range::{Range, Ranges, Span, Spans};
pub use text::Text;
pub use tree::{
    Command, Field, FieldList, Layer, Layers, Leaf, Leaves, Primitive, Row, Rows, Table, Ty, Val,
    Vals,
};
