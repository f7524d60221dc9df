//! Where the rows of a page lie: offsets, chunk words and the index of rows.
#![tactic(auto)]

mod fault;
pub mod laws;
mod offsets;
mod reading;
mod rows;
mod run;
mod words;

pub use fault::IndexFault;
pub use offsets::ZipIndex;
pub use rows::RowIndex;
pub use run::Run;
pub use words::ChunkWords;
