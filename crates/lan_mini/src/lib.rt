//! Mini-block pages: the slots of a column in chunks, each with its levels and its values.
#![tactic(auto)]

mod buffers;
mod cutting;
mod fault;
mod form;
pub mod laws;
mod levels;
mod measuring;
mod page;
mod parts;
mod values;
mod view;
mod writing;

pub use fault::ChunkFault;
pub use page::build_page;
pub use view::{ChunkSlots, ChunkView};
