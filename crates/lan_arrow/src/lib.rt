//! Arrow deletion files: which rows of a fragment are deleted.
#![tactic(auto)]

mod batch;
mod block;
mod column;
mod dels;
mod fault;
mod gathering;
pub mod laws;
mod numbers;
mod reading;
mod tab;
mod vecs;
mod writing;

pub use dels::Dels;
pub use fault::ArrowFault;
pub use laws::{one_list_of_rows, written_rows_are_read};
pub use reading::read_deletions;
pub use tab::Tab;
pub use vecs::Vecs;
pub use writing::write_deletions;
