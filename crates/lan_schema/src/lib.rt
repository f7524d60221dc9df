//! Schemas: the messages of their fields in the Lance format, read and written.
#![tactic(auto)]

mod building;
mod entry;
mod fault;
mod fields;
mod fresh;
pub mod laws;
mod listing;
mod logical;
mod node;
mod reading;
mod renumbering;
mod rules;
mod shape;
mod trees;
mod writing;

pub use entry::Entry;
pub use fault::SchemaFault;
pub use fields::read_fields;
pub use fresh::fresh_id;
pub use logical::leaf_type;
pub use reading::read_entry;
pub use renumbering::renumber;
pub use trees::{logical_of, write_fields};
pub use writing::write_entry;
