//! What stands in a dataset's objects: its newest manifest, and the rows of its fragments.
#![tactic(auto)]

mod field_reader;
pub mod laws;
mod object;
mod opened;
mod read_fault;
mod row_values;
mod scan;
mod snapshot;
mod used;
mod versions;

pub use read_fault::{ReadFault, Reason};
pub use scan::{Scan, pick_fields};
pub use snapshot::Snapshot;
pub use versions::{list_versions, newest_version};
