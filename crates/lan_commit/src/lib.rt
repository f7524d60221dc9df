//! Changes of a dataset: the objects that each puts, built in memory before any of them is put.
#![tactic(auto)]

mod adding;
mod committing;
mod creating;
mod greatest;
mod judging;
pub mod laws;
mod limits;
mod new_file;
mod new_rows;
mod objects;
mod restoring;

pub use adding::prepare_rows;
pub use committing::{CommitFault, put_change};
pub use creating::{create, prepare_create};
pub use limits::Which;
pub use new_rows::NewRows;
pub use restoring::prepare_restore;
