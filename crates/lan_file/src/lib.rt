//! Data files: their heads, read from a store, and whole files, written of pages.
#![tactic(auto)]

mod descriptor;
mod file_text;
mod head;
mod head_fault;
pub mod laws;
mod opening;
mod tables;
mod tail;
mod writing;

pub use file_text::{BuiltColumns, write_file};
pub use head::{ColumnMetas, ColumnPick, ColumnPicks, FileHead};
pub use head_fault::{HeadFault, HeadReason};
