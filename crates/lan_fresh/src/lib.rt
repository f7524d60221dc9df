//! The fresh numbers that a change draws: of fragments and of data files.
#![tactic(auto)]

mod fresh;
pub mod laws;

pub use fresh::{file_number, file_path, fresh_file, fresh_fragment};
