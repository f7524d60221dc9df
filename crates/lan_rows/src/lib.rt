//! Rows of every type as lines of JSON: read exactly, and printed.
#![tactic(auto)]

mod bits;
mod faults;
pub mod laws;
mod lines;
mod printing;
mod reading;
mod values;
mod words;

pub use faults::RowFault;
pub use lines::{LinesFault, MAX_LINE, RowLines, read_rows};
pub use printing::{RowPrinter, print_row};
pub use reading::read_row;
pub use words::{why, why_line};
