//! The pages of a column: what is asked of a store for their rows, and their slots.
#![tactic(auto)]

mod asking;
mod building;
mod column_cursor;
mod cut;
mod cutting;
mod fault;
mod fetching;
mod giving;
pub mod laws;
mod piece_rows;
mod places;
mod walk;

pub use building::build;
pub use column_cursor::ColumnCursor;
pub use cut::{PieceCut, RowCut};
pub use fault::{PageFault, PageReason};
pub use fetching::{fetch_index, fetch_piece, fetch_row};
pub use giving::{piece_slots, row_slots};
