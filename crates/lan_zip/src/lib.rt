//! Full-zip pages: the slots of a column one after another, each with its value.
#![tactic(auto)]

mod fault;
mod form;
pub mod laws;
mod page;
mod step;
mod view;

pub use fault::ZipFault;
pub use page::build_page;
pub use view::{ZipSlots, ZipView};
