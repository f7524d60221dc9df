//! Bytes at a place of an object, the little-endian numbers in them, and bytes that grow.
#![tactic(auto)]

mod numbers;
mod output;
mod padding;
mod view;

pub use numbers::{U16s, U32s, U64s};
pub use output::Out;
pub use padding::pad8;
pub use view::View;
