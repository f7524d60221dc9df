//! The slots of values in leaves, and the codes of layers.
#![tactic(auto)]

mod assembling;
mod bare;
mod buffer;
mod codes;
mod cursor;
mod join;
pub mod laws;
mod leaf_value;
mod shape;
mod shredding;
mod slot;
mod walk;

pub use assembling::assemble;
pub use buffer::{SlotBuf, SlotPart};
pub use codes::{
    Codes, codes_fit, codes_of, greatest, is_bare, known_number, lists_in, number_of, state_of,
};
pub use join::Join;
pub use shape::{Shape, ValueForm, ValueKind};
pub use shredding::shred;
pub use slot::{Piece, Runs, Slot, SlotRun, Slots, State};
