//! Buffers of values, lent where they stand, and the building of them.
#![tactic(auto)]

mod bools;
mod constant;
mod fault;
mod flat;
mod gathering;
pub mod laws;
mod variable;

pub use bools::{BoolView, put_bools};
pub use constant::ConstView;
pub use fault::ValueFault;
pub use flat::{FlatView, put_flat};
pub use gathering::VarBuf;
pub use variable::VarView;
