//! The JSON form of schemas, read and printed.
#![tactic(auto)]

mod faults;
pub mod laws;
mod limits;
mod names;
mod printing;
mod reading;
mod shape;
mod words;

pub use faults::FormFault;
pub use printing::to_json;
pub use reading::{field_from_json, from_json};
pub use words::why;
