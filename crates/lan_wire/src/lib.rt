//! Messages of Protocol Buffers: their items one by one, what each item's body is, and their one spelling.
#![tactic(auto)]

mod fields;
mod item;
mod judging;
pub mod laws;
mod readers;
mod reading;
mod rules;
mod said;
mod writer;

pub use fields::Fields;
pub use item::{Body, Item, NumsFault, WireFault, WireKind};
pub use rules::{Kind, Rule};
pub use said::{Parts, Said, SaidNumbers};
pub use writer::Writer;
