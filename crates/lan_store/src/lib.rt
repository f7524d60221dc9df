//! What the engine asks of the outside: a store of named objects, a source and a sink of bytes.
#![tactic(auto)]

mod blind;
mod calm;
mod copying;
pub mod laws;
mod memory;
mod name;
mod putting;
mod shelf;
mod sink;
mod source;
mod store;
mod streams;

pub use blind::BlindStore;
pub use calm::CalmStore;
pub use copying::{ReadAllFault, read_all, write_all};
pub use memory::{MemStore, Plan, Plans};
pub use name::{Dir, Name, Names, Object};
pub use putting::{PutAllFault, put_all};
pub use sink::Sink;
pub use source::{Failed, Source};
pub use store::{GetFault, ListFault, Put, PutFault, SizeFault, Store};
pub use streams::{MemSink, MemSource};
