//! Manifests: what a version of a dataset is made of, read and written, and the names of versions.
#![tactic(auto)]

mod copying;
mod fault;
mod frame;
mod keeping;
pub mod laws;
mod manifest;
mod reading;
mod rules;
mod said;
mod schema;
mod versions;
mod writing;

pub use fault::ManifestFault;
pub use frame::message_place;
pub use manifest::{DataFile, DataFiles, Deletion, Fragment, Fragments, Manifest};
pub use reading::read_manifest;
pub use versions::{list_versions, name_of_version, version_of_name};
pub use writing::write_manifest;
