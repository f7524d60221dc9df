//! Tests of the bytes of formats: numbers, messages of Protocol Buffers and of fields, manifests, and deletion
//! files.
#![tactic(auto)]

#[cfg(test)]
mod deletions;
#[cfg(test)]
mod manifests;
#[cfg(test)]
mod messages;
#[cfg(test)]
mod numbers;
#[cfg(test)]
mod samples;
#[cfg(test)]
mod schemas;
