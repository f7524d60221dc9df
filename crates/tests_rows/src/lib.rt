//! Tests of rows: as lines of JSON and their schemas, as slots in leaves, in value buffers and in pages.
#![tactic(auto)]

#[cfg(test)]
mod chunks;
#[cfg(test)]
mod levels;
#[cfg(test)]
mod lines;
#[cfg(test)]
mod pages;
#[cfg(test)]
mod samples;
#[cfg(test)]
mod schemas;
#[cfg(test)]
mod values;
