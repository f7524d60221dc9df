//! Tests of pages and data files: the metadata of columns, where rows lie in a page, and whole files.
#![tactic(auto)]

#[cfg(test)]
mod columns;
#[cfg(test)]
mod files;
#[cfg(test)]
mod messages;
#[cfg(test)]
mod places;
