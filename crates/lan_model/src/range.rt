use crate::list::List;

/// A part of an object: its first byte, counted from the object's front, and its number of bytes.
#[derive(Clone, Copy, Debug, PartialEq, Eq)]
pub struct Range {
    pub at: u64,
    pub len: u64,
}

pub type Ranges = List<Range>;

/// A chunk of a page: its bytes, counted from the front of the page's content, and its slots.
#[derive(Clone, Copy, Debug, PartialEq, Eq)]
pub struct Span {
    pub at: u64,
    pub len: u64,
    /// The number of its first slot.
    pub first: u64,
    pub slots: u64,
}

pub type Spans = List<Span>;
