/// Successive chunks of a mini-block page that hold a row or a slot.
#[derive(Clone, Copy, Debug, PartialEq, Eq)]
pub struct Run {
    /// The number of the first chunk, counted from 0.
    pub first: u64,
    /// The number behind that of the last chunk.
    pub past: u64,
    /// How many row starts of the first chunk stand before the row, or how many slots before the slot.
    pub skip: u64,
    /// The first byte of the first chunk, counted from the front of the page's chunks.
    pub at: u64,
    /// How many bytes the chunks have.
    pub len: u64,
}
