/// Why bytes are no index of a page. Each presumes that none above it stands.
#[derive(Clone, Copy, Debug, PartialEq, Eq)]
pub enum IndexFault {
    /// The chunk words aren't one or more whole words; the index of rows hasn't 16 bytes a chunk; the
    /// offsets haven't 8 bytes a row and 8 more.
    Length,
    /// The slots of the chunks leave too few or too many for the last, or a chunk has too many.
    Slots,
    /// A chunk is too long, or the chunks haven't as many bytes as the content in all.
    Size,
    /// The rows that begin in the chunks aren't as many as the page has.
    Rows,
    /// Of the chunk of this number, counted from 0, the rows and the slots before them pass its
    /// slots, or no row begins there and the slots before aren't all its slots, or it is the first
    /// and has slots before.
    Lead(u64),
    /// The offset of this number, counted from 0, is below the one before it, or it is the first
    /// and isn't 0.
    Falling(u64),
    /// The last offset isn't the content's length.
    End,
}
