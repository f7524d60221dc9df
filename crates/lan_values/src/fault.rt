/// Why bytes are no buffer of so many values. Each presumes that none above it stands.
#[derive(Clone, Copy, Debug, PartialEq, Eq)]
pub enum ValueFault {
    /// Flat values and bools: another number of bytes than theirs. Variable values: no room for
    /// the offsets.
    Length,
    /// The first offset isn't the end of the offsets.
    FirstOffset,
    /// The offset of this number, counted from 0, is below the one before it.
    Falling(u64),
    /// The last offset isn't the buffer's length.
    LastOffset,
}
