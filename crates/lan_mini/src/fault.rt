use lan_values::ValueFault;

/// Why bytes are no chunk of so many slots. Each presumes that none above it stands.
#[derive(Clone, Copy, Debug, PartialEq, Eq)]
pub enum ChunkFault {
    /// The bytes end before the header does.
    Header,
    /// The header tells another number of slots.
    Count,
    /// The buffer of this number, counted from 0 among those that are stored, passes the end of the
    /// bytes, or is one of levels and hasn't two bytes a slot.
    Buffer(u8),
    /// A level of the slot of this number, counted from 0, is too great.
    Level(u64),
    /// The value buffer is none of so many values as the levels ask for.
    Value(ValueFault),
    /// Bytes follow the last buffer.
    Extra,
}
