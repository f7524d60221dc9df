/// Why bytes are no slots of so many rows. Slots are counted from 0.
#[derive(Clone, Copy, Debug, PartialEq, Eq)]
pub enum ZipFault {
    /// The slot of this number passes the end of the bytes.
    Cut(u64),
    /// A level of the slot of this number is too great, or its control word has a bit beyond them.
    Level(u64),
    /// Not as many slots begin a row as there are rows, or the first slot begins none.
    Rows,
    /// Bytes follow the last slot.
    Extra,
}
