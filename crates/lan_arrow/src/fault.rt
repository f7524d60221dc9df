/// Why bytes are no deletion file for a fragment.
///
/// The number of `Table` is a place in bytes, counted from the front of the object. Those of `Batch`, `Compressed`
/// and `Nulls` are of the batch, counted from 0; those of `Row` and `Twice` are the row, and that of `Count` is how
/// many rows there are.
#[derive(Clone, Copy, Debug, PartialEq, Eq)]
pub enum ArrowFault {
    /// Under 18 bytes.
    TooShort,
    /// The first or the last six bytes aren't `ARROW1`.
    Magic,
    /// The footer's length passes the file.
    Footer,
    /// A table, vector or field passes its buffer, or a table lacks one that is needed.
    Table(u64),
    /// The schema isn't one plain column of unsigned numbers of 32 bits with the lowest byte first.
    Column,
    /// There is a dictionary.
    Dictionary,
    /// A block leads to no batch of such rows.
    Batch(u64),
    /// A batch is compressed.
    Compressed(u64),
    /// A batch has nulls.
    Nulls(u64),
    /// A row isn't below the physical rows.
    Row(u32),
    /// A row comes twice.
    Twice(u32),
    /// The rows aren't as many as stated.
    Count(u64),
    /// There was no memory.
    Memory,
}
