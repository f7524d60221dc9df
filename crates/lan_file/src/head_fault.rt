ghost use Rattle.std.specs.Prelude.{◌≡◌};
ghost use Rattle.lan_file.specs.declared.head_fault.HeadFault.TheVariants.{Memory};

use lan_meta::MetaFault;
use lan_wire::WireFault;
use std::alloc::AllocError;

/// Why an object isn't a data file with the columns that are asked. From `TooShort` to `Region`, and then
/// down to `Column`, each presumes that those before it don't stand; the place that goes with each counts
/// bytes from the object's front.
#[derive(Clone, Copy, Debug, PartialEq, Eq)]
pub enum HeadReason {
    /// No object has the name; at 0.
    Missing,
    /// It has over 2^30 bytes; at its size.
    Size,
    /// A part that its size put inside the object passes its end, so that it changed between two calls;
    /// at the part's front. A store that tells its objects never makes it.
    Short,
    /// It has under 40 bytes; at its size.
    TooShort,
    /// It doesn't end in `LANC`; 4 bytes before its end.
    Magic,
    /// The major and the minor version aren't 2 and 1; 8 bytes before its end.
    Version(u16, u16),
    /// A table, the descriptor or the metadata of an asked column doesn't lie where it must; 40 bytes
    /// before its end.
    Region,
    /// There is no global buffer 0; at the global buffers' table.
    Descriptor,
    /// There is no column of this number, which is asked; at the columns' table.
    Column(u32),
    /// The descriptor can't be read; at the key.
    Wire(WireFault),
    /// The metadata of an asked column is none of its leaf; at the fault's own place, or at 0.
    Meta(MetaFault),
    /// The rows of this column's pages don't add up to those that the descriptor states; at its metadata.
    ColumnRows(u32),
}

/// Why no head of a file was read.
#[derive(Clone, Copy, Debug, PartialEq, Eq)]
pub enum HeadFault {
    /// The object isn't such a file, for this reason at this place.
    Outside(HeadReason, u64),
    /// The store failed.
    Store,
    Memory,
}

impl From<AllocError> for HeadFault {
    ghost from_gives = { λ _ e. e ≡ Memory };

    fn from(_fault: AllocError) -> HeadFault {
        HeadFault::Memory
    }
}
