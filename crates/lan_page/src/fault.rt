ghost use Rattle.std.specs.Prelude.{◌≡◌};

use lan_index::IndexFault;
use lan_zip::ZipFault;
use std::alloc::AllocError;

/// Why an object's bytes are no page of a leaf. The place that goes with it is counted from the object's front.
#[derive(Clone, Copy, Debug, PartialEq, Eq)]
pub enum PageReason {
    /// The page has a buffer, and the object isn't held. The place is 0.
    Missing,
    /// A range of a buffer passes the object's end. The place is the range's.
    Short,
    /// The index buffer is no index of the page's rows. The place is its own.
    Index(IndexFault),
    /// Entry of this number, counted from 0, of an index that is one isn't what the slots say. The place is the index buffer's.
    Content(u64),
    /// The content, or the part of it that is read for a row or a piece, isn't the slots of these rows. The place is the content's.
    Zip(ZipFault),
    /// The first slot begins no row. The place is the content's.
    Start,
    /// There are other slots than the page states. The place is the content's.
    Rows,
}

/// Why a page, or its rows, aren't had.
#[derive(Clone, Copy, Debug, PartialEq, Eq)]
pub enum PageFault {
    Outside(PageReason, u64),
    /// The store failed.
    Store,
    Memory,
}

impl From<AllocError> for PageFault {
    ghost use Rattle.std.specs.Prelude.{◌≡◌};
    ghost use Rattle.lan_page.specs.declared.fault.PageFault.TheVariants.{Memory};

    ghost from_gives = { λ _ fault. fault ≡ Memory };

    fn from(_error: AllocError) -> PageFault {
        PageFault::Memory
    }
}
