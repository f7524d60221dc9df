ghost use Rattle.std.specs.Prelude.{◌≡◌};
ghost use Rattle.lan_read.specs.declared.read_fault.ReadFault.TheVariants as unread;

use lan_file::HeadReason;
use lan_levels::Join;
use lan_manifest::ManifestFault;
use lan_page::PageReason;
use lan_store::Name;
use std::alloc::AllocError;

/// Why a stored object isn't what a version says of it. The place that goes with each counts bytes from
/// the object's front, unless it says otherwise.
#[derive(Debug, Drop)]
pub enum Reason {
    /// No object of a manifest's name is held; at 0.
    Missing,
    /// The manifest's object has over 2^30 bytes; at its size.
    Size,
    /// A part of the manifest's object passes its end, so that it changed between two calls. A store that
    /// tells its objects never makes it.
    Short,
    /// It stands for no manifest of the version.
    Manifest(ManifestFault),
    /// It is no data file with the columns that are asked.
    File(HeadReason),
    /// The data file has so many rows, and its fragment so many; at 0.
    Rows(u64, u64),
    /// A page of a column that is asked isn't held.
    Page(PageReason),
    /// The slots of a row are those of no value of their field. The place is the row's, among all rows of
    /// its fragment.
    Join(Join),
}

/// Why a version, or its rows, aren't read.
#[derive(Debug, Drop)]
pub enum ReadFault {
    /// No version is listed.
    NoDataset,
    /// The version that was asked for isn't listed; the newest is.
    NoVersion {
        asked: u64,
        newest: u64,
    },
    /// An object isn't what the version says: why, and where.
    Outside {
        object: Name,
        reason: Reason,
        place: u64,
    },
    /// The store failed at this name; a folder has an empty rest.
    Store(Name),
    Memory,
}

impl From<AllocError> for ReadFault {
    ghost from_gives = { λ _ e. e ≡ unread.Memory };

    fn from(_: AllocError) -> Self {
        ReadFault::Memory
    }
}
