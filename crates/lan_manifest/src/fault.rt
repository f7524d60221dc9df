use lan_schema::SchemaFault;
use lan_wire::WireFault;
use std::alloc::AllocError;

/// Why an object stands for no manifest of a version. A fragment is named by its id. From `VersionDiffers`
/// on each fault presumes that those above it stand for no fragment.
#[derive(Debug, Drop)]
pub enum ManifestFault {
    /// It has under 20 bytes.
    TooShort,
    /// It doesn't end in `LANC`.
    Magic,
    /// The message with its length doesn't end before the last 16 bytes.
    Region,
    /// A message can't be read.
    Wire(WireFault),
    /// Its messages stand for no fields.
    Schema(SchemaFault),
    /// The version that was asked for, and that of the message.
    VersionDiffers(u64, u64),
    /// The reader's flags beside 1, 4 and 8.
    UnknownFlag(u64),
    /// There are over 65,536 fragments.
    Fragments,
    /// The id comes twice, or is above 2^32 - 1.
    FragmentId(u64),
    /// The fragment has row ids.
    RowIds(u64),
    /// The fragment has 2^31 rows or more, or more deleted ones than rows.
    Rows(u64),
    /// A path in the fragment isn't 1 to 200 letters, digits, dots, lines and dashes, begins with a dot or
    /// ends in `.tmp`.
    Path(u64),
    /// The lists of a file of the fragment differ in length, or a leaf of the schema has a negative column.
    Lists(u64),
    /// A file of the fragment isn't of version 2.1.
    FileVersion(u64),
    /// A deletion file has this type, which isn't read.
    DeletionType(u64),
    /// A leaf has two columns in the fragment.
    FieldTwice(u64),
    /// A top field has some of its leaves in the fragment, but not all.
    PartField(u64),
    /// A top field that isn't nullable has no leaf in the fragment, which has rows.
    Absent(u64),
    Memory,
}

impl From<AllocError> for ManifestFault {
    ghost use Rattle.std.specs.Prelude.{◌≡◌};
    ghost use Rattle.lan_manifest.specs.declared.fault.ManifestFault.TheVariants.{Memory};

    ghost from_gives = { λ _ e. e ≡ Memory };

    fn from(_fault: AllocError) -> ManifestFault {
        ManifestFault::Memory
    }
}
