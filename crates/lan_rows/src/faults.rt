use lan_model::Text;
use std::alloc::AllocError;

/// Why a line is no row of some fields.
///
/// `NoKey` and `StrayKey` name the key. The others name the column, however deep inside it the
/// fault is.
#[derive(Debug, Drop)]
pub enum RowFault {
    /// The line isn't one JSON value.
    Json,
    NotObject,
    /// A key is absent, and its field isn't nullable.
    NoKey(Text),
    StrayKey(Text),
    Kind(Text),
    Range(Text),
    NotNull(Text),
    Count(Text),
    Hex(Text),
    TooLong(Text),
    Memory,
}

impl From<AllocError> for RowFault {
    ghost use Rattle.std.specs.Prelude.{◌≡◌};
    ghost use Rattle.lan_rows.specs.declared.faults.RowFault.TheVariants.{Memory};

    ghost from_gives = { λ _ e. e ≡ Memory };

    fn from(_: AllocError) -> RowFault {
        RowFault::Memory
    }
}
