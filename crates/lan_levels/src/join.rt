use std::alloc::AllocError;

/// Why the slots of a field's leaves are those of no value that fits.
#[derive(Clone, Copy, Debug, PartialEq, Eq)]
pub enum Join {
    /// The slots of that leaf are those of no value, or disagree with those of an earlier leaf.
    Shape(u32),
    /// The slots stand for a null of that field, which is not nullable.
    NotNull(u32),
    /// A text of that leaf is not UTF-8.
    NotText(u32),
    Memory,
}

impl From<AllocError> for Join {
    ghost use Rattle.std.specs.Prelude.{◌≡◌};
    ghost use Rattle.lan_levels.specs.declared.join.Join.TheVariants as join;

    ghost from_gives = { λ _ e. e ≡ join.Memory };

    fn from(_error: AllocError) -> Join {
        Join::Memory
    }
}
