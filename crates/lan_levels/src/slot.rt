ghost use Rattle.std.specs.Prelude.{◌≡◌, ◌==◌, ◌≤◌, cond};

use lan_model::List;

/// Whether a slot has a value and, where not, which layer of its leaf is null or an empty list.
///
/// Layers are counted from the leaf outward, and the leaf's item is layer 0. Repetition and
/// definition levels are those of the Lance format and of Parquet, with one definition number for
/// each state that a layer can be in.
#[derive(Clone, Copy, Debug, PartialEq, Eq)]
pub enum State {
    Here,
    Null(u8),
    Empty(u8),
}

/// The value of a slot: a bool, or the bytes of any other value, numbers with the low byte first.
/// It is nothing unless the state is `Here`.
#[derive(Clone, Copy, Debug)]
pub enum Piece<'a> {
    Nothing,
    Bit(bool),
    Bytes(&'a [u8]),
}

/// One place of a leaf's column.
///
/// The repetition number of a row's first slot is the number of list layers; where a later item of
/// a list begins, it is the number of list layers inside that list.
#[derive(Clone, Copy, Debug)]
pub struct Slot<'a> {
    pub rep: u16,
    pub state: State,
    pub value: Piece<'a>,
}

impl<'a> Slot<'a> {
    /// How many rows begin with the slot, of a leaf with so many list layers: one or none.
    pub fn row_start(self, lists: u16) -> u64
        ensures value { result ≡ cond (self.entry.rep == lists) 1 0 }
        ensures few { result ≤ 1 }
    {
        if self.rep == lists { 1 } else { 0 }
    }
}

pub type Slots<'a> = List<Slot<'a>>;

/// Slots of one leaf, of the number `leaf`.
#[derive(Drop)]
pub struct SlotRun<'a> {
    pub leaf: u32,
    pub slots: Slots<'a>,
}

pub type Runs<'a> = List<SlotRun<'a>>;
