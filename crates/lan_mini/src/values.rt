ghost use Rattle.std.specs.Prelude.{◌≡◌, ◌^◌, ◌<◌, ◌≤◌, length, slice_get, Some, IfOk, IfErr};
ghost use Rattle.lan_levels.specs.PlainSlots.{plain_piece};
ghost use Rattle.lan_levels.specs.ChunkSlots.{pieces_in, AreStored};
ghost use Rattle.lan_mini.specs.Form.{plain_storing};
ghost use Rattle.lan_mini.specs.Cutting.{pieces_of};
ghost use Rattle.lan_mini.specs.Refusals.{ValuesStand};

use crate::form::Storing;
use lan_bytes::View;
use lan_levels::Piece;
use lan_values::{BoolView, ConstView, FlatView, ValueFault, VarView};

/// The values of a chunk's slots, lent where they stand.
#[derive(Drop)]
pub enum Values<'a> {
    Flat(FlatView<'a>),
    Bools(BoolView<'a>),
    Variable(VarView<'a>),
    Always(ConstView<'a>),
}

impl<'a> Values<'a> {
    /// The bytes as so many values; where the chunk stores none, the bytes aren't looked at.
    pub fn open(bytes: &'a [u8], storing: Storing<'a>, n: u64) -> Result<Values<'a>, ValueFault>
        requires { length bytes.now ≤ 2 ^ 63 }
        ensures ok { IfOk result (λ v. pieces_of v ≡ pieces_in (plain_storing storing.entry) n bytes.now) }
        ensures stored { IfOk result (λ _. AreStored (plain_storing storing.entry) n bytes.now) }
        ensures count { IfOk result (λ v. length (pieces_of v) ≡ n) }
        ensures cause { IfErr result (ValuesStand (plain_storing storing.entry) n bytes.now) }
        ensures none { IfErr result (λ _. AreStored (plain_storing storing.entry) n bytes.now → ⊥) }
    {
        let view = View::new(0, bytes);
        match storing {
            Storing::Flat(width) => Ok(Values::Flat(FlatView::open(view, width, n)?)),
            Storing::Bools => Ok(Values::Bools(BoolView::open(view, n)?)),
            Storing::Variable => Ok(Values::Variable(VarView::open(view, n)?)),
            Storing::Always(piece) => Ok(Values::Always(ConstView::new(piece, n))),
        }
    }

    /// The value at a place, counted from 0.
    #[inline(always)]
    pub fn at(&self, i: u64) -> Piece<'a>
        requires { i < length (pieces_of self.now) }
        ensures { slice_get (pieces_of self.now) i ≡ Some (plain_piece result) }
    {
        match self {
            Values::Flat(view) => view.at(i),
            Values::Bools(view) => view.at(i),
            Values::Variable(view) => view.at(i),
            Values::Always(view) => view.at(i),
        }
    }

    /// The same values, once more.
    pub fn again(&self) -> Values<'a>
        ensures { pieces_of result ≡ pieces_of self.now }
    {
        match self {
            Values::Flat(view) => Values::Flat(view.again()),
            Values::Bools(view) => Values::Bools(view.again()),
            Values::Variable(view) => Values::Variable(view.again()),
            Values::Always(view) => Values::Always(view.again()),
        }
    }
}
