ghost use Rattle.std.specs.Prelude.{◌≡◌, ◌<◌, length, slice_get, Some};
ghost use Rattle.lan_levels.specs.PlainSlots.{plain_piece};
ghost use Rattle.lan_levels.specs.Values.{same_values};

use lan_levels::Piece;
use std::marker::Model;

/// A number of values that are all the same piece. A contract sees their list.
#[derive(Debug, Drop)]
pub struct ConstView<'a> {
    value: Piece<'a>,
    count: u64,
}

impl<'a> Model for ConstView<'a> {
    ghost use Rattle.std.specs.Prelude.{List};
    ghost use Rattle.lan_levels.specs.PlainSlots.{PlainPiece, plain_piece};
    ghost use Rattle.lan_levels.specs.Values.{same_values};

    ghost Value = { List PlainPiece };

    ghost view = { λ v. same_values (plain_piece v.value) v.count };
}

impl<'a> ConstView<'a> {
    /// `n` times this piece; of a bool it is the bit.
    pub fn new(value: Piece<'a>, n: u64) -> ConstView<'a>
        ensures value { result ≡ same_values (plain_piece value.entry) n }
        ensures count { length result ≡ n }
    {
        ConstView { value, count: n }
    }

    /// The same values, once more.
    pub fn again(&self) -> ConstView<'a>
        ensures { result ≡ self.now }
    {
        ConstView {
            value: self.value,
            count: self.count,
        }
    }

    /// The value at a place, counted from 0.
    pub fn at(&self, i: u64) -> Piece<'a>
        requires { i < length self.now }
        ensures { slice_get self.now i ≡ Some (plain_piece result) }
    {
        let _i = i;
        self.value
    }
}
