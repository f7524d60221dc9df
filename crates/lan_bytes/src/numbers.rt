ghost use Rattle.std.specs.Prelude.{◌≡◌, ◌≢◌, ◌<◌, ◌%◌, length, slice_get, Some, IfSome, IfNone};
ghost use Rattle.std.specs.Int.{w16, w32, w64};
ghost use Rattle.lan_bytes.specs.Numbers.{numbers_of};

use crate::view::View;
use std::marker::Model;

/// Numbers of two bytes each, the lowest byte first, one after the other. A contract sees their list.
#[derive(Debug, Drop)]
pub struct U16s<'a> {
    view: View<'a>,
}

impl<'a> Model for U16s<'a> {
    ghost use Rattle.std.specs.Prelude.{List, ℕ};
    ghost use Rattle.std.specs.Int.{w16, w32, w64};
    ghost use Rattle.lan_bytes.specs.Numbers.{numbers_of};

    ghost Value = { List ℕ };

    ghost view = { λ list. numbers_of w16 list.view.bytes };
}

impl<'a> U16s<'a> {
    /// The numbers that these bytes are. None where the last number isn't whole.
    pub fn of(view: View<'a>) -> Option<U16s<'a>>
        ensures some { IfSome result (λ list. list ≡ numbers_of w16 view.entry.bytes) }
        ensures whole { IfSome result (λ _. length view.entry.bytes % 2 ≡ 0) }
        ensures none { IfNone result (length view.entry.bytes % 2 ≢ 0) }
    {
        if view.len() % 2 != 0 {
            return None;
        }
        Some(U16s { view })
    }

    /// How many numbers there are.
    #[tactic(auto, using(crate::proofs::NumberLists::number_lists))]
    pub fn len(&self) -> u64
        ensures { result ≡ length self.now }
    {
        self.view.len() / 2
    }

    /// The number at a place, counted in numbers from 0.
    #[tactic(auto, using(crate::proofs::NumberLists::number_lists))]
    pub fn at(&self, i: u64) -> u16
        requires { i < length self.now }
        ensures { slice_get self.now i ≡ Some result }
    {
        let (_, b) = self.view.bytes().split_at(2 * i as usize);
        u16::from_le_bytes([b[0], b[1]])
    }
}

/// Numbers of four bytes each, the lowest byte first, one after the other. A contract sees their list.
#[derive(Debug, Drop)]
pub struct U32s<'a> {
    view: View<'a>,
}

impl<'a> Model for U32s<'a> {
    ghost use Rattle.std.specs.Prelude.{List, ℕ};
    ghost use Rattle.std.specs.Int.{w16, w32, w64};
    ghost use Rattle.lan_bytes.specs.Numbers.{numbers_of};

    ghost Value = { List ℕ };

    ghost view = { λ list. numbers_of w32 list.view.bytes };
}

impl<'a> U32s<'a> {
    /// The numbers that these bytes are. None where the last number isn't whole.
    pub fn of(view: View<'a>) -> Option<U32s<'a>>
        ensures some { IfSome result (λ list. list ≡ numbers_of w32 view.entry.bytes) }
        ensures whole { IfSome result (λ _. length view.entry.bytes % 4 ≡ 0) }
        ensures none { IfNone result (length view.entry.bytes % 4 ≢ 0) }
    {
        if view.len() % 4 != 0 {
            return None;
        }
        Some(U32s { view })
    }

    /// How many numbers there are.
    #[tactic(auto, using(crate::proofs::NumberLists::number_lists))]
    pub fn len(&self) -> u64
        ensures { result ≡ length self.now }
    {
        self.view.len() / 4
    }

    /// The number at a place, counted in numbers from 0.
    #[tactic(auto, using(crate::proofs::NumberLists::number_lists))]
    pub fn at(&self, i: u64) -> u32
        requires { i < length self.now }
        ensures { slice_get self.now i ≡ Some result }
    {
        let (_, b) = self.view.bytes().split_at(4 * i as usize);
        u32::from_le_bytes([b[0], b[1], b[2], b[3]])
    }
}

/// Numbers of eight bytes each, the lowest byte first, one after the other. A contract sees their list.
#[derive(Debug, Drop)]
pub struct U64s<'a> {
    view: View<'a>,
}

impl<'a> Model for U64s<'a> {
    ghost use Rattle.std.specs.Prelude.{List, ℕ};
    ghost use Rattle.std.specs.Int.{w16, w32, w64};
    ghost use Rattle.lan_bytes.specs.Numbers.{numbers_of};

    ghost Value = { List ℕ };

    ghost view = { λ list. numbers_of w64 list.view.bytes };
}

impl<'a> U64s<'a> {
    /// The numbers that these bytes are. None where the last number isn't whole.
    pub fn of(view: View<'a>) -> Option<U64s<'a>>
        ensures some { IfSome result (λ list. list ≡ numbers_of w64 view.entry.bytes) }
        ensures whole { IfSome result (λ _. length view.entry.bytes % 8 ≡ 0) }
        ensures none { IfNone result (length view.entry.bytes % 8 ≢ 0) }
    {
        if view.len() % 8 != 0 {
            return None;
        }
        Some(U64s { view })
    }

    /// How many numbers there are.
    #[tactic(auto, using(crate::proofs::NumberLists::number_lists))]
    pub fn len(&self) -> u64
        ensures { result ≡ length self.now }
    {
        self.view.len() / 8
    }

    /// The number at a place, counted in numbers from 0.
    #[tactic(auto, using(crate::proofs::NumberLists::number_lists))]
    pub fn at(&self, i: u64) -> u64
        requires { i < length self.now }
        ensures { slice_get self.now i ≡ Some result }
    {
        let (_, b) = self.view.bytes().split_at(8 * i as usize);
        u64::from_le_bytes([b[0], b[1], b[2], b[3], b[4], b[5], b[6], b[7]])
    }
}
