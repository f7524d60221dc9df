ghost use Rattle.std.specs.Prelude.{◌≡◌, ◌+◌, ◌*◌, ◌<◌, ◌≤◌, ◌^◌, length, IfOk, IfErr};
ghost use Rattle.lan_levels.specs.Offsets.{AreOffsets, place_at};
ghost use Rattle.lan_levels.specs.Runs.{placed, run};
ghost use Rattle.lan_index.specs.Refusals.{Offsets, OffsetsStand, stretch};

use crate::fault::IndexFault;
use crate::reading::number;
use lan_bytes::View;
use lan_model::Range;
use std::marker::Model;

/// The places of a full-zip page's rows, lent where they stand. A contract sees their bytes, and how
/// many rows there are.
///
/// There are eight bytes a row, low byte first, for the place of its first slot, counted from the
/// front of the page's content, and eight more for the content's end.
#[derive(Debug, Drop)]
pub struct ZipIndex<'a> {
    places: &'a [u8],
    rows: u64,
    content: u64,
}

impl<'a> Model for ZipIndex<'a> {
    ghost use Rattle.std.specs.Prelude.{◌^◌, ◌<◌, ◌≤◌, length};
    ghost use Rattle.lan_levels.specs.Offsets.{AreOffsets};
    ghost use Rattle.lan_index.specs.Refusals.{Offsets};

    ghost Value = { Offsets };

    ghost view = { λ v. record { rows = v.rows; content = v.content; places = v.places.now } };

    ghost invariant = { λ v. AreOffsets v.rows v.content v.places.now × (length v.places.now ≤ 2 ^ 63) };
}

impl<'a> ZipIndex<'a> {
    /// The bytes as the places of so many rows in a content of `bytes` bytes, lent and never copied.
    pub fn open(view: View<'a>, rows: u64, bytes: u64) -> Result<ZipIndex<'a>, IndexFault>
        ensures ok { IfOk result (λ index. index ≡ record { rows = rows; content = bytes; places = view.entry.bytes }) }
        ensures index { IfOk result (λ _. AreOffsets rows bytes view.entry.bytes) }
        ensures cause { IfErr result (OffsetsStand rows bytes view.entry.bytes) }
        ensures none { IfErr result (λ _. AreOffsets rows bytes view.entry.bytes → ⊥) }
    {
        let places = view.bytes();
        check_offsets(places, rows, bytes)?;
        Ok(ZipIndex {
            places,
            rows,
            content: bytes,
        })
    }

    /// The bytes of the content that hold a row, counted from 0.
    pub fn range(&self, row: u64) -> Range
        requires { row < self.now.rows }
        ensures value { stretch result ≡ run (placed self.now.places) row }
        ensures within { result.at + result.len ≤ self.now.content }
    {
        let at = place(self.places, row);
        let past = place(self.places, row + 1);
        Range { at, len: past - at }
    }
}

/// Refuses bytes that aren't the places of so many rows.
fn check_offsets(places: &[u8], rows: u64, bytes: u64) -> Result<(), IndexFault>
    requires { length places.now ≤ 2 ^ 63 }
    ensures ok { IfOk result (λ _. AreOffsets rows bytes places.now) }
    ensures cause { IfErr result (OffsetsStand rows bytes places.now) }
    ensures none { IfErr result (λ _. AreOffsets rows bytes places.now → ⊥) }
{
    let len = places.len() as u64;
    if len % 8 != 0 || len / 8 <= rows || len / 8 - 1 != rows {
        return Err(IndexFault::Length);
    }
    let mut last = 0;
    for n in 0..rows + 1 {
        let next = place(places, n);
        if next < last || (n == 0 && next != 0) {
            return Err(IndexFault::Falling(n));
        }
        last = next;
    }
    if last != bytes {
        return Err(IndexFault::End);
    }
    Ok(())
}

/// The place of that number, counted from 0.
fn place(places: &[u8], n: u64) -> u64
    requires room { 8 * (n + 1) ≤ length places.now }
    requires few { length places.now ≤ 2 ^ 63 }
    ensures { result ≡ place_at places.now n }
{
    number(places, 8 * n)
}
