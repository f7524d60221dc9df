// Where the rows of a page begin in its content, and how many are read at once.
ghost use Rattle.std.specs.Prelude.{◌≡◌, ℕ, List as Sequence, ◌+◌, ◌-◌, ◌*◌, ◌^◌, ◌<◌, ◌≤◌, max, length, IfSome, IfNone, IsSomeAnd, IsTrue};
ghost use Rattle.std.specs.Prelude.{◌↔◌};
ghost use Rattle.lan_levels.specs.Past.{past};
ghost use Rattle.lan_levels.specs.Runs.{placed, run, IsIndex};
ghost use Rattle.lan_levels.specs.Stretch.{bytes_in, cover};
ghost use Rattle.lan_levels.specs.Offsets.{AreOffsets, place_at};
ghost use Rattle.lan_index.specs.Refusals.{OffsetsStand};
ghost use Rattle.lan_page.specs.Places.{known_runs, HasAll, place_in, range_stretch, IsListed};

use lan_bytes::View;
use lan_index::{IndexFault, ZipIndex};
use lan_model::Range;

// No piece has more rows.
pub const MOST_ROWS: u64 = 32_768;

// No piece has more bytes, unless its first row has more.
const MOST_BYTES: u64 = 1 << 20;

/// How the places of a page's rows are known.
#[derive(Clone, Copy)]
pub enum Known<'a> {
    /// Each row has so many bytes.
    Even(u64),
    /// Eight bytes a row for where it begins, and eight for the end.
    Listed(&'a [u8]),
}

/// Where the rows of a page begin in its content.
#[derive(Clone, Copy)]
pub struct Places<'a> {
    pub rows: u64,
    /// How many bytes the content has.
    pub content: u64,
    pub known: Known<'a>,
}

/// Whether so many bytes are the places of so many rows and of their end.
pub fn are_whole(len: u64, rows: u64) -> bool
    ensures { IsTrue result ↔ (len ≡ 8 * (rows + 1)) }
{
    len % 8 == 0 && len / 8 > rows && len / 8 - 1 == rows
}

/// The place of that number among eight bytes each.
pub fn place(places: &[u8], n: u64) -> u64
    requires room { 8 * n + 8 ≤ length places.now }
    ensures { result ≡ place_at places.now n }
{
    match View::new(0, places).u64_at(8 * n) {
        Some(place) => place,
        None => unreachable!(),
    }
}

/// The bytes from one place to another, where these lie in the content so.
pub fn between(from: u64, past: u64, content: u64) -> Option<Range>
    ensures some { IfSome result (λ part. (range_stretch part ≡ record { from = from; past = past }) × (past ≤ content) × (from ≤ past)) }
    ensures none { IfNone result (from ≤ past → past ≤ content → ⊥) }
{
    if from > past || past > content {
        return None;
    }
    Some(Range {
        at: from,
        len: past - from,
    })
}

/// Why bytes are no places of so many rows in so many bytes of content.
pub fn fault_of(places: &[u8], rows: u64, content: u64) -> IndexFault
    requires { AreOffsets rows content places.now → ⊥ }
    ensures { OffsetsStand rows content places.now result }
{
    match ZipIndex::open(View::new(0, places), rows, content) {
        Err(fault) => fault,
        Ok(_) => unreachable!(),
    }
}

impl<'a> Places<'a> {
    /// The place of that number, counted from 0.
    fn at(&self, n: u64) -> u64
        requires all { HasAll self.now.rows self.now.known }
        requires within { n ≤ self.now.rows }
        ensures { result ≡ place_in self.now n }
    {
        match self.known {
            Known::Even(width) => width.saturating_mul(n).min(self.content),
            Known::Listed(places) => place(places, n),
        }
    }

    /// The row before which a piece ends that begins at `row`. None where places that were looked at fall or
    /// pass the content.
    pub fn past(&self, row: u64) -> Option<u64>
        requires all { HasAll self.now.rows self.now.known }
        requires row { row < self.now.rows }
        ensures some { IfSome result (λ past. (row < past) × (past ≤ self.now.rows)) }
        ensures order { IfSome result (λ past. (place_in self.now row ≤ place_in self.now past) × (place_in self.now past ≤ self.now.content)) }
        ensures short { IfSome result (λ past. place_in self.now past - place_in self.now row ≤ max (2 ^ 20) (place_in self.now (row + 1) - place_in self.now row)) }
        ensures exact { IsIndex (known_runs self.now.known) self.now.rows self.now.content → IsSomeAnd result (λ q. q ≡ past (run (known_runs self.now.known)) self.now.rows row) }
        ensures none { IfNone result (IsListed self.now.known) }
    {
        let furthest = row + MOST_ROWS.min(self.rows - row);
        let from = self.at(row);
        let first = self.at(row + 1);
        if from > first || first > self.content {
            return None;
        }
        let longest = MOST_BYTES.max(first - from);
        let mut past = row + 1;
        let mut last = first;
        'rows: while past < furthest {
            let next = self.at(past + 1);
            if last > next || next > self.content {
                return None;
            }
            if next - from > longest {
                return Some(past);
            }
            last = next;
            past += 1;
        }
        Some(past)
    }

    /// The bytes of the rows from `row` to before `past`.
    pub fn part(&self, row: u64, past: u64) -> Range
        requires all { HasAll self.now.rows self.now.known }
        requires past { past ≤ self.now.rows }
        requires row { row < past }
        requires order { place_in self.now row ≤ place_in self.now past }
        ensures stretch { range_stretch result ≡ record { from = place_in self.now row; past = place_in self.now past } }
        ensures same { (all : Sequence ℕ) → length all ≤ self.now.content → bytes_in all (range_stretch result) ≡ bytes_in all (cover (run (known_runs self.now.known)) row past) }
        ensures exact { IsIndex (known_runs self.now.known) self.now.rows self.now.content → range_stretch result ≡ cover (run (known_runs self.now.known)) row past }
    {
        let at = self.at(row);
        Range {
            at,
            len: self.at(past) - at,
        }
    }
}
