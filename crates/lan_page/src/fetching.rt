ghost use Rattle.std.specs.Prelude.{◌≡◌, ℕ, List as Sequence, [], ◌∷◌, ◌+◌, ◌-◌, ◌*◌, ◌/◌, ◌^◌, ◌<◌, ◌≤◌, max, length, option_to_list, IfOk, IfErr, IfSome, IfNone, IsOkAnd};
ghost use Rattle.std.specs.Option.{ForSome};
ghost use Rattle.lan_model.specs.Leaves.{plain_leaf};
ghost use Rattle.lan_store.specs.Budget.{range, plus, Asks};
ghost use Rattle.lan_store.specs.Looked.{Looked};
ghost use Rattle.lan_store.specs.Objects.{object};
ghost use Rattle.lan_levels.specs.Codes.{FitCodes, states_of};
ghost use Rattle.lan_levels.specs.Offsets.{AreOffsets};
ghost use Rattle.lan_levels.specs.Past.{past, longest};
ghost use Rattle.lan_levels.specs.Runs.{even, placed, run, IsIndex};
ghost use Rattle.lan_levels.specs.SlotsOf.{lists_in};
ghost use Rattle.lan_levels.specs.Stretch.{bytes_in, cover};
ghost use Rattle.lan_levels.specs.ZipForm.{digits, word_size, value_form};
ghost use Rattle.lan_levels.specs.ZipRows.{value_width, slot_width, zip_runs};
ghost use Rattle.lan_model.specs.Plain.{plain_type};
ghost use Rattle.lan_meta.specs.PageKeeps.{KeepsRules};
ghost use Rattle.lan_meta.specs.PageOf.{page_form};
ghost use Rattle.lan_meta.specs.PageRules.{EndBefore};
ghost use Rattle.lan_page.specs.Asking.{page_failure, AnswersOf, IfHeld, index_budget, near_most, near_budget, row_most, row_budget, content_budget, first_len, given_run, given_runs, IsPiecePart, FailsGiven, IsFullZip, IsIndexOf, IsPieceOf, piece_most, piece_budget, part_held, IsNear, given_more, GivenFails, RefusesPiece};
ghost use Rattle.lan_page.specs.Cuts.{one_span, AreBytesAt, IsCut};
ghost use Rattle.lan_page.specs.Held.{first_of, held_buffers, held_run};
ghost use Rattle.lan_page.specs.Places.{range_stretch, known_runs, HasAll, place_in, IsGiven};

use crate::asking::fetch;
use crate::cut::{PieceCut, RowCut};
use crate::fault::{PageFault, PageReason};
use crate::places::{Known, MOST_ROWS, Places, are_whole, between, fault_of, place};
use lan_bytes::View;
use lan_index::{IndexFault, ZipIndex};
use lan_levels::{Codes, ValueKind, greatest};
use lan_meta::{Layout, PageMeta};
use lan_model::{Blob, Leaf, Primitive, Range, Ty};
use lan_store::laws::looks_add_up;
use lan_store::{Name, Store};
use std::alloc::Global;

// How many bytes a control word has where there are no list layers.
fn word_width(leaf: &Leaf, codes: &Codes) -> u64
    requires few { length leaf.now.layers ≤ 16 }
    requires codes { FitCodes codes.now leaf.now.layers }
    requires single { lists_in leaf.now.layers ≡ 0 }
    ensures value { result ≡ word_size (digits (lists_in leaf.now.layers) + digits (length (states_of codes.now) - 1)) }
    ensures few { result ≤ 1 }
{
    if greatest(codes) == 0 {
        return 0;
    }
    1
}

// How many bytes a value has, where all have as many.
fn value_width(ty: &Ty, values: &ValueKind) -> u64
    ensures value { result ≡ value_width (value_form (plain_type ty.now) values.now) }
    ensures few { result ≤ 2 ^ 61 }
{
    match ty {
        Ty::Bits(Primitive::Bool) => 1,
        _ => match values {
            ValueKind::Flat(bits) => *bits / 8,
            _ => 0,
        },
    }
}

// How many bytes each slot of a full-zip page has, where all have as many.
fn slot_width(leaf: &Leaf, codes: &Codes, values: &ValueKind) -> u64
    requires few { length leaf.now.layers ≤ 16 }
    requires codes { FitCodes codes.now leaf.now.layers }
    requires single { lists_in leaf.now.layers ≡ 0 }
    ensures { result ≡ slot_width (page_form (plain_leaf leaf.now) codes.now values.now) }
{
    word_width(leaf, codes) + value_width(&leaf.ty, values)
}

// Where a row lies in a content of rows of one width.
fn even_run(width: u64, rows: u64, row: u64, content: u64) -> Range
    requires { row < rows }
    ensures exact { IsIndex (even width) rows content → range_stretch result ≡ run (even width) row }
    ensures within { result.at + result.len ≤ content }
{
    let places = Places {
        rows,
        content,
        known: Known::Even(width),
    };
    places.part(row, row + 1)
}

// The content of a page, and the places of its rows.
fn two_buffers(page: &PageMeta) -> (Range, Range)
    requires { length page.now.buffers ≡ 2 }
    ensures { page.now.buffers ≡ result.0 ∷ result.1 ∷ [] }
{
    (*page.buffers.at(0), *page.buffers.at(1))
}

// The content of a full-zip page, and the places of its rows where it has them.
fn buffers(page: &PageMeta) -> (Range, Option<Range>)
    requires some { 0 < length page.now.buffers }
    requires few { length page.now.buffers ≤ 2 }
    ensures { page.now.buffers ≡ result.0 ∷ option_to_list result.1 }
{
    if page.buffers.len() == 1 {
        return (*page.buffers.at(0), None);
    }
    let (content, index) = two_buffers(page);
    (content, Some(index))
}

// A part of the content, as a range of the object.
fn within(content: Range, part: Range) -> Range
    requires region { content.at + content.len ≤ 2 ^ 63 }
    requires inside { part.at + part.len ≤ content.len }
    ensures { result ≡ record { at = content.at + part.at; len = part.len } }
{
    Range {
        at: content.at + part.at,
        len: part.len,
    }
}

// Fetches a part of a page's content, and gives it as a cut.
fn fetch_content<S: Store>(
    alloc: Global,
    store: &mut S,
    name: &Name,
    page: &PageMeta,
    part: Range,
    into: &mut Blob,
) -> Result<RowCut, PageFault>
    requires some { 0 < length page.now.buffers }
    requires few { length page.now.buffers ≤ 2 }
    requires region { EndBefore (2 ^ 63) page.now.buffers }
    requires inside { part.at + part.len ≤ first_len page.now.buffers }
    requires empty { into.old ≡ [] }
    ensures looked { Looked (page_failure name.now result) (content_budget page.now.buffers part.len) (S.tells store.old) (S.tells store.new) }
    ensures cut { IfOk result (λ cut. cut ≡ record { skip = 0; spans = one_span (range_stretch part) ∷ [] }) }
    ensures answer { ForSome (S.tells store.old).objects (λ all. AnswersOf page.now (object all name.now) (λ _. into.new ≡ bytes_in (first_of (held_buffers page.now (object all name.now))) (range_stretch part)) result) }
    ensures bytes { ForSome (S.tells store.old).objects (λ all. IfOk result (λ cut. AreBytesAt page.now (object all name.now) cut into.new)) }
{
    looks_add_up();
    let (content, _) = buffers(page);
    let cut = RowCut::part(alloc, part)?;
    fetch(alloc, store, name, within(content, part), into)?;
    Ok(cut)
}

// Where a row lies by its two places alone. None where these can't be right.
fn near_run<S: Store>(
    alloc: Global,
    store: &mut S,
    name: &Name,
    page: &PageMeta,
    content: Range,
    index: Range,
    row: u64,
) -> Result<Option<Range>, PageFault>
    requires buffers { page.now.buffers ≡ content ∷ index ∷ [] }
    requires region { index.at + index.len ≤ 2 ^ 63 }
    requires whole { index.len ≡ 8 * (page.now.rows + 1) }
    requires row { row < page.now.rows }
    ensures looked { Looked (page_failure name.now result) (range 16) (S.tells store.old) (S.tells store.new) }
    ensures answer { ForSome (S.tells store.old).objects (λ all. AnswersOf page.now (object all name.now) (IsNear page.now.rows content.len (part_held (object all name.now) index) row) result) }
    ensures within { IfOk result (λ found. IfSome found (λ part. part.at + part.len ≤ content.len)) }
{
    let mut two = Blob::new(alloc);
    let part = Range {
        at: index.at + 8 * row,
        len: 16,
    };
    fetch(alloc, store, name, part, &mut two)?;
    let from = place(two.as_slice(), 0);
    let past = place(two.as_slice(), 1);
    Ok(between(from, past, content.len))
}

// Where a row lies by the places of all rows, or why these are none.
fn whole_run<S: Store>(
    alloc: Global,
    store: &mut S,
    name: &Name,
    page: &PageMeta,
    content: Range,
    index: Range,
    row: u64,
) -> Result<Range, PageFault>
    requires buffers { page.now.buffers ≡ content ∷ index ∷ [] }
    requires region { index.at + index.len ≤ 2 ^ 63 }
    requires row { row < page.now.rows }
    ensures looked { Looked (page_failure name.now result) (range index.len) (S.tells store.old) (S.tells store.new) }
    ensures answer { ForSome (S.tells store.old).objects (λ all. AnswersOf page.now (object all name.now) (λ part. range_stretch part ≡ run (placed (part_held (object all name.now) index)) row) result) }
    ensures within { IfOk result (λ part. part.at + part.len ≤ content.len) }
{
    let mut all = Blob::new(alloc);
    fetch(alloc, store, name, index, &mut all)?;
    match ZipIndex::open(View::new(0, all.as_slice()), page.rows, content.len) {
        Ok(found) => Ok(found.range(row)),
        Err(fault) => Err(PageFault::Outside(PageReason::Index(fault), index.at)),
    }
}

// Where a row lies by the places of the rows: its own two, or all of them where these can't be right.
fn listed_run<S: Store>(
    alloc: Global,
    store: &mut S,
    name: &Name,
    page: &PageMeta,
    content: Range,
    index: Range,
    row: u64,
) -> Result<Range, PageFault>
    requires buffers { page.now.buffers ≡ content ∷ index ∷ [] }
    requires region { index.at + index.len ≤ 2 ^ 63 }
    requires row { row < page.now.rows }
    ensures looked { Looked (page_failure name.now result) (plus (range 16) (range index.len)) (S.tells store.old) (S.tells store.new) }
    ensures asks { ForSome (S.tells store.old).objects (λ all. index.len ≡ 8 * (page.now.rows + 1) → AreOffsets page.now.rows content.len (part_held (object all name.now) index) → Asks (range 16) (S.tells store.old) (S.tells store.new)) }
    ensures answer { ForSome (S.tells store.old).objects (λ all. AnswersOf page.now (object all name.now) (λ part. range_stretch part ≡ run (placed (part_held (object all name.now) index)) row) result) }
    ensures within { IfOk result (λ part. part.at + part.len ≤ content.len) }
{
    looks_add_up();
    if are_whole(index.len, page.rows) {
        if let Some(part) = near_run(alloc, store, name, page, content, index, row)? {
            return Ok(part);
        }
    }
    whole_run(alloc, store, name, page, content, index, row)
}

// The part of a full-zip page's content that holds a row.
fn row_part<S: Store>(
    alloc: Global,
    store: &mut S,
    name: &Name,
    page: &PageMeta,
    leaf: &Leaf,
    row: u64,
) -> Result<Range, PageFault>
    requires page { KeepsRules (plain_leaf leaf.now) page.now }
    requires few { length leaf.now.layers ≤ 16 }
    requires row { row < page.now.rows }
    requires zip { IsFullZip page.now.layout }
    ensures looked { Looked (page_failure name.now result) (near_most page.now.buffers) (S.tells store.old) (S.tells store.new) }
    ensures asks { ForSome (S.tells store.old).objects (λ all. IfHeld (plain_leaf leaf.now) page.now (object all name.now) (Asks (near_budget page.now.buffers) (S.tells store.old) (S.tells store.new))) }
    ensures answer { ForSome (S.tells store.old).objects (λ all. AnswersOf page.now (object all name.now) (λ part. IfHeld (plain_leaf leaf.now) page.now (object all name.now) (range_stretch part ≡ held_run (plain_leaf leaf.now) page.now (object all name.now) row)) result) }
    ensures within { IfOk result (λ part. part.at + part.len ≤ first_len page.now.buffers) }
{
    match &page.layout {
        Layout::Zip { codes, values, .. } => match buffers(page) {
            (content, None) => {
                let width = slot_width(leaf, codes, values);
                Ok(even_run(width, page.rows, row, content.len))
            }
            (content, Some(index)) => { listed_run(alloc, store, name, page, content, index, row) }
        },
        _ => unreachable!(),
    }
}

// Fetches the bytes that hold a row of a full-zip page.
fn zip_row<S: Store>(
    alloc: Global,
    store: &mut S,
    name: &Name,
    page: &PageMeta,
    leaf: &Leaf,
    row: u64,
    into: &mut Blob,
) -> Result<RowCut, PageFault>
    requires page { KeepsRules (plain_leaf leaf.now) page.now }
    requires few { length leaf.now.layers ≤ 16 }
    requires row { row < page.now.rows }
    requires zip { IsFullZip page.now.layout }
    requires empty { into.old ≡ [] }
    ensures looked { Looked (page_failure name.now result) (row_most page.now) (S.tells store.old) (S.tells store.new) }
    ensures asks { ForSome (S.tells store.old).objects (λ all. IfHeld (plain_leaf leaf.now) page.now (object all name.now) (Asks (row_budget (plain_leaf leaf.now) page.now (object all name.now) row) (S.tells store.old) (S.tells store.new))) }
    ensures answer { ForSome (S.tells store.old).objects (λ all. AnswersOf page.now (object all name.now) (λ cut. IfHeld (plain_leaf leaf.now) page.now (object all name.now) (IsCut (plain_leaf leaf.now) page.now (object all name.now) row (row + 1) cut into.new)) result) }
    ensures bytes { ForSome (S.tells store.old).objects (λ all. IfOk result (λ cut. AreBytesAt page.now (object all name.now) cut into.new)) }
{
    looks_add_up();
    let part = row_part(alloc, store, name, page, leaf, row)?;
    fetch_content(alloc, store, name, page, part, into)
}

/// Fetches the bytes that hold a row.
///
/// Of a page with the places of its rows the row's two are asked, in 16 bytes, and the others only where these
/// can't be right. Of a constant page nothing is asked. After a refusal what is in `into` isn't said.
pub fn fetch_row<S: Store>(
    alloc: Global,
    store: &mut S,
    name: &Name,
    page: &PageMeta,
    leaf: &Leaf,
    row: u64,
    into: &mut Blob,
) -> Result<RowCut, PageFault>
    requires page { KeepsRules (plain_leaf leaf.now) page.now }
    requires few { length leaf.now.layers ≤ 16 }
    requires row { row < page.now.rows }
    requires empty { into.old ≡ [] }
    ensures looked { Looked (page_failure name.now result) (row_most page.now) (S.tells store.old) (S.tells store.new) }
    ensures asks { ForSome (S.tells store.old).objects (λ all. IfHeld (plain_leaf leaf.now) page.now (object all name.now) (Asks (row_budget (plain_leaf leaf.now) page.now (object all name.now) row) (S.tells store.old) (S.tells store.new))) }
    ensures answer { ForSome (S.tells store.old).objects (λ all. AnswersOf page.now (object all name.now) (λ cut. IfHeld (plain_leaf leaf.now) page.now (object all name.now) (IsCut (plain_leaf leaf.now) page.now (object all name.now) row (row + 1) cut into.new)) result) }
    ensures bytes { ForSome (S.tells store.old).objects (λ all. IfOk result (λ cut. AreBytesAt page.now (object all name.now) cut into.new)) }
{
    looks_add_up();
    match &page.layout {
        Layout::Constant { .. } => Ok(RowCut::nothing(alloc)),
        Layout::Mini { .. } => unreachable!(),
        Layout::Zip { .. } => zip_row(alloc, store, name, page, leaf, row, into),
    }
}

/// Fetches the buffers of a page that say where its rows lie: none of a page that has no such buffer.
pub fn fetch_index<S: Store>(
    alloc: Global,
    store: &mut S,
    name: &Name,
    page: &PageMeta,
    leaf: &Leaf,
    into: &mut Blob,
) -> Result<(), PageFault>
    requires page { KeepsRules (plain_leaf leaf.now) page.now }
    requires empty { into.old ≡ [] }
    ensures looked { Looked (page_failure name.now result) (index_budget page.now) (S.tells store.old) (S.tells store.new) }
    ensures answer { ForSome (S.tells store.old).objects (λ all. AnswersOf page.now (object all name.now) (λ _. IsIndexOf page.now (object all name.now) into.new) result) }
{
    looks_add_up();
    if page.buffers.len() < 2 {
        return Ok(());
    }
    let (_, index) = two_buffers(page);
    fetch(alloc, store, name, index, into)
}

// How the places of a page's rows are known, with the bytes of its index, if it has one.
fn known<'a>(
    page: &PageMeta,
    leaf: &Leaf,
    codes: &Codes,
    values: &ValueKind,
    place: Option<Range>,
    content: u64,
    index: &'a [u8],
) -> Result<Known<'a>, PageFault>
    requires few { length leaf.now.layers ≤ 16 }
    requires codes { FitCodes codes.now leaf.now.layers }
    requires single { IfNone place (lists_in leaf.now.layers ≡ 0) }
    ensures all { IfOk result (HasAll page.now.rows) }
    ensures runs { IfOk result (λ known. known_runs known ≡ zip_runs (page_form (plain_leaf leaf.now) codes.now values.now) (given_more (option_to_list place) index.now)) }
    ensures listed { IfOk result (IsGiven place index.now) }
    ensures fault { IfErr result (GivenFails page.now.rows content (option_to_list place) index.now) }
{
    match place {
        None => Ok(Known::Even(slot_width(leaf, codes, values))),
        Some(place) => {
            if !are_whole(index.len() as u64, page.rows) {
                let reason = PageReason::Index(IndexFault::Length);
                return Err(PageFault::Outside(reason, place.at));
            }
            Ok(Known::Listed(index))
        }
    }
}

// The row before which a piece ends that begins at `row`, or why the places are none.
fn piece_end(
    places: &Places<'_>,
    place: Option<Range>,
    index: &[u8],
    row: u64,
) -> Result<u64, PageFault>
    requires all { HasAll places.now.rows places.now.known }
    requires row { row < places.now.rows }
    requires given { IsGiven place index.now places.now.known }
    ensures some { IfOk result (λ past. (row < past) × (past ≤ places.now.rows)) }
    ensures order { IfOk result (λ past. (place_in places.now row ≤ place_in places.now past) × (place_in places.now past ≤ places.now.content)) }
    ensures short { IfOk result (λ past. place_in places.now past - place_in places.now row ≤ max (2 ^ 20) (place_in places.now (row + 1) - place_in places.now row)) }
    ensures exact { IsIndex (known_runs places.now.known) places.now.rows places.now.content → IsOkAnd result (λ q. q ≡ past (run (known_runs places.now.known)) places.now.rows row) }
    ensures fault { IfErr result (GivenFails places.now.rows places.now.content (option_to_list place) index.now) }
{
    if let Some(past) = places.past(row) {
        return Ok(past);
    }
    match (places.known, place) {
        (Known::Listed(index), Some(place)) => {
            let fault = fault_of(index, places.rows, places.content);
            Err(PageFault::Outside(PageReason::Index(fault), place.at))
        }
        _ => unreachable!(),
    }
}

// The row before which a piece ends, and its part of the content.
#[derive(Clone, Copy)]
struct PiecePart {
    pub past: u64,
    pub part: Range,
}

// The piece of a full-zip page that begins at a row.
fn piece_part(page: &PageMeta, leaf: &Leaf, index: &[u8], row: u64) -> Result<PiecePart, PageFault>
    requires page { KeepsRules (plain_leaf leaf.now) page.now }
    requires few { length leaf.now.layers ≤ 16 }
    requires row { row < page.now.rows }
    requires zip { IsFullZip page.now.layout }
    ensures rows { IfOk result (λ piece. (row < piece.past) × (piece.past ≤ page.now.rows)) }
    ensures within { IfOk result (λ piece. piece.part.at + piece.part.len ≤ first_len page.now.buffers) }
    ensures short { IfOk result (λ piece. piece.part.len ≤ longest (given_run (plain_leaf leaf.now) page.now index.now) row) }
    ensures exact { IsIndex (given_runs (plain_leaf leaf.now) page.now index.now) page.now.rows (first_len page.now.buffers) → IsOkAnd result (λ piece. IsPiecePart (given_run (plain_leaf leaf.now) page.now index.now) page.now.rows row piece) }
    ensures same { IfOk result (λ piece. (all : Sequence ℕ) → length all ≤ first_len page.now.buffers → bytes_in all (range_stretch piece.part) ≡ bytes_in all (cover (given_run (plain_leaf leaf.now) page.now index.now) row piece.past)) }
    ensures fault { IfErr result (FailsGiven page.now.rows page.now.buffers index.now) }
{
    match &page.layout {
        Layout::Zip { codes, values, .. } => {
            let (content, place) = buffers(page);
            let known = match known(page, leaf, codes, values, place, content.len, index) {
                Ok(known) => known,
                Err(fault) => return Err(fault),
            };
            let places = Places {
                rows: page.rows,
                content: content.len,
                known,
            };
            let past = match piece_end(&places, place, index, row) {
                Ok(past) => past,
                Err(fault) => return Err(fault),
            };
            let part = places.part(row, past);
            Ok(PiecePart { past, part })
        }
        _ => unreachable!(),
    }
}

// Fetches the bytes of the piece of a full-zip page that begins at a row.
fn zip_piece<S: Store>(
    alloc: Global,
    store: &mut S,
    name: &Name,
    page: &PageMeta,
    leaf: &Leaf,
    index: &[u8],
    row: u64,
    into: &mut Blob,
) -> Result<PieceCut, PageFault>
    requires page { KeepsRules (plain_leaf leaf.now) page.now }
    requires few { length leaf.now.layers ≤ 16 }
    requires row { row < page.now.rows }
    requires zip { IsFullZip page.now.layout }
    requires empty { into.old ≡ [] }
    ensures looked { Looked (page_failure name.now result) (piece_most (plain_leaf leaf.now) page.now index.now row) (S.tells store.old) (S.tells store.new) }
    ensures rows { IfOk result (λ piece. (piece.row ≡ row) × (row < piece.past) × (piece.past ≤ page.now.rows)) }
    ensures asks { ForSome (S.tells store.old).objects (λ all. IsIndexOf page.now (object all name.now) index.now → IfHeld (plain_leaf leaf.now) page.now (object all name.now) (Asks (piece_budget (plain_leaf leaf.now) page.now (object all name.now) row) (S.tells store.old) (S.tells store.new))) }
    ensures answer { ForSome (S.tells store.old).objects (λ all. IsIndexOf page.now (object all name.now) index.now → AnswersOf page.now (object all name.now) (λ piece. IfHeld (plain_leaf leaf.now) page.now (object all name.now) (IsPieceOf (plain_leaf leaf.now) page.now (object all name.now) row piece into.new)) result) }
    ensures bytes { ForSome (S.tells store.old).objects (λ all. IfOk result (λ piece. AreBytesAt page.now (object all name.now) piece.cut into.new)) }
    ensures own { ForSome (S.tells store.old).objects (λ all. IsIndexOf page.now (object all name.now) index.now → IfOk result (λ piece. into.new ≡ bytes_in (first_of (held_buffers page.now (object all name.now))) (cover (held_run (plain_leaf leaf.now) page.now (object all name.now)) row piece.past))) }
    ensures fault { ForSome (S.tells store.old).objects (λ all. IfErr result (RefusesPiece page.now (object all name.now) index.now)) }
    ensures whole { Looked (page_failure name.now result) (content_budget page.now.buffers (first_len page.now.buffers)) (S.tells store.old) (S.tells store.new) }
{
    looks_add_up();
    let piece = match piece_part(page, leaf, index, row) {
        Ok(piece) => piece,
        Err(fault) => return Err(fault),
    };
    let cut = fetch_content(alloc, store, name, page, piece.part, into)?;
    Ok(PieceCut {
        row,
        past: piece.past,
        cut,
    })
}

/// Fetches the bytes of the piece that begins at a row, in one range of at most 2^20 bytes or of the row's own.
///
/// `index` is what `fetch_index` gave of the page. Of a constant page nothing is asked, and a piece of it has up to
/// 32,768 rows. A reason is one of the object, or of the index that is handed over. After a refusal what is in
/// `into` isn't said.
pub fn fetch_piece<S: Store>(
    alloc: Global,
    store: &mut S,
    name: &Name,
    page: &PageMeta,
    leaf: &Leaf,
    index: &[u8],
    row: u64,
    into: &mut Blob,
) -> Result<PieceCut, PageFault>
    requires page { KeepsRules (plain_leaf leaf.now) page.now }
    requires few { length leaf.now.layers ≤ 16 }
    requires row { row < page.now.rows }
    requires empty { into.old ≡ [] }
    ensures looked { Looked (page_failure name.now result) (piece_most (plain_leaf leaf.now) page.now index.now row) (S.tells store.old) (S.tells store.new) }
    ensures rows { IfOk result (λ piece. (piece.row ≡ row) × (row < piece.past) × (piece.past ≤ page.now.rows)) }
    ensures asks { ForSome (S.tells store.old).objects (λ all. IsIndexOf page.now (object all name.now) index.now → IfHeld (plain_leaf leaf.now) page.now (object all name.now) (Asks (piece_budget (plain_leaf leaf.now) page.now (object all name.now) row) (S.tells store.old) (S.tells store.new))) }
    ensures answer { ForSome (S.tells store.old).objects (λ all. IsIndexOf page.now (object all name.now) index.now → AnswersOf page.now (object all name.now) (λ piece. IfHeld (plain_leaf leaf.now) page.now (object all name.now) (IsPieceOf (plain_leaf leaf.now) page.now (object all name.now) row piece into.new)) result) }
    ensures bytes { ForSome (S.tells store.old).objects (λ all. IfOk result (λ piece. AreBytesAt page.now (object all name.now) piece.cut into.new)) }
    ensures own { ForSome (S.tells store.old).objects (λ all. IsIndexOf page.now (object all name.now) index.now → IfOk result (λ piece. into.new ≡ bytes_in (first_of (held_buffers page.now (object all name.now))) (cover (held_run (plain_leaf leaf.now) page.now (object all name.now)) row piece.past))) }
    ensures fault { ForSome (S.tells store.old).objects (λ all. IfErr result (RefusesPiece page.now (object all name.now) index.now)) }
    ensures whole { Looked (page_failure name.now result) (content_budget page.now.buffers (first_len page.now.buffers)) (S.tells store.old) (S.tells store.new) }
{
    looks_add_up();
    match &page.layout {
        Layout::Constant { .. } => Ok(PieceCut {
            row,
            past: row + MOST_ROWS.min(page.rows - row),
            cut: RowCut::nothing(alloc),
        }),
        Layout::Mini { .. } => unreachable!(),
        Layout::Zip { .. } => zip_piece(alloc, store, name, page, leaf, index, row, into),
    }
}
