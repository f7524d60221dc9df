ghost use Rattle.std.specs.Prelude.{◌≡◌, [], ◌∷◌, IfOk};

use lan_model::{Range, Span, Spans};
use std::alloc::{AllocError, Global};

/// The parts of a page's content that hold some of its rows.
#[derive(Debug, Drop)]
pub struct RowCut {
    /// How many rows begin in these parts before the first that was asked for.
    pub skip: u64,
    /// The parts in order, counted from the content's front. Of a full-zip page there is one, and its
    /// slots aren't counted; of a constant page there is none.
    pub spans: Spans,
}

/// The parts of a page's content that hold the rows from `row` to before `past`.
#[derive(Debug, Drop)]
pub struct PieceCut {
    pub row: u64,
    pub past: u64,
    pub cut: RowCut,
}

impl RowCut {
    /// No part.
    pub(crate) fn nothing(alloc: Global) -> RowCut
        ensures { result ≡ record { skip = 0; spans = [] } }
    {
        RowCut {
            skip: 0,
            spans: Spans::new(alloc),
        }
    }

    /// One part.
    pub(crate) fn part(alloc: Global, part: Range) -> Result<RowCut, AllocError>
        ensures { IfOk result (λ cut. cut ≡ record { skip = 0; spans = record { at = part.at; len = part.len; first = 0; slots = 0 } ∷ [] }) }
    {
        let mut spans = Spans::new(alloc);
        spans.push(Span {
            at: part.at,
            len: part.len,
            first: 0,
            slots: 0,
        })?;
        Ok(RowCut { skip: 0, spans })
    }
}
