ghost use Rattle.std.specs.Prelude.{◌≡◌, ◌+◌, ◌*◌, ◌<◌, ◌≤◌, length, IfOk, IfErr, IfSome, IsNone};
ghost use Rattle.lan_bytes.specs.Placed.{Placed};
ghost use Rattle.lan_arrow.specs.Flat.{target_of, eight_at, eight_in};
ghost use Rattle.lan_arrow.specs.Batches.{BatchStands, IsBatch};
ghost use Rattle.lan_arrow.specs.BrokenBatch.{BatchBroken, BatchRefused};

use crate::fault::ArrowFault;
use crate::tab::Tab;
use crate::vecs::Vecs;

// Where rows of four bytes each begin, and how many there are.
#[derive(Clone, Copy, Debug)]
pub(crate) struct Rows {
    pub(crate) from: u64,
    pub(crate) count: u64,
}

// A table RecordBatch with its parts.
#[derive(Debug, Drop)]
pub(crate) struct RecordBatch<'a> {
    tab: Tab<'a>,
    count: u64,
    nodes: Vecs<'a>,
    buffers: Vecs<'a>,
    ghost count_is: { count ≡ eight_in tab.buffer.bytes tab.at 0 },
    ghost nodes_is: { nodes ≡ record { buffer = tab.buffer; at = target_of tab.buffer.bytes tab.at 1; width = 16 } },
    ghost buffers_is: { buffers ≡ record { buffer = tab.buffer; at = target_of tab.buffer.bytes tab.at 2; width = 16 } },
}

impl<'a> RecordBatch<'a> {
    // The parts of the table.
    #[tactic(auto, unfolding(crate::specs::BrokenBatch::BatchBroken))]
    pub(crate) fn open(tab: Tab<'a>) -> Result<RecordBatch<'a>, ArrowFault>
        ensures table { IfOk result (λ batch. batch.tab ≡ tab.entry) }
        ensures stands { IfOk result (λ _. BatchStands tab.entry.buffer.bytes tab.entry.at) }
        ensures refused { IfErr result (λ _. ¬ BatchStands tab.entry.buffer.bytes tab.entry.at) }
        ensures fault { IfErr result (λ e. BatchBroken tab.entry.buffer tab.entry.at e) }
    {
        let count = tab.eight(0)?;
        let nodes = tab.vector(1, 16)?;
        let buffers = tab.vector(2, 16)?;
        Ok(RecordBatch {
            tab,
            count,
            nodes,
            buffers,
        })
    }

    // The rows, which begin so far behind the body's front. `i` is the batch's number, for the refusal.
    #[tactic(auto, unfolding(crate::specs::BrokenBatch::BatchRefused))]
    pub(crate) fn rows(&self, body: u64, i: u64) -> Result<Rows, ArrowFault>
        ensures batch { IfOk result (λ _. IsBatch self.now.tab.buffer.bytes self.now.tab.at body) }
        ensures from { IfOk result (λ rows. rows.from ≡ eight_at self.now.tab.buffer.bytes (target_of self.now.tab.buffer.bytes self.now.tab.at 2 + 20)) }
        ensures count { IfOk result (λ rows. rows.count ≡ eight_in self.now.tab.buffer.bytes self.now.tab.at 0) }
        ensures inside { IfOk result (λ rows. rows.from + 4 * rows.count ≤ body) }
        ensures none { IfErr result (λ _. ¬ IsBatch self.now.tab.buffer.bytes self.now.tab.at body) }
        ensures refused { IfErr result (λ e. BatchRefused self.now.tab.buffer.bytes self.now.tab.at body i e) }
    {
        if !self.tab.lacks(3) {
            return Err(ArrowFault::Compressed(i));
        }
        if self.nodes.len() != 1 {
            return Err(ArrowFault::Batch(i));
        }
        if self.nodes.eight(0, 8) != 0 {
            return Err(ArrowFault::Nulls(i));
        }
        if self.nodes.eight(0, 0) != self.count || self.buffers.len() != 2 {
            return Err(ArrowFault::Batch(i));
        }
        let from = self.buffers.eight(1, 0);
        let size = self.buffers.eight(1, 8);
        if size > body || from > body - size || self.count > size / 4 {
            return Err(ArrowFault::Batch(i));
        }
        Ok(Rows {
            from,
            count: self.count,
        })
    }
}
