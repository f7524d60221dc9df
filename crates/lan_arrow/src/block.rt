ghost use Rattle.std.specs.Prelude.{◌≡◌, ◌≢◌, ◌+◌, ◌*◌, ◌<◌, ◌≤◌, length, IfOk, IfErr, IfSome, IsNone, OnOk, OnErr};
ghost use Rattle.lan_bytes.specs.Placed.{Placed, part_of};
ghost use Rattle.lan_arrow.specs.Flat.{four_at, count_of};
ghost use Rattle.lan_arrow.specs.Footer.{blocks_at};
ghost use Rattle.lan_arrow.specs.Batches.{MessageStands, BlockLies, BlockLiesAt, TablesStand, IsBlock, kind_of, header_of, offset_at, head_at, body_at, block_from, block_many};
ghost use Rattle.lan_arrow.specs.BrokenBatch.{MessageBroken, TablesBroken, BlockRefused, message_in};

use crate::batch::{RecordBatch, Rows};
use crate::column::root;
use crate::fault::ArrowFault;
use crate::numbers::four_at;
use crate::vecs::Vecs;
use lan_bytes::View;

// A block that lies in the file: its message, and where its body begins and how long that is.
#[derive(Debug, Drop)]
struct Block<'a> {
    message: View<'a>,
    from: u64,
    body: u64,
}

// The RecordBatch of a message, or None where its header is of another kind.
#[tactic(auto, unfolding(crate::specs::BrokenBatch::MessageBroken))]
fn open_message(message: View<'_>) -> Result<Option<RecordBatch<'_>>, ArrowFault>
    ensures stands { IfOk result (λ _. MessageStands message.entry.bytes) }
    ensures other { IfOk result (λ batch. IsNone batch → kind_of message.entry.bytes ≢ 3) }
    ensures batch { IfOk result (λ batch. IfSome batch (λ _. kind_of message.entry.bytes ≡ 3)) }
    ensures table { IfOk result (λ batch. IfSome batch (λ it. it.tab ≡ record { buffer = message.entry; at = header_of message.entry.bytes })) }
    ensures refused { IfErr result (λ _. ¬ MessageStands message.entry.bytes) }
    ensures fault { IfErr result (λ e. MessageBroken message.entry e) }
{
    let root = root(message)?;
    let kind = root.one(1)?;
    let header = root.table(2)?;
    if kind != 3 {
        return Ok(None);
    }
    let batch = RecordBatch::open(header)?;
    Ok(Some(batch))
}

// The message at `offset`, whose metadata with all before it has `head` bytes, where it and its body lie in the file.
fn find_at<'a>(file: &View<'a>, offset: u64, head: u32, body: u64) -> Option<View<'a>>
    ensures lies { IfSome result (λ _. BlockLies file.now.bytes offset head body) }
    ensures message { IfSome result (λ message. message ≡ part_of file.now (offset + 8) (four_at file.now.bytes (offset + 4))) }
    ensures none { IsNone result → ¬ BlockLies file.now.bytes offset head body }
{
    let size = file.len();
    let long = u64::from(head);
    if long >= 0x8000_0000
        || long < 8
        || long > size
        || body > size - long
        || offset > size - long - body
    {
        return None;
    }
    if four_at(file, offset)? != u32::MAX {
        return None;
    }
    let metadata = u64::from(four_at(file, offset + 4)?);
    if metadata > long - 8 {
        return None;
    }
    file.cut(offset + 8, metadata)
}

// The i-th block, where it lies in the file.
#[tactic(auto, unfolding(crate::specs::Footer::block_at, crate::specs::Batches::offset_at, crate::specs::Batches::head_at, crate::specs::Batches::body_at, crate::specs::BrokenBatch::message_in))]
fn find_block<'a>(file: &View<'a>, blocks: &Vecs<'_>, i: u64) -> Option<Block<'a>>
    requires there { i < count_of blocks.now }
    requires blocks { blocks.now ≡ blocks_at blocks.now.buffer }
    ensures lies { IfSome result (λ _. BlockLiesAt file.now.bytes blocks.now.buffer.bytes i) }
    ensures message { IfSome result (λ block. block.message ≡ message_in file.now blocks.now.buffer.bytes i) }
    ensures from { IfSome result (λ block. block.from ≡ offset_at blocks.now.buffer.bytes i + head_at blocks.now.buffer.bytes i) }
    ensures body { IfSome result (λ block. block.body ≡ body_at blocks.now.buffer.bytes i) }
    ensures inside { IfSome result (λ block. block.from + block.body ≤ length file.now.bytes) }
    ensures none { IsNone result → ¬ BlockLiesAt file.now.bytes blocks.now.buffer.bytes i }
{
    let offset = blocks.eight(i, 0);
    let head = blocks.four(i, 8);
    let body = blocks.eight(i, 16);
    let message = find_at(file, offset, head, body)?;
    Some(Block {
        message,
        from: offset + u64::from(head),
        body,
    })
}

// That the tables of the i-th block's message stand, where the block lies in the file.
#[tactic(auto, unfolding(crate::specs::Batches::message_at, crate::specs::BrokenBatch::message_in))]
pub(crate) fn check_tables(file: &View<'_>, blocks: &Vecs<'_>, i: u64) -> Result<(), ArrowFault>
    requires there { i < count_of blocks.now }
    requires blocks { blocks.now ≡ blocks_at blocks.now.buffer }
    ensures ok { OnOk result (TablesStand file.now.bytes blocks.now.buffer.bytes i) }
    ensures refused { OnErr result (¬ TablesStand file.now.bytes blocks.now.buffer.bytes i) }
    ensures fault { IfErr result (λ e. TablesBroken file.now blocks.now.buffer.bytes i e) }
{
    let Some(block) = find_block(file, blocks, i) else {
        return Ok(());
    };
    open_message(block.message)?;
    Ok(())
}

// The rows of the i-th block, by their place in the file.
#[tactic(auto, unfolding(crate::specs::Batches::message_at, crate::specs::Batches::rows_in, crate::specs::Batches::rows_from, crate::specs::BrokenBatch::message_in, crate::specs::BrokenBatch::BlockRefused))]
pub(crate) fn check_block(file: &View<'_>, blocks: &Vecs<'_>, i: u64) -> Result<Rows, ArrowFault>
    requires there { i < count_of blocks.now }
    requires blocks { blocks.now ≡ blocks_at blocks.now.buffer }
    requires tables { TablesStand file.now.bytes blocks.now.buffer.bytes i }
    ensures block { IfOk result (λ _. IsBlock file.now.bytes blocks.now.buffer.bytes i) }
    ensures from { IfOk result (λ rows. rows.from ≡ block_from file.now.bytes blocks.now.buffer.bytes i) }
    ensures count { IfOk result (λ rows. rows.count ≡ block_many file.now.bytes blocks.now.buffer.bytes i) }
    ensures inside { IfOk result (λ rows. rows.from + 4 * rows.count ≤ length file.now.bytes) }
    ensures refused { IfErr result (λ _. ¬ IsBlock file.now.bytes blocks.now.buffer.bytes i) }
    ensures fault { IfErr result (λ e. BlockRefused file.now.bytes blocks.now.buffer.bytes i e) }
{
    let Some(block) = find_block(file, blocks, i) else {
        return Err(ArrowFault::Batch(i));
    };
    let batch = match open_message(block.message) {
        Ok(Some(batch)) => batch,
        Ok(None) => return Err(ArrowFault::Batch(i)),
        Err(_) => unreachable!(),
    };
    let rows = batch.rows(block.body, i)?;
    let _size = file.len();
    Ok(Rows {
        from: block.from + rows.from,
        count: rows.count,
    })
}
