ghost use Rattle.std.specs.Prelude.{◌≡◌, ◌≢◌, ℕ, List, ◌+◌, ◌*◌, ◌^◌, ◌<◌, ◌≤◌, ◌⊎◌, ◌↔◌, ◌++◌, length, IsTrue, IfOk, IfErr, OnOk, OnErr};
ghost use Rattle.lan_bytes.specs.Placed.{Placed};
ghost use Rattle.lan_arrow.specs.Flat.{target_of, count_of};
ghost use Rattle.lan_arrow.specs.Footer.{FooterStands, IsPlain, HasNoDictionary, IsFooter, root_of, schema_of};
ghost use Rattle.lan_arrow.specs.Batches.{AllTablesStand, AreBatches, rows_after};
ghost use Rattle.lan_arrow.specs.Deletions.{magic, footer_of, footer_in, IsFramed, FileStands, IsFile, blocks_of, AreRows, DeletionsOf, all_rows, blocks_in};
ghost use Rattle.lan_arrow.specs.Refusals.{FrameRefused, MessagesBroken, ColumnRefused, BatchesRefused, FileRefused, Refused, RowsRefused};

use crate::block::{check_block, check_tables};
use crate::column::{Footer, read_footer};
use crate::dels::Dels;
use crate::fault::ArrowFault;
use crate::gathering::gather_all;
use crate::numbers::four_at;
use crate::vecs::Vecs;
use lan_bytes::View;
use std::alloc::Global;

const MAGIC: [u8; 6] = *b"ARROW1";

fn is_magic(bytes: &[u8]) -> bool
    ensures { IsTrue result ↔ (bytes.now ≡ magic) }
{
    bytes == MAGIC.as_slice()
}

// The footer of a file whose outer parts stand.
#[tactic(auto, unfolding(crate::specs::Deletions::footer_in, crate::specs::Deletions::footer_length, crate::specs::Refusals::FrameRefused))]
fn find_footer<'a>(file: &View<'a>) -> Result<View<'a>, ArrowFault>
    ensures framed { IfOk result (λ _. IsFramed file.now.bytes) }
    ensures footer { IfOk result (λ footer. footer ≡ footer_in file.now) }
    ensures refused { IfErr result (λ _. ¬ IsFramed file.now.bytes) }
    ensures fault { IfErr result (λ e. FrameRefused file.now.bytes e) }
{
    let size = file.len();
    if size < 18 {
        return Err(ArrowFault::TooShort);
    }
    let (Some(front), Some(back)) = (file.cut(0, 6), file.cut(size - 6, 6)) else {
        unreachable!();
    };
    if !is_magic(front.bytes()) || !is_magic(back.bytes()) {
        return Err(ArrowFault::Magic);
    }
    let Some(len) = four_at(file, size - 10) else {
        unreachable!();
    };
    let len = u64::from(len);
    if len >= 0x8000_0000 || len > size - 18 {
        return Err(ArrowFault::Footer);
    }
    match file.cut(size - 10 - len, len) {
        Some(footer) => Ok(footer),
        None => unreachable!(),
    }
}

// That the tables of all blocks' messages stand.
#[tactic(auto, unfolding(crate::specs::Deletions::footer_in, crate::specs::Deletions::footer_of, crate::specs::Footer::block_count, crate::specs::Refusals::MessagesBroken))]
fn check_messages(file: &View<'_>, blocks: &Vecs<'_>) -> Result<(), ArrowFault>
    requires blocks { blocks.now ≡ blocks_of file.now }
    ensures ok { OnOk result (AllTablesStand file.now.bytes (footer_of file.now.bytes) (blocks_in file.now.bytes)) }
    ensures refused { OnErr result (¬ AllTablesStand file.now.bytes (footer_of file.now.bytes) (blocks_in file.now.bytes)) }
    ensures fault { IfErr result (λ e. MessagesBroken file.now (footer_of file.now.bytes) (blocks_in file.now.bytes) e) }
{
    for i in 0..blocks.len() {
        if let Err(fault) = check_tables(file, blocks, i) {
            return Err(fault);
        }
    }
    Ok(())
}

// That each block leads to a batch.
#[tactic(auto, unfolding(crate::specs::Deletions::footer_in, crate::specs::Deletions::footer_of, crate::specs::Footer::block_count, crate::specs::Refusals::BatchesRefused))]
fn check_batches(file: &View<'_>, blocks: &Vecs<'_>) -> Result<(), ArrowFault>
    requires blocks { blocks.now ≡ blocks_of file.now }
    requires tables { AllTablesStand file.now.bytes (footer_of file.now.bytes) (blocks_in file.now.bytes) }
    ensures ok { OnOk result (AreBatches file.now.bytes (footer_of file.now.bytes) (blocks_in file.now.bytes)) }
    ensures refused { OnErr result (¬ AreBatches file.now.bytes (footer_of file.now.bytes) (blocks_in file.now.bytes)) }
    ensures fault { IfErr result (λ e. BatchesRefused file.now.bytes (footer_of file.now.bytes) (blocks_in file.now.bytes) e) }
{
    for i in 0..blocks.len() {
        if let Err(fault) = check_block(file, blocks, i) {
            return Err(fault);
        }
    }
    Ok(())
}

// The footer of a file whose outer parts and tables stand.
#[tactic(auto, unfolding(crate::specs::Deletions::footer_in, crate::specs::Deletions::footer_of, crate::specs::Footer::block_count, crate::specs::Refusals::FileRefused))]
fn open_footer<'a>(file: &View<'a>) -> Result<Footer<'a>, ArrowFault>
    ensures stands { IfOk result (λ _. FileStands file.now.bytes) }
    ensures blocks { IfOk result (λ footer. footer.blocks ≡ blocks_of file.now) }
    ensures plain { IfOk result (λ footer. IsTrue footer.plain ↔ IsPlain (footer_of file.now.bytes) (schema_of (footer_of file.now.bytes))) }
    ensures no_dictionary { IfOk result (λ footer. IsTrue footer.plain → IsTrue footer.no_dictionary ↔ HasNoDictionary (footer_of file.now.bytes)) }
    ensures refused { IfErr result (λ _. ¬ IsFile file.now.bytes) }
    ensures fault { IfErr result (λ e. FileRefused file.now e) }
{
    let view = find_footer(file)?;
    let footer = read_footer(view)?;
    check_messages(file, &footer.blocks)?;
    Ok(footer)
}

// The blocks of a file that is one of deleted rows.
#[tactic(auto, unfolding(crate::specs::Deletions::footer_in, crate::specs::Deletions::footer_of, crate::specs::Footer::block_count, crate::specs::Refusals::ColumnRefused, crate::specs::Refusals::FileRefused))]
fn open_blocks<'a>(file: &View<'a>) -> Result<Vecs<'a>, ArrowFault>
    ensures file { IfOk result (λ _. IsFile file.now.bytes) }
    ensures blocks { IfOk result (λ blocks. blocks ≡ blocks_of file.now) }
    ensures refused { IfErr result (λ _. ¬ IsFile file.now.bytes) }
    ensures fault { IfErr result (λ e. FileRefused file.now e) }
{
    let Footer {
        blocks,
        plain,
        no_dictionary,
    } = open_footer(file)?;
    if !plain {
        return Err(ArrowFault::Column);
    }
    if !no_dictionary {
        return Err(ArrowFault::Dictionary);
    }
    check_batches(file, &blocks)?;
    Ok(blocks)
}

/// The deleted rows that an Arrow file says of a fragment, of whose `physical` rows `count` are deleted. `view` is the
/// whole file, and the places in faults count from the front of its object.
///
/// The file is one of Arrow's IPC format: a magic, messages, and a footer by whose blocks the batches are found. What is
/// read is one column of unsigned numbers of 32 bits; its name, versions, the alignment, a message's own body length and
/// the first buffer of a batch aren't looked at. All blocks are checked before the first row is read, and the rows are
/// read up to the first that is too great or comes twice.
pub fn read_deletions(
    alloc: Global,
    view: View<'_>,
    physical: u64,
    count: u64,
) -> Result<Dels, ArrowFault>
    requires { physical < 2 ^ 31 }
    ensures rows { IfOk result (λ deleted. DeletionsOf view.entry.bytes physical count deleted.rows) }
    ensures physical { IfOk result (λ deleted. deleted.physical ≡ physical) }
    ensures fault { IfErr result (λ e. Refused view.entry physical count e) }
    ensures refused { IfErr result (λ e. (e ≡ ArrowFault.Memory) ⊎ ((rows : List ℕ) → ¬ DeletionsOf view.entry.bytes physical count rows)) }
{
    let blocks = open_blocks(&view)?;
    let rows = gather_all(alloc, &view, &blocks, physical)?;
    let many = rows.len() as u64;
    if many != count {
        return Err(ArrowFault::Count(many));
    }
    Ok(Dels::of(rows, physical))
}
