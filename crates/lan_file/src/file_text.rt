// Whole data files, written of pages that are built.
ghost use Rattle.std.specs.Prelude.{◌≡◌, ◌+◌, ◌*◌, ◌^◌, ◌<◌, ◌++◌, List, ℕ, [], length, map, sum_by, All, OnOk, IfOk};
ghost use Rattle.std.specs.List.{concat};
ghost use Rattle.lan_model.specs.Plain.{plain_fields};
ghost use Rattle.lan_meta.specs.declared.page.BuiltPage.{BuiltPage};
ghost use Rattle.lan_meta.specs.Written.{column_text};
ghost use Rattle.lan_file.specs.FileText.{with_buffers, places_behind, page_behind, with_pages, pages_behind, with_columns, columns_behind, entries_from, file_text};
ghost use Rattle.lan_file.specs.Writing.{aligned, entry_text};

use crate::descriptor::write_descriptor;
use crate::writing::{put_entry, put_footer};
use lan_bytes::Out;
use lan_levels::ValueKind;
use lan_meta::{BuiltPage, BuiltPages, Layout, PageMeta, PageMetas, write_column};
use lan_model::{Blob, Blobs, FieldList, List, Range, Ranges};
use std::alloc::{AllocError, Global};

/// Columns whose pages are to be put into a file.
pub type BuiltColumns = List<BuiltPages>;

// Puts a part at the next multiple of 64, and tells its place.
fn put_aligned(part: &[u8], out: &mut Out) -> Result<u64, AllocError>
    ensures { IfOk result (λ at. (at ≡ length (aligned out.old)) × (out.new ≡ aligned out.old ++ part.now)) }
{
    let end = out.len() % 64;
    out.zeros((64 - end) % 64)?;
    let at = out.len();
    out.bytes(part)?;
    Ok(at)
}

fn put_buffers(alloc: Global, buffers: &[Blob], out: &mut Out) -> Result<Ranges, AllocError>
    ensures { IfOk result (λ places. (places ≡ places_behind out.old buffers.now) × (out.new ≡ with_buffers out.old buffers.now)) }
{
    let mut places = Ranges::with_capacity(alloc, buffers.len())?;
    for buffer in buffers {
        let at = put_aligned(buffer.as_slice(), out)?;
        places.push(Range {
            at,
            len: buffer.len(),
        })?;
    }
    Ok(places)
}

fn copy_blob(alloc: Global, blob: &Blob) -> Result<Blob, AllocError>
    ensures { IfOk result (λ copy. copy ≡ blob.now) }
{
    Blob::from_slice(alloc, blob.as_slice())
}

fn copy_values(alloc: Global, values: &ValueKind) -> Result<ValueKind, AllocError>
    ensures { IfOk result (λ copy. copy ≡ values.now) }
{
    match values {
        ValueKind::Flat(bits) => Ok(ValueKind::Flat(*bits)),
        ValueKind::Variable => Ok(ValueKind::Variable),
        ValueKind::Constant(value) => Ok(ValueKind::Constant(copy_blob(alloc, value)?)),
    }
}

fn copy_value(alloc: Global, value: &Option<Blob>) -> Result<Option<Blob>, AllocError>
    ensures { IfOk result (λ copy. copy ≡ value.now) }
{
    match value {
        Some(value) => Ok(Some(copy_blob(alloc, value)?)),
        None => Ok(None),
    }
}

fn copy_layout(alloc: Global, layout: &Layout) -> Result<Layout, AllocError>
    ensures { IfOk result (λ copy. copy ≡ layout.now) }
{
    match layout {
        Layout::Constant {
            codes,
            slots,
            value,
        } => Ok(Layout::Constant {
            codes: copy_blob(alloc, codes)?,
            slots: *slots,
            value: copy_value(alloc, value)?,
        }),
        Layout::Mini {
            codes,
            slots,
            values,
        } => Ok(Layout::Mini {
            codes: copy_blob(alloc, codes)?,
            slots: *slots,
            values: copy_values(alloc, values)?,
        }),
        Layout::Zip {
            codes,
            slots,
            values,
        } => Ok(Layout::Zip {
            codes: copy_blob(alloc, codes)?,
            slots: *slots,
            values: copy_values(alloc, values)?,
        }),
    }
}

fn put_page(alloc: Global, page: &BuiltPage, out: &mut Out) -> Result<PageMeta, AllocError>
    ensures { IfOk result (λ meta. (meta ≡ page_behind out.old page.now) × (out.new ≡ with_buffers out.old page.now.buffers)) }
{
    let layout = copy_layout(alloc, &page.layout)?;
    let buffers = put_buffers(alloc, page.buffers.as_slice(), out)?;
    Ok(PageMeta {
        rows: page.rows,
        layout,
        buffers,
    })
}

fn put_pages(alloc: Global, pages: &[BuiltPage], out: &mut Out) -> Result<PageMetas, AllocError>
    ensures { IfOk result (λ metas. (metas ≡ pages_behind out.old pages.now) × (out.new ≡ with_pages out.old pages.now)) }
{
    let mut metas = PageMetas::with_capacity(alloc, pages.len())?;
    for page in pages {
        metas.push(put_page(alloc, page, out)?)?;
    }
    Ok(metas)
}

// Puts the pages of columns, and gives each column's message.
fn put_columns(alloc: Global, columns: &[BuiltPages], out: &mut Out) -> Result<Blobs, AllocError>
    requires { All (λ (pages : List BuiltPage). sum_by (λ (page : BuiltPage). page.rows) pages < 2 ^ 64) columns.now }
    ensures { IfOk result (λ messages. (messages ≡ map column_text (columns_behind out.old columns.now)) × (out.new ≡ with_columns out.old columns.now)) }
{
    let mut messages = Blobs::with_capacity(alloc, columns.len())?;
    for column in columns {
        let metas = put_pages(alloc, column.as_slice(), out)?;
        let message = write_column(alloc, metas.as_slice())?;
        messages.push(Blob::from_vec(message))?;
    }
    Ok(messages)
}

// Puts messages one after another, and gives the table of their places.
fn put_messages(alloc: Global, messages: &[Blob], out: &mut Out) -> Result<Out, AllocError>
    ensures { IfOk result (λ table. (table ≡ entries_from (length out.old) messages.now) × (out.new ≡ out.old ++ concat messages.now)) }
{
    let mut table = Out::new(alloc);
    for message in messages {
        put_entry(out.len(), message.len(), &mut table)?;
        out.bytes(message.as_slice())?;
    }
    Ok(table)
}

/// The data file of so many rows of the fields, in version 2.1 of the Lance format, where each leaf of the
/// fields, depth first, has the column of its place.
///
/// Each buffer lies at the next multiple of 64, column by column, page by page, and so does the descriptor
/// behind them; all that follows has no gap. Nothing is asked of the pages but that the rows of a column's
/// can be counted; where they are the writer's for the fields, what is written is a file of the rows.
pub fn write_file(
    alloc: Global,
    fields: &FieldList,
    rows: u64,
    columns: &BuiltColumns,
) -> Result<Vec<u8>, AllocError>
    requires few { length columns.now < 2 ^ 32 }
    requires counted { All (λ (pages : List BuiltPage). sum_by (λ (page : BuiltPage). page.rows) pages < 2 ^ 64) columns.now }
    ensures { IfOk result (λ file. file.items ≡ file_text (plain_fields fields.now) rows columns.now) }
{
    let descriptor = write_descriptor(alloc, fields, rows)?;
    let mut out = Out::new(alloc);
    let messages = put_columns(alloc, columns.as_slice(), &mut out)?;
    let descriptor_at = put_aligned(descriptor.as_slice(), &mut out)?;
    let columns_at = out.len();
    let columns_table = put_messages(alloc, messages.as_slice(), &mut out)?;
    let table = out.len();
    out.bytes(columns_table.finish().as_slice())?;
    put_entry(descriptor_at, descriptor.len() as u64, &mut out)?;
    put_footer(columns_at, table, columns.len() as u32, &mut out)?;
    Ok(out.finish())
}
