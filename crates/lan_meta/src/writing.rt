ghost use Rattle.std.specs.Prelude.{◌≡◌, ◌^◌, ◌<◌, ◌≤◌, ℕ, [], ◌∷◌, length, map, count_by, sum_by, IfOk};
ghost use Rattle.lan_model.specs.declared.range.Range.{Range};
ghost use Rattle.lan_wire.specs.Written.{num, part, spelling_of};
ghost use Rattle.lan_levels.specs.Codes.{code_states};
ghost use Rattle.lan_meta.specs.declared.page.PageMeta.{PageMeta};
ghost use Rattle.lan_meta.specs.PageRules.{greatest_of};
ghost use Rattle.lan_meta.specs.Written.{values_text, is_list, constant_written, zip_written, mini_written, layout_text, encoding_text, parts_written, page_written, column_text};

use crate::page::{Layout, PageMeta};
use crate::rules::digits;
use lan_levels::{Codes, ValueKind};
use lan_model::{Blob, Range};
use lan_wire::Writer;
use std::alloc::{AllocError, Global};

// A message of one part.
fn wrapped(alloc: Global, number: u32, body: &[u8]) -> Result<Vec<u8>, AllocError>
    requires low { 0 < number }
    requires up { number < 2 ^ 29 }
    ensures { IfOk result (λ bytes. bytes.items ≡ spelling_of ((number, part body.now) ∷ [])) }
{
    let mut out = Writer::new(alloc);
    out.part(number, body)?;
    Ok(out.finish())
}

fn write_flat(alloc: Global, bits: u64) -> Result<Vec<u8>, AllocError>
    ensures { IfOk result (λ bytes. bytes.items ≡ spelling_of ((1, num bits) ∷ [])) }
{
    let mut out = Writer::new(alloc);
    out.num(1, bits)?;
    Ok(out.finish())
}

fn write_values(alloc: Global, values: &ValueKind) -> Result<Vec<u8>, AllocError>
    ensures { IfOk result (λ bytes. bytes.items ≡ values_text values.now) }
{
    match values {
        ValueKind::Flat(bits) => {
            let flat = write_flat(alloc, *bits)?;
            wrapped(alloc, 1, flat.as_slice())
        }
        ValueKind::Variable => wrapped(alloc, 2, &[]),
        ValueKind::Constant(value) => {
            let constant = wrapped(alloc, 1, value.as_slice())?;
            wrapped(alloc, 3, constant.as_slice())
        }
    }
}

// Codes as the writer packs them.
fn widened(alloc: Global, codes: &Codes) -> Result<Vec<u64>, AllocError>
    ensures { IfOk result (λ list. list.items ≡ codes.now) }
{
    let mut list = Vec::new(alloc);
    for code in codes.as_slice() {
        list.push(u64::from(*code))?;
    }
    Ok(list)
}

fn is_list(code: u8) -> bool
    ensures { result ≡ is_list code }
{
    code == 2 || code > 3
}

/// How many of the codes are those of lists.
fn lists_of(codes: &[u8]) -> u64
    ensures { result ≡ count_by is_list codes.now }
{
    let mut count = 0;
    for code in codes {
        if is_list(*code) {
            count += 1;
        }
    }
    count
}

// How many numbers a code takes.
fn taken(code: u8) -> u64
    ensures few { result ≤ 2 }
    ensures count { (k : ℕ) → result ≡ length (code_states code k) }
{
    if code < 3 {
        0
    } else if code < 6 {
        1
    } else {
        2
    }
}

/// The greatest number that the codes give a state.
fn greatest_of(codes: &[u8]) -> u64
    ensures { result ≡ greatest_of codes.now }
{
    let mut count = 0;
    for code in codes {
        count += taken(*code);
    }
    count
}

fn write_constant(
    alloc: Global,
    codes: &Codes,
    slots: u64,
    value: &Option<Blob>,
) -> Result<Vec<u8>, AllocError>
    ensures { IfOk result (λ bytes. bytes.items ≡ spelling_of (constant_written codes.now slots value.now)) }
{
    let codes = widened(alloc, codes)?;
    let mut out = Writer::new(alloc);
    out.packed(1, codes.as_slice())?;
    out.num(2, slots)?;
    if let Some(value) = value {
        out.part(3, value.as_slice())?;
    }
    Ok(out.finish())
}

fn write_mini(
    alloc: Global,
    codes: &Codes,
    slots: u64,
    values: &ValueKind,
) -> Result<Vec<u8>, AllocError>
    ensures { IfOk result (λ bytes. bytes.items ≡ spelling_of (mini_written codes.now slots values.now)) }
{
    let codes = widened(alloc, codes)?;
    let values = write_values(alloc, values)?;
    let mut out = Writer::new(alloc);
    out.packed(1, codes.as_slice())?;
    out.num(2, slots)?;
    out.part(3, values.as_slice())?;
    Ok(out.finish())
}

fn write_zip(
    alloc: Global,
    codes: &Codes,
    slots: u64,
    values: &ValueKind,
) -> Result<Vec<u8>, AllocError>
    ensures { IfOk result (λ bytes. bytes.items ≡ spelling_of (zip_written codes.now slots values.now)) }
{
    let bits_rep = digits(lists_of(codes.as_slice()));
    let bits_def = digits(greatest_of(codes.as_slice()));
    let codes = widened(alloc, codes)?;
    let values = write_values(alloc, values)?;
    let mut out = Writer::new(alloc);
    out.packed(1, codes.as_slice())?;
    out.num(2, slots)?;
    out.part(3, values.as_slice())?;
    out.num(4, bits_rep)?;
    out.num(5, bits_def)?;
    Ok(out.finish())
}

fn write_layout(alloc: Global, layout: &Layout) -> Result<Vec<u8>, AllocError>
    ensures { IfOk result (λ bytes. bytes.items ≡ layout_text layout.now) }
{
    match layout {
        Layout::Constant {
            codes,
            slots,
            value,
        } => {
            let constant = write_constant(alloc, codes, *slots, value)?;
            wrapped(alloc, 2, constant.as_slice())
        }
        Layout::Mini {
            codes,
            slots,
            values,
        } => {
            let mini = write_mini(alloc, codes, *slots, values)?;
            wrapped(alloc, 1, mini.as_slice())
        }
        Layout::Zip {
            codes,
            slots,
            values,
        } => {
            let zip = write_zip(alloc, codes, *slots, values)?;
            wrapped(alloc, 3, zip.as_slice())
        }
    }
}

fn write_encoding(alloc: Global, layout: &Layout) -> Result<Vec<u8>, AllocError>
    ensures { IfOk result (λ bytes. bytes.items ≡ encoding_text layout.now) }
{
    let layout = write_layout(alloc, layout)?;
    let direct = wrapped(alloc, 1, layout.as_slice())?;
    wrapped(alloc, 2, direct.as_slice())
}

fn offsets_of(alloc: Global, buffers: &[Range]) -> Result<Vec<u64>, AllocError>
    ensures { IfOk result (λ list. list.items ≡ map (λ (b : Range). b.at) buffers.now) }
{
    buffers.iter().map(|buffer| buffer.at).collect(alloc)
}

fn sizes_of(alloc: Global, buffers: &[Range]) -> Result<Vec<u64>, AllocError>
    ensures { IfOk result (λ list. list.items ≡ map (λ (b : Range). b.len) buffers.now) }
{
    buffers.iter().map(|buffer| buffer.len).collect(alloc)
}

// The message of a page with these parts.
fn write_parts(
    alloc: Global,
    offsets: &[u64],
    sizes: &[u64],
    rows: u64,
    encoding: &[u8],
    before: u64,
) -> Result<Vec<u8>, AllocError>
    ensures { IfOk result (λ bytes. bytes.items ≡ spelling_of (parts_written offsets.now sizes.now rows encoding.now before)) }
{
    let mut out = Writer::new(alloc);
    out.packed(1, offsets)?;
    out.packed(2, sizes)?;
    out.num(3, rows)?;
    out.part(4, encoding)?;
    out.num(5, before)?;
    Ok(out.finish())
}

// The message of a page behind so many rows.
fn write_page(alloc: Global, before: u64, page: &PageMeta) -> Result<Vec<u8>, AllocError>
    ensures { IfOk result (λ bytes. bytes.items ≡ spelling_of (page_written before page.now)) }
{
    let buffers = page.buffers.as_slice();
    let offsets = offsets_of(alloc, buffers)?;
    let sizes = sizes_of(alloc, buffers)?;
    let encoding = write_encoding(alloc, &page.layout)?;
    write_parts(
        alloc,
        offsets.as_slice(),
        sizes.as_slice(),
        page.rows,
        encoding.as_slice(),
        before,
    )
}

/// The ColumnMetadata message of these pages. A page's priority is the number of rows before it.
pub fn write_column(alloc: Global, pages: &[PageMeta]) -> Result<Vec<u8>, AllocError>
    requires { sum_by (λ (page : PageMeta). page.rows) pages.now < 2 ^ 64 }
    ensures { IfOk result (λ bytes. bytes.items ≡ column_text pages.now) }
{
    let mut out = Writer::new(alloc);
    let mut before = 0;
    for page in pages {
        let message = write_page(alloc, before, page)?;
        out.part(2, message.as_slice())?;
        before += page.rows;
    }
    Ok(out.finish())
}
