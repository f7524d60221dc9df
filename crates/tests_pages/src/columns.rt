use lan_bytes::View;
use lan_levels::{Codes, ValueKind};
use lan_meta::{ColumnMeta, Layout, Message, MetaFault, PageMeta, read_column, write_column};
use lan_model::{Blob, Layer, Leaf, List, Primitive, Range, Ranges, Ty};
use std::alloc::{AllocError, Global};
use std::test::Fail;

// A column of one page, of one row of the int64 7.
const SEVEN: &[u8; 27] =
    b"\x12\x19\x18\x01\x22\x15\x12\x13\x0a\x11\x12\x0f\x0a\x01\x01\x10\x01\x1a\x08\x07\0\0\0\0\0\0\0";

// A column of three nullable texts in one full-zip page, whose buffers have 17 and 32 bytes. Its offsets
// and sizes are single numbers, and its page has a number 9.
const TEXTS: &[u8; 33] =
    b"\x12\x1f\x08\0\x08\x40\x10\x11\x10\x20\x18\x03\x22\x11\x12\x0f\x0a\x0d\x1a\x0b\x0a\x01\x03\x10\x03\x1a\x02\x12\0\x28\x01\x48\x05";

// The same as it is written: offsets and sizes are packed, and the rows before the page are none.
const WRITTEN: &[u8; 31] =
    b"\x12\x1d\x0a\x02\0\x40\x12\x02\x11\x20\x18\x03\x22\x11\x12\x0f\x0a\x0d\x1a\x0b\x0a\x01\x03\x10\x03\x1a\x02\x12\0\x28\x01";

fn leaf_of(alloc: Global, nullable: bool, ty: Ty) -> Result<Leaf, AllocError> {
    let mut layers = List::new(alloc);
    layers.push(Layer::Item { nullable })?;
    Ok(Leaf {
        id: 0,
        top: 0,
        ty,
        layers,
    })
}

// The column of these bytes at place 1000, whose buffers lie before place 96.
fn column_in(alloc: Global, leaf: &Leaf, bytes: &[u8]) -> Result<ColumnMeta, MetaFault> {
    if leaf.layers.len() > 16 || bytes.len() > 100 {
        return Err(MetaFault::Memory);
    }
    read_column(alloc, View::new(1000, bytes), leaf, 96)
}

// The bytes of a column of this page alone.
fn column_of(alloc: Global, page: PageMeta) -> Result<Vec<u8>, AllocError> {
    let pages = [page];
    write_column(alloc, pages.as_slice())
}

fn page_of_seven(alloc: Global) -> Result<PageMeta, AllocError> {
    Ok(PageMeta {
        rows: 1,
        layout: Layout::Constant {
            codes: Codes::from_slice(alloc, &[1])?,
            slots: 1,
            value: Some(Blob::from_slice(alloc, &[7, 0, 0, 0, 0, 0, 0, 0])?),
        },
        buffers: Ranges::new(alloc),
    })
}

fn page_of_texts(alloc: Global) -> Result<PageMeta, AllocError> {
    let mut buffers = Ranges::new(alloc);
    buffers.push(Range { at: 0, len: 17 })?;
    buffers.push(Range { at: 64, len: 32 })?;
    Ok(PageMeta {
        rows: 3,
        layout: Layout::Zip {
            codes: Codes::from_slice(alloc, &[3])?,
            slots: 3,
            values: ValueKind::Variable,
        },
        buffers,
    })
}

#[test]
fn columns_are_written(rt: HostRuntime) -> Result<(), Fail> {
    let alloc = rt.alloc();
    let seven = column_of(alloc, page_of_seven(alloc)?)?;
    assert_eq!(rt; seven.as_slice(), SEVEN.as_slice());
    let texts = column_of(alloc, page_of_texts(alloc)?)?;
    assert_eq!(rt; texts.as_slice(), WRITTEN.as_slice());
    Ok(())
}

// How many rows and buffers the first page has, and how its slots are laid out.
fn told(column: &ColumnMeta) -> (u64, u64, u64, u8) {
    match column.pages.as_slice() {
        [page] => match &page.layout {
            Layout::Constant { slots, .. } => (page.rows, page.buffers.len(), *slots, b'c'),
            Layout::Mini { slots, .. } => (page.rows, page.buffers.len(), *slots, b'm'),
            Layout::Zip { slots, .. } => (page.rows, page.buffers.len(), *slots, b'z'),
        },
        _ => (0, 0, 0, 0),
    }
}

#[test]
fn columns_are_read(rt: HostRuntime) -> Result<(), Fail> {
    let alloc = rt.alloc();
    let number = leaf_of(alloc, false, Ty::Bits(Primitive::Int64))?;
    let seven = column_in(alloc, &number, SEVEN.as_slice()).map_err(|_| "no column")?;
    assert_eq!(rt; told(&seven), (1, 0, 1, b'c'));
    let text = leaf_of(alloc, true, Ty::Text)?;
    let plain = column_in(alloc, &text, TEXTS.as_slice()).map_err(|_| "no column")?;
    assert_eq!(rt; told(&plain), (3, 2, 3, b'z'));
    let packed = column_in(alloc, &text, WRITTEN.as_slice()).map_err(|_| "no column")?;
    assert_eq!(rt; told(&packed), (3, 2, 3, b'z'));
    Ok(())
}

// A column with one byte changed, whether it is that of the texts, and why it is none.
fn changed(case: u32) -> (bool, usize, u8, MetaFault) {
    match case {
        0 => (
            false,
            10,
            0x22,
            MetaFault::Unsupported(Message::PageLayout, 4, 1010),
        ),
        1 => (
            false,
            10,
            0x0a,
            MetaFault::Unsupported(Message::PageLayout, 1, 1010),
        ),
        2 => (
            false,
            6,
            0x0a,
            MetaFault::Unsupported(Message::Encoding, 1, 1006),
        ),
        3 => (
            true,
            27,
            0x22,
            MetaFault::Unsupported(Message::Values, 4, 1027),
        ),
        4 => (false, 4, 0x32, MetaFault::Missing(Message::Page, 4)),
        5 => (false, 8, 0x12, MetaFault::Missing(Message::PageLayout, 0)),
        6 => (false, 14, 2, MetaFault::Layers(1002)),
        7 => (false, 16, 2, MetaFault::Counts(1002)),
        8 => (true, 30, 2, MetaFault::Bits(1002)),
        _ => (true, 9, 0x21, MetaFault::Region(1002)),
    }
}

#[test]
fn faults_of_columns_are_named(rt: HostRuntime) -> Result<(), Fail> {
    let alloc = rt.alloc();
    let number = leaf_of(alloc, false, Ty::Bits(Primitive::Int64))?;
    let text = leaf_of(alloc, true, Ty::Text)?;
    for case in 0..10 {
        let (of_texts, at, byte, wanted) = changed(case);
        let mut bytes = Vec::new(alloc);
        bytes.extend_from_slice(if of_texts {
            TEXTS.as_slice()
        } else {
            SEVEN.as_slice()
        })?;
        if let Some(place) = bytes.get_mut(at) {
            *place = byte;
        }
        let leaf = if of_texts { &text } else { &number };
        let fault = column_in(alloc, leaf, bytes.as_slice()).err();
        assert_eq!(rt; fault, Some(wanted), "case {case}");
    }
    Ok(())
}
