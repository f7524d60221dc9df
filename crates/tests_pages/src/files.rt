use lan_file::{
    BuiltColumns, ColumnPick, ColumnPicks, FileHead, HeadFault, HeadReason, write_file,
};
use lan_levels::Codes;
use lan_meta::{BuiltPage, BuiltPages, Layout, MetaFault};
use lan_model::{Blob, Blobs, Field, FieldList, Layer, Leaf, List, Primitive, Text, Ty};
use lan_store::{CalmStore, Dir, Name, Store};
use std::alloc::{AllocError, Global};
use std::test::Fail;

// The data file of one row, whose int64 `x` is 7: a descriptor, the metadata of its column, the two tables
// and the footer.
const SEVEN: &[u8; 128] =
    b"\x0a\x19\x0a\x17\x08\x02\x12\x01x\x20\xff\xff\xff\xff\xff\xff\xff\xff\xff\x01\x2a\x05int64\x10\x01\
\x12\x19\x18\x01\x22\x15\x12\x13\x0a\x11\x12\x0f\x0a\x01\x01\x10\x01\x1a\x08\x07\0\0\0\0\0\0\0\
\x1d\0\0\0\0\0\0\0\x1b\0\0\0\0\0\0\0\
\0\0\0\0\0\0\0\0\x1d\0\0\0\0\0\0\0\
\x1d\0\0\0\0\0\0\0\x38\0\0\0\0\0\0\0\x48\0\0\0\0\0\0\0\x01\0\0\0\x01\0\0\0\x02\0\x01\0LANC";

fn fields(alloc: Global) -> Result<FieldList, AllocError> {
    let mut fields = FieldList::new(alloc);
    fields.push(Field {
        id: 0,
        name: Text::of(alloc, "x")?,
        nullable: false,
        ty: Ty::Bits(Primitive::Int64),
    })?;
    Ok(fields)
}

fn page(alloc: Global) -> Result<BuiltPage, AllocError> {
    Ok(BuiltPage {
        rows: 1,
        layout: Layout::Constant {
            codes: Codes::from_slice(alloc, &[1])?,
            slots: 1,
            value: Some(Blob::from_slice(alloc, &[7, 0, 0, 0, 0, 0, 0, 0])?),
        },
        buffers: Blobs::new(alloc),
    })
}

// The file of one column with this page alone.
fn file_of(alloc: Global, page: BuiltPage) -> Result<Vec<u8>, AllocError> {
    let fields = fields(alloc)?;
    let mut pages = BuiltPages::new(alloc);
    pages.push(page)?;
    let mut columns = BuiltColumns::new(alloc);
    columns.push(pages)?;
    write_file(alloc, &fields, 1, &columns)
}

#[test]
fn files_are_written(rt: HostRuntime) -> Result<(), Fail> {
    let file = file_of(rt.alloc(), page(rt.alloc())?)?;
    assert_eq!(rt; file.as_slice(), SEVEN.as_slice());
    Ok(())
}

fn leaf_of(alloc: Global) -> Result<Leaf, AllocError> {
    let mut layers = List::new(alloc);
    layers.push(Layer::Item { nullable: false })?;
    Ok(Leaf {
        id: 0,
        top: 0,
        ty: Ty::Bits(Primitive::Int64),
        layers,
    })
}

// The rows of a file of these bytes, and how many pages the column of that number has.
fn head_of(alloc: Global, bytes: &[u8], column: u32) -> Result<(u64, u64), HeadFault> {
    let mut store = CalmStore::new(alloc);
    let name = Name::of(alloc, Dir::Data, "1.lance")?;
    if store.put_if_absent(alloc, &name, bytes).is_err() {
        return Err(HeadFault::Store);
    }
    let leaf = leaf_of(alloc)?;
    if leaf.layers.len() > 16 {
        return Err(HeadFault::Memory);
    }
    let mut picks = ColumnPicks::new(alloc);
    picks.push(ColumnPick { column, leaf })?;
    let head = FileHead::open(alloc, &mut store, &name, &picks)?;
    match head.columns.as_slice() {
        [column] => Ok((head.rows, column.pages.len())),
        _ => Ok((head.rows, 0)),
    }
}

#[test]
fn only_the_whole_file_is_read(rt: HostRuntime) -> Result<(), Fail> {
    let alloc = rt.alloc();
    assert_eq!(rt; head_of(alloc, SEVEN.as_slice(), 0), Ok((1, 1)));
    for end in 0..128 {
        let front = SEVEN.get(..end).ok_or("no front")?;
        assert!(rt; head_of(alloc, front, 0).is_err(), "at {end}");
    }
    Ok(())
}

// The file with one byte changed, the column that is asked, and why it isn't read.
fn changed(case: u32) -> (usize, u8, u32, HeadReason, u64) {
    match case {
        0 => (127, 0, 0, HeadReason::Magic, 124),
        1 => (120, 3, 0, HeadReason::Version(3, 1), 120),
        2 => (88, 0x39, 0, HeadReason::Region, 88),
        3 => (80, 0x1e, 0, HeadReason::Region, 88),
        4 => (112, 0, 0, HeadReason::Descriptor, 72),
        5 => (0, 8, 1, HeadReason::Column(1), 56),
        6 => (28, 2, 0, HeadReason::ColumnRows(0), 29),
        _ => (43, 2, 0, HeadReason::Meta(MetaFault::Layers(31)), 31),
    }
}

#[test]
fn faults_of_files_are_named(rt: HostRuntime) -> Result<(), Fail> {
    let alloc = rt.alloc();
    for case in 0..8 {
        let (at, byte, column, why, place) = changed(case);
        let mut bytes = Vec::new(alloc);
        bytes.extend_from_slice(SEVEN.as_slice())?;
        if let Some(place) = bytes.get_mut(at) {
            *place = byte;
        }
        let head = head_of(alloc, bytes.as_slice(), column);
        assert_eq!(rt; head, Err(HeadFault::Outside(why, place)), "case {case}");
    }
    Ok(())
}
