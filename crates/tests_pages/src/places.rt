use lan_bytes::View;
use lan_index::{ChunkWords, IndexFault, RowIndex, ZipIndex};
use std::test::Fail;

// The places of three rows and of their end, in 17 bytes.
const OFFSETS: &[u8; 32] =
    b"\0\0\0\0\0\0\0\0\x07\0\0\0\0\0\0\0\x0c\0\0\0\0\0\0\0\x11\0\0\0\0\0\0\0";

// Chunks of 4,096, 4,096 and 1,811 slots.
const WORDS: &[u8; 6] = b"\x0c\xc0\x0c\xc0\xf0\x54";

// Rows of 2, 10,000 and 1 slots in these chunks.
const ROWS: &[u8; 48] =
    b"\x02\0\0\0\0\0\0\0\0\0\0\0\0\0\0\0\0\0\0\0\0\0\0\0\0\x10\0\0\0\0\0\0\x01\0\0\0\0\0\0\0\x12\x07\0\0\0\0\0\0";

#[test]
fn offsets_are_places_of_rows(rt: HostRuntime) -> Result<(), Fail> {
    let index = ZipIndex::open(View::new(0, OFFSETS.as_slice()), 3, 17).map_err(|_| "no index")?;
    let (first, last) = (index.range(0), index.range(2));
    assert_eq!(rt; (first.at, first.len, last.at, last.len), (0, 7, 12, 5));
    let short = ZipIndex::open(View::new(0, OFFSETS.as_slice()), 3, 16).err();
    assert_eq!(rt; short, Some(IndexFault::End));
    Ok(())
}

#[test]
fn rows_lie_in_chunks(rt: HostRuntime) -> Result<(), Fail> {
    let words = ChunkWords::open(View::new(0, WORDS.as_slice()), 10_003, 60_048);
    let words = words.map_err(|_| "no words")?;
    assert_eq!(rt; words.count(), 3);
    let index = RowIndex::open(View::new(0, ROWS.as_slice()), words, 3).map_err(|_| "no index")?;
    let first = index.run_of(0);
    assert_eq!(rt;
        (first.first, first.past, first.skip, first.at, first.len),
        (0, 1, 0, 0, 24_584)
    );
    let middle = index.run_of(1);
    assert_eq!(rt;
        (
            middle.first,
            middle.past,
            middle.skip,
            middle.at,
            middle.len
        ),
        (0, 3, 1, 0, 60_048)
    );
    let last = index.run_of(2);
    assert_eq!(rt;
        (last.first, last.past, last.skip, last.at, last.len),
        (2, 3, 0, 49_168, 10_880)
    );
    Ok(())
}
