use crate::samples::{two_batches, two_rows};
use lan_arrow::{ArrowFault, read_deletions, write_deletions};
use lan_bytes::View;
use std::alloc::{AllocError, Global};
use std::test::Fail;

// Two bytes of the file of the rows 0 and 2 in the outer parts and the footer, and the fault where they are changed
// so. The byte at 272 is 0 already.
fn footer_change(case: u32) -> ([(usize, u8); 2], ArrowFault) {
    match case {
        0 => ([(0, 0x42), (272, 0)], ArrowFault::Magic),
        1 => ([(453, 0x30), (272, 0)], ArrowFault::Magic),
        2 => ([(445, 2), (272, 0)], ArrowFault::Footer),
        3 => ([(447, 0x80), (272, 0)], ArrowFault::Footer),
        4 => ([(288, 0xff), (272, 0)], ArrowFault::Table(543)),
        5 => ([(307, 0x7f), (272, 0)], ArrowFault::Table(304)),
        6 => ([(307, 0x80), (272, 0)], ArrowFault::Table(304)),
        7 => ([(292, 0xff), (272, 0)], ArrowFault::Table(304)),
        8 => ([(294, 0xff), (272, 0)], ArrowFault::Table(304)),
        9 => ([(298, 0), (272, 0)], ArrowFault::Table(304)),
        10 => ([(311, 0xff), (272, 0)], ArrowFault::Table(4_278_190_440)),
        11 => ([(315, 0xff), (272, 0)], ArrowFault::Table(4_278_190_404)),
        12 => ([(327, 0x80), (272, 0)], ArrowFault::Table(324)),
        13 => ([(358, 0), (272, 0)], ArrowFault::Table(360)),
        14 => ([(371, 0x40), (272, 0)], ArrowFault::Table(368)),
        15 => ([(400, 0xff), (408, 3)], ArrowFault::Table(655)),
        16 => ([(356, 4), (272, 0)], ArrowFault::Column),
        17 => ([(368, 2), (272, 0)], ArrowFault::Column),
        18 => ([(408, 3), (272, 0)], ArrowFault::Column),
        19 => ([(440, 64), (272, 0)], ArrowFault::Column),
        20 => ([(434, 4), (272, 0)], ArrowFault::Column),
        21 => ([(424, 1), (388, 4)], ArrowFault::Column),
        22 => ([(388, 4), (272, 0)], ArrowFault::Dictionary),
        _ => ([(300, 8), (272, 0)], ArrowFault::Dictionary),
    }
}

// The same of the batch, its message and its rows; the last two changes are none that matter.
fn batch_change(case: u32) -> ([(usize, u8); 2], Option<ArrowFault>) {
    match case {
        0 => ([(144, 0xff), (408, 3)], Some(ArrowFault::Table(399))),
        1 => ([(163, 0x80), (272, 0)], Some(ArrowFault::Table(160))),
        2 => ([(194, 0xff), (178, 1)], Some(ArrowFault::Table(192))),
        3 => ([(335, 0x80), (272, 0)], Some(ArrowFault::Batch(0))),
        4 => ([(339, 0x80), (272, 0)], Some(ArrowFault::Batch(0))),
        5 => ([(351, 0x7f), (272, 0)], Some(ArrowFault::Batch(0))),
        6 => ([(344, 7), (272, 0)], Some(ArrowFault::Batch(0))),
        7 => ([(136, 0xfe), (272, 0)], Some(ArrowFault::Batch(0))),
        8 => ([(140, 0x81), (272, 0)], Some(ArrowFault::Batch(0))),
        9 => ([(178, 1), (272, 0)], Some(ArrowFault::Batch(0))),
        10 => ([(207, 0x40), (223, 0x40)], Some(ArrowFault::Batch(0))),
        11 => ([(216, 3), (272, 0)], Some(ArrowFault::Batch(0))),
        12 => ([(180, 12), (190, 4)], Some(ArrowFault::Compressed(0))),
        13 => ([(224, 1), (272, 0)], Some(ArrowFault::Nulls(0))),
        14 => ([(224, 1), (236, 1)], Some(ArrowFault::Nulls(0))),
        15 => ([(276, 6), (272, 0)], Some(ArrowFault::Row(6))),
        16 => ([(276, 0), (272, 0)], Some(ArrowFault::Twice(0))),
        17 => ([(247, 0xff), (255, 0xff)], None),
        _ => ([(6, 7), (168, 99)], None),
    }
}

// The same where a part of a table passes its buffer, or one that has to be there is absent.
fn part_change(case: u32) -> ([(usize, u8); 2], ArrowFault) {
    match case {
        0 => ([(302, 0), (272, 0)], ArrowFault::Table(304)),
        1 => ([(300, 0xff), (272, 0)], ArrowFault::Table(559)),
        2 => ([(356, 0xff), (272, 0)], ArrowFault::Table(615)),
        3 => ([(367, 0xff), (272, 0)], ArrowFault::Table(4_278_190_448)),
        4 => ([(372, 0xff), (272, 0)], ArrowFault::Table(627)),
        5 => ([(384, 0xff), (272, 0)], ArrowFault::Table(647)),
        6 => ([(386, 0), (272, 0)], ArrowFault::Table(392)),
        7 => ([(432, 0xff), (272, 0)], ArrowFault::Table(691)),
        8 => ([(434, 0xff), (272, 0)], ArrowFault::Table(691)),
        9 => ([(390, 0xff), (272, 0)], ArrowFault::Table(647)),
        10 => ([(427, 0x40), (272, 0)], ArrowFault::Table(424)),
        11 => ([(154, 0xff), (272, 0)], ArrowFault::Table(415)),
        12 => ([(156, 0), (272, 0)], ArrowFault::Table(160)),
        13 => ([(167, 0xff), (272, 0)], ArrowFault::Table(4_278_190_272)),
        14 => ([(184, 0xff), (272, 0)], ArrowFault::Table(447)),
        15 => ([(186, 0), (272, 0)], ArrowFault::Table(192)),
        16 => ([(215, 0x40), (272, 0)], ArrowFault::Table(212)),
        17 => ([(211, 0xff), (272, 0)], ArrowFault::Table(4_278_190_316)),
        18 => ([(188, 0), (272, 0)], ArrowFault::Table(192)),
        19 => ([(239, 0x40), (272, 0)], ArrowFault::Table(236)),
        20 => ([(395, 0x7f), (272, 0)], ArrowFault::Table(392)),
        21 => ([(439, 0x7f), (272, 0)], ArrowFault::Table(436)),
        _ => ([(363, 0x7f), (272, 0)], ArrowFault::Table(360)),
    }
}

// What is wrong with the file of the rows 0 and 2 with these bytes changed.
fn fault_after(alloc: Global, changes: [(usize, u8); 2]) -> Result<Option<ArrowFault>, AllocError> {
    let mut file = Vec::new(alloc);
    file.extend_from_slice(two_rows())?;
    for (place, byte) in changes {
        if let Some(cell) = file.get_mut(place) {
            *cell = byte;
        }
    }
    Ok(read_deletions(alloc, View::new(0, file.as_slice()), 6, 2).err())
}

#[test]
fn rows_are_written(rt: HostRuntime) -> Result<(), Fail> {
    let file = write_deletions(rt.alloc(), &[0, 2])?;
    assert_eq!(rt; file.as_slice(), two_rows());
    Ok(())
}

#[test]
fn batches_are_read_in_order(rt: HostRuntime) -> Result<(), Fail> {
    let file = View::new(0, two_batches());
    let deleted = read_deletions(rt.alloc(), file.again(), 6, 2)?;
    assert_eq!(rt; deleted.rows(), [1, 4].as_slice());
    assert!(rt; deleted.has(4) && !deleted.has(3));
    assert_eq!(rt; (deleted.nth_kept(3), deleted.nth_kept(4)), (Some(5), None));
    let fault = read_deletions(rt.alloc(), file.again(), 6, 3).err();
    assert_eq!(rt; fault, Some(ArrowFault::Count(2)));
    Ok(())
}

#[test]
fn fronts_are_refused(rt: HostRuntime) {
    let file = two_batches();
    for len in 0..file.len() {
        let front = View::new(0, &file[..len]);
        assert!(rt;
            read_deletions(rt.alloc(), front, 6, 2).is_err(),
            "of {len}"
        );
    }
}

#[test]
fn changed_footers_are_refused(rt: HostRuntime) -> Result<(), Fail> {
    for case in 0..24 {
        let (changes, fault) = footer_change(case);
        assert_eq!(rt;
            fault_after(rt.alloc(), changes)?,
            Some(fault),
            "{changes:?}"
        );
    }
    for case in 0..23 {
        let (changes, fault) = part_change(case);
        assert_eq!(rt;
            fault_after(rt.alloc(), changes)?,
            Some(fault),
            "{changes:?}"
        );
    }
    Ok(())
}

#[test]
fn changed_batches_are_refused(rt: HostRuntime) -> Result<(), Fail> {
    for case in 0..19 {
        let (changes, fault) = batch_change(case);
        assert_eq!(rt; fault_after(rt.alloc(), changes)?, fault, "{changes:?}");
    }
    Ok(())
}
