use lan_bytes::{Out, U16s, U32s, U64s, View, pad8};
use std::alloc::{AllocError, Global};
use std::test::Fail;

// The last 40 bytes of a data file whose column metadata begins at 93.
const FOOTER: [u8; 40] = [
    0x5d, 0, 0, 0, 0, 0, 0, 0, 0x7a, 0, 0, 0, 0, 0, 0, 0, 0x8a, 0, 0, 0, 0, 0, 0, 0, 1, 0, 0, 0, 1,
    0, 0, 0, 2, 0, 1, 0, 0x4c, 0x41, 0x4e, 0x43,
];

fn written(alloc: Global) -> Result<Vec<u8>, AllocError> {
    let mut out = Out::new(alloc);
    out.num(93, 1)?;
    out.zeros(7)?;
    out.num(122, 8)?;
    out.num(138, 8)?;
    out.num(1, 4)?;
    out.num(1, 4)?;
    out.num(2, 2)?;
    out.num(1, 2)?;
    out.bytes(b"LANCE")?;
    out.truncate(40);
    Ok(out.finish())
}

#[test]
fn a_footer_is_written_and_read(rt: HostRuntime) -> Result<(), Fail> {
    let bytes = written(rt.alloc())?;
    assert_eq!(rt; bytes.as_slice(), FOOTER.as_slice());
    let view = View::new(1000, FOOTER.as_slice());
    let tail = view.cut(24, 16).ok_or("no tail")?;
    assert_eq!(rt; (tail.base(), tail.len()), (1024, 16));
    assert_eq!(rt; (view.u64_at(8), tail.u32_at(4)), (Some(122), Some(1)));
    assert_eq!(rt; (tail.u16_at(8), tail.u8_at(15)), (Some(2), Some(0x43)));
    Ok(())
}

#[test]
fn lists_of_numbers_are_lent(rt: HostRuntime) {
    let view = View::new(0, FOOTER.as_slice());
    assert!(rt; U64s::of(view.again()).is_some_and(|list| list.len() == 5 && list.at(2) == 138));
    assert!(rt;
        U32s::of(view.again()).is_some_and(|list| list.len() == 10 && list.at(9) == 0x434e_414c)
    );
    assert!(rt; U16s::of(view).is_some_and(|list| list.len() == 20 && list.at(16) == 2));
    assert_eq!(rt; (pad8(93), pad8(96)), (Some(96), Some(96)));
}
