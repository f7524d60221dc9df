ghost use Rattle.std.specs.Prelude.{◌<◌, length};

use lan_bytes::{Out, View};
use lan_levels::Piece;
use lan_values::{BoolView, ConstView, FlatView, ValueFault, VarBuf, VarView, put_bools, put_flat};
use std::alloc::{AllocError, Global};
use std::test::Fail;

// Nine bools, with the unused bits of the second byte set.
const BOOLS: [u8; 2] = [0x05, 0xfe];

// The values `ab`, none and `c` behind their four offsets.
const TEXTS: [u8; 19] = [
    16, 0, 0, 0, 18, 0, 0, 0, 18, 0, 0, 0, 19, 0, 0, 0, 0x61, 0x62, 0x63,
];

fn gathered(alloc: Global) -> Result<Vec<u8>, AllocError> {
    let mut out = Out::new(alloc);
    let mut values = VarBuf::new(alloc);
    values.push(b"ab")?;
    values.push(b"")?;
    values.push(b"c")?;
    values.put(&mut out)?;
    Ok(out.finish())
}

fn nine_bools(alloc: Global) -> Result<Vec<u8>, AllocError> {
    let mut out = Out::new(alloc);
    put_flat(&mut out, b"ab")?;
    put_bools(
        &mut out,
        [true, false, true, false, false, false, false, false, true].as_slice(),
    )?;
    Ok(out.finish())
}

#[test]
fn built_buffers_have_these_bytes(rt: HostRuntime) -> Result<(), Fail> {
    let bytes = gathered(rt.alloc())?;
    assert_eq!(rt; bytes.as_slice(), TEXTS.as_slice());
    let bytes = nine_bools(rt.alloc())?;
    assert_eq!(rt; bytes.as_slice(), [0x61, 0x62, 0x05, 0x01].as_slice());
    Ok(())
}

#[test]
fn values_are_read_where_they_stand(rt: HostRuntime) -> Result<(), Fail> {
    let bools = BoolView::open(View::new(0, BOOLS.as_slice()), 9)?;
    assert!(rt;
        matches!(bools.at(2), Piece::Bit(true)) && matches!(bools.at(8), Piece::Bit(false))
    );
    let flat = FlatView::open(View::new(0, TEXTS.as_slice()), 19, 1)?;
    assert!(rt; matches!(flat.at(0), Piece::Bytes(value) if value.len() == 19));
    let texts = VarView::open(View::new(0, TEXTS.as_slice()), 3)?;
    assert!(rt; matches!(texts.at(0), Piece::Bytes(b"ab")));
    assert!(rt; matches!(ConstView::new(Piece::Bit(true), 3).at(2), Piece::Bit(true)));
    Ok(())
}

fn fault_of(bytes: &[u8], n: u64) -> Option<ValueFault>
    requires { length bytes.now < 100 }
{
    VarView::open(View::new(0, bytes), n).err()
}

#[test]
fn wrong_offsets_are_named(rt: HostRuntime) {
    let fault = Some(ValueFault::LastOffset);
    assert_eq!(rt; fault_of(&TEXTS[..18], 3), fault);
    let fault = Some(ValueFault::Length);
    assert_eq!(rt; fault_of(&TEXTS, 4), fault);
    let fault = Some(ValueFault::FirstOffset);
    assert_eq!(rt; fault_of(&[12, 0, 0, 0, 12, 0, 0, 0], 1), fault);
    let falling = [12, 0, 0, 0, 13, 0, 0, 0, 12, 0, 0, 0, 0x61];
    assert_eq!(rt; fault_of(&falling, 2), Some(ValueFault::Falling(2)));
}
