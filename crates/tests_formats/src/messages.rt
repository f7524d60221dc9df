use lan_bytes::View;
use lan_model::Nums;
use lan_wire::{Fields, Item, NumsFault, WireFault, WireKind, Writer};
use std::alloc::{AllocError, Global};
use std::test::Fail;

// A field x of type int64 that has no parent, as its message says it.
pub const FIELD: &[u8; 23] =
    b"\x08\x02\x12\x01x\x20\xff\xff\xff\xff\xff\xff\xff\xff\xff\x01\x2a\x05int64";

fn next_item<'a>(fields: &mut Fields<'a>) -> Result<Item<'a>, Fail> {
    let found = fields.next().ok_or("no item is left")?;
    Ok(found?)
}

#[test]
fn a_message_is_read_item_by_item(rt: HostRuntime) -> Result<(), Fail> {
    let mut fields = Fields::new(View::new(100, FIELD.as_slice()));
    let kind = next_item(&mut fields)?;
    assert_eq!(rt; (kind.number, kind.at, kind.small()), (1, 100, Ok(2)));
    let name = next_item(&mut fields)?;
    assert_eq!(rt; (name.number, name.at, name.text()), (2, 102, Ok("x")));
    let wrong = WireFault {
        kind: WireKind::WrongType(2),
        at: 102,
    };
    assert_eq!(rt; name.num(), Err(wrong));
    let parent = next_item(&mut fields)?;
    assert_eq!(rt;
        (parent.number, parent.at, parent.signed()),
        (4, 105, Ok(-1))
    );
    let logical = next_item(&mut fields)?;
    assert_eq!(rt;
        (logical.number, logical.at, logical.text()),
        (5, 116, Ok("int64"))
    );
    assert!(rt; fields.next().is_none());
    Ok(())
}

// The first fault of a message.
fn fault_in(message: &[u8]) -> Option<WireFault> {
    let mut fields = Fields::new(View::new(0, message));
    for _ in 0..message.len() {
        if let Err(fault) = fields.next()? {
            return Some(fault);
        }
    }
    None
}

#[test]
fn faults_stand_at_their_key(rt: HostRuntime) {
    let readable = [
        b"".as_slice(),
        b"\x88\x00\x81\x00".as_slice(),
        b"\xf8\xff\xff\xff\x0f\x00".as_slice(),
        b"\x08\xff\xff\xff\xff\xff\xff\xff\xff\xff\x01".as_slice(),
    ];
    for message in readable {
        assert_eq!(rt; fault_in(message), None, "in {message:?}");
    }
    let faulty = [
        (b"\x00".as_slice(), WireKind::Cut, 0),
        (b"\x00\x05".as_slice(), WireKind::BadNumber, 0),
        (b"\x02\x05".as_slice(), WireKind::Cut, 0),
        (
            b"\x00\xff\xff\xff\xff\xff\xff\xff\xff\xff\xff".as_slice(),
            WireKind::TooLong,
            0,
        ),
        (
            b"\x08\x05\x10\xff\xff\xff\xff\xff\xff\xff\xff\xff\x02".as_slice(),
            WireKind::TooLong,
            2,
        ),
        (b"\x08\x05\x80".as_slice(), WireKind::Cut, 2),
        (b"\x08\x05\x0b".as_slice(), WireKind::BadType, 2),
        (
            b"\x80\x80\x80\x80\x10\x00".as_slice(),
            WireKind::BadNumber,
            0,
        ),
        (b"\x0d\x01\x02\x03".as_slice(), WireKind::Cut, 0),
    ];
    for (message, kind, at) in faulty {
        assert_eq!(rt;
            fault_in(message),
            Some(WireFault { kind, at }),
            "in {message:?}"
        );
    }
}

fn written(alloc: Global) -> Result<Vec<u8>, AllocError> {
    let mut out = Writer::new(alloc);
    out.num(1, 2)?;
    out.text(2, "x")?;
    out.num(3, 0)?;
    out.signed(4, -1)?;
    out.text(5, "int64")?;
    out.present(6, 0)?;
    out.part(7, b"")?;
    out.packed(8, &[300, 0])?;
    Ok(out.finish())
}

#[test]
fn a_message_is_written(rt: HostRuntime) -> Result<(), Fail> {
    let message = written(rt.alloc())?;
    let (field, more) = message.as_slice().split_at_checked(23).ok_or("too short")?;
    assert_eq!(rt; field, FIELD.as_slice());
    assert_eq!(rt; more, b"\x30\x00\x3a\x00\x42\x03\xac\x02\x00".as_slice());
    Ok(())
}

// The numbers of the repeated field 4; other fields are passed over.
fn numbers_in(message: &[u8], into: &mut Nums) -> Result<(), NumsFault> {
    let mut fields = Fields::new(View::new(0, message));
    for _ in 0..message.len() {
        match fields.next() {
            Some(Ok(item)) if item.number == 4 => item.nums(into)?,
            Some(Err(fault)) => return Err(NumsFault::Wire(fault)),
            _ => {}
        }
    }
    Ok(())
}

#[test]
fn numbers_come_packed_or_one_by_one(rt: HostRuntime) -> Result<(), Fail> {
    let mut numbers = Nums::new(rt.alloc());
    numbers_in(
        b"\x20\x05\x3d\x01\x02\x03\x04\x22\x03\xac\x02\x00\x20\x07",
        &mut numbers,
    )?;
    assert_eq!(rt; numbers.as_slice(), [5, 300, 0, 7].as_slice());
    let cut = WireFault {
        kind: WireKind::Cut,
        at: 0,
    };
    assert_eq!(rt;
        numbers_in(b"\x22\x02\x05\x80", &mut numbers),
        Err(NumsFault::Wire(cut))
    );
    assert_eq!(rt; numbers.len(), 4);
    Ok(())
}
