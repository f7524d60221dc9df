use lan_bytes::View;
use lan_wire::{Kind, Rule, Said, Writer};
use std::test::Fail;

const LISTS: [Rule; 2] = [Rule(1, Kind::Numbers), Rule(2, Kind::SignedNumbers)];

#[test]
fn lists_of_numbers_are_written_and_said(rt: HostRuntime) -> Result<(), Fail> {
    let alloc = rt.alloc();
    let mut writer = Writer::new(alloc);
    writer.packed(1, &[0, 300])?;
    writer.packed_signed(2, &[-1, 7])?;
    let bytes = writer.finish();
    assert_eq!(rt;
        bytes.as_slice(),
        b"\x0a\x03\0\xac\x02\x12\x0b\xff\xff\xff\xff\xff\xff\xff\xff\xff\x01\x07".as_slice()
    );
    let said = Said::read(View::new(0, bytes.as_slice()), &LISTS)?;
    assert_eq!(rt; said.nums(alloc, 1)?.as_slice(), [0, 300].as_slice());
    assert_eq!(rt; said.signeds(alloc, 2)?.as_slice(), [-1, 7].as_slice());
    Ok(())
}
