use crate::pages::{text_leaf, text_slots};
use lan_bytes::View;
use lan_levels::{Codes, Piece, Shape, ValueKind, codes_fit, codes_of};
use lan_mini::{ChunkFault, ChunkView, build_page};
use lan_model::{Blobs, Layer, Leaf, List, Primitive, Ty};
use lan_values::ValueFault;
use std::alloc::{AllocError, Global};
use std::test::Fail;

// The int64 1, 2 and 3.
const NUMBERS: &[u8; 32] =
    b"\x03\0\x18\0\0\0\0\0\x01\0\0\0\0\0\0\0\x02\0\0\0\0\0\0\0\x03\0\0\0\0\0\0\0";

// The texts `ab`, null and the empty one, with a definition number each.
const TEXTS: &[u8; 40] =
    b"\x03\0\x06\0\x12\0\0\0\0\0\x01\0\0\0\0\0\x10\0\0\0\x12\0\0\0\x12\0\0\0\x12\0\0\0ab\0\0\0\0\0\0";

// Three bools, of which the middle one is true.
const BOOLS: &[u8; 16] = b"\x03\0\x01\0\0\0\0\0\x02\0\0\0\0\0\0\0";

fn leaf_of(alloc: Global, nullable: bool, ty: Ty) -> Result<Leaf, AllocError> {
    let mut layers = List::new(alloc);
    layers.push(Layer::Item { nullable })?;
    Ok(Leaf {
        id: 0,
        top: 0,
        ty,
        layers,
    })
}

// The leaf of chunks: of int64, nullable texts or bools, and how their values are stored.
fn column(alloc: Global, name: u8) -> Result<(Leaf, ValueKind), AllocError> {
    match name {
        b't' => Ok((leaf_of(alloc, true, Ty::Text)?, ValueKind::Variable)),
        b'b' => Ok((
            leaf_of(alloc, false, Ty::Bits(Primitive::Bool))?,
            ValueKind::Flat(1),
        )),
        _ => Ok((
            leaf_of(alloc, false, Ty::Bits(Primitive::Int64))?,
            ValueKind::Flat(64),
        )),
    }
}

fn digit(value: Piece<'_>) -> u64 {
    match value {
        Piece::Nothing => 9,
        Piece::Bit(bit) => u64::from(bit),
        Piece::Bytes(bytes) => bytes.len() as u64,
    }
}

// A digit for each slot behind a 1: the length of its value, a bool's bit, or 9 for no value.
fn walked(
    leaf: &Leaf,
    codes: &Codes,
    values: &ValueKind,
    bytes: &[u8],
    slots: u64,
) -> Result<u64, ChunkFault> {
    if !codes_fit(codes, leaf) || leaf.layers.len() > 16 || bytes.len() > 100 {
        return Ok(0);
    }
    let shape = Shape {
        codes,
        leaf,
        values,
    };
    let mut slots = ChunkView::open(View::new(0, bytes), shape, slots)?.walk();
    let mut digits: u64 = 1;
    for _ in 0..10 {
        if let Some(slot) = slots.next() {
            digits = digits.wrapping_mul(10).wrapping_add(digit(slot.value));
        }
    }
    Ok(digits)
}

// A chunk with one byte changed, by the column that it is of, and how many slots it is to have.
fn chunk(case: u32) -> (u8, usize, u8, u64, Result<u64, ChunkFault>) {
    match case {
        0 => (b'i', 8, 1, 3, Ok(1888)),
        1 => (b'i', 7, 9, 3, Ok(1888)),
        2 => (b'i', 0, 2, 3, Err(ChunkFault::Count)),
        3 => (b'i', 2, 0x19, 3, Err(ChunkFault::Buffer(0))),
        4 => (b'i', 2, 0x10, 3, Err(ChunkFault::Value(ValueFault::Length))),
        5 => (b't', 8, 0, 3, Ok(1290)),
        6 => (b't', 2, 4, 3, Err(ChunkFault::Buffer(0))),
        7 => (b't', 4, 0x19, 3, Err(ChunkFault::Buffer(1))),
        8 => (b't', 10, 2, 3, Err(ChunkFault::Level(1))),
        9 => (
            b't',
            16,
            0x11,
            3,
            Err(ChunkFault::Value(ValueFault::FirstOffset)),
        ),
        10 => (
            b't',
            24,
            0x11,
            3,
            Err(ChunkFault::Value(ValueFault::Falling(2))),
        ),
        11 => (
            b't',
            28,
            0x13,
            3,
            Err(ChunkFault::Value(ValueFault::LastOffset)),
        ),
        12 => (b't', 39, 7, 3, Ok(1290)),
        13 => (b'b', 8, 2, 3, Ok(1010)),
        14 => (b'b', 8, 0xfa, 3, Ok(1010)),
        _ => (b'b', 2, 0, 3, Err(ChunkFault::Value(ValueFault::Length))),
    }
}

fn bytes_of(name: u8) -> &'static [u8] {
    match name {
        b't' => TEXTS.as_slice(),
        b'b' => BOOLS.as_slice(),
        _ => NUMBERS.as_slice(),
    }
}

#[test]
fn chunks_are_read(rt: HostRuntime) -> Result<(), Fail> {
    let alloc = rt.alloc();
    for case in 0..16 {
        let (name, at, byte, slots, wanted) = chunk(case);
        let mut bytes = Vec::new(alloc);
        bytes.extend_from_slice(bytes_of(name))?;
        if let Some(place) = bytes.get_mut(at) {
            *place = byte;
        }
        let (leaf, kind) = column(alloc, name)?;
        let codes = codes_of(alloc, &leaf)?;
        let read = walked(&leaf, &codes, &kind, bytes.as_slice(), slots);
        assert_eq!(rt; read, wanted, "case {case}");
    }
    Ok(())
}

// What is in front of the chunk of numbers, and the chunk with a byte behind it.
#[test]
fn cut_chunks_are_refused(rt: HostRuntime) -> Result<(), Fail> {
    let alloc = rt.alloc();
    let (leaf, kind) = column(alloc, b'i')?;
    let codes = codes_of(alloc, &leaf)?;
    for (end, wanted) in [
        (7, ChunkFault::Header),
        (8, ChunkFault::Buffer(0)),
        (31, ChunkFault::Buffer(0)),
    ] {
        let front = NUMBERS.get(..end).ok_or("no front")?;
        assert_eq!(rt; walked(&leaf, &codes, &kind, front, 3), Err(wanted));
    }
    let mut longer = Vec::new(alloc);
    longer.extend_from_slice(NUMBERS.as_slice())?;
    longer.push(0)?;
    assert_eq!(rt;
        walked(&leaf, &codes, &kind, longer.as_slice(), 3),
        Err(ChunkFault::Extra)
    );
    Ok(())
}

#[tactic(auto, using(crate::proofs::Texts::texts_stand, crate::proofs::Texts::texts_are_short))]
fn text_page(alloc: Global) -> Result<Blobs, AllocError> {
    let leaf = text_leaf(alloc)?;
    let slots = text_slots(alloc)?;
    build_page(alloc, &leaf, &slots, 0, 3)
}

#[test]
fn a_page_of_texts_is_built(rt: HostRuntime) -> Result<(), Fail> {
    let buffers = text_page(rt.alloc())?;
    let [words, chunks] = buffers.as_slice() else {
        return Err("not two buffers".into());
    };
    assert_eq!(rt; words.as_slice(), b"\x40\0".as_slice());
    assert_eq!(rt; chunks.as_slice(), TEXTS.as_slice());
    Ok(())
}
