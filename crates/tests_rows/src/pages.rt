ghost use Rattle.std.specs.Prelude.{◌≡◌, ◌<◌, [], ◌∷◌, true, length, IfOk};
ghost use Rattle.lan_model.specs.Plain.{plain_type, text};
ghost use Rattle.lan_model.specs.declared.tree.Layer.TheVariants as layer;
ghost use Rattle.lan_levels.specs.PlainSlots.{bytes, nothing};
ghost use Rattle.lan_levels.specs.SlotsOf.{slot};
ghost use Rattle.lan_levels.specs.declared.slot.State.TheVariants as state;

use lan_bytes::View;
use lan_levels::{Codes, Piece, Shape, Slot, SlotBuf, State, ValueKind, codes_fit, codes_of};
use lan_model::{Blobs, Layer, Leaf, List, Primitive, Ty};
use lan_zip::{ZipFault, ZipView, build_page};
use std::alloc::{AllocError, Global};
use std::test::Fail;

// The texts `ab`, null and the empty one.
const TEXTS: &[u8; 17] = b"\0\x02\0\0\0ab\x01\0\0\0\0\0\0\0\0\0";

// A page, by the column it is of: texts, int16, lists of int16, and bools in eight lists. All but the
// items of the numbers are nullable. Then how many rows it is to have, and a digit for each slot behind a
// 1: the length of its value, a bool's bit, or 9 for no value.
fn page(case: u32) -> (u8, &'static [u8], u64, Result<u64, ZipFault>) {
    match case {
        0 => (b't', TEXTS, 3, Ok(1290)),
        1 => (b't', TEXTS, 2, Err(ZipFault::Extra)),
        2 => (b't', TEXTS, u64::MAX, Err(ZipFault::Cut(3))),
        3 => (b't', b"\x02\0\0\0\0", 1, Err(ZipFault::Level(0))),
        4 => (b't', b"", 3, Err(ZipFault::Cut(0))),
        5 => (b't', &TEXTS[..6], 3, Err(ZipFault::Cut(0))),
        6 => (b't', &TEXTS[..11], 3, Err(ZipFault::Cut(1))),
        7 => (b't', &TEXTS[..16], 3, Err(ZipFault::Cut(2))),
        8 => (b'i', b"\x01\0\x02\0\x03\0", 3, Ok(1222)),
        9 => (b'i', b"\x01\0\x02\0\x03\0", 2, Err(ZipFault::Extra)),
        10 => (b'i', b"\x01\0\x02\0\x03\0", u64::MAX, Err(ZipFault::Cut(3))),
        11 => (b'i', b"\x01\0\x02\0\x03", 3, Err(ZipFault::Cut(2))),
        // The lists 1 and 2, null and the empty one.
        12 => (b'l', b"\x04\x01\0\0\x02\0\x05\x06", 3, Ok(12299)),
        13 => (b'l', b"\x04\x01\0\0\x02\0\x05\x06", 2, Err(ZipFault::Rows)),
        14 => (b'l', b"\0\x01\0", 0, Err(ZipFault::Rows)),
        15 => (b'l', b"\x04\x01\0\x07", 1, Err(ZipFault::Level(1))),
        16 => (b'l', b"\x04\x01\0\x04\x01", 2, Err(ZipFault::Cut(1))),
        // Nine bits of levels are two bytes.
        17 => (b'b', b"\0\x01\x02\0\0\0", 1, Ok(110)),
        _ => (b'b', b"\0\x02\x02", 1, Err(ZipFault::Level(0))),
    }
}

// The leaf of a column, and how its values are stored.
fn column(alloc: Global, name: u8) -> Result<(Leaf, ValueKind), AllocError> {
    let (ty, lists, kind) = match name {
        b't' => (Ty::Text, 0, ValueKind::Variable),
        b'i' => (Ty::Bits(Primitive::Int16), 0, ValueKind::Flat(16)),
        b'l' => (Ty::Bits(Primitive::Int16), 1, ValueKind::Flat(16)),
        _ => (Ty::Bits(Primitive::Bool), 8, ValueKind::Flat(1)),
    };
    let mut layers = List::new(alloc);
    layers.push(Layer::Item {
        nullable: name == b't',
    })?;
    for _ in 0..lists {
        layers.push(Layer::List { nullable: true })?;
    }
    let leaf = Leaf {
        id: 0,
        top: 0,
        ty,
        layers,
    };
    Ok((leaf, kind))
}

fn digit(value: Piece<'_>) -> u64 {
    match value {
        Piece::Nothing => 9,
        Piece::Bit(bit) => u64::from(bit),
        Piece::Bytes(bytes) => bytes.len() as u64,
    }
}

// The digits of the page's slots.
fn walked(
    leaf: &Leaf,
    codes: &Codes,
    values: &ValueKind,
    bytes: &[u8],
    rows: u64,
) -> Result<u64, ZipFault> {
    if !codes_fit(codes, leaf) || leaf.layers.len() > 16 || bytes.len() > 100 {
        return Ok(0);
    }
    let shape = Shape {
        codes,
        leaf,
        values,
    };
    let mut slots = ZipView::open(View::new(0, bytes), shape, rows)?.slots();
    let mut digits: u64 = 1;
    for _ in 0..10 {
        if let Some(slot) = slots.next() {
            digits = digits.wrapping_mul(10).wrapping_add(digit(slot.value));
        }
    }
    Ok(digits)
}

#[test]
fn pages_are_read(rt: HostRuntime) -> Result<(), Fail> {
    for case in 0..19 {
        let (name, bytes, rows, wanted) = page(case);
        let (leaf, kind) = column(rt.alloc(), name)?;
        let codes = codes_of(rt.alloc(), &leaf)?;
        let read = walked(&leaf, &codes, &kind, bytes, rows);
        assert_eq!(rt; read, wanted, "case {case}");
    }
    Ok(())
}

// A nullable leaf of text.
pub fn text_leaf(alloc: Global) -> Result<Leaf, AllocError>
    ensures layers { IfOk result (λ leaf. leaf.layers ≡ layer.Item true ∷ []) }
    ensures ty { IfOk result (λ leaf. plain_type leaf.ty ≡ text) }
{
    let mut layers = List::new(alloc);
    layers.push(Layer::Item { nullable: true })?;
    Ok(Leaf {
        id: 0,
        top: 0,
        ty: Ty::Text,
        layers,
    })
}

// The slots of the texts `ab`, null and the empty one.
pub fn text_slots(alloc: Global) -> Result<SlotBuf, AllocError>
    ensures { IfOk result (λ slots. slots ≡ slot 0 state.Here (bytes (97 ∷ 98 ∷ [])) ∷ slot 0 (state.Null 0) nothing ∷ slot 0 state.Here (bytes []) ∷ []) }
{
    let mut slots = SlotBuf::new(alloc);
    slots.push(Slot {
        rep: 0,
        state: State::Here,
        value: Piece::Bytes(b"ab"),
    })?;
    slots.push(Slot {
        rep: 0,
        state: State::Null(0),
        value: Piece::Nothing,
    })?;
    slots.push(Slot {
        rep: 0,
        state: State::Here,
        value: Piece::Bytes(b""),
    })?;
    Ok(slots)
}

#[tactic(auto, using(crate::proofs::Texts::texts_stand))]
fn text_page(alloc: Global) -> Result<Blobs, AllocError> {
    let leaf = text_leaf(alloc)?;
    let slots = text_slots(alloc)?;
    build_page(alloc, &leaf, &slots, 0, 3)
}

#[test]
fn a_page_of_texts_is_built(rt: HostRuntime) -> Result<(), Fail> {
    let buffers = text_page(rt.alloc())?;
    let [content, starts] = buffers.as_slice() else {
        return Err("not two buffers".into());
    };
    assert_eq!(rt; content.as_slice(), TEXTS.as_slice());
    let mut places = [0; 32];
    for (i, place) in [(0, 0), (8, 7), (16, 12), (24, 17)] {
        places[i] = place;
    }
    assert_eq!(rt; starts.as_slice(), places.as_slice());
    Ok(())
}
