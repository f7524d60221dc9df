// A field with three leaves, and slots in letters.
ghost use Rattle.std.specs.Prelude.{◌≡◌, ◌≤◌, ◌∷◌, [], map, All, IfOk};
ghost use Rattle.lan_model.specs.Plain.{plain_field, plain_type, field};
ghost use Rattle.lan_model.specs.Table.{IsField, depths_of};
ghost use Rattle.lan_model.specs.Leaves.{leaves_of, IsNarrow};

use lan_levels::{Piece, Runs, Slot, SlotBuf, SlotRun, State};
use lan_model::{Boxed, Field, FieldList, Leaves, List, Primitive, Text, Ty, copy_field, leaves};
use std::alloc::{AllocError, Global};

fn made(alloc: Global, id: u32, name: &str, nullable: bool, ty: Ty) -> Result<Field, AllocError>
    ensures { IfOk result (λ f. plain_field f ≡ field id name.now nullable (plain_type ty)) }
{
    Ok(Field {
        id,
        name: Text::of(alloc, name)?,
        nullable,
        ty,
    })
}

/// A nullable list of nullable structs of a nullable list `a` of nullable int32, an int32 `b` and a
/// string `c`.
pub fn nested(alloc: Global) -> Result<Field, AllocError>
    ensures field { IfOk result (λ f. IsField (plain_field f)) }
    ensures narrow { IfOk result (λ f. IsNarrow (plain_field f)) }
    ensures layers { IfOk result (λ f. All (λ depth. depth ≤ 16) (depths_of (plain_field f) 0)) }
    ensures leaves { IfOk result (λ f. map (λ l. l.id) (leaves_of (plain_field f) 0 []) ≡ 3 ∷ 4 ∷ 5 ∷ []) }
{
    let number = made(alloc, 3, "item", true, Ty::Bits(Primitive::Int32))?;
    let numbers = Ty::List(Boxed::new(alloc, number)?);
    let mut members = FieldList::new(alloc);
    members.push(made(alloc, 2, "a", true, numbers)?)?;
    members.push(made(alloc, 4, "b", false, Ty::Bits(Primitive::Int32))?)?;
    members.push(made(alloc, 5, "c", false, Ty::Text)?)?;
    let item = made(alloc, 1, "item", true, Ty::Struct(members))?;
    made(alloc, 0, "x", true, Ty::List(Boxed::new(alloc, item)?))
}

/// The leaves of a field.
pub fn leaves_of(alloc: Global, field: &Field) -> Result<Leaves, AllocError>
    requires { IsNarrow (plain_field field.now) }
{
    let mut fields = FieldList::new(alloc);
    fields.push(copy_field(alloc, field)?)?;
    leaves(alloc, &fields)
}

/// The four bytes of a small int32, and the bytes of some texts and of some that are none.
fn bytes_of(letter: u8) -> &'static [u8] {
    match letter {
        b'0' => &[0, 0, 0, 0],
        b'1' => &[1, 0, 0, 0],
        b'2' => &[2, 0, 0, 0],
        b'3' => &[3, 0, 0, 0],
        b'8' => &[0, 0, 0, 0, 0, 0, 0, 0],
        b'-' => b"",
        b'e' => b"\xc3\xa9",
        b'f' => b"\xff",
        b'g' => b"\xc3",
        b'h' => b"\xc0\x80",
        b'i' => b"\xed\xa0\x80",
        _ => b"b",
    }
}

/// The slot of three letters: the repetition number, the state and its layer or the value.
fn slot_of(letters: &[u8]) -> Slot<'static> {
    let (rep, state, value) = match letters {
        [rep, b'n', layer, ..] => (*rep, State::Null(*layer % 16), Piece::Nothing),
        [rep, b'e', layer, ..] => (*rep, State::Empty(*layer % 16), Piece::Nothing),
        [rep, b'v', value, ..] => (*rep, State::Here, Piece::Bytes(bytes_of(*value))),
        [rep, ..] => (*rep, State::Here, Piece::Nothing),
        [] => (0, State::Here, Piece::Nothing),
    };
    Slot {
        rep: u16::from(rep % 16),
        state,
        value,
    }
}

/// The slots of words of three letters, each but the last with a blank behind it.
pub fn slots_of(alloc: Global, words: &str) -> Result<SlotBuf, AllocError> {
    let mut slots = SlotBuf::new(alloc);
    for word in words.as_bytes().chunks(4) {
        slots.push(slot_of(word))?;
    }
    Ok(slots)
}

fn run_of(alloc: Global, leaf: u32, slots: &SlotBuf) -> Result<SlotRun<'_>, AllocError>
    ensures { IfOk result (λ run. run.leaf ≡ leaf) }
{
    let mut all = List::new(alloc);
    for i in 0..slots.len() {
        all.push(slots.slot(i))?;
    }
    Ok(SlotRun { leaf, slots: all })
}

/// The runs of the three leaves.
pub fn runs_of<'a>(
    alloc: Global,
    a: &'a SlotBuf,
    b: &'a SlotBuf,
    c: &'a SlotBuf,
) -> Result<Runs<'a>, AllocError>
    ensures { IfOk result (λ runs. map (λ run. run.leaf) runs ≡ 3 ∷ 4 ∷ 5 ∷ []) }
{
    let mut runs = Runs::new(alloc);
    runs.push(run_of(alloc, 3, a)?)?;
    runs.push(run_of(alloc, 4, b)?)?;
    runs.push(run_of(alloc, 5, c)?)?;
    Ok(runs)
}

/// Whether the slots are equal.
pub fn are_same(some: &SlotBuf, other: &SlotBuf) -> bool {
    if some.len() != other.len() {
        return false;
    }
    for i in 0..some.len() {
        if !is_same(some.slot(i), other.slot(i)) {
            return false;
        }
    }
    true
}

fn is_same(some: Slot<'_>, other: Slot<'_>) -> bool {
    let is_same = match (some.value, other.value) {
        (Piece::Nothing, Piece::Nothing) => true,
        (Piece::Bytes(some), Piece::Bytes(other)) => some == other,
        _ => false,
    };
    is_same && some.rep == other.rep && some.state == other.state
}
