use crate::samples::{are_same, leaves_of, nested, runs_of, slots_of};
use lan_levels::{Codes, Join, SlotBuf, State, assemble, codes_fit, codes_of, number_of, shred};
use lan_model::{Blob, FieldList, Leaf, Leaves, Row, Val};
use lan_rows::{print_row, read_row};
use std::alloc::{AllocError, Global};
use std::test::Fail;

// A row, and its slots in the three leaves.
fn row(case: u32) -> (&'static str, [&'static str; 3]) {
    match case {
        0 => (r#"{"x":null}"#, ["2n3", "1n2", "1n2"]),
        1 => (r#"{"x":[]}"#, ["2e3", "1e2", "1e2"]),
        2 => (
            r#"{"x":[null,{"a":null,"b":1,"c":"b"}]}"#,
            ["2n2 1n1", "1n1 0v1", "1n1 0vb"],
        ),
        3 => (
            r#"{"x":[{"a":[1,null],"b":2,"c":"é"},{"a":[],"b":3,"c":""}]}"#,
            ["2v1 0n0 1e1", "1v2 0v3", "1ve 0v-"],
        ),
        _ => (
            r#"{"x":[{"a":[1],"b":0,"c":"b"},{"a":[],"b":0,"c":"b"},{"a":[2,3],"b":0,"c":"b"}]}"#,
            ["2v1 1e1 1v2 0v3", "1v0 0v0 0v0", "1vb 0vb 0vb"],
        ),
    }
}

// Slots of no value, in the three leaves, and why.
fn refused(case: u32) -> ([&'static str; 3], Join) {
    let (number, text) = ("1v1", "1vb");
    match case {
        // No slots, first numbers of no row, and a second row.
        0 => (["", number, text], Join::Shape(3)),
        1 => (["0v1", number, text], Join::Shape(3)),
        2 => (["1v1", number, text], Join::Shape(3)),
        3 => (["3v1", number, text], Join::Shape(3)),
        4 => (["2v1 2v1", number, text], Join::Shape(3)),
        5 => (["2v1", "", text], Join::Shape(4)),
        6 => (["2v1", number, "0vb"], Join::Shape(5)),
        // A value too long, missing or of no number, and states that the leaf doesn't have.
        7 => (["2v8", number, text], Join::Shape(3)),
        8 => (["2v-", number, text], Join::Shape(3)),
        9 => (["2h ", number, text], Join::Shape(3)),
        10 => (["2e0", number, text], Join::Shape(3)),
        11 => (["2n4", number, text], Join::Shape(3)),
        // An empty list where a number has to be, and a list behind the empty one.
        12 => (["2v1 0e1", number, text], Join::Shape(3)),
        13 => (["2e3 1e1", "1e2", "1e2"], Join::Shape(3)),
        // A leaf that ends before the first one, goes on after it, and has a value beside a null.
        14 => (["2v1 1v2", number, text], Join::Shape(4)),
        15 => (["2v1", "1v1 0v2", text], Join::Shape(4)),
        16 => (["2n2", "1n1", text], Join::Shape(5)),
        17 => (["2e3", "1e2", "1n2"], Join::Shape(5)),
        // Nulls that aren't allowed.
        18 => (["2v1", "1n0", text], Join::NotNull(4)),
        19 => (["2v1", number, "1n0"], Join::NotNull(5)),
        // A byte of no text, a letter cut short, one in too many bytes, and half a letter.
        20 => (["2v1", number, "1vf"], Join::NotText(5)),
        21 => (["2v1", number, "1vg"], Join::NotText(5)),
        22 => (["2v1", number, "1vh"], Join::NotText(5)),
        _ => (["2v1", number, "1vi"], Join::NotText(5)),
    }
}

fn fields(alloc: Global) -> Result<FieldList, AllocError> {
    let mut fields = FieldList::new(alloc);
    fields.push(nested(alloc)?)?;
    Ok(fields)
}

// The leaves of the field, which is copied for them.
fn own_leaves(alloc: Global) -> Result<Leaves, AllocError> {
    let field = nested(alloc)?;
    leaves_of(alloc, &field)
}

fn shredded(alloc: Global, leaf: &Leaf, row: &Row) -> Result<SlotBuf, AllocError> {
    let mut slots = SlotBuf::new(alloc);
    if leaf.layers.len() <= 16 {
        shred(leaf, row, &mut slots)?;
    }
    Ok(slots)
}

// How many leaves the row has these slots in.
fn matching(alloc: Global, row: &Row, wanted: [&str; 3]) -> Result<u32, AllocError> {
    let leaves = own_leaves(alloc)?;
    let mut count = 0_u32;
    for (leaf, words) in leaves.as_slice().iter().zip(wanted) {
        let wanted = slots_of(alloc, words)?;
        if are_same(&shredded(alloc, leaf, row)?, &wanted) {
            count = count.saturating_add(1);
        }
    }
    Ok(count)
}

// The value with these slots.
fn joined(alloc: Global, words: [&str; 3]) -> Result<Val, Join> {
    let [a, b, c] = words;
    let a = slots_of(alloc, a)?;
    let b = slots_of(alloc, b)?;
    let c = slots_of(alloc, c)?;
    let runs = runs_of(alloc, &a, &b, &c)?;
    let field = nested(alloc)?;
    assemble(alloc, &field, &runs)
}

// The line of the row of the value with these slots.
fn line_of(alloc: Global, words: [&str; 3]) -> Result<Blob, Join> {
    let mut row = Row::new(alloc);
    row.push(joined(alloc, words)?)?;
    let mut line = Blob::new(alloc);
    print_row(alloc, &fields(alloc)?, &row, &mut line)?;
    Ok(line)
}

#[test]
fn rows_are_shredded(rt: HostRuntime) -> Result<(), Fail> {
    let alloc = rt.alloc();
    for case in 0..5 {
        let (line, words) = row(case);
        let row = read_row(alloc, &fields(alloc)?, line.as_bytes())?;
        assert_eq!(rt; matching(alloc, &row, words)?, 3, "of {line}");
    }
    Ok(())
}

#[test]
fn slots_are_joined(rt: HostRuntime) -> Result<(), Fail> {
    for case in 0..5 {
        let (line, words) = row(case);
        let joined = line_of(rt.alloc(), words)?;
        assert_eq!(rt;
            joined.as_slice(),
            format!(in rt.alloc(); "{line}\n")?.as_bytes()
        );
    }
    Ok(())
}

#[test]
fn other_slots_are_refused(rt: HostRuntime) {
    for case in 0..24 {
        let (words, join) = refused(case);
        assert_eq!(rt; joined(rt.alloc(), words).err(), Some(join), "case {case}");
    }
}

// The numbers of some states of a leaf.
fn numbers(codes: &Codes, leaf: &Leaf) -> [Option<u16>; 6] {
    if !codes_fit(codes, leaf) || leaf.layers.len() > 16 {
        return [None; 6];
    }
    [
        number_of(codes, State::Here),
        number_of(codes, State::Null(0)),
        number_of(codes, State::Null(1)),
        number_of(codes, State::Empty(1)),
        number_of(codes, State::Null(2)),
        number_of(codes, State::Empty(3)),
    ]
}

#[test]
fn states_have_numbers(rt: HostRuntime) -> Result<(), Fail> {
    let leaves = own_leaves(rt.alloc())?;
    let leaf = leaves.as_slice().first().ok_or("no leaf")?;
    let codes = codes_of(rt.alloc(), leaf)?;
    let wanted = [Some(0), Some(1), Some(2), Some(3), Some(4), Some(6)];
    assert_eq!(rt; numbers(&codes, leaf), wanted);
    Ok(())
}
