use crate::messages::FIELD;
use lan_bytes::View;
use lan_model::{Field, FieldList, Primitive, Text, Ty};
use lan_schema::{
    Entry, SchemaFault, logical_of, read_entry, read_fields, write_entry, write_fields,
};
use lan_wire::Writer;
use std::alloc::{AllocError, Global};
use std::test::Fail;

fn written(alloc: Global) -> Result<Vec<u8>, AllocError> {
    let mut fields = FieldList::new(alloc);
    fields.push(Field {
        id: 0,
        name: Text::of(alloc, "x")?,
        nullable: false,
        ty: Ty::Bits(Primitive::Int64),
    })?;
    let mut out = Writer::new(alloc);
    write_fields(alloc, &fields, 1, &mut out)?;
    Ok(out.finish())
}

#[test]
fn a_field_is_written(rt: HostRuntime) -> Result<(), Fail> {
    let message = written(rt.alloc())?;
    assert_eq!(rt; message.len(), 25);
    assert_eq!(rt; &message[..2], [0x0a, 0x17].as_slice());
    assert_eq!(rt; &message[2..], FIELD.as_slice());
    Ok(())
}

#[test]
fn a_field_is_read(rt: HostRuntime) -> Result<(), Fail> {
    let entry = read_entry(View::new(4, FIELD.as_slice()))
        .ok()
        .ok_or("a fault")?;
    assert_eq!(rt; (entry.id, entry.parent, entry.nullable), (0, -1, false));
    assert_eq!(rt; (entry.name, entry.logical), ("x", "int64"));
    let logical = logical_of(rt.alloc(), &Ty::Vector(Primitive::Date, 65_536))?;
    assert_eq!(rt; logical.as_str(), "fixed_size_list:date32:day:65536");
    Ok(())
}

fn entry(id: i32, parent: i32, name: &'static str, logical: &'static str) -> Entry<'static> {
    Entry {
        name,
        id,
        parent,
        logical,
        nullable: id == 1,
    }
}

// Two fields, and the code and the number of the fault that they have; code 0 is none.
fn case(n: u8) -> ([Entry<'static>; 2], (u8, i32)) {
    let x = entry(0, -1, "x", "int32");
    match n {
        0 => ([entry(-2, -1, "y", "int32"), x], (2, -2)),
        1 => ([x, entry(0, -1, "y", "int32")], (3, 0)),
        2 => ([entry(1, 0, "y", "int32"), x], (4, 1)),
        3 => ([x, entry(1, -1, "", "int32")], (5, 1)),
        4 => ([x, entry(1, -1, "x", "string")], (6, 1)),
        5 => ([x, entry(1, -1, "y", "decimal")], (7, 1)),
        6 => ([x, entry(1, 0, "y", "int32")], (8, 0)),
        7 => ([entry(2, -1, "s", "struct"), x], (8, 2)),
        8 => (
            [entry(2, -1, "l", "list.struct"), entry(1, 2, "y", "int32")],
            (0, 0),
        ),
        _ => ([x, entry(1, -1, "X", "fixed_size_list:float:768")], (0, 0)),
    }
}

fn told(fault: &SchemaFault) -> (u8, i32) {
    match fault {
        SchemaFault::Wire(_) => (12, 0),
        SchemaFault::Empty => (1, 0),
        SchemaFault::BadId(id) => (2, *id),
        SchemaFault::SameId(id) => (3, *id),
        SchemaFault::BadParent(id) => (4, *id),
        SchemaFault::NoName(id) => (5, *id),
        SchemaFault::SameName(id) => (6, *id),
        SchemaFault::UnknownType(id, _) => (7, *id),
        SchemaFault::Children(id) => (8, *id),
        SchemaFault::TooDeep(id) => (9, *id),
        SchemaFault::TooManyLeaves => (10, 0),
        SchemaFault::Memory => (11, 0),
    }
}

fn read_as(alloc: Global, bytes: &[u8]) -> (u8, i32) {
    if bytes.len() > 1 << 20 {
        return (13, 0);
    }
    match read_fields(alloc, View::new(0, bytes), 1) {
        Ok(_) => (0, 0),
        Err(fault) => told(&fault),
    }
}

// The messages of the fields, each behind a number that is read past.
fn listed(alloc: Global, entries: &[Entry<'_>]) -> Result<Vec<u8>, AllocError> {
    let mut out = Writer::new(alloc);
    for entry in entries {
        let mut message = Writer::new(alloc);
        write_entry(7, entry, &mut message)?;
        out.num(5, 300)?;
        out.part(1, message.finish().as_slice())?;
    }
    Ok(out.finish())
}

#[test]
fn each_rule_is_kept(rt: HostRuntime) -> Result<(), Fail> {
    for n in 0..10u8 {
        let (entries, wanted) = case(n);
        let bytes = listed(rt.alloc(), &entries)?;
        assert_eq!(rt; read_as(rt.alloc(), bytes.as_slice()), wanted, "case {n}");
    }
    assert_eq!(rt; read_as(rt.alloc(), &[]), (1, 0));
    assert_eq!(rt; read_as(rt.alloc(), &[0x0a, 9]), (12, 0));
    Ok(())
}

// The same fields twice: a struct of a list of int32 and a string, and a list of structs.
fn trees(n: u8) -> [Entry<'static>; 7] {
    let top = entry(4, -1, "s", "struct");
    let list = entry(1, 4, "l", "list");
    let text = entry(3, 4, "t", "string");
    let item = entry(2, 1, "item", "int32");
    let structs = entry(9, -1, "ls", "list.struct");
    let inner = entry(8, 9, "item", "struct");
    let leaf = entry(7, 8, "x", "int32");
    match n {
        0 => [top, list, item, text, structs, inner, leaf],
        _ => [top, structs, inner, list, text, leaf, item],
    }
}

// The messages of the fields that are read of these.
fn again(alloc: Global, n: u8) -> Result<Vec<u8>, SchemaFault> {
    let bytes = listed(alloc, &trees(n))?;
    if bytes.len() > 1 << 20 {
        return Err(SchemaFault::Memory);
    }
    let fields = read_fields(alloc, View::new(0, bytes.as_slice()), 1)?;
    let mut out = Writer::new(alloc);
    write_fields(alloc, &fields, 1, &mut out)?;
    Ok(out.finish())
}

#[test]
fn order_is_no_matter(rt: HostRuntime) -> Result<(), Fail> {
    let first = again(rt.alloc(), 0).ok().ok_or("a fault")?;
    let other = again(rt.alloc(), 1).ok().ok_or("a fault")?;
    assert_eq!(rt; first.len(), 157);
    assert_eq!(rt; first.as_slice(), other.as_slice());
    Ok(())
}
