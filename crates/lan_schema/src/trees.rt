ghost use Rattle.std.specs.Prelude.{◌≡◌, ◌++◌, ◌^◌, ◌<◌, negsuc, OnOk, IfOk, string_bytes};
ghost use Rattle.lan_model.specs.Plain.{plain_type, plain_field, plain_fields};
ghost use Rattle.lan_schema.specs.FieldTree.{name_of, list_name, logical_of, type_number, field_messages, all_messages};

use crate::entry::Entry;
use crate::writing::write_entry;
use lan_model::{Field, FieldList, Primitive, Ty};
use lan_wire::Writer;
use std::alloc::{AllocError, Global};

fn name_of(primitive: Primitive) -> &'static str
    ensures { result.now ≡ name_of primitive }
{
    match primitive {
        Primitive::Bool => "bool",
        Primitive::Int8 => "int8",
        Primitive::Int16 => "int16",
        Primitive::Int32 => "int32",
        Primitive::Int64 => "int64",
        Primitive::Uint8 => "uint8",
        Primitive::Uint16 => "uint16",
        Primitive::Uint32 => "uint32",
        Primitive::Uint64 => "uint64",
        Primitive::Half => "halffloat",
        Primitive::Float => "float",
        Primitive::Double => "double",
        Primitive::Date => "date32:day",
    }
}

fn list_name(item: &Field) -> &'static str
    ensures { result.now ≡ list_name (plain_field item.now) }
{
    match &item.ty {
        Ty::Struct(_) => "list.struct",
        _ => "list",
    }
}

/// The logical type of the Lance format that names a type: a list of structs is `list.struct`, any
/// other is `list`.
pub fn logical_of(alloc: Global, ty: &Ty) -> Result<String, AllocError>
    ensures { IfOk result (λ s. string_bytes s ≡ logical_of (plain_type ty.now)) }
{
    match ty {
        Ty::Bits(primitive) => String::from_str(alloc, name_of(*primitive)),
        Ty::Vector(primitive, count) => {
            let name = name_of(*primitive);
            format!(in alloc; "fixed_size_list:{name}:{count}")
        }
        Ty::Text => String::from_str(alloc, "string"),
        Ty::Bytes => String::from_str(alloc, "binary"),
        Ty::List(item) => String::from_str(alloc, list_name(item.get())),
        Ty::Struct(_) => String::from_str(alloc, "struct"),
    }
}

fn type_number(ty: &Ty) -> u64
    ensures { result ≡ type_number (plain_type ty.now) }
{
    match ty {
        Ty::Struct(_) => 0,
        Ty::List(_) => 1,
        _ => 2,
    }
}

#[cycle(write)]
fn write_field(
    alloc: Global,
    field: &Field,
    parent: i32,
    number: u32,
    out: &mut Writer,
) -> Result<(), AllocError>
    requires numbered { 0 < number }
    requires fits { number < 2 ^ 29 }
    ensures { OnOk result (out.new ≡ out.old ++ field_messages number parent (plain_field field.now)) }
{
    let id = field.id.cast_signed();
    let logical = logical_of(alloc, &field.ty)?;
    let entry = Entry {
        name: field.name.as_str(),
        id,
        parent,
        logical: logical.as_str(),
        nullable: field.nullable,
    };
    let mut message = Writer::new(alloc);
    write_entry(type_number(&field.ty), &entry, &mut message)?;
    let message = message.finish();
    out.part(number, message.as_slice())?;
    match &field.ty {
        Ty::List(item) => write_field(alloc, item.get(), id, number, out),
        Ty::Struct(members) => write_siblings(alloc, members.as_slice(), id, number, out),
        _ => Ok(()),
    }
}

#[cycle(write)]
fn write_siblings(
    alloc: Global,
    fields: &[Field],
    parent: i32,
    number: u32,
    out: &mut Writer,
) -> Result<(), AllocError>
    requires numbered { 0 < number }
    requires fits { number < 2 ^ 29 }
    ensures { OnOk result (out.new ≡ out.old ++ all_messages number parent (plain_fields fields.now)) }
{
    for field in fields {
        write_field(alloc, field, parent, number, out)?;
    }
    Ok(())
}

/// Writes one Field message of the Lance format per field, depth first, each under the number in the
/// message that lists them. A top field names -1 as its parent. After a want of memory some of them may stand.
pub fn write_fields(
    alloc: Global,
    fields: &FieldList,
    number: u32,
    out: &mut Writer,
) -> Result<(), AllocError>
    requires numbered { 0 < number }
    requires fits { number < 2 ^ 29 }
    ensures { OnOk result (out.new ≡ out.old ++ all_messages number (negsuc 0) (plain_fields fields.now)) }
{
    write_siblings(alloc, fields.as_slice(), -1, number, out)
}
