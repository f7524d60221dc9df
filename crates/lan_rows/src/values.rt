// The value that JSON stands for in a field.
ghost use Rattle.std.specs.Prelude.{◌≡◌, ◌⊎◌, ◌≤◌, ◌*◌, ◌++◌, ℕ, List, Ok, Err, Some, None, IfOk, IfErr, IsUtf8, is_some, length, map, option_map, Bool};
ghost use Rattle.std.specs.BTreeMap.{get_by};
ghost use Rattle.std.specs.Cmp.Lexicographic.{slice_cmp};
ghost use Rattle.std.specs.Int.{to_le_bytes, byte_len};
ghost use Rattle.std.specs.Ordering.{nat_cmp};
ghost use Rattle.serde_json.specs.Data.{object};
ghost use Rattle.serde_json.specs.Find.{get};
ghost use Rattle.serde_json.specs.View.{view, items_view, members_view};
ghost use Rattle.lan_model.specs.Plain.{vector, text, bytes, list, struct, plain_field, plain_type, plain_fields, plain_value, plain_values};
ghost use Rattle.lan_model.specs.Fits.{Fits, FitsRaw, EachFits, width};
ghost use Rattle.lan_rows.specs.Bits.{stored};
ghost use Rattle.lan_rows.specs.Fitting.{FitsType};
ghost use Rattle.lan_rows.specs.Judged.{on_good, each_item};
ghost use Rattle.lan_rows.specs.Values.{joined};
ghost use Rattle.lan_rows.specs.Values.{count_items, vector_item, vector_in, text_in, bytes_in, list_in, group_in, is_name as name_among, first_stray, only_members, field_value, named_value, members_values, type_value};
ghost use Rattle.lan_rows.specs.declared.faults.RowFault.TheVariants.{Memory};

use crate::bits::read_bits;
use crate::faults::RowFault;
use hex::FromHexError;
use lan_model::{Blob, Field, List, Primitive, Text, Ty, Val};
use serde_json::{Map, Value};
use std::alloc::{AllocError, Global};
use std::collections::BTreeMap;

/// How many bytes of a text or of binary data a line may hold in one value.
const MAX_VALUE: usize = 1 << 24;
/// With at most so many fields or keys, each key is sought among the fields one after another.
const FEW: usize = 128;

/// The value, or its first fault; faults name the column `top`.
#[cycle(values)]
pub fn read_value(alloc: Global, top: &str, field: &Field, value: &Value) -> Result<Val, RowFault>
    ensures ok { IfOk result (λ v. field_value top.now (plain_field field.now) (view value.now) ≡ Ok (plain_value v)) }
    ensures fit { IfOk result (λ v. Fits (plain_field field.now) (plain_value v)) }
    ensures err { IfErr result (λ e. (e ≡ RowFault.Memory) ⊎ (field_value top.now (plain_field field.now) (view value.now) ≡ Err e)) }
{
    if value.is_null() {
        if field.nullable {
            return Ok(Val::Null);
        }
        return Err(RowFault::NotNull(Text::of(alloc, top)?));
    }
    match &field.ty {
        Ty::Bits(prim) => Ok(Val::Bits(read_bits(alloc, top, *prim, value)?)),
        Ty::Vector(prim, count) => read_vector(alloc, top, *prim, *count, value),
        Ty::Text => read_text(alloc, top, value),
        Ty::Bytes => read_bytes(alloc, top, value),
        Ty::List(item) => read_items(alloc, top, item.get(), value),
        Ty::Struct(members) => read_group(alloc, top, members.as_slice(), value),
    }
}

#[cycle(values)]
fn read_items(alloc: Global, top: &str, field: &Field, value: &Value) -> Result<Val, RowFault>
    ensures ok { IfOk result (λ v. list_in top.now (field_value top.now (plain_field field.now)) (view value.now) ≡ Ok (plain_value v)) }
    ensures fit { IfOk result (λ v. FitsType (list (plain_field field.now)) (plain_value v)) }
    ensures err { IfErr result (λ e. (e ≡ RowFault.Memory) ⊎ (list_in top.now (field_value top.now (plain_field field.now)) (view value.now) ≡ Err e)) }
{
    let Some(items) = value.as_array() else {
        return Err(RowFault::Kind(Text::of(alloc, top)?));
    };
    let mut vals = List::with_capacity(alloc, items.len())?;
    for item in items {
        vals.push(read_value(alloc, top, field, item)?)?;
    }
    Ok(Val::Items(vals))
}

#[cycle(values)]
fn read_group(alloc: Global, top: &str, fields: &[Field], value: &Value) -> Result<Val, RowFault>
    ensures ok { IfOk result (λ v. group_in top.now (plain_fields fields.now) (members_values top.now (plain_fields fields.now)) (view value.now) ≡ Ok (plain_value v)) }
    ensures fit { IfOk result (λ v. FitsType (struct (plain_fields fields.now)) (plain_value v)) }
    ensures err { IfErr result (λ e. (e ≡ RowFault.Memory) ⊎ (group_in top.now (plain_fields fields.now) (members_values top.now (plain_fields fields.now)) (view value.now) ≡ Err e)) }
{
    let Some(members) = value.as_object() else {
        return Err(RowFault::Kind(Text::of(alloc, top)?));
    };
    let mut vals = List::with_capacity(alloc, fields.len())?;
    for field in fields {
        vals.push(read_member(alloc, top, field, value, members)?)?;
    }
    match stray_key(alloc, fields, members)? {
        Some(key) => Err(RowFault::StrayKey(Text::of(alloc, key)?)),
        None => Ok(Val::Group(vals)),
    }
}

/// The value of a field of an object.
#[cycle(values)]
pub fn read_member(
    alloc: Global,
    top: &str,
    field: &Field,
    value: &Value,
    members: &Map<String, Value>,
) -> Result<Val, RowFault>
    requires { view value.now ≡ object (members_view members.now.entries) }
    ensures ok { IfOk result (λ v. named_value top.now (plain_field field.now) (members_view members.now.entries) ≡ Ok (plain_value v)) }
    ensures fit { IfOk result (λ v. Fits (plain_field field.now) (plain_value v)) }
    ensures err { IfErr result (λ e. (e ≡ RowFault.Memory) ⊎ (named_value top.now (plain_field field.now) (members_view members.now.entries) ≡ Err e)) }
{
    match value.get(field.name.as_str()) {
        Some(member) => read_value(alloc, top, field, member),
        None if field.nullable => Ok(Val::Null),
        None => Err(RowFault::NoKey(Text::of(alloc, field.name.as_str())?)),
    }
}

/// The first key, in the order of their bytes, that no field has.
pub fn stray_key<'m>(
    alloc: Global,
    fields: &[Field],
    members: &'m Map<String, Value>,
) -> Result<Option<&'m str>, AllocError>
    ensures { IfOk result (λ stray. option_map (λ key. key.now) stray ≡ first_stray (plain_fields fields.now) (members_view members.now.entries)) }
{
    if fields.len().min(members.len()) <= FEW {
        return Ok(stray_of_few(fields, members));
    }
    let names = names_of(alloc, fields)?;
    for (key, _value) in members.iter() {
        if !names.contains_key(key.as_str()) {
            return Ok(Some(key.as_str()));
        }
    }
    Ok(None)
}

fn names_of(alloc: Global, fields: &[Field]) -> Result<BTreeMap<&str, ()>, AllocError>
    ensures { IfOk result (λ names. (key : List ℕ) → is_some (get_by (λ name. slice_cmp nat_cmp key name.now) names) ≡ name_among key (plain_fields fields.now)) }
{
    let mut names = BTreeMap::new(alloc);
    for field in fields {
        names.insert(field.name.as_str(), ())?;
    }
    Ok(names)
}

fn stray_of_few<'m>(fields: &[Field], members: &'m Map<String, Value>) -> Option<&'m str>
    ensures { option_map (λ key. key.now) result ≡ first_stray (plain_fields fields.now) (members_view members.now.entries) }
{
    for (key, _value) in members.iter() {
        if !is_name(key.as_str(), fields) {
            return Some(key.as_str());
        }
    }
    None
}

fn is_name(key: &str, fields: &[Field]) -> bool
    ensures { result ≡ name_among key.now (plain_fields fields.now) }
{
    for field in fields {
        if key == field.name.as_str() {
            return true;
        }
    }
    false
}

fn read_text(alloc: Global, top: &str, value: &Value) -> Result<Val, RowFault>
    ensures ok { IfOk result (λ v. text_in top.now (view value.now) ≡ Ok (plain_value v)) }
    ensures fit { IfOk result (λ v. FitsType text (plain_value v)) }
    ensures err { IfErr result (λ e. (e ≡ RowFault.Memory) ⊎ (text_in top.now (view value.now) ≡ Err e)) }
{
    let Some(text) = value.as_str() else {
        return Err(RowFault::Kind(Text::of(alloc, top)?));
    };
    if text.len() > MAX_VALUE {
        return Err(RowFault::TooLong(Text::of(alloc, top)?));
    }
    Ok(Val::Raw(Blob::from_slice(alloc, text.as_bytes())?))
}

fn read_bytes(alloc: Global, top: &str, value: &Value) -> Result<Val, RowFault>
    ensures ok { IfOk result (λ v. bytes_in top.now (view value.now) ≡ Ok (plain_value v)) }
    ensures fit { IfOk result (λ v. FitsType bytes (plain_value v)) }
    ensures err { IfErr result (λ e. (e ≡ RowFault.Memory) ⊎ (bytes_in top.now (view value.now) ≡ Err e)) }
{
    let Some(text) = value.as_str() else {
        return Err(RowFault::Kind(Text::of(alloc, top)?));
    };
    match hex::decode(alloc, text) {
        Ok(bytes) if bytes.len() > MAX_VALUE => Err(RowFault::TooLong(Text::of(alloc, top)?)),
        Ok(bytes) => Ok(Val::Raw(Blob::from_vec(bytes))),
        Err(FromHexError::OutOfMemory) => Err(RowFault::Memory),
        Err(_) => Err(RowFault::Hex(Text::of(alloc, top)?)),
    }
}

fn read_vector(
    alloc: Global,
    top: &str,
    prim: Primitive,
    count: u32,
    value: &Value,
) -> Result<Val, RowFault>
    ensures ok { IfOk result (λ v. vector_in top.now prim count (view value.now) ≡ Ok (plain_value v)) }
    ensures fit { IfOk result (λ v. FitsType (vector prim count) (plain_value v)) }
    ensures err { IfErr result (λ e. (e ≡ RowFault.Memory) ⊎ (vector_in top.now prim count (view value.now) ≡ Err e)) }
{
    let Some(items) = value.as_array() else {
        return Err(RowFault::Kind(Text::of(alloc, top)?));
    };
    let items = items.as_slice();
    if items.len() as u64 != u64::from(count) {
        return Err(RowFault::Count(Text::of(alloc, top)?));
    }
    match read_parts(alloc, top, prim, items) {
        Ok(bytes) => Ok(Val::Raw(bytes)),
        Err(fault) => Err(fault),
    }
}

// The bytes of a vector's items.
fn read_parts(alloc: Global, top: &str, prim: Primitive, items: &[Value]) -> Result<Blob, RowFault>
    ensures ok { IfOk result (λ s. on_good joined (each_item (vector_item top.now prim) (items_view items.now)) ≡ Ok s) }
    ensures fit { IfOk result (λ s. 8 * length s ≡ width prim * length items.now) }
    ensures err { IfErr result (λ e. (e ≡ RowFault.Memory) ⊎ (each_item (vector_item top.now prim) (items_view items.now) ≡ Err e)) }
{
    let mut bytes = Blob::with_capacity(alloc, items.len() * stored(prim))?;
    for item in items {
        let bits = read_item(alloc, top, prim, item)?;
        bytes.extend(&bits.to_le_bytes()[..stored(prim)])?;
    }
    Ok(bytes)
}

// The bits of a vector's item.
fn read_item(alloc: Global, top: &str, prim: Primitive, value: &Value) -> Result<u64, RowFault>
    ensures ok { IfOk result (λ b. vector_item top.now prim (view value.now) ≡ Ok (to_le_bytes (stored prim) b)) }
    ensures whole { IfOk result (λ _. 8 * byte_len (stored prim) ≡ width prim) }
    ensures err { IfErr result (λ e. (e ≡ RowFault.Memory) ⊎ (vector_item top.now prim (view value.now) ≡ Err e)) }
{
    if value.is_null() {
        return Err(RowFault::NotNull(Text::of(alloc, top)?));
    }
    match prim {
        Primitive::Bool => Err(RowFault::Kind(Text::of(alloc, top)?)),
        _ => read_bits(alloc, top, prim, value),
    }
}

/// How many bytes an item of a vector has.
pub fn stored(prim: Primitive) -> usize
    ensures value { result ≡ byte_len (stored prim) }
    ensures few { result ≤ 8 }
{
    match prim {
        Primitive::Bool | Primitive::Int8 | Primitive::Uint8 => 1,
        Primitive::Int16 | Primitive::Uint16 | Primitive::Half => 2,
        Primitive::Int32 | Primitive::Uint32 | Primitive::Float | Primitive::Date => 4,
        Primitive::Int64 | Primitive::Uint64 | Primitive::Double => 8,
    }
}
