// The line of a row.
ghost use Rattle.std.specs.Prelude.{◌≡◌, ◌++◌, ◌∷◌, [], ◌≤◌, ◌<◌, ◌^◌, ◌*◌, ◌+◌, length, map, OnOk, OnErr, IfOk};
ghost use Rattle.json.specs.Token.{string, begin_object};
ghost use Rattle.hex.specs.Hex.{encode_lower};
ghost use Rattle.lan_model.specs.Plain.{plain_field, plain_type, plain_fields, plain_value, plain_values};
ghost use Rattle.lan_model.specs.PlainTable.{column_of};
ghost use Rattle.lan_rows.specs.Line.{low_first, signed_of, signed_token, bits_token, parts_tokens, bits_tokens, raw_tokens, field_tokens, items_tokens, members_tokens, line_of};

use crate::values::stored;
use json::Writer;
use lan_model::{Blob, Field, FieldList, Primitive, Row, Ty, Val};
use std::alloc::{AllocError, Global};
use std::marker::Model;
use std::{mem, str};

/// Prints rows of some fields as lines. It keeps the buffer of a line from row to row.
///
/// A contract sees the fields.
#[derive(Drop)]
pub struct RowPrinter<'a> {
    fields: &'a FieldList,
    line: Blob,
}

impl<'a> Model for RowPrinter<'a> {
    ghost use Rattle.std.specs.Prelude.{List};
    ghost use Rattle.std.specs.Coded.{coded_list};
    ghost use Rattle.lan_model.specs.contracts.tree.Field as field;
    ghost use Rattle.lan_model.specs.declared.tree.Field.{Field};

    ghost Value = { List Field };

    ghost coded = { coded_list field.the_row.coded };

    ghost view = { λ printer. printer.fields.now };
}

impl<'a> RowPrinter<'a> {
    pub fn new(alloc: Global, fields: &'a FieldList) -> RowPrinter<'a>
        ensures { result ≡ fields.now }
    {
        RowPrinter {
            fields,
            line: Blob::new(alloc),
        }
    }

    /// Appends the row's line with its newline: a compact object, the fields in order. A value that
    /// its field doesn't take is printed as `null`. After want of memory `out` is as before.
    pub fn print(&mut self, alloc: Global, row: &Row, out: &mut Blob) -> Result<(), AllocError>
        ensures ok { OnOk result (out.new ≡ out.old ++ line_of (map column_of self.old) (map plain_value row.now)) }
        ensures err { OnErr result (out.new ≡ out.old) }
        ensures fields { self.new ≡ self.old }
    {
        let buffer = mem::replace(&mut self.line, Blob::new(alloc)).into_vec();
        self.line = line_in(alloc, buffer, self.fields.as_slice(), row.as_slice())?;
        out.extend(self.line.as_slice())
    }
}

/// Appends the line of one row, as a `RowPrinter` of the fields does.
pub fn print_row(
    alloc: Global,
    fields: &FieldList,
    row: &Row,
    out: &mut Blob,
) -> Result<(), AllocError>
    ensures ok { OnOk result (out.new ≡ out.old ++ line_of (map column_of fields.now) (map plain_value row.now)) }
    ensures err { OnErr result (out.new ≡ out.old) }
{
    let mut printer = RowPrinter::new(alloc, fields);
    printer.print(alloc, row, out)
}

// The row's line, in place of what the buffer holds.
#[tactic(auto, unfolding(crate::specs::Line::line_of))]
fn line_in(
    alloc: Global,
    mut buffer: Vec<u8>,
    fields: &[Field],
    row: &[Val],
) -> Result<Blob, AllocError>
    ensures { IfOk result (λ line. line ≡ line_of (map plain_field fields.now) (map plain_value row.now)) }
{
    buffer.clear();
    let mut writer = Writer::new(buffer);
    print_object(alloc, &mut writer, fields, row)?;
    let mut line = Blob::from_vec(writer.into_inner());
    line.push(b'\n')?;
    Ok(line)
}

#[cycle(print)]
fn print_value(alloc: Global, out: &mut Writer, field: &Field, val: &Val) -> Result<(), AllocError>
    ensures before { out.new.before ≡ out.old.before }
    ensures ok { OnOk result (out.new.tokens ≡ out.old.tokens ++ field_tokens (plain_field field.now) (plain_value val.now)) }
{
    match val {
        Val::Null => out.null(),
        Val::Bits(bits) => print_primitive(out, &field.ty, *bits),
        Val::Raw(bytes) => print_raw(alloc, out, &field.ty, bytes.as_slice()),
        Val::Items(items) => match &field.ty {
            Ty::List(item) => {
                out.begin_array()?;
                print_items(alloc, out, item.get(), items.as_slice())
            }
            _ => out.null(),
        },
        Val::Group(vals) => match &field.ty {
            Ty::Struct(members) => { print_object(alloc, out, members.as_slice(), vals.as_slice()) }
            _ => out.null(),
        },
    }
}

#[cycle(print)]
fn print_items(
    alloc: Global,
    out: &mut Writer,
    field: &Field,
    vals: &[Val],
) -> Result<(), AllocError>
    ensures before { out.new.before ≡ out.old.before }
    ensures ok { OnOk result (out.new.tokens ≡ out.old.tokens ++ items_tokens (plain_field field.now) (plain_values vals.now)) }
{
    for val in vals {
        print_value(alloc, out, field, val)?;
    }
    out.end_array()
}

#[cycle(print)]
fn print_object(
    alloc: Global,
    out: &mut Writer,
    fields: &[Field],
    vals: &[Val],
) -> Result<(), AllocError>
    ensures before { out.new.before ≡ out.old.before }
    ensures ok { OnOk result (out.new.tokens ≡ out.old.tokens ++ begin_object ∷ members_tokens (plain_fields fields.now) (plain_values vals.now)) }
{
    out.begin_object()?;
    for (field, val) in fields.iter().zip(vals) {
        out.key(field.name.as_str())?;
        print_value(alloc, out, field, val)?;
    }
    out.end_object()
}

fn print_primitive(out: &mut Writer, ty: &Ty, bits: u64) -> Result<(), AllocError>
    ensures before { out.new.before ≡ out.old.before }
    ensures ok { OnOk result (out.new.tokens ≡ out.old.tokens ++ bits_tokens (plain_type ty.now) bits) }
{
    match ty {
        Ty::Bits(prim) => print_bits(out, *prim, bits),
        _ => out.null(),
    }
}

fn print_raw(alloc: Global, out: &mut Writer, ty: &Ty, bytes: &[u8]) -> Result<(), AllocError>
    ensures before { out.new.before ≡ out.old.before }
    ensures ok { OnOk result (out.new.tokens ≡ out.old.tokens ++ raw_tokens (plain_type ty.now) bytes.now) }
{
    match ty {
        Ty::Vector(prim, count) => {
            out.begin_array()?;
            print_parts(out, *prim, *count, bytes)
        }
        Ty::Text => match str::from_utf8(bytes) {
            Ok(text) => out.string(text),
            Err(_) => out.null(),
        },
        Ty::Bytes => {
            let text = hex::encode(alloc, bytes)?;
            out.string(text.as_str())
        }
        _ => out.null(),
    }
}

// The items of a vector, and the closing bracket.
fn print_parts(
    out: &mut Writer,
    prim: Primitive,
    count: u32,
    bytes: &[u8],
) -> Result<(), AllocError>
    ensures before { out.new.before ≡ out.old.before }
    ensures ok { OnOk result (out.new.tokens ≡ out.old.tokens ++ parts_tokens prim count bytes.now) }
{
    let size = stored(prim);
    let mut rest = bytes;
    for _ in 0..count {
        let (item, after) = rest.split_at(size.min(rest.len()));
        print_bits(out, prim, low_first(item))?;
        rest = after;
    }
    out.end_array()
}

// The number of at most 8 bytes, the lowest first.
fn low_first(item: &[u8]) -> u64
    requires { length item.now ≤ 8 }
    ensures { result ≡ low_first item.now }
{
    let mut bytes = [0; 8];
    bytes[..item.len()].copy_from_slice(item);
    u64::from_le_bytes(bytes)
}

fn print_bits(out: &mut Writer, prim: Primitive, bits: u64) -> Result<(), AllocError>
    ensures before { out.new.before ≡ out.old.before }
    ensures ok { OnOk result (out.new.tokens ≡ out.old.tokens ++ bits_token prim bits ∷ []) }
{
    match prim {
        Primitive::Bool => out.boolean(bits == 1),
        Primitive::Int8 => out.i64(signed_of(127, bits)),
        Primitive::Int16 => out.i64(signed_of(32767, bits)),
        Primitive::Int32 | Primitive::Date => out.i64(signed_of(2147483647, bits)),
        Primitive::Int64 => out.i64(signed_of(9223372036854775807, bits)),
        Primitive::Uint8 | Primitive::Uint16 | Primitive::Uint32 | Primitive::Uint64 => {
            out.u64(bits)
        }
        Primitive::Half => print_digits(out, &bits.to_be_bytes()[6..]),
        Primitive::Float => print_digits(out, &bits.to_be_bytes()[4..]),
        Primitive::Double => print_digits(out, &bits.to_be_bytes()),
    }
}

// The number that the bits are in two's complement.
fn signed_of(greatest: u64, bits: u64) -> i64
    requires { greatest < 2 ^ 63 }
    ensures { result ≡ signed_of greatest bits }
{
    if bits <= greatest {
        return bits as i64;
    }
    let below = (greatest + 1 + greatest).saturating_sub(bits);
    -1 - below as i64
}

// At most 8 bytes in hexadecimal.
fn print_digits(out: &mut Writer, bytes: &[u8]) -> Result<(), AllocError>
    requires { length bytes.now ≤ 8 }
    ensures before { out.new.before ≡ out.old.before }
    ensures ok { OnOk result (out.new.tokens ≡ out.old.tokens ++ string (encode_lower bytes.now) ∷ []) }
{
    let mut digits = [0; 16];
    let digits = &mut digits[..2 * bytes.len()];
    match hex::encode_to_slice(bytes, digits) {
        Ok(()) => {}
        Err(_) => unreachable!(),
    }
    match str::from_utf8(digits) {
        Ok(text) => out.string(text),
        Err(_) => unreachable!(),
    }
}
